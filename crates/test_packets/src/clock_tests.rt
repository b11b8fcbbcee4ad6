//! Tests of clocks.

ghost use Rattle.std.specs.Prelude.{◌^◌, ◌<◌, IfOk, All};

use lwb_base::LocalClock;
use std::alloc::{AllocError, Global};
use std::test::Fail;
use tick_clock::{At, ClockFault, DriftClock, JumpClock, SegmentClock, turn_bounds};

// Whether the slowest clock comes to its readings so.
fn is_slowest(alloc: Global) -> Result<bool, ClockFault> {
    let slowest = SegmentClock::new(alloc, 0, &[(0, -20)])?;
    Ok(slowest.reading(12_288) == 12_287 && slowest.due(12_288) == 12_289)
}

// Whether the fastest clock does, at one tick and from one on.
fn is_fastest(alloc: Global) -> Result<bool, ClockFault> {
    let fastest = SegmentClock::new(alloc, 0, &[(0, 20)])?;
    Ok(
        fastest.reading(12_288) == 12_288
            && fastest.due(12_288) == 12_288
            && fastest.reading(40_000) == 40_000
            && fastest.reading(52_287) == 52_288
            && turn_bounds(&fastest, 40_000) == 52_287
            && At::new(&fastest, 52_287).now() == 52_288,
    )
}

#[test]
fn slowest_and_fastest_clock(rt: HostRuntime) {
    assert!(rt; is_slowest(rt.alloc()) == Ok(true));
    assert!(rt; is_fastest(rt.alloc()) == Ok(true));
}

// Why a clock with these rates is refused.
fn refusal(alloc: Global, rates: &[(u64, i8)]) -> Option<ClockFault>
    requires { All (λ r. r.0 < 2 ^ 47) rates.now }
{
    SegmentClock::new(alloc, 0, rates).err()
}

#[test]
fn first_refusal(rt: HostRuntime) {
    let alloc = rt.alloc();
    assert!(rt; refusal(alloc, &[(0, 21)]) == Some(ClockFault::Rate(0)));
    assert!(rt; refusal(alloc, &[(5, 1), (5, 2)]) == Some(ClockFault::Order(1)));
    assert!(rt; refusal(alloc, &[(5, 1), (5, 2), (6, -21)]) == Some(ClockFault::Rate(2)));
}

#[test]
fn jump_clocks(rt: HostRuntime) {
    let fast = JumpClock::new(0, true);
    assert!(rt; fast.reading(0) == 0 && fast.reading(1) == 2);
    let slow = JumpClock::new(0, false);
    assert!(rt; slow.reading(0) == 0 && slow.reading(1) == 0);
}

// 20,000 entries with all rates from -20 to 20, the last at tick 139,993,000,000,123.
fn many_rates(alloc: Global) -> Result<Vec<(u64, i8)>, AllocError>
    ensures { IfOk result (λ v. All (λ r. r.0 < 2 ^ 47) v.items) }
{
    let mut rates = Vec::new(alloc);
    for i in 0..20_000u32 {
        let start = u64::from(i) * 7_000_000_000 + 123;
        rates.push((start, (i * 7 % 41) as i8 - 20))?;
    }
    Ok(rates)
}

const LAST_TICK: u64 = 1 << 48;

const LAST_READING: u64 = 1 << 47;

// Whether a clock of so many rates comes to the ends of its ranges so.
fn is_of_many_rates(alloc: Global) -> Result<bool, Fail> {
    let rates = many_rates(alloc)?;
    let clock = SegmentClock::new(alloc, 256_000, &rates)?;
    Ok(
        clock.reading(LAST_TICK) == 281_474_835_218_679
            && clock.due(LAST_READING) == 140_737_489_109_818,
    )
}

#[test]
fn ends_of_the_ranges(rt: HostRuntime) -> Result<(), Fail> {
    assert!(rt; is_of_many_rates(rt.alloc())?);
    let fast = JumpClock::new(256_000, true);
    assert!(rt; fast.reading(LAST_TICK) == 281_480_606_466_191);
    assert!(rt; fast.due(LAST_READING) == 140_734_673_405_859);
    let slow = JumpClock::new(256_000, false);
    assert!(rt; slow.reading(LAST_TICK) == 281_469_347_467_121);
    assert!(rt; slow.due(LAST_READING) == 140_740_302_905_387);
    Ok(())
}
