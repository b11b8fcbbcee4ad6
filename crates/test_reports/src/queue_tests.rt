//! A run over a queue of orders that is not the world's own.

ghost use Rattle.std.specs.Prelude.{◌≡◌, IfOk, length, replicate};
ghost use Rattle.event_calendar.specs.Orders.{nothing_due};

use air_log::{Air, Entry};
use event_calendar::{Calendar, Class, Orders};
use lwb_base::Memory;
use lwb_world::stated_world;
use scenario_text::Scenario;
use std::alloc::{AllocError, Global};
use std::test::Fail;
use test_texts::{ONE_PACKET, scenario};

/// A calendar that notes the ticks at which transmissions are to end.
#[derive(Drop)]
struct Noting {
    calendar: Calendar,
    ends: Vec<u64>,
    noted_all: bool,
}

impl Orders for Noting {
    ghost map = { λ q. q.calendar };

    fn set(&mut self, place: u8, class: Class, tick: u64) {
        if class == Class::SendingEnd && self.ends.push(tick).is_err() {
            self.noted_all = false;
        }
        self.calendar.set(place, class, tick);
    }

    fn clear(&mut self, place: u8, class: Class) {
        self.calendar.clear(place, class);
    }

    fn next(&self) -> Option<(u64, Class, u8)> {
        self.calendar.next()
    }
}

// One in which nothing is, with a place for each node.
fn empty_queue(alloc: Global, s: &Scenario) -> Result<Noting, Memory>
    ensures { IfOk result (λ q. q.calendar ≡ replicate (length s.now.nodes) nothing_due) }
{
    Ok(Noting {
        calendar: Calendar::new(alloc, s.nodes().len() as u8)?,
        ends: Vec::new(alloc),
        noted_all: true,
    })
}

fn ends_of_sendings(alloc: Global, air: &Air) -> Result<Vec<u64>, AllocError> {
    let mut ends = Vec::new(alloc);
    for i in 0..air.len() {
        if let Some(Entry::Sent(sent)) = air.at(i) {
            ends.push(sent.end)?;
        }
    }
    Ok(ends)
}

// The log of the run of a scenario over such a queue, and the queue. It is a function of its own, since a world takes long to prove
// at each place where a test may end.
fn noted_run(alloc: Global, s: &Scenario) -> Result<(Air, Noting), Memory> {
    let mut queue = empty_queue(alloc, s)?;
    let mut world = stated_world(alloc, s)?;
    world.run_with(alloc, &mut queue)?;
    Ok((world.into_air(), queue))
}

// Whether both are the same ticks, in any order, and there are some.
fn are_same(noted: &mut Vec<u64>, ends: &mut Vec<u64>) -> Result<bool, AllocError> {
    noted.sort()?;
    ends.sort()?;
    Ok(ends.len() > 0 && noted.as_slice() == ends.as_slice())
}

// Whether such a queue notes the ends of all transmissions.
fn notes_all(alloc: Global, s: &Scenario) -> Result<bool, Fail> {
    let (air, queue) = noted_run(alloc, s)?;
    let is_whole = queue.noted_all;
    let mut noted = queue.ends;
    let mut ends = ends_of_sendings(alloc, &air)?;
    Ok(is_whole && are_same(&mut noted, &mut ends)?)
}

#[test]
fn calendar_and_noting_queue(rt: HostRuntime) -> Result<(), Fail> {
    let alloc = rt.alloc();
    let s = scenario(alloc, ONE_PACKET)?;
    assert!(rt; notes_all(alloc, &s)?);
    Ok(())
}
