//! How long nodes contend that have a request due in each contention slot of their own.

ghost use Rattle.std.specs.Prelude.{◌≡◌, ◌≤◌, ◌-◌};
ghost use Rattle.law_times.specs.Contentions.{PartOnTheBus};
ghost use Rattle.law_times.specs.SixNodes.{SixAreNeverAnswered};
ghost use Rattle.law_times.specs.ContentionTurns.{PartWithin, SixNeverPart, SixOfThreeNeverPart, ids_apart, parting_bound};

/// Two nodes part if their ids differ modulo this number, by the number of contention slots in each round, 1 to 4.
pub fn ids_apart(slots: u8) -> u8
    ensures { result ≡ ids_apart slots }
{
    if slots == 3 { 48 } else { 16 }
}

/// The rounds within which one of two nodes requests alone in a contention slot, with this number of them in each round, 1 to 4: if their
/// ids differ modulo `ids_apart`, whatever their tries and backoff are at first, and if each has a request due in each contention slot of
/// its own (`enough`). In one round fewer some two do not part (`least`). So two members that ask in the contention slots of their host's
/// rounds, and they alone, are answered within these rounds, if nothing is lost: by then the host's plan names one of them, or the host
/// has received one of them alone (`bus`).
pub fn parting_rounds(slots: u8) -> u32
    requires { (1 ≤ slots) × (slots ≤ 4) }
    ensures value { result ≡ parting_bound slots }
    ensures enough { PartWithin slots result }
    ensures least { PartWithin slots (result - 1) → ⊥ }
    ensures bus { PartOnTheBus slots result }
{
    most_rounds(slots)
}

/// The same number, by the number of contention slots.
fn most_rounds(slots: u8) -> u32
    ensures { result ≡ parting_bound slots }
{
    match slots {
        2 => 28,
        4 => 24,
        _ => 30,
    }
}

/// Ids that differ modulo 16 do not part more than two nodes: of nodes 16, 17, 18, 19, 21 and 27 that begin to ask in rounds 0, 0,
/// 0, 1, 5 and 7 there is no round in which one alone requests.
/// Nor do ids that differ modulo 48 where three contention slots are named: once they have tried four times and are in step, nodes 48, 33,
/// 18, 3, 21 and 27 have one slot, and there is no round in which one alone requests (`three`).
/// On the bus the first six are never answered: where all are neighbours of all and of their host, and nothing is lost, with a packet each,
/// put in frames 2, 2, 2, 6, 22 and 30, no plan of the host ever acknowledges a request, and no packet is ever delivered (`bus`).
pub fn six_never_part()
    ensures one { SixNeverPart }
    ensures three { SixOfThreeNeverPart }
    ensures bus { SixAreNeverAnswered }
{}
