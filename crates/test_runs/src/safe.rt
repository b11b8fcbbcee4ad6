//! Which transmissions are safe, tried plainly on each pair of them.

use air_log::{Air, Entry, HeardEntry, SentEntry, Trail};
use bus_rules::Tune;
use lwb_base::Profile;
use lwb_packets::{decode_payload, decode_request, same_body};
use scenario_text::{Act, Scenario};
use schedule_codec::{Schedule, read};

/// What a log has to keep.
#[derive(Clone, Copy)]
pub enum Clause {
    /// A transmission ends before the next frame starts.
    WithinOneFrame,
    /// Two that meet on a channel are of one frame, slot and counter.
    NoOverlap,
    /// Two of one channel, frame and slot have equal bytes but for the counter, unless both are requests; with one
    /// counter they start together.
    SameButForCounter,
    /// One transmission begins the flood of a slot, unless it is a request.
    OneInitiator,
    /// A schedule is begun by the host of its channel.
    HostSchedules,
    /// Who begins another flood has received a schedule that allows it and stayed on, or hosts by its trail and does not ask.
    Silence,
}

impl Clause {
    /// Whether each transmission, and each pair of them, keeps it. What was received is read off the log. The trails are those of
    /// all nodes, by ascending ids.
    pub fn holds(self, s: &Scenario, sent: &[SentEntry], air: &Air, trails: &[Trail]) -> bool {
        let p = s.profile();
        for (i, x) in sent.iter().enumerate() {
            let earlier = &sent[..i];
            if !self.holds_of_one(s, air, trails, x)
                || !earlier.iter().all(|y| self.holds_of_two(&p, x, y))
            {
                return false;
            }
        }
        true
    }

    fn holds_of_one(self, s: &Scenario, air: &Air, trails: &[Trail], x: &SentEntry) -> bool {
        match self {
            Clause::WithinOneFrame => ends_in_its_frame(&s.profile(), x),
            Clause::HostSchedules => host_schedules(s, x),
            Clause::Silence => may_begin(s, x, air, trails),
            Clause::NoOverlap | Clause::SameButForCounter | Clause::OneInitiator => true,
        }
    }

    fn holds_of_two(self, p: &Profile, x: &SentEntry, y: &SentEntry) -> bool {
        match self {
            Clause::NoOverlap => lie_apart(p, x, y),
            Clause::SameButForCounter => are_alike(p, x, y),
            Clause::OneInitiator => begin_apart(p, x, y),
            Clause::WithinOneFrame | Clause::HostSchedules | Clause::Silence => true,
        }
    }
}

/// The frame in which a tick lies.
pub fn frame_at(p: &Profile, tick: u64) -> u64 {
    tick / p.frame()
}

fn ends_in_its_frame(p: &Profile, x: &SentEntry) -> bool {
    frame_at(p, x.end) == frame_at(p, x.start)
}

fn are_of_one_slot(p: &Profile, x: &SentEntry, y: &SentEntry) -> bool {
    // Most pairs lie far apart, which spares them two divisions.
    x.rank == y.rank
        && x.start.abs_diff(y.start) < p.frame()
        && x.packet.slot() == y.packet.slot()
        && frame_at(p, x.start) == frame_at(p, y.start)
}

fn lie_apart(p: &Profile, x: &SentEntry, y: &SentEntry) -> bool {
    x.rank != y.rank
        || x.end <= y.start
        || y.end <= x.start
        || (are_of_one_slot(p, x, y) && x.packet.counter() == y.packet.counter())
}

fn is_request(x: &SentEntry) -> bool {
    decode_request(&x.packet).is_some()
}

fn are_alike(p: &Profile, x: &SentEntry, y: &SentEntry) -> bool {
    if !are_of_one_slot(p, x, y) || (is_request(x) && is_request(y)) {
        return true;
    }
    let together = x.start.abs_diff(y.start) <= p.delta();
    same_body(&x.packet, &y.packet) && (together || x.packet.counter() != y.packet.counter())
}

fn begins(x: &SentEntry) -> bool {
    x.packet.counter() == 0 && !is_request(x)
}

fn begin_apart(p: &Profile, x: &SentEntry, y: &SentEntry) -> bool {
    !are_of_one_slot(p, x, y) || !begins(x) || !begins(y)
}

fn is_hosts(s: &Scenario, x: &SentEntry) -> bool {
    s.hosts().get(x.rank.number() as usize) == Some(&x.node)
}

fn host_schedules(s: &Scenario, x: &SentEntry) -> bool {
    x.packet.counter() != 0 || read(&x.packet).is_none() || is_hosts(s, x)
}

fn may_begin(s: &Scenario, x: &SentEntry, air: &Air, trails: &[Trail]) -> bool {
    x.packet.counter() != 0
        || read(&x.packet).is_some()
        || (!is_request(x) && hosts(s, x, trails))
        || has_word(s, air, x)
}

// Whether the sender received anywhere that it may.
fn has_word(s: &Scenario, air: &Air, x: &SentEntry) -> bool {
    for i in 0..air.len() {
        if let Some(Entry::Heard(h)) = air.at(i)
            && gives_word(s, h, x)
        {
            return true;
        }
    }
    false
}

// Whether the sender hosts by its trail, in the frame in which it sends.
fn hosts(s: &Scenario, x: &SentEntry, trails: &[Trail]) -> bool {
    let Ok(frame) = u32::try_from(frame_at(&s.profile(), x.start)) else {
        return false;
    };
    let mut lines = s.nodes().iter().zip(trails);
    lines.any(|(line, trail)| {
        line.node == x.node && matches!(trail.tune_at(frame), Some(Tune::Host(_, _)))
    })
}

// Whether the sender received here that it may.
fn gives_word(s: &Scenario, h: &HeardEntry, x: &SentEntry) -> bool {
    let p = s.profile();
    if h.node != x.node || h.rank != x.rank {
        return false;
    }
    let Some(schedule) = read(&h.packet) else {
        return false;
    };
    let (told, now) = (frame_at(&p, h.start), frame_at(&p, x.start));
    schedule.host == x.rank
        && told <= now
        && now - told == u64::from(schedule.gap)
        && stays_on(s, x, told, now)
        && allows(&schedule, x)
}

fn stays_on(s: &Scenario, x: &SentEntry, told: u64, now: u64) -> bool {
    !s.script().iter().any(|line| {
        let frame = u64::from(line.frame);
        line.node == x.node && told < frame && frame <= now && matches!(&line.act, Act::Off)
    })
}

fn allows(schedule: &Schedule, x: &SentEntry) -> bool {
    let Some(data) = decode_payload(&x.packet) else {
        return !is_request(x)
            || (schedule.gap == 0 && is_for_contention(schedule, x.packet.slot()));
    };
    let slot = x.packet.slot() as usize;
    if slot == 0 {
        return false;
    }
    match schedule.owners.at(slot - 1) {
        Some(owner) => owner.node() == data.node && owner.stream() == data.stream,
        None => false,
    }
}

// Whether the slot is behind the data slots of a round, and before the closing.
fn is_for_contention(schedule: &Schedule, slot: u8) -> bool {
    let owners = schedule.owners.count();
    slot > owners && slot - owners <= schedule.contend.max(1)
}
