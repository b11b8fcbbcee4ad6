//! The tune of one node, and what changes it.

ghost use Rattle.std.specs.Prelude.{◌≡◌, ◌≤◌, ◌<◌, true, IfSome};
ghost use Rattle.lwb_base.specs.declared.limits.TheConstants.{LAST_FRAME, MOST_RANKS};
ghost use Rattle.bus_rules.specs.declared.tune.Tune.TheVariants.{Hold};
ghost use Rattle.bus_rules.specs.Tuning.{booted, tune_after_frame, hosts, with_due};

use bus_rules::{Tune, next_tune};
use lwb_base::Rank;
use std::marker::Model;

/// The tune of one node. It begins as a boot leaves it, and changes where the node accepts a schedule or plans as a
/// host, and at the end of each frame.
#[derive(Drop)]
pub struct Tuner {
    tune: Tune,
    joined: bool,
    own: Option<Rank>,
    hosts: u8,
}

impl Model for Tuner {
    ghost use Rattle.bus_rules.specs.Tuning.{TuneState, IsTuning};

    ghost Value = { TuneState };

    ghost view = { λ t. record { tune = t.tune; joined = t.joined; own = t.own; ranks = t.hosts } };

    ghost invariant = { λ t. IsTuning (record { tune = t.tune; joined = t.joined; own = t.own; ranks = t.hosts }) };
}

impl Tuner {
    /// The tune of a booted node, which scans rank 0. `own` is the rank that the node hosts, if it does, and `hosts` the
    /// number of ranks, 1 to 4.
    pub fn new(own: Option<Rank>, hosts: u8) -> Tuner
        requires hosts { (1 ≤ hosts) × (hosts ≤ MOST_RANKS) }
        requires own { IfSome own (λ r. r < hosts) }
        ensures { result ≡ booted own hosts }
    {
        let zero = Rank::new(0).unwrap();
        Tuner {
            tune: Tune::Scan(zero, 0),
            joined: false,
            own,
            hosts,
        }
    }

    /// What the node listens to or hosts now.
    pub fn tune(&self) -> Tune
        ensures { result ≡ self.now.tune }
    {
        self.tune
    }

    /// The node accepted the opening schedule of this frame.
    pub fn joined(&mut self)
        ensures { self.new ≡ record self.old { joined = true } }
    {
        self.joined = true;
    }

    /// The node accepted a closing of this rank, which names the frame of the next round.
    pub fn held(&mut self, rank: Rank, due: u32)
        ensures { self.new ≡ record self.old { tune = Hold rank due } }
    {
        self.tune = Tune::Hold(rank, due);
    }

    /// The frame ends, which is at most `LAST_FRAME`. The tune for the next one.
    pub fn frame_ended(&mut self, frame: u32) -> Tune
        requires { frame ≤ LAST_FRAME }
        ensures tune { result ≡ self.new.tune }
        ensures after { self.new ≡ tune_after_frame frame self.old }
    {
        self.tune = next_tune(self.tune, frame, self.joined, self.own, self.hosts);
        self.joined = false;
        self.tune
    }

    /// The node hosts, and planned a round for this frame.
    pub fn planned(&mut self, due: u32)
        requires { hosts self.old.tune ≡ true }
        ensures { self.new ≡ record self.old { tune = with_due due self.old.tune } }
    {
        self.tune = with_due(self.tune, due);
    }

    /// The node boots again.
    pub fn restart(&mut self)
        ensures { self.new ≡ booted self.old.own self.old.ranks }
    {
        self.tune = Tune::Scan(Rank::new(0).unwrap(), 0);
        self.joined = false;
    }
}

// A host's tune with its next round in this frame.
fn with_due(tune: Tune, due: u32) -> Tune
    ensures { result ≡ with_due due tune }
{
    match tune {
        Tune::Host(rank, _) => Tune::Host(rank, due),
        Tune::Hold(rank, due) => Tune::Hold(rank, due),
        Tune::Scan(rank, waited) => Tune::Scan(rank, waited),
    }
}
