//! What a node's radio is tuned to, and when two of its tunings are one.

ghost use Rattle.std.specs.Prelude.{◌≡◌};
ghost use Rattle.radio_model.specs.OnAir.{goes_on_with};
ghost use Rattle.radio_model.specs.Stations.{untuned, is_tuned_to, tuning_in, tuning_out, tuning_after, over_at, over_after};

use lwb_base::Rank;

/// Tuned to the channel of a rank since a tick.
#[derive(Clone, Copy)]
pub struct Tuned {
    pub rank: Rank,
    pub since: u64,
}

/// Was tuned to the channel of a rank, from one tick until another.
#[derive(Clone, Copy)]
pub struct Past {
    pub rank: Rank,
    pub since: u64,
    pub until: u64,
}

/// What a node's radio is tuned to, and its tuning that ended last. Times are true ticks of 1/64 µs.
#[derive(Clone, Copy)]
pub struct RadioTuning {
    pub now: Option<Tuned>,
    pub last: Option<Past>,
}

impl RadioTuning {
    /// Tuned to nothing, now and before.
    pub fn none() -> RadioTuning
        ensures { result ≡ untuned }
    {
        RadioTuning {
            now: None,
            last: None,
        }
    }

    /// It is tuned to that channel from t on, or to nothing. The tuning before the one that ends by this goes on no more, and is
    /// given back: it is the last one that had ended. Returns `None` if none had, or none ends by this.
    pub fn tune(&mut self, rank: Option<Rank>, t: u64) -> Option<Past>
        ensures after { self.new ≡ tuning_after rank t self.old }
        ensures over { result ≡ over_after rank t self.old }
    {
        let Some(rank) = rank else {
            return self.tune_out(t);
        };
        if is_tuned_to(self.now, rank) {
            return None;
        }
        let over = self.tune_out(t);
        self.tune_in(rank, t);
        over
    }

    // An empty tuning leaves nothing.
    fn tune_out(&mut self, t: u64) -> Option<Past>
        ensures after { self.new ≡ tuning_out t self.old }
        ensures over { result ≡ over_at self.old.now self.old.last t }
    {
        let tuned = self.now?;
        self.now = None;
        if tuned.since >= t {
            return None;
        }
        let over = self.last;
        self.last = Some(Past {
            rank: tuned.rank,
            since: tuned.since,
            until: t,
        });
        over
    }

    // From off. It is one with the last tuning if it goes on with that.
    fn tune_in(&mut self, rank: Rank, t: u64)
        ensures { self.new ≡ tuning_in rank t self.old }
    {
        let mut since = t;
        if let Some(last) = self.last {
            if goes_on(last.rank, last.until, rank, t) {
                since = last.since;
                self.last = None;
            }
        }
        self.now = Some(Tuned { rank, since });
    }
}

fn is_tuned_to(now: Option<Tuned>, rank: Rank) -> bool
    ensures { result ≡ is_tuned_to now rank }
{
    match now {
        Some(tuned) => tuned.rank == rank,
        None => false,
    }
}

// Whether a tuning that begins at t goes on with the last one of its node: that was of the same rank's channel, `last`, and ended
// at that very tick. Then both are one, which began when the first did.
fn goes_on(last: Rank, until: u64, rank: Rank, t: u64) -> bool
    ensures { result ≡ goes_on_with last until rank t }
{
    last == rank && until == t
}
