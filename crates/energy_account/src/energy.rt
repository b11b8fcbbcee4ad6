//! The energy of one node, from its trail.

ghost use Rattle.std.specs.Prelude.{◌≡◌, reverse, sum_by};
ghost use Rattle.energy_account.specs.Apart.{AreApart};
ghost use Rattle.air_log.specs.Energies.{sending_time};
ghost use Rattle.energy_account.specs.ToldEnergies.{SendingsApart, TuningsApart, told_energy, tuned_span};

use air_log::{Energy, SentEntry, Trail, TunedEntry};

/// The energy of a trail. Its transmissions do not overlap, nor do its tunings.
pub fn energy_told(trail: &Trail) -> Energy
    requires sent { SendingsApart trail.now.sent }
    requires tuned { TuningsApart (reverse trail.now.tuned) }
    ensures { result ≡ told_energy trail.now }
{
    Energy {
        sent: sent_time(trail.sent()),
        windows: trail.windows(),
        scanned: trail.scanned(),
        on: tuned_time(trail.tuned()),
    }
}

// Together they last no longer than until the end of the last, so their sum fits.
fn sent_time(sent: &[SentEntry]) -> u64
    requires { SendingsApart sent.now }
    ensures { result ≡ sum_by sending_time sent.now }
{
    let mut total = 0;
    for x in sent {
        total += x.end - x.start;
    }
    total
}

fn tuned_time(tuned: &[TunedEntry]) -> u64
    requires { AreApart (λ t. t.start) (λ t. t.end) 0 tuned.now }
    ensures { result ≡ sum_by tuned_span tuned.now }
{
    let mut total = 0;
    for t in tuned {
        total += t.end - t.start;
    }
    total
}
