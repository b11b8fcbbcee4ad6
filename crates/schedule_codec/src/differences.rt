//! The differences of successive owner codes.

ghost use Rattle.std.specs.Prelude.{◌≡◌, ◌≤◌, ◌<◌, ◌==◌, ◌∷◌, length, true};
ghost use Rattle.schedule_codec.specs.Packing.{fit};
ghost use Rattle.schedule_codec.specs.OwnerLists.{are_owners, differences as differences_of, width_of};

use arrayvec::ArrayVec;

/// The differences of successive codes, from the first on.
pub fn differences(first: u16, rest: &[u16]) -> ArrayVec<u16, 39>
    requires { are_owners (first ∷ rest.now) ≡ true }
    ensures value { result.items ≡ differences_of (first ∷ rest.now) }
    ensures many { length result.items ≡ length rest.now }
    ensures small { fit 10 result.items ≡ true }
{
    let mut found = ArrayVec::new();
    let mut last = first;
    for code in rest {
        found.push(*code - last);
        last = *code;
    }
    found
}

/// The least width that all of them fit.
pub fn least_width(differences: &[u16]) -> u8
    requires { fit 10 differences.now ≡ true }
    ensures value { result ≡ width_of differences.now }
    ensures narrow { result ≤ 10 }
    ensures fits { fit result differences.now ≡ true }
{
    for width in 0..10 {
        if fit_in(differences, width) {
            return width;
        }
    }
    10
}

/// Whether no width below this one, which they all fit, would do.
#[tactic(auto, using(crate::proofs::LeastWidths::none_needed, crate::proofs::LeastWidths::needs_all))]
pub fn is_least(differences: &[u16], width: u8) -> bool
    requires narrow { width ≤ 10 }
    requires fits { fit width differences.now ≡ true }
    ensures { result ≡ (width_of differences.now == width) }
{
    width == 0 || !fit_in(differences, width - 1)
}

fn fit_in(differences: &[u16], width: u8) -> bool
    requires { width < 10 }
    ensures { result ≡ fit width differences.now }
{
    differences.iter().all(|d| *d < 1 << width)
}
