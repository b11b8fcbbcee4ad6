//! The owners of the data slots of a round.

ghost use Rattle.std.specs.Prelude.{◌≡◌, ◌++◌, ◌∷◌, [], length, true, if◌then◌else◌, slice_get};
ghost use Rattle.schedule_codec.specs.OwnerLists.{are_owners, takes_owner, may_follow};
ghost use Rattle.std.specs.Option.{option_copied};

use arrayvec::ArrayVec;
use lwb_base::{MOST_OWNERS, Owner};
use std::marker::Model;

/// The owners of the data slots of a round, at most `DATA_SLOTS` in ascending order; one may be there more than once. Contracts see the
/// list of their codes.
#[derive(Drop)]
pub struct Owners {
    codes: ArrayVec<u16, MOST_OWNERS>,
}

impl Model for Owners {
    ghost use Rattle.std.specs.Prelude.{◌≡◌, ℕ, List, true};
    ghost use Rattle.schedule_codec.specs.OwnerLists.{are_owners};

    ghost Value = { List ℕ };

    ghost view = { λ o. o.codes.items };

    ghost invariant = { λ o. are_owners o.codes.items ≡ true };
}

impl Owners {
    /// An empty list.
    pub fn new() -> Owners
        ensures { result ≡ [] }
    {
        Owners {
            codes: ArrayVec::new(),
        }
    }

    // The owners of these codes.
    pub(crate) fn from_codes(codes: ArrayVec<u16, MOST_OWNERS>) -> Owners
        requires { are_owners codes.items ≡ true }
        ensures { result ≡ codes.items }
    {
        Owners { codes }
    }

    /// Adds an owner at the end. Returns `false`, and nothing changes, if and only if `DATA_SLOTS` are there or it is below the last.
    pub fn add(&mut self, owner: Owner) -> bool
        ensures answer { result ≡ takes_owner self.old owner }
        ensures list { self.new ≡ (if result then self.old ++ owner ∷ [] else self.old) }
    {
        let code = owner.code();
        if self.codes.is_full() || !follows(self.codes.as_slice().last(), code) {
            return false;
        }
        self.codes.push(code);
        true
    }

    /// The owner at this place, counted from 0. Returns `None` if and only if it is not below the count.
    pub fn at(&self, i: usize) -> Option<Owner>
        ensures { result ≡ slice_get self.now i }
    {
        let codes = self.codes.as_slice();
        if i >= codes.len() {
            return None;
        }
        Owner::from_code(codes[i])
    }

    /// How many there are.
    pub fn count(&self) -> u8
        ensures value { result ≡ length self.now }
        ensures owners { are_owners self.now ≡ true }
    {
        self.codes.len() as u8
    }

    /// The codes, each 4 to 803.
    pub(crate) fn codes(&self) -> &[u16]
        ensures value { result.now ≡ self.now }
        ensures owners { are_owners self.now ≡ true }
    {
        self.codes.as_slice()
    }
}

// Whether this code may be after the last.
fn follows(last: Option<&u16>, code: u16) -> bool
    ensures { result ≡ may_follow (option_copied last.entry) code }
{
    match last {
        Some(last) => *last <= code,
        None => true,
    }
}
