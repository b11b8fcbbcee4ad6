//! Short lists in the ascending order of their items' codes.

ghost use Rattle.std.specs.Prelude.{◌≡◌, ℕ, ◌≤◌, ◌<◌, IfOk, IfErr, length, if◌then◌else◌, slice_set};
ghost use Rattle.std.specs.List.{prefix_len};
ghost use Rattle.stream_table.specs.CodeOrder.{AscendsByCode, IsAtPlace, IsGap, is_below, placed, finds_room, put_answer};

use arrayvec::ArrayVec;

/// An item of a list that is ordered by code.
pub trait Coded: Drop {
    /// The code by which it is ordered, a number of 16 bits.
    ghost code_of: { Self → ℕ };

    /// Its code.
    fn code(&self) -> u16
        ensures { result ≡ code_of self.now };
}

/// What became of an item that was put into a list.
#[derive(Clone, Copy, Debug, PartialEq, Eq)]
pub enum Placement {
    /// It is new.
    Added,
    /// It replaces the old one of its code.
    Replaced,
    /// The list is full of others, and nothing changed.
    Full,
}

/// The place of the item with this code, counted from 0. Returns `Err` if and only if there is none, with the place at which it
/// would be.
pub fn search<T: Coded>(list: &[T], code: u16) -> Result<usize, usize>
    requires { AscendsByCode T.code_of list.now }
    ensures found { IfOk result (IsAtPlace T.code_of list.now code) }
    ensures missing { IfErr result (IsGap T.code_of list.now code) }
{
    let place = place_of(list, code);
    if place < list.len() && list[place].code() == code {
        Ok(place)
    } else {
        Err(place)
    }
}

// How many items have a code below this one.
fn place_of<T: Coded>(list: &[T], code: u16) -> usize
    requires { AscendsByCode T.code_of list.now }
    ensures value { result ≡ prefix_len (is_below T.code_of code) list.now }
    ensures within { result ≤ length list.now }
{
    let mut low = 0;
    let mut high = list.len();
    while low < high {
        let middle = low + (high - low) / 2;
        if list[middle].code() < code {
            low = middle + 1;
        } else {
            high = middle;
        }
    }
    low
}

/// Puts an item in its place by code, instead of the one that has its code, if there is one. Returns `Full`, and nothing
/// changes, if and only if there is none and the list is full.
pub fn put<T: Coded, const N: usize>(list: &mut ArrayVec<T, N>, item: T) -> Placement
    requires { AscendsByCode T.code_of list.old.items }
    ensures answer { result ≡ put_answer T.code_of N list.old.items (T.code_of item) }
    ensures after { list.new.items ≡ (if finds_room T.code_of N list.old.items (T.code_of item) then placed T.code_of item list.old.items else list.old.items) }
    ensures ascends { AscendsByCode T.code_of list.new.items }
    ensures few { length list.new.items ≤ N }
{
    match search(list.as_slice(), item.code()) {
        Ok(place) => {
            set(list, place, item);
            Placement::Replaced
        }
        Err(place) => {
            if list.is_full() {
                return Placement::Full;
            }
            list.insert(place, item);
            Placement::Added
        }
    }
}

// An item in the place of another.
fn set<T: Drop, const N: usize>(list: &mut ArrayVec<T, N>, place: usize, item: T)
    requires { place < length list.old.items }
    ensures { list.new.items ≡ slice_set list.old.items place item }
{
    list[place] = item;
}
