//! The entries of a host's table, by owner code.

ghost use Rattle.std.specs.Prelude.{◌≡◌, ◌-◌, ◌<◌, ◌^◌, IfOk, IfErr, IfSome, length, is_some, if◌then◌else◌, map, filter_map, slice_set};
ghost use Rattle.stream_table.specs.CodeOrder.{IsAtPlace, IsGap, put_answer};
ghost use Rattle.bus_rules.specs.Tables.{AreEntries, EntriesAscend, code_in, entry_of, with_entry, without, entry_after_data, missed};
ghost use Rattle.stream_table.specs.Entries.{granted_once, misses_last, is_full_for};

use crate::code_order::{self, Placement};
use crate::table_entry::TableEntry;
use arrayvec::ArrayVec;

// The place of the entry with this code, or the place at which it would be.
#[tactic(auto, using(crate::proofs::InOrder::in_order))]
pub(crate) fn search(entries: &[TableEntry], code: u16) -> Result<usize, usize>
    requires { EntriesAscend entries.now }
    ensures found { IfOk result (IsAtPlace code_in entries.now code) }
    ensures missing { IfErr result (IsGap code_in entries.now code) }
{
    code_order::search(entries, code)
}

// An entry in the place of another.
fn set(entries: &mut ArrayVec<TableEntry, 32>, place: usize, entry: TableEntry)
    requires { place < length entries.old.items }
    ensures { entries.new.items ≡ slice_set entries.old.items place entry }
{
    entries[place] = entry;
}

// Puts an entry in its place, or instead of the one that has its code.
pub(crate) fn place_entry(entries: &mut ArrayVec<TableEntry, 32>, entry: TableEntry) -> Placement
    requires { AreEntries entries.old.items }
    ensures answer { result ≡ put_answer code_in 32 entries.old.items entry.code }
    ensures after { entries.new.items ≡ (if is_full_for entries.old.items entry.code then entries.old.items else with_entry entry entries.old.items) }
    ensures kept { AreEntries entries.new.items }
{
    code_order::put(entries, entry)
}

// Removes the entry with this code. False where there is none.
pub(crate) fn remove(entries: &mut ArrayVec<TableEntry, 32>, code: u16) -> bool
    requires { AreEntries entries.old.items }
    ensures answer { result ≡ is_some (entry_of entries.old.items code) }
    ensures after { entries.new.items ≡ without code entries.old.items }
    ensures kept { AreEntries entries.new.items }
{
    match search(entries.as_slice(), code) {
        Ok(place) => {
            entries.remove(place);
            true
        }
        Err(_) => false,
    }
}

// The owner with this code was received.
pub(crate) fn hear(entries: &mut ArrayVec<TableEntry, 32>, code: u16)
    requires { AreEntries entries.old.items }
    ensures after { entries.new.items ≡ map (entry_after_data code) entries.old.items }
    ensures kept { AreEntries entries.new.items }
{
    match search(entries.as_slice(), code) {
        Ok(place) => {
            let entry = entries[place].heard();
            set(entries, place, entry);
        }
        Err(_) => {}
    }
}

// The owner with this code was not received. True where its entry is gone for it.
pub(crate) fn miss(entries: &mut ArrayVec<TableEntry, 32>, code: u16) -> bool
    requires { AreEntries entries.old.items }
    ensures answer { result ≡ misses_last entries.old.items code }
    ensures after { entries.new.items ≡ filter_map (missed code) entries.old.items }
    ensures kept { AreEntries entries.new.items }
{
    match search(entries.as_slice(), code) {
        Ok(place) => match entries[place].unheard() {
            Some(entry) => {
                set(entries, place, entry);
                false
            }
            None => {
                entries.remove(place);
                true
            }
        },
        Err(_) => false,
    }
}

// One slot more for this code.
pub(crate) fn grant(entries: &mut ArrayVec<TableEntry, 32>, code: u16)
    requires entries { AreEntries entries.old.items }
    requires granted { IfSome (entry_of entries.old.items code) (λ e. e.granted < 2 ^ 32 - 1) }
    ensures after { entries.new.items ≡ map (granted_once code) entries.old.items }
    ensures kept { AreEntries entries.new.items }
{
    match search(entries.as_slice(), code) {
        Ok(place) => {
            let entry = entries[place].grant();
            set(entries, place, entry);
        }
        Err(_) => {}
    }
}
