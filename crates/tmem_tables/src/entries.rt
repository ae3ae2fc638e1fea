// Searches through the invariants of a table, and tests of them.

ghost use Rattle.std.specs.Prelude.{◌≡◌, ◌↔◌, ℕ, ◌<◌, ◌&&◌, not, Bool, List, length, map, find, All, slice_get, Some, IsTrue, IsSome, IfSome};
ghost use Rattle.tmem_invariants.specs.Answers.{IsMeant};
ghost use Rattle.tmem_invariants.specs.Meanings.{Meanings, holds};
ghost use Rattle.tmem_invariants.specs.Indices.{AreAsked};
ghost use Rattle.tmem_invariants.specs.TableNames.{AreBelow, AreDistinct, AreTableNames, has_name, name_at};
ghost use Rattle.tmem_tables.specs.EntryFaults.{IsEntryFault};

use crate::entry::{TableEntry, is_true};
use crate::indices::{lowest_index, without_index};
use tmem_fault::{Fault, Name};
use tmem_invariants::MAX_INVARIANTS;

// Why these make no table over so many variables, if they make none: `BadName` comes before `BadFootprint`.
pub(crate) fn fault_of<E: TableEntry>(entries: &[E], vars: u16) -> Option<Fault>
    ensures { IsEntryFault (AreTableNames (map E.name entries.now)) (All (λ entry. AreBelow vars (E.footprint entry)) entries.now) result }
{
    if entries.len() > MAX_INVARIANTS || !have_distinct_names(entries) {
        return Some(Fault::BadName);
    }
    if !are_within(entries, vars) {
        return Some(Fault::BadFootprint);
    }
    None
}

// Whether no name stands twice.
fn have_distinct_names<E: TableEntry>(entries: &[E]) -> bool
    ensures { IsTrue result ↔ AreDistinct (map E.name entries.now) }
{
    for (i, entry) in entries.iter().enumerate() {
        if index_among(&entries[..i], &entry.name()).is_some() {
            return false;
        }
    }
    true
}

// Whether each variable of a footprint is below a number.
fn are_within<E: TableEntry>(entries: &[E], vars: u16) -> bool
    ensures { IsTrue result ↔ All (λ entry. AreBelow vars (E.footprint entry)) entries.now }
{
    for entry in entries {
        if !is_within(entry, vars) {
            return false;
        }
    }
    true
}

// Whether each variable of its footprint is below a number.
fn is_within<E: TableEntry>(entry: &E, vars: u16) -> bool
    ensures { IsTrue result ↔ AreBelow vars (E.footprint entry.now) }
{
    entry.footprint().iter().all(|var| *var < vars)
}

// The index of a name.
pub(crate) fn index_among<E: TableEntry>(entries: &[E], name: &Name) -> Option<usize>
    ensures there { IsSome result ↔ IsTrue (has_name (map E.name entries.now) name.now) }
    ensures index { IfSome result (λ index. slice_get (map E.name entries.now) index ≡ Some name.now) }
{
    for (i, entry) in entries.iter().enumerate() {
        if entry.name() == *name {
            return Some(i);
        }
    }
    None
}

// The first index of a set whose invariant is false. The set is of those that are asked for, by name.
pub(crate) fn test_indices<E: TableEntry>(
    entries: &[E],
    values: &[i64],
    indices: u64,
) -> Option<usize>
    requires { All (λ entry. AreBelow (length values.now) (E.footprint entry)) entries.now }
    ensures within { IfSome result (λ index. index < length entries.now) }
    ensures first { (m : Meanings) (asked : List ℕ → Bool) → All (λ entry. IsMeant m (E.name entry) (E.footprint entry) (E.answers entry)) entries.now
        → AreAsked asked (map E.name entries.now) indices
        → name_at (map E.name entries.now) result ≡ find (λ name. asked name && not (holds m values.now name)) (map E.name entries.now) }
{
    let mut left = indices;
    while left != 0 {
        let index = lowest_index(left);
        let entry = entries.get(index)?;
        if !is_true(entry, values) {
            return Some(index);
        }
        left = without_index(left, index);
    }
    None
}
