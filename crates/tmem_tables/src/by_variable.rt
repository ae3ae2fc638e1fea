// For each variable, the indices of the invariants over it.

ghost use Rattle.std.specs.Prelude.{◌≡◌, ◌||◌, ◌&&◌, ◌==◌, ◌≤◌, ◌<◌, ℕ, length, map, All, IfOk, slice_index_or};
ghost use Rattle.std.specs.List.{list_any};
ghost use Rattle.tmem_invariants.specs.Indices.{IsTouching, has_index, has_var};
ghost use Rattle.tmem_invariants.specs.TableNames.{AreBelow};

use crate::entry::TableEntry;
use std::alloc::{AllocError, Global};
use tmem_invariants::with_index;

// The indices of these invariants, by variable.
pub(crate) fn indices_by_variable<E: TableEntry>(
    alloc: Global,
    entries: &[E],
    vars: u16,
) -> Result<Vec<u64>, AllocError>
    requires few { length entries.now ≤ 64 }
    requires within { All (λ entry. AreBelow vars (E.footprint entry)) entries.now }
    ensures long { IfOk result (λ by_variable. length by_variable.items ≡ vars) }
    ensures touching { IfOk result (λ by_variable. (var : ℕ) → IsTouching (map E.footprint entries.now) var (slice_index_or by_variable.items var 0)) }
{
    let mut by_variable = vec![in alloc; 0; usize::from(vars)]?;
    for (index, entry) in entries.iter().enumerate() {
        add_index(&mut by_variable, entry.footprint(), index);
    }
    Ok(by_variable)
}

// Adds an index to the set of each variable of a footprint.
fn add_index(by_variable: &mut [u64], footprint: &[u16], index: usize)
    requires index { index < 64 }
    requires within { AreBelow (length by_variable.old) footprint.now }
    ensures { (var other : ℕ) → has_index (slice_index_or by_variable.new var 0) other
        ≡ (has_index (slice_index_or by_variable.old var 0) other || (other == index && has_var footprint.now var)) }
{
    for var in footprint {
        let var = usize::from(*var);
        by_variable[var] = with_index(by_variable[var], index);
    }
}

// The indices of the invariants over some written variable.
pub(crate) fn indices_touched(by_variable: &[u64], written: &[(u16, i64)]) -> u64
    ensures { (index : ℕ) → has_index result index ≡ list_any (λ write. has_index (slice_index_or by_variable.now write.0 0) index) written.now }
{
    let mut indices = 0;
    for (var, _) in written {
        indices |= indices_over(by_variable, *var);
    }
    indices
}

// The indices of the invariants over a variable: none where it is no variable of the table.
fn indices_over(by_variable: &[u64], var: u16) -> u64
    ensures { result ≡ slice_index_or by_variable.now var 0 }
{
    by_variable.get(usize::from(var)).copied().unwrap_or(0)
}
