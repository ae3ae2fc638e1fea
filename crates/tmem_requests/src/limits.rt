//! What a proposal has to keep, whatever the store.
ghost use Rattle.std.specs.Prelude.{◌≡◌, ◌↔◌, IsTrue, nat_eq};
ghost use Rattle.std.specs.List.{list_any};
ghost use Rattle.std.specs.Map.{keys_of};
ghost use Rattle.tmem_fault.specs.Distinct.{AreDistinct};
ghost use Rattle.tmem_fault.specs.Name.{has_name};
ghost use Rattle.tmem_effect.specs.Names.{AreApart};
ghost use Rattle.tmem_requests.specs.Proposals.{IsProposal};

use tmem_fault::Name;
use tmem_tree::{MAX_CHECKS, MAX_RETIRES, MAX_WRITES};

/// The most variables that a proposal may read.
pub const MAX_READS: usize = 500;

/// Whether these keep what a proposal has to keep.
pub(crate) fn is_proposal(
    reads: &[(u16, i64)],
    writes: &[(u16, i64)],
    checks: &[Name],
    retires: &[Name],
) -> bool
    ensures { IsTrue result ↔ IsProposal reads.now writes.now checks.now retires.now }
{
    reads.len() <= MAX_READS
        && writes.len() <= MAX_WRITES as usize
        && checks.len() <= MAX_CHECKS
        && retires.len() <= MAX_RETIRES
        && are_distinct(reads)
        && are_distinct(writes)
        && are_distinct_names(checks)
        && are_distinct_names(retires)
        && are_apart(checks, retires)
}

/// Whether no variable stands twice among these.
pub(crate) fn are_distinct(pairs: &[(u16, i64)]) -> bool
    ensures { IsTrue result ↔ AreDistinct (keys_of pairs.now) }
{
    for (i, pair) in pairs.iter().enumerate() {
        if has_variable(&pairs[..i], pair.0) {
            return false;
        }
    }
    true
}

// Whether a variable is among these.
fn has_variable(pairs: &[(u16, i64)], var: u16) -> bool
    ensures { result ≡ list_any (λ k. nat_eq k var) (keys_of pairs.now) }
{
    pairs.iter().any(|pair| pair.0 == var)
}

/// Whether no name stands twice among these.
pub(crate) fn are_distinct_names(names: &[Name]) -> bool
    ensures { IsTrue result ↔ AreDistinct names.now }
{
    for (i, name) in names.iter().enumerate() {
        if has_name(&names[..i], name) {
            return false;
        }
    }
    true
}

/// Whether a name is among these.
pub(crate) fn has_name(names: &[Name], name: &Name) -> bool
    ensures { result ≡ has_name names.now name.now }
{
    names.iter().any(|n| n == name)
}

/// Whether none of the first names is among the second.
pub(crate) fn are_apart(names: &[Name], others: &[Name]) -> bool
    ensures { IsTrue result ↔ AreApart names.now others.now }
{
    for name in names {
        if has_name(others, name) {
            return false;
        }
    }
    true
}
