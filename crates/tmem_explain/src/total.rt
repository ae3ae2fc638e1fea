//! How much a transaction has of what a limit counts.
ghost use Rattle.std.specs.Prelude.{min, ◌≡◌, ◌+◌, ◌<◌, ◌≤◌, ◌↔◌, IfSome, IsNone, IsTrue};
ghost use Rattle.tmem_builtins.specs.Builtins.{builtin_names};
ghost use Rattle.tmem_tree.specs.Limits.{count, depth};
ghost use Rattle.tmem_tree.specs.Plans.{is_counted};
ghost use Rattle.tmem_explain.specs.Flaws.{step_arities};
ghost use Rattle.tmem_explain.specs.Limits.{BreaksLimit, most_told};

use crate::plan::is_counted;
use tmem_fault::Cause;
use tmem_tree::{MAX_CHECKS, MAX_DEPTH, MAX_NODES, MAX_RETIRES, MAX_WRITES, Tx};

// No text nests a transaction deeper.
pub(crate) const MOST_LEVELS: u32 = 128;

/// Whether a transaction breaks the limit of a cause.
pub(crate) fn breaks(tx: &Tx, cause: Cause, vars: u16) -> bool
    ensures { IsTrue result ↔ BreaksLimit vars tx.now cause }
{
    match cause {
        Cause::TooDeep => !is_within_depth(tx, MAX_DEPTH),
        Cause::TooManyNodes => has_more(tx, Cause::TooManyNodes, vars, MAX_NODES as u64),
        Cause::TooManyWrites => has_more(tx, Cause::TooManyWrites, vars, MAX_WRITES as u64),
        Cause::TooManyChecks => has_more(tx, Cause::TooManyChecks, vars, MAX_CHECKS as u64),
        Cause::BadRegister => has_more(tx, Cause::BadRegister, vars, 0),
        Cause::BadVariable => has_more(tx, Cause::BadVariable, vars, 0),
        Cause::BadStep => has_more(tx, Cause::BadStep, vars, 0),
        Cause::BadArguments => has_more(tx, Cause::BadArguments, vars, 0),
        Cause::UnknownName => has_more(tx, Cause::UnknownName, vars, 0),
        Cause::TooManyRetires => has_more(tx, Cause::TooManyRetires, vars, MAX_RETIRES as u64),
    }
}

// Whether a limit counts more nodes than so many.
fn has_more(tx: &Tx, cause: Cause, vars: u16, most: u64) -> bool
    ensures { IsTrue result ↔ (most < count (is_counted cause step_arities vars (builtin_names vars)) tx.now) }
{
    spend(tx, cause, vars, most).is_none()
}

/// How many nodes a limit counts, and no more than 2^64 - 1.
pub(crate) fn count_of(tx: &Tx, cause: Cause, vars: u16) -> u64
    ensures { result ≡ min (count (is_counted cause step_arities vars (builtin_names vars)) tx.now) most_told }
{
    match spend(tx, cause, vars, u64::MAX) {
        Some(left) => u64::MAX - left,
        None => u64::MAX,
    }
}

/// How deep a transaction is that is deeper than 32, and no deeper than a text can nest one.
pub(crate) fn depth_of(tx: &Tx) -> u64
    ensures { 32 < depth tx.now → depth tx.now ≤ 128 → result ≡ depth tx.now }
{
    for most in MAX_DEPTH..MOST_LEVELS {
        if is_within_depth(tx, most) {
            return most as u64;
        }
    }
    MOST_LEVELS as u64
}

// Whether a tree is no deeper than `most`. Looks no deeper than that.
fn is_within_depth(tx: &Tx, most: u32) -> bool
    ensures { IsTrue result ↔ (depth tx.now ≤ most) }
{
    if most == 0 {
        return false;
    }
    match tx {
        Tx::Seq(txs) => {
            for t in txs {
                if !is_within_depth(t, most - 1) {
                    return false;
                }
            }
            true
        }
        Tx::When { then, other, .. } => {
            is_within_depth(then, most - 1) && is_within_depth(other, most - 1)
        }
        Tx::OrElse(first, second) => {
            is_within_depth(first, most - 1) && is_within_depth(second, most - 1)
        }
        _ => true,
    }
}

// What is left of a budget that pays for each node that a limit counts, or none where it does not suffice.
fn spend(tx: &Tx, cause: Cause, vars: u16, budget: u64) -> Option<u64>
    ensures enough { IfSome result (λ left. left + count (is_counted cause step_arities vars (builtin_names vars)) tx.now ≡ budget) }
    ensures lacking { IsNone result → budget < count (is_counted cause step_arities vars (builtin_names vars)) tx.now }
{
    let mut left = budget;
    if is_counted(tx, cause, vars) {
        left = left.checked_sub(1)?;
    }
    match tx {
        Tx::Seq(txs) => {
            for t in txs {
                left = spend(t, cause, vars, left)?;
            }
            Some(left)
        }
        Tx::When { then, other, .. } => {
            let left = spend(then, cause, vars, left)?;
            spend(other, cause, vars, left)
        }
        Tx::OrElse(first, second) => {
            let left = spend(first, cause, vars, left)?;
            spend(second, cause, vars, left)
        }
        _ => Some(left),
    }
}
