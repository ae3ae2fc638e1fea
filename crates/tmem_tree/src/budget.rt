// One walk over a tree, which pays for each node out of what the limits leave.

ghost use Rattle.std.specs.Prelude.{◌≡◌, ◌+◌, ◌≤◌, IfSome, IsNone};
ghost use Rattle.tmem_tree.specs.Limits.{one_if, depth, count, is_node, is_write, is_check, is_retire, is_step};
ghost use Rattle.tmem_tree.specs.Plans.{is_bad};
ghost use Rattle.tmem_tree.specs.Signatures.{names_of};

use crate::limits::{MAX_NODES, MAX_WRITES, has_bad_part};
use crate::signature::Signature;
use crate::steps::StoredSteps;
use crate::tx::Tx;
use tmem_effect::{MAX_CHECKS, MAX_RETIRES};

/// How many nodes, writes, checks, retirements and steps may still come.
#[derive(Clone, Copy)]
pub(crate) struct Budget {
    pub nodes: u32,
    pub writes: u32,
    pub checks: u32,
    pub retires: u32,
    pub steps: u32,
}

/// What a whole transaction may have: as many steps as nodes, so that they are counted alone.
pub(crate) const WHOLE: Budget = Budget {
    nodes: MAX_NODES,
    writes: MAX_WRITES,
    checks: MAX_CHECKS as u32,
    retires: MAX_RETIRES as u32,
    steps: MAX_NODES,
};

/// What is left behind a tree that is no deeper than `most` and has no bad part, or none where a limit is broken. It looks
/// no deeper than `most`, and at no node that the budget does not pay for.
pub(crate) fn pay<S: StoredSteps>(
    tx: &Tx,
    steps: &S,
    vars: u16,
    signatures: &[Signature],
    most: u32,
    budget: Budget,
) -> Option<Budget>
    ensures shallow { IfSome result (λ left. depth tx.now ≤ most) }
    ensures nodes { IfSome result (λ left. left.nodes + count is_node tx.now ≡ budget.nodes) }
    ensures writes { IfSome result (λ left. left.writes + count is_write tx.now ≡ budget.writes) }
    ensures checks { IfSome result (λ left. left.checks + count is_check tx.now ≡ budget.checks) }
    ensures retires { IfSome result (λ left. left.retires + count is_retire tx.now ≡ budget.retires) }
    ensures steps { IfSome result (λ left. left.steps + count is_step tx.now ≡ budget.steps) }
    ensures good { IfSome result (λ left. count (is_bad (S.arities steps.now) vars (names_of signatures.now)) tx.now ≡ 0) }
    ensures lacking { IsNone result → depth tx.now ≤ most → count is_node tx.now ≤ budget.nodes → count is_write tx.now ≤ budget.writes
        → count is_check tx.now ≤ budget.checks → count is_retire tx.now ≤ budget.retires → count is_step tx.now ≤ budget.steps → count (is_bad (S.arities steps.now) vars (names_of signatures.now)) tx.now ≡ 0 → ⊥ }
{
    if most == 0 || has_bad_part(tx, steps, vars, signatures) {
        return None;
    }
    let mut left = without(tx, budget)?;
    match tx {
        Tx::Seq(txs) => {
            for t in txs {
                left = pay(t, steps, vars, signatures, most - 1, left)?;
            }
            Some(left)
        }
        Tx::When { then, other, .. } => {
            let left = pay(then, steps, vars, signatures, most - 1, left)?;
            pay(other, steps, vars, signatures, most - 1, left)
        }
        Tx::OrElse(first, second) => {
            let left = pay(first, steps, vars, signatures, most - 1, left)?;
            pay(second, steps, vars, signatures, most - 1, left)
        }
        _ => Some(left),
    }
}

// What is left behind one node, its trees aside.
fn without(tx: &Tx, budget: Budget) -> Option<Budget>
    ensures nodes { IfSome result (λ left. left.nodes + 1 ≡ budget.nodes) }
    ensures writes { IfSome result (λ left. left.writes + one_if (is_write tx.now) ≡ budget.writes) }
    ensures checks { IfSome result (λ left. left.checks + one_if (is_check tx.now) ≡ budget.checks) }
    ensures retires { IfSome result (λ left. left.retires + one_if (is_retire tx.now) ≡ budget.retires) }
    ensures steps { IfSome result (λ left. left.steps + one_if (is_step tx.now) ≡ budget.steps) }
    ensures lacking { IsNone result → 1 ≤ budget.nodes → one_if (is_write tx.now) ≤ budget.writes → one_if (is_check tx.now) ≤ budget.checks
        → one_if (is_retire tx.now) ≤ budget.retires → one_if (is_step tx.now) ≤ budget.steps → ⊥ }
{
    let mut left = budget;
    left.nodes = left.nodes.checked_sub(1)?;
    match tx {
        Tx::Write { .. } => left.writes = left.writes.checked_sub(1)?,
        Tx::Check { .. } => left.checks = left.checks.checked_sub(1)?,
        Tx::Retire { .. } => left.retires = left.retires.checked_sub(1)?,
        Tx::Step { .. } => left.steps = left.steps.checked_sub(1)?,
        _ => {}
    }
    Some(left)
}
