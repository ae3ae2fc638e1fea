// The limits of a transaction.

ghost use Rattle.std.specs.Prelude.{◌≡◌, ℕ, ◌+◌, ◌-◌, ◌≤◌, ◌<◌, ◌^◌, IfSome, IsNone, IsTrue, ◌↔◌};
ghost use Rattle.std.specs.List.{list_any};
ghost use Rattle.tmem_tree.specs.Limits.{depth, count, is_no_register, has_bad_register, has_bad_variable, has_bad_step, has_bad_arguments, has_unknown_name};
ghost use Rattle.tmem_tree.specs.Plans.{is_bad, is_counted};
ghost use Rattle.tmem_tree.specs.Signatures.{names_of};

use crate::signature::{Signature, find};
use crate::steps::StoredSteps;
use crate::tx::Tx;
use tmem_effect::MAX_CHECKS;
use tmem_fault::Cause;
use tmem_invariants::MAX_FOOTPRINT;

/// How many registers a transaction has.
pub const REGISTERS: usize = 16;

/// How deep a transaction may be. A leaf or an empty `Seq` has depth 1.
pub const MAX_DEPTH: u32 = 32;

/// The most nodes, where each constructor counts one.
pub const MAX_NODES: u32 = 512;

/// The most `Write` nodes.
pub const MAX_WRITES: u32 = tmem_effect::MAX_WRITES as u32;

/// An evaluation that is never refused memory takes no more turns: each but the last reads a variable, for a `Read` or for a
/// `Check`, or asks for the test of a `Check`.
pub const MAX_TURNS: u32 = MAX_NODES + (MAX_CHECKS * (MAX_FOOTPRINT + 1)) as u32;

/// Whether a tree is no deeper than `most`. Looks no deeper than that.
pub(crate) fn is_within_depth(tx: &Tx, most: u32) -> bool
    ensures { IsTrue result ↔ (depth tx.now ≤ most) }
{
    if most == 0 {
        return false;
    }
    match tx {
        Tx::Seq(txs) => {
            for t in txs {
                if !is_within_depth(t, most - 1) {
                    return false;
                }
            }
            true
        }
        Tx::When { then, other, .. } => {
            is_within_depth(then, most - 1) && is_within_depth(other, most - 1)
        }
        Tx::OrElse(first, second) => {
            is_within_depth(first, most - 1) && is_within_depth(second, most - 1)
        }
        _ => true,
    }
}

/// What is left of a budget that pays for each node that a limit counts, or none where it does not suffice.
pub(crate) fn spend<S: StoredSteps>(
    tx: &Tx,
    cause: Cause,
    steps: &S,
    vars: u16,
    signatures: &[Signature],
    budget: u32,
) -> Option<u32>
    ensures enough { IfSome result (λ left. left + count (is_counted cause (S.arities steps.now) vars (names_of signatures.now)) tx.now ≡ budget) }
    ensures lacking { IsNone result → budget < count (is_counted cause (S.arities steps.now) vars (names_of signatures.now)) tx.now }
{
    let mut left = budget;
    if is_counted(tx, cause, steps, vars, signatures) {
        left = left.checked_sub(1)?;
    }
    match tx {
        Tx::Seq(txs) => {
            for t in txs {
                left = spend(t, cause, steps, vars, signatures, left)?;
            }
            Some(left)
        }
        Tx::When { then, other, .. } => {
            let left = spend(then, cause, steps, vars, signatures, left)?;
            spend(other, cause, steps, vars, signatures, left)
        }
        Tx::OrElse(first, second) => {
            let left = spend(first, cause, steps, vars, signatures, left)?;
            spend(second, cause, steps, vars, signatures, left)
        }
        _ => Some(left),
    }
}

// Whether a limit counts this node.
fn is_counted<S: StoredSteps>(
    tx: &Tx,
    cause: Cause,
    steps: &S,
    vars: u16,
    signatures: &[Signature],
) -> bool
    ensures { result ≡ is_counted cause (S.arities steps.now) vars (names_of signatures.now) tx.now }
{
    match cause {
        Cause::TooDeep => false,
        Cause::TooManyNodes => true,
        Cause::TooManyWrites => matches!(tx, Tx::Write { .. }),
        Cause::TooManyChecks => matches!(tx, Tx::Check { .. }),
        Cause::BadRegister => has_bad_register(tx),
        Cause::BadVariable => has_bad_variable(tx, vars),
        Cause::BadStep => has_bad_step(tx, steps),
        Cause::BadArguments => has_bad_arguments(tx, steps),
        Cause::UnknownName => has_unknown_name(tx, signatures),
        Cause::TooManyRetires => matches!(tx, Tx::Retire { .. }),
    }
}

/// Whether a node names a register, a variable, a step or a name that is not there, or hands a step another number of
/// arguments than it takes.
pub(crate) fn has_bad_part<S: StoredSteps>(
    tx: &Tx,
    steps: &S,
    vars: u16,
    signatures: &[Signature],
) -> bool
    ensures { result ≡ is_bad (S.arities steps.now) vars (names_of signatures.now) tx.now }
{
    has_bad_register(tx)
        || has_bad_variable(tx, vars)
        || has_bad_step(tx, steps)
        || has_bad_arguments(tx, steps)
        || has_unknown_name(tx, signatures)
}

fn has_bad_register(tx: &Tx) -> bool
    ensures { result ≡ has_bad_register tx.now }
{
    match tx {
        Tx::Put { reg, .. } | Tx::Read { reg, .. } | Tx::Write { reg, .. } | Tx::When { reg, .. } =>
            *reg as usize >= REGISTERS,
        Tx::Step { args, out, .. } => *out as usize >= REGISTERS || any_bad_register(args),
        _ => false,
    }
}

// Whether one of these is no register.
fn any_bad_register(regs: &[u8]) -> bool
    ensures { result ≡ list_any is_no_register regs.now }
{
    regs.iter().any(|reg| *reg as usize >= REGISTERS)
}

fn has_bad_variable(tx: &Tx, vars: u16) -> bool
    ensures { result ≡ has_bad_variable vars tx.now }
{
    match tx {
        Tx::Read { var, .. } | Tx::Write { var, .. } => *var >= vars,
        _ => false,
    }
}

fn has_bad_step<S: StoredSteps>(tx: &Tx, steps: &S) -> bool
    ensures { result ≡ has_bad_step (S.arities steps.now) tx.now }
{
    match tx {
        Tx::Step { index, .. } => *index as usize >= steps.len(),
        _ => false,
    }
}

fn has_bad_arguments<S: StoredSteps>(tx: &Tx, steps: &S) -> bool
    ensures { result ≡ has_bad_arguments (S.arities steps.now) tx.now }
{
    match tx {
        Tx::Step { index, args, .. } => {
            let index = *index as usize;
            index < steps.len() && args.len() != steps.arity(index)
        }
        _ => false,
    }
}

fn has_unknown_name(tx: &Tx, signatures: &[Signature]) -> bool
    ensures { result ≡ has_unknown_name (names_of signatures.now) tx.now }
{
    match tx {
        Tx::Check { name } | Tx::Retire { name } => find(signatures, name).is_none(),
        _ => false,
    }
}
