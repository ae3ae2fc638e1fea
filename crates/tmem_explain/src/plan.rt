//! Which node of a transaction breaks a limit.
ghost use Rattle.std.specs.Prelude.{◌≡◌, ℕ, IfErr, IfSome, Some, map, option_map};
ghost use Rattle.std.specs.List.{list_any};
ghost use Rattle.serde_json.specs.Data.{Data};
ghost use Rattle.tmem_builtins.specs.Builtins.{builtin_names};
ghost use Rattle.tmem_fault.specs.Name.{has_name};
ghost use Rattle.tmem_forms.specs.TxForms.{array_of, tx_form};
ghost use Rattle.tmem_script.specs.Scripts.{IsScript, entry_form};
ghost use Rattle.tmem_tree.specs.Limits.{has_bad_register, has_bad_variable, has_bad_step, has_bad_arguments, has_unknown_name, is_no_register};
ghost use Rattle.tmem_tree.specs.Plans.{is_counted};
ghost use Rattle.tmem_explain.specs.Excesses.{HasTotal, cause_of};
ghost use Rattle.tmem_explain.specs.Flaws.{IsAmissIn, IsFlawOf, IsPastLimit, IsPlanTold, TellsCause, step_arities};
ghost use Rattle.tmem_explain.specs.Limits.{IsTotal, LeadIntoItem, TellsLimit, begun_at, begun_by};

use crate::amiss::{Amiss, inside};
use crate::excess::{Excess, arguments_in, bad_register_in, step_in, variable_in};
use crate::expected::Expected;
use crate::flaw::Flaw;
use crate::total::{MOST_LEVELS, count_of, depth_of};
use std::alloc::Global;
use tmem_builtins::names;
use tmem_event::Event;
use tmem_fault::{Cause, Name};
use tmem_requests::PointerStep;
use tmem_script::{Script, ScriptEntry};
use tmem_tree::{MAX_CHECKS, MAX_DEPTH, MAX_NODES, MAX_RETIRES, MAX_WRITES, REGISTERS, Tx};

/// The limit of a cause, in a store of so many variables, and how much a transaction has of what it counts.
#[derive(Clone, Copy)]
pub(crate) struct Limit {
    cause: Cause,
    vars: u16,
    total: u64,
}

/// The first node that breaks the limit of a cause, in the transaction that an entry of a script begins: for one that counts nodes, the
/// first that is too many. Where none is found, or memory does not suffice, that is told as of no script.
pub fn plan_flaw(alloc: Global, script: &Script, index: usize, cause: Cause) -> Flaw
    ensures there { (d : Data) → IsScript script.now.vars script.now.slots script.now.entries.items d → IsFlawOf d result }
    ensures cause { (total : ℕ) × TellsCause cause script.now.vars total result.expected }
    ensures limit { IsPlanTold result.expected → (tx : Tx) → begun_at script.now.entries.items index ≡ Some tx → TellsLimit script.now.vars index tx cause result }
{
    let entries = script.entries.as_slice();
    let limit = limit_at(entries, index, cause, script.vars);
    let found = find_in_entries(alloc, entries, index, limit);
    match inside(PointerStep::Key("events"), found) {
        Ok(_) => Amiss::here(alloc, Expected::Script).into_flaw(),
        Err(amiss) => amiss.into_flaw(),
    }
}

fn find_in_entries(
    alloc: Global,
    entries: &[ScriptEntry],
    index: usize,
    limit: Limit,
) -> Result<u32, Amiss>
    ensures amiss { IfErr result (IsAmissIn (array_of (map entry_form entries.now))) }
    ensures cause { IfErr result (λ amiss. TellsCause limit.cause limit.vars limit.total amiss.expected) }
    ensures item { IfErr result (λ amiss. IsPlanTold amiss.expected → LeadIntoItem index amiss.steps.items) }
{
    if index >= entries.len() {
        return Ok(0);
    }
    let found = find_in_begun(alloc, &entries[index], limit);
    inside(PointerStep::Item(index as u64), found)
}

fn find_in_begun(alloc: Global, entry: &ScriptEntry, limit: Limit) -> Result<u32, Amiss>
    ensures amiss { IfErr result (IsAmissIn (entry_form entry.now)) }
    ensures cause { IfErr result (λ amiss. TellsCause limit.cause limit.vars limit.total amiss.expected) }
{
    let ScriptEntry::Event(playable) = entry else {
        return Ok(0);
    };
    let Event::Begin { tx, .. } = &playable.event else {
        return Ok(0);
    };
    let (levels, left) = (may_nest(limit.cause), may_have(limit.cause));
    let found = find_in_plan(alloc, tx, limit, levels, left);
    inside(
        PointerStep::Key("begin"),
        inside(PointerStep::Item(1), found),
    )
}

/// The transaction that the entry of a number begins.
pub(crate) fn begun_at<'a>(entries: &'a [ScriptEntry], index: usize) -> Option<&'a Tx>
    ensures { option_map (λ tx. tx.now) result ≡ begun_at entries.now index }
{
    if index >= entries.len() {
        return None;
    }
    begun_by(&entries[index])
}

fn begun_by<'a>(entry: &'a ScriptEntry) -> Option<&'a Tx>
    ensures { option_map (λ tx. tx.now) result ≡ begun_by entry.now }
{
    let ScriptEntry::Event(playable) = entry else {
        return None;
    };
    match &playable.event {
        Event::Begin { tx, .. } => Some(tx),
        _ => None,
    }
}

// The limit, and how much of what it counts the transaction of an entry has.
fn limit_at(entries: &[ScriptEntry], index: usize, cause: Cause, vars: u16) -> Limit
    ensures cause { result.cause ≡ cause }
    ensures vars { result.vars ≡ vars }
    ensures total { (tx : Tx) → begun_at entries.now index ≡ Some tx → IsTotal vars tx cause result.total }
{
    let total = total_at(entries, index, cause, vars);
    Limit { cause, vars, total }
}

// How much of what a limit counts the transaction of an entry has, if it begins one.
fn total_at(entries: &[ScriptEntry], index: usize, cause: Cause, vars: u16) -> u64
    ensures { (tx : Tx) → begun_at entries.now index ≡ Some tx → IsTotal vars tx cause result }
{
    match begun_at(entries, index) {
        Some(tx) => total_of(tx, cause, vars),
        None => 0,
    }
}

// How much of what a limit counts a transaction has.
fn total_of(tx: &Tx, cause: Cause, vars: u16) -> u64
    ensures { IsTotal vars tx.now cause result }
{
    match cause {
        Cause::TooDeep => depth_of(tx),
        _ => count_of(tx, cause, vars),
    }
}

// How many levels of a transaction are looked at: those that it may have, or all that a text can nest.
fn may_nest(cause: Cause) -> u32 {
    match cause {
        Cause::TooDeep => MAX_DEPTH,
        _ => MOST_LEVELS,
    }
}

// How many nodes may be counted.
fn may_have(cause: Cause) -> u32 {
    match cause {
        Cause::TooManyNodes => MAX_NODES,
        Cause::TooManyWrites => MAX_WRITES,
        Cause::TooManyChecks => MAX_CHECKS as u32,
        Cause::TooManyRetires => MAX_RETIRES as u32,
        _ => 0,
    }
}

// The first node that is too deep, or one too many. Answers how many more there may be.
#[cycle(plan)]
fn find_in_plan(alloc: Global, tx: &Tx, limit: Limit, depth: u32, left: u32) -> Result<u32, Amiss>
    ensures amiss { IfErr result (IsAmissIn (tx_form tx.now)) }
    ensures cause { IfErr result (λ amiss. TellsCause limit.cause limit.vars limit.total amiss.expected) }
{
    if depth == 0 {
        return match limit.cause {
            Cause::TooDeep => Err(too_deep(alloc, limit)),
            _ => Ok(left),
        };
    }
    let left = match excess_in(tx, limit) {
        Some(excess) => match left.checked_sub(1) {
            Some(left) => left,
            None => return Err(past(alloc, excess, limit.vars)),
        },
        None => left,
    };
    find_below(alloc, tx, limit, depth - 1, left)
}

// The same in the nodes that stand below one.
#[cycle(plan)]
fn find_below(alloc: Global, tx: &Tx, limit: Limit, depth: u32, left: u32) -> Result<u32, Amiss>
    ensures amiss { IfErr result (IsAmissIn (tx_form tx.now)) }
    ensures cause { IfErr result (λ amiss. TellsCause limit.cause limit.vars limit.total amiss.expected) }
{
    match tx {
        Tx::Seq(txs) => {
            let found = find_in_row(alloc, txs, limit, depth, left);
            inside(PointerStep::Key("seq"), found)
        }
        Tx::When { then, other, .. } => {
            let first = find_in_plan(alloc, then, limit, depth, left);
            let left = inside(
                PointerStep::Key("when"),
                inside(PointerStep::Item(1), first),
            )?;
            let second = find_in_plan(alloc, other, limit, depth, left);
            inside(
                PointerStep::Key("when"),
                inside(PointerStep::Item(2), second),
            )
        }
        Tx::OrElse(first, second) => {
            let first = find_in_plan(alloc, first, limit, depth, left);
            let left = inside(
                PointerStep::Key("orelse"),
                inside(PointerStep::Item(0), first),
            )?;
            let second = find_in_plan(alloc, second, limit, depth, left);
            inside(
                PointerStep::Key("orelse"),
                inside(PointerStep::Item(1), second),
            )
        }
        _ => Ok(left),
    }
}

#[cycle(plan)]
fn find_in_row(alloc: Global, txs: &[Tx], limit: Limit, depth: u32, left: u32) -> Result<u32, Amiss>
    ensures amiss { IfErr result (IsAmissIn (array_of (map tx_form txs.now))) }
    ensures cause { IfErr result (λ amiss. TellsCause limit.cause limit.vars limit.total amiss.expected) }
{
    let mut left = left;
    for (i, tx) in txs.iter().enumerate() {
        let found = find_in_plan(alloc, tx, limit, depth, left);
        left = inside(PointerStep::Item(i as u64), found)?;
    }
    Ok(left)
}

// That a node is deeper than may be.
fn too_deep(alloc: Global, limit: Limit) -> Amiss
    ensures amiss { (tx : Tx) → IsAmissIn (tx_form tx) result }
    ensures cause { TellsCause Cause.TooDeep limit.vars limit.total result.expected }
{
    past(alloc, Excess::Depth(limit.total), limit.vars)
}

// That this of a node is past a limit.
fn past(alloc: Global, excess: Excess, vars: u16) -> Amiss
    ensures amiss { (tx : Tx) → IsPastLimit vars tx excess → IsAmissIn (tx_form tx) result }
    ensures cause { (total : ℕ) → HasTotal total excess → TellsCause (cause_of excess) vars total result.expected }
{
    Amiss::here(alloc, Expected::Plan { excess, vars })
}

// What is told of a node that a limit counts.
fn excess_in(tx: &Tx, limit: Limit) -> Option<Excess>
    ensures over { IfSome result (IsPastLimit limit.vars tx.now) }
    ensures cause { IfSome result (λ excess. cause_of excess ≡ limit.cause) }
    ensures total { IfSome result (HasTotal limit.total) }
{
    let Limit { cause, vars, total } = limit;
    if !is_counted(tx, cause, vars) {
        return None;
    }
    match cause {
        Cause::TooDeep => None,
        Cause::TooManyNodes => Some(Excess::Nodes(total)),
        Cause::TooManyWrites => Some(Excess::Writes(total)),
        Cause::TooManyChecks => Some(Excess::Checks(total)),
        Cause::TooManyRetires => Some(Excess::Retires(total)),
        Cause::BadRegister => Some(Excess::Register(bad_register_in(tx)?)),
        Cause::BadVariable => Some(Excess::Variable {
            var: variable_in(tx)?,
            vars,
        }),
        Cause::BadStep => Some(Excess::Step(step_in(tx)?)),
        Cause::BadArguments => Some(Excess::Arguments(arguments_in(tx)?)),
        Cause::UnknownName => Some(Excess::Name { vars }),
    }
}

// Whether a limit counts this node.
pub(crate) fn is_counted(tx: &Tx, cause: Cause, vars: u16) -> bool
    ensures { result ≡ is_counted cause step_arities vars (builtin_names vars) tx.now }
{
    match cause {
        Cause::TooDeep => false,
        Cause::TooManyNodes => true,
        Cause::TooManyWrites => matches!(tx, Tx::Write { .. }),
        Cause::TooManyChecks => matches!(tx, Tx::Check { .. }),
        Cause::BadRegister => has_bad_register(tx),
        Cause::BadVariable => has_bad_variable(tx, vars),
        Cause::BadStep => has_bad_step(tx),
        Cause::BadArguments => has_bad_arguments(tx),
        Cause::UnknownName => has_unknown_name(tx, vars),
        Cause::TooManyRetires => matches!(tx, Tx::Retire { .. }),
    }
}

// How many steps there are, each of which takes as many registers as `ARGUMENTS`.
const STEPS: u16 = 3;

const ARGUMENTS: usize = 2;

fn has_bad_register(tx: &Tx) -> bool
    ensures { result ≡ has_bad_register tx.now }
{
    match tx {
        Tx::Put { reg, .. } | Tx::Read { reg, .. } | Tx::Write { reg, .. } | Tx::When { reg, .. } =>
            *reg as usize >= REGISTERS,
        Tx::Step { args, out, .. } => *out as usize >= REGISTERS || any_bad_register(args),
        _ => false,
    }
}

// Whether one of these is no register.
fn any_bad_register(regs: &[u8]) -> bool
    ensures { result ≡ list_any is_no_register regs.now }
{
    regs.iter().any(|reg| *reg as usize >= REGISTERS)
}

fn has_bad_variable(tx: &Tx, vars: u16) -> bool
    ensures { result ≡ has_bad_variable vars tx.now }
{
    match tx {
        Tx::Read { var, .. } | Tx::Write { var, .. } => *var >= vars,
        _ => false,
    }
}

fn has_bad_step(tx: &Tx) -> bool
    ensures { result ≡ has_bad_step step_arities tx.now }
{
    match tx {
        Tx::Step { index, .. } => *index >= STEPS,
        _ => false,
    }
}

fn has_bad_arguments(tx: &Tx) -> bool
    ensures { result ≡ has_bad_arguments step_arities tx.now }
{
    match tx {
        Tx::Step { index, args, .. } => *index < STEPS && args.len() != ARGUMENTS,
        _ => false,
    }
}

fn has_unknown_name(tx: &Tx, vars: u16) -> bool
    ensures { result ≡ has_unknown_name (builtin_names vars) tx.now }
{
    match tx {
        Tx::Check { name } | Tx::Retire { name } => !is_known(name, vars),
        _ => false,
    }
}

// Whether a store of so many variables has an invariant of this name.
fn is_known(name: &Name, vars: u16) -> bool
    ensures { result ≡ has_name (builtin_names vars) name.now }
{
    let [nonneg, ordered, sum] = names();
    if vars < 1 {
        return false;
    }
    if *name == nonneg {
        return true;
    }
    if vars < 2 {
        return false;
    }
    if *name == sum {
        return true;
    }
    if vars < 4 {
        return false;
    }
    if *name == ordered {
        return true;
    }
    false
}
