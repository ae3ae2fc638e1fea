//! What of a script a run would refuse: numbers that no store has, and transactions that break a limit.
ghost use Rattle.std.specs.Prelude.{◌≡◌, ◌≤◌, ◌<◌, ◌+◌, ◌↔◌, ◌⊎◌, ℕ, [], All, IfOk, IsTrue, OnOk, Some};
ghost use Rattle.serde_json.specs.Data.{Data};
ghost use Rattle.tmem_fault.specs.declared.fault.Cause.{Cause};
ghost use Rattle.tmem_script.specs.Scripts.{IsScript};
ghost use Rattle.tmem_tree.specs.declared.tx.Tx.{Tx};
ghost use Rattle.tmem_explain.specs.Flaws.{IsFlawOf};
ghost use Rattle.tmem_explain.specs.Limits.{BreaksLimit, HasFlaw, IsLimitFlaw, KeepsFlaws, KeepsLimits, MayHaveSlots, MayHaveVars, TellsLimit, TellsLimits, TellsSlots, TellsVars, begun_at};

use crate::amiss::Amiss;
use crate::expected::Expected;
use crate::flaw::Flaw;
use crate::plan::{begun_at, plan_flaw};
use crate::total::breaks;
use std::alloc::{AllocError, Global};
use tmem_fault::Cause;
use tmem_record::{LEAST_SLOTS, MOST_SLOTS, MOST_VARS};
use tmem_requests::PointerStep;
use tmem_script::Script;
use tmem_tree::Tx;

/// A flaw for each number that no store has, and one for each limit that a transaction breaks.
pub(crate) fn flaws_of_script(alloc: Global, script: &Script) -> Result<Vec<Flaw>, AllocError>
    ensures told { IfOk result (λ flaws. (d : Data) → IsScript script.now.vars script.now.slots script.now.entries.items d → All (IsFlawOf d) flaws.items) }
    ensures limits { IfOk result (λ flaws. TellsLimits script.now.vars script.now.slots script.now.entries.items flaws.items) }
    ensures some { IfOk result (λ flaws. KeepsLimits script.now.vars script.now.slots script.now.entries.items → flaws.items ≡ []) }
    ensures fine { IfOk result (λ flaws. flaws.items ≡ [] → KeepsLimits script.now.vars script.now.slots script.now.entries.items) }
{
    let mut flaws = Vec::new(alloc);
    note_layout(alloc, script, &mut flaws)?;
    note_plans(alloc, script, &mut flaws)?;
    Ok(flaws)
}

// Notes each number of a script that no store has.
fn note_layout(alloc: Global, script: &Script, flaws: &mut Vec<Flaw>) -> Result<(), AllocError>
    ensures only { All (IsLimitFlaw script.now.vars script.now.slots script.now.entries.items) flaws.old.items → OnOk result (All (IsLimitFlaw script.now.vars script.now.slots script.now.entries.items) flaws.new.items) }
    ensures of_vars { OnOk result (MayHaveVars script.now.vars ⊎ HasFlaw TellsVars flaws.new.items) }
    ensures of_slots { OnOk result (MayHaveSlots script.now.slots ⊎ HasFlaw TellsSlots flaws.new.items) }
{
    note_vars(alloc, script, flaws)?;
    note_slots(alloc, script, flaws)?;
    Ok(())
}

// Notes the number of variables of a script, if no store has so many.
fn note_vars(alloc: Global, script: &Script, flaws: &mut Vec<Flaw>) -> Result<(), AllocError>
    ensures only { All (IsLimitFlaw script.now.vars script.now.slots script.now.entries.items) flaws.old.items → OnOk result (All (IsLimitFlaw script.now.vars script.now.slots script.now.entries.items) flaws.new.items) }
    ensures told { OnOk result (MayHaveVars script.now.vars ⊎ HasFlaw TellsVars flaws.new.items) }
{
    if has_vars(script) {
        return Ok(());
    }
    let amiss = Amiss::here(alloc, Expected::Vars);
    let flaw = amiss.behind(PointerStep::Key("vars")).into_flaw();
    let Expected::Vars = flaw.expected else {
        return Err(AllocError);
    };
    flaws.push(flaw)?;
    Ok(())
}

// Whether a store may have so many.
fn has_vars(script: &Script) -> bool
    ensures { IsTrue result ↔ MayHaveVars script.now.vars }
{
    1 <= script.vars && script.vars <= MOST_VARS
}

// Notes the number of log slots of a script, if no store has so many.
fn note_slots(alloc: Global, script: &Script, flaws: &mut Vec<Flaw>) -> Result<(), AllocError>
    ensures only { All (IsLimitFlaw script.now.vars script.now.slots script.now.entries.items) flaws.old.items → OnOk result (All (IsLimitFlaw script.now.vars script.now.slots script.now.entries.items) flaws.new.items) }
    ensures kept { OnOk result (KeepsFlaws flaws.old.items flaws.new.items) }
    ensures told { OnOk result (MayHaveSlots script.now.slots ⊎ HasFlaw TellsSlots flaws.new.items) }
{
    if has_slots(script) {
        return Ok(());
    }
    let amiss = Amiss::here(alloc, Expected::Slots);
    let flaw = amiss.behind(PointerStep::Key("slots")).into_flaw();
    let Expected::Slots = flaw.expected else {
        return Err(AllocError);
    };
    flaws.push(flaw)?;
    Ok(())
}

// Whether a store may have so many.
fn has_slots(script: &Script) -> bool
    ensures { IsTrue result ↔ MayHaveSlots script.now.slots }
{
    LEAST_SLOTS <= script.slots && script.slots <= MOST_SLOTS
}

// Notes each limit that a transaction breaks.
fn note_plans(alloc: Global, script: &Script, flaws: &mut Vec<Flaw>) -> Result<(), AllocError>
    ensures only { All (IsLimitFlaw script.now.vars script.now.slots script.now.entries.items) flaws.old.items → OnOk result (All (IsLimitFlaw script.now.vars script.now.slots script.now.entries.items) flaws.new.items) }
    ensures kept { OnOk result (KeepsFlaws flaws.old.items flaws.new.items) }
    ensures each { OnOk result ((i : ℕ) (tx : Tx) (cause : Cause) → begun_at script.now.entries.items i ≡ Some tx → BreaksLimit script.now.vars tx cause → HasFlaw (TellsLimit script.now.vars i tx cause) flaws.new.items) }
{
    for i in 0..script.entries.len() {
        note_entry(alloc, script, i, flaws)?;
    }
    Ok(())
}

// Notes each limit that the transaction of an entry breaks, if it begins one.
fn note_entry(
    alloc: Global,
    script: &Script,
    index: usize,
    flaws: &mut Vec<Flaw>,
) -> Result<(), AllocError>
    ensures only { All (IsLimitFlaw script.now.vars script.now.slots script.now.entries.items) flaws.old.items → OnOk result (All (IsLimitFlaw script.now.vars script.now.slots script.now.entries.items) flaws.new.items) }
    ensures kept { OnOk result (KeepsFlaws flaws.old.items flaws.new.items) }
    ensures each { OnOk result ((tx : Tx) (cause : Cause) → begun_at script.now.entries.items index ≡ Some tx → BreaksLimit script.now.vars tx cause → HasFlaw (TellsLimit script.now.vars index tx cause) flaws.new.items) }
{
    match begun_at(&script.entries, index) {
        Some(tx) => note_limits(alloc, script, index, tx, flaws),
        None => Ok(()),
    }
}

// Notes each limit that this transaction of an entry breaks.
fn note_limits(
    alloc: Global,
    script: &Script,
    index: usize,
    tx: &Tx,
    flaws: &mut Vec<Flaw>,
) -> Result<(), AllocError>
    requires { begun_at script.now.entries.items index ≡ Some tx.now }
    ensures only { All (IsLimitFlaw script.now.vars script.now.slots script.now.entries.items) flaws.old.items → OnOk result (All (IsLimitFlaw script.now.vars script.now.slots script.now.entries.items) flaws.new.items) }
    ensures kept { OnOk result (KeepsFlaws flaws.old.items flaws.new.items) }
    ensures each { OnOk result ((cause : Cause) → BreaksLimit script.now.vars tx.now cause → HasFlaw (TellsLimit script.now.vars index tx.now cause) flaws.new.items) }
{
    note_limit(alloc, script, index, tx, Cause::TooDeep, flaws)?;
    note_limit(alloc, script, index, tx, Cause::TooManyNodes, flaws)?;
    note_limit(alloc, script, index, tx, Cause::TooManyWrites, flaws)?;
    note_limit(alloc, script, index, tx, Cause::TooManyChecks, flaws)?;
    note_limit(alloc, script, index, tx, Cause::BadRegister, flaws)?;
    note_limit(alloc, script, index, tx, Cause::BadVariable, flaws)?;
    note_limit(alloc, script, index, tx, Cause::BadStep, flaws)?;
    note_limit(alloc, script, index, tx, Cause::BadArguments, flaws)?;
    note_limit(alloc, script, index, tx, Cause::UnknownName, flaws)?;
    note_limit(alloc, script, index, tx, Cause::TooManyRetires, flaws)?;
    Ok(())
}

// Notes that this transaction of an entry breaks the limit of a cause, if it does.
fn note_limit(
    alloc: Global,
    script: &Script,
    index: usize,
    tx: &Tx,
    cause: Cause,
    flaws: &mut Vec<Flaw>,
) -> Result<(), AllocError>
    requires { begun_at script.now.entries.items index ≡ Some tx.now }
    ensures only { All (IsLimitFlaw script.now.vars script.now.slots script.now.entries.items) flaws.old.items → OnOk result (All (IsLimitFlaw script.now.vars script.now.slots script.now.entries.items) flaws.new.items) }
    ensures kept { OnOk result (KeepsFlaws flaws.old.items flaws.new.items) }
    ensures told { OnOk result (BreaksLimit script.now.vars tx.now cause → HasFlaw (TellsLimit script.now.vars index tx.now cause) flaws.new.items) }
{
    if !breaks(tx, cause, script.vars) {
        return Ok(());
    }
    let flaw = limit_flaw(alloc, script, index, cause)?;
    flaws.push(flaw)?;
    Ok(())
}

// Where that is.
fn limit_flaw(
    alloc: Global,
    script: &Script,
    index: usize,
    cause: Cause,
) -> Result<Flaw, AllocError>
    ensures told { IfOk result (λ flaw. (d : Data) → IsScript script.now.vars script.now.slots script.now.entries.items d → IsFlawOf d flaw) }
    ensures limit { IfOk result (λ flaw. (tx : Tx) → begun_at script.now.entries.items index ≡ Some tx → TellsLimit script.now.vars index tx cause flaw) }
{
    let flaw = plan_flaw(alloc, script, index, cause);
    match flaw.expected {
        Expected::Plan { .. } => Ok(flaw),
        _ => Err(AllocError),
    }
}
