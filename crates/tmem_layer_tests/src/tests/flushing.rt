//! Batches that tests flush.
ghost use Rattle.std.specs.Bool.{OnTrue};
ghost use Rattle.std.specs.Prelude.{◌≡◌, ◌<◌, [], ◌∷◌, false, All, IfOk};
ghost use Rattle.tmem_journal.specs.Held.{journal_layout, journal_state};
ghost use Rattle.tmem_effect.specs.State.{AreApart, StaysWithin, is_empty};

use super::effects::effect_of;
use std::alloc::Global;
use tmem_disk::Disk;
use tmem_effect::Effect;
use tmem_fault::Fault;
use tmem_journal::Journal;
use tmem_state::Batch;

/// Flushes one record of these writes. `Full` where there is none that may be flushed.
pub(super) fn flush<D: Disk>(
    alloc: Global,
    journal: &mut Journal<D>,
    writes: &[(u16, i64)],
) -> Result<u64, Fault> {
    match effect_of(writes, &[], &[]) {
        Some(made) => flush_effect(alloc, journal, &made.effect),
        None => Err(Fault::Full),
    }
}

/// Flushes one record that checks this name and writes nothing. `Full` where it is no name.
pub(super) fn flush_name<D: Disk>(
    alloc: Global,
    journal: &mut Journal<D>,
    name: &str,
) -> Result<u64, Fault> {
    match effect_of(&[], &[name], &[]) {
        Some(made) => flush_effect(alloc, journal, &made.effect),
        None => Err(Fault::Full),
    }
}

/// Flushes two records, each of which writes a number to one variable.
pub(super) fn flush_two<D: Disk>(
    alloc: Global,
    journal: &mut Journal<D>,
    one: u16,
    other: u16,
    number: i64,
) -> Result<u64, Fault> {
    let first = effect_to(one, number);
    let second = effect_to(other, number);
    if !may_flush_two(journal, &first, &second) {
        return Err(Fault::Full);
    }
    match batch_of_two(alloc, &first, &second) {
        Ok(batch) => journal.flush(&batch),
        Err(fault) => Err(fault),
    }
}

fn flush_effect<D: Disk>(
    alloc: Global,
    journal: &mut Journal<D>,
    effect: &Effect,
) -> Result<u64, Fault>
    requires { AreApart effect.now.names effect.now.retired }
{
    if effect.is_empty() || !may_flush(journal, effect) {
        return Err(Fault::Full);
    }
    match batch_of(alloc, effect) {
        Ok(batch) => journal.flush(&batch),
        Err(fault) => Err(fault),
    }
}

/// The batch of one record.
fn batch_of(alloc: Global, effect: &Effect) -> Result<Batch, Fault>
    requires not_empty { is_empty effect.now ≡ false }
    requires apart { AreApart effect.now.names effect.now.retired }
    ensures { IfOk result (λ batch. batch ≡ effect.now ∷ []) }
{
    let mut batch = Batch::new(alloc)?;
    if batch.push(effect) {
        Ok(batch)
    } else {
        Err(Fault::Full)
    }
}

/// The batch of two records that only write.
fn batch_of_two(alloc: Global, first: &Effect, second: &Effect) -> Result<Batch, Fault>
    requires not_empty { (is_empty first.now ≡ false) × (is_empty second.now ≡ false) }
    requires first { (first.now.names ≡ []) × (first.now.retired ≡ []) }
    requires second { (second.now.names ≡ []) × (second.now.retired ≡ []) }
    ensures { IfOk result (λ batch. batch ≡ first.now ∷ second.now ∷ []) }
{
    let mut batch = batch_of(alloc, first)?;
    if batch.push(second) {
        Ok(batch)
    } else {
        Err(Fault::Full)
    }
}

/// Whether a journal stays within the limits with this effect, which is over its variables.
fn may_flush<D: Disk>(journal: &Journal<D>, effect: &Effect) -> bool
    ensures within { OnTrue result (StaysWithin (journal_state journal.now) (effect.now ∷ [])) }
    ensures variables { OnTrue result (All (λ w. w.0 < (journal_layout journal.now).vars) effect.now.writes) }
{
    let state = journal.state();
    // brings in that there are not too many names
    let _ = state.names();
    state.count() < u64::MAX && state.has_room_for(effect) && is_within(journal, effect)
}

/// The same with two effects that have no names.
fn may_flush_two<D: Disk>(journal: &Journal<D>, first: &Effect, second: &Effect) -> bool
    requires first { (first.now.names ≡ []) × (first.now.retired ≡ []) }
    requires second { (second.now.names ≡ []) × (second.now.retired ≡ []) }
    ensures within { OnTrue result (StaysWithin (journal_state journal.now) (first.now ∷ second.now ∷ [])) }
    ensures variables { OnTrue result (All (λ e. All (λ w. w.0 < (journal_layout journal.now).vars) e.writes) (first.now ∷ second.now ∷ [])) }
{
    let state = journal.state();
    // brings in that there are not too many names
    let _ = state.names();
    state.count() < u64::MAX - 1 && is_within(journal, first) && is_within(journal, second)
}

/// Whether an effect is over the variables of a journal.
fn is_within<D: Disk>(journal: &Journal<D>, effect: &Effect) -> bool
    ensures { OnTrue result (All (λ w. w.0 < (journal_layout journal.now).vars) effect.now.writes) }
{
    let vars = journal.layout().vars;
    effect.writes.as_slice().iter().all(|w| w.0 < vars)
}

/// An effect that writes a number to a variable.
fn effect_to(var: u16, number: i64) -> Effect
    ensures writes { result.writes ≡ (var, number) ∷ [] }
    ensures names { result.names ≡ [] }
    ensures retired { result.retired ≡ [] }
{
    let mut effect = Effect::new();
    effect.writes.put(var, number);
    effect
}

/// How many variables the run goes over.
const RUN_VARS: u16 = 200;

/// The variable that a batch of the run writes. The pages take turns, and each variable is met within 200 batches.
fn run_var(batch: u16) -> u16 {
    batch % RUN_VARS * 37 % RUN_VARS
}

/// What a batch of the run writes to its variable.
fn run_number(batch: u16) -> i64 {
    i64::from(batch) + 1
}

/// Whether batches are flushed until there are so many. Where the log is full, a checkpoint is made.
pub(super) fn is_run_flushed<D: Disk>(
    alloc: Global,
    journal: &mut Journal<D>,
    batches: u16,
) -> bool {
    for batch in 0..batches {
        let is_new = journal.count() <= u64::from(batch);
        if is_new && !is_flushed_of_run(alloc, journal, batch) {
            return false;
        }
    }
    true
}

fn is_flushed_of_run<D: Disk>(alloc: Global, journal: &mut Journal<D>, batch: u16) -> bool {
    let write = [(run_var(batch), run_number(batch))];
    let flushed = match flush(alloc, journal, &write) {
        Err(Fault::LogFull) if journal.checkpoint().is_ok() => flush(alloc, journal, &write),
        answer => answer,
    };
    flushed == Ok(u64::from(batch) + 1)
}

/// Whether each variable has what a run of so many batches leaves in it.
pub(super) fn holds_run<D: Disk>(journal: &Journal<D>, batches: u16) -> bool {
    let values = journal.state().values();
    for (var, value) in values.iter().enumerate() {
        if *value != left_by_run(var, batches) {
            return false;
        }
    }
    true
}

/// What a run of so many batches leaves in a variable: what the last batch wrote that writes it.
fn left_by_run(var: usize, batches: u16) -> i64 {
    let mut left = 0;
    for batch in 0..batches {
        if usize::from(run_var(batch)) == var {
            left = run_number(batch);
        }
    }
    left
}
