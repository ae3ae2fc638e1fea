// The core.
ghost use Rattle.std.specs.Prelude.{List, ℕ, ℤ, ◌≡◌, ◌≢◌, ◌≤◌, ◌<◌, ◌^◌, ◌↔◌, ◌+◌, ◌-◌, true, false, [], ◌++◌, length, drop, slice_get, slice_index_or, Some, All, IsTrue, IfSome, IfNone, IfOk, IfErr};
ghost use Rattle.std.specs.Map.{keys_of};
ghost use Rattle.std.proofs.Props.{props};
ghost use Rattle.tmem_effect.specs.Names.{has_name, without_names, AreApart, AreRegistered, AreRegistered-prop};
ghost use Rattle.tmem_effect.specs.State.{apply};
ghost use Rattle.tmem_state.specs.declared.name_set.TheConstants.{MAX_NAMES};
ghost use Rattle.tmem_invariants.specs.Meanings.{Meanings, AllHold, IsSound, first_false};
ghost use Rattle.tmem_invariants.specs.Indices.{AreIndicesOf};
ghost use Rattle.tmem_tentative.specs.Fits.{IsForVariables, IsForNames};
ghost use Rattle.tmem_core.specs.Opening.{fault_against, IsOpeningRefusal};
ghost use Rattle.tmem_core.specs.SettleAnswer.{has_changed};
ghost use Rattle.tmem_effect.specs.Loggable.{IsLoggable, IsLoggable-prop};
ghost use Rattle.tmem_core.specs.History.{IsFolded, effects_of};
ghost use Rattle.tmem_core.specs.Taking.{IsTaken, BatchHasRoom};

use crate::decision::Decision;
use crate::history::History;
use crate::trial::first_false;
use crate::waiting::{MAX_WAITING, Waiting};
use std::alloc::{AllocError, Global};
use std::snapshot::Snapshot;
use tmem_effect::{Effect, MAX_WRITES};
use tmem_fault::{Fault, Name};
use tmem_invariants::{Invariants, indices_of};
use tmem_state::{BATCH_BYTES, Batch, MAX_RECORD_BYTES, MAX_RECORDS, State};
use tmem_tentative::{Attempt, Ending, Probe, Reads};
use tmem_tree::Settled;

/// The present state, and the effects that are committed and not known durable. Contracts speak of its parts by the words
/// of `specs/Held`.
pub struct Core<T: Invariants> {
    table: T,
    state: State,
    // the indices in the table of the registered names
    indices: u64,
    waiting: Waiting,
    durable: u64,
    is_shut: bool,
    // where a settling puts the values that it writes over
    olds: [(u16, i64); MAX_WRITES],

    // what it was made of, and what it committed since: for clauses alone, they take no memory
    opened: Snapshot<State>,
    history: History,

    /// The table is over the variables of the state.
    pub ghost sized: { T.vars table ≡ length state.values },

    /// Each registered name is in the table.
    pub ghost known: { All (λ name. IsTrue (has_name (T.names table) name)) state.names },

    /// The set of indices has exactly theirs.
    pub ghost indexed: { AreIndicesOf state.names (T.names table) indices },

    /// Each is true of the present map.
    pub ghost sound: { (m : Meanings) → T.is_stated table m → AllHold m state.names state.values },

    /// What is committed is durable or waits.
    pub ghost counted: { state.count ≡ durable + length waiting },

    /// The state is what all that it committed makes of the state that it was made of, within the limits after each of these, and
    /// those behind the durable number wait.
    pub ghost folded: { ∥ IsFolded opened.value (effects_of history) durable waiting state ∥₁ },

    /// The count has 64 bits.
    pub ghost countable: { state.count < 2 ^ 64 },

    /// At most `MAX_WAITING` wait.
    pub ghost few: { length waiting ≤ 2 ^ 8 },

    /// At most 64 names are registered, in ascending order.
    pub ghost registered: { AreRegistered state.names } by { Prim.hlevel (props, AreRegistered-prop) },

    /// Each that waits changes something, and no variable that is not there.
    pub ghost each: { All (IsLoggable (length state.values)) waiting } by { Prim.hlevel (props, IsLoggable-prop) },
}

// By hand, so that a function that drops one makes one call.
impl<T: Invariants + Drop> Drop for Core<T> {
    fn drop(self) {
        let Core {
            table: _table,
            state: _state,
            indices: _indices,
            waiting: _waiting,
            durable: _durable,
            is_shut: _is_shut,
            olds: _olds,
            opened: _opened,
            history: _history,
        } = self;
    }
}

impl<T: Invariants + Drop> Core<T> {
    ghost use Rattle.tmem_core.specs.Held.{core_view, core_state, waiting_of, durable_of, is_shut_of, core_table, new_view, committing, knowing};
    ghost use Rattle.tmem_core.specs.Opening.{opening_fault};
    ghost use Rattle.tmem_core.specs.Program.{Program, IsProgramOf};
    ghost use Rattle.tmem_core.specs.SettleAnswer.{normal_answer, sound_answer, committed_by, IsRefusal};
    ghost use Rattle.tmem_core.specs.Decisions.{answer_of, RetriesAt};
    ghost use Rattle.tmem_core.specs.Settling.{Settles};

    /// A core of this state, all of it durable, with room for all that may wait: no other call takes memory. Refused with
    /// `Missing` and the first registered name, by bytes, that the table lacks; else with `Broken` and the first one in
    /// the table's order that is registered and false; and for want of memory. The table is handed back then.
    pub fn new(alloc: Global, state: &State, table: T) -> Result<Core<T>, (Fault, T)>
        requires vars { T.vars table ≡ length state.now.values }
        ensures view { IfOk result (λ core. core_view core ≡ new_view state.now table) }
        ensures back { IfErr result (λ refused. refused.1 ≡ table) }
        ensures refused { IfErr result (λ refused. IsOpeningRefusal refused.0) }
        ensures sound { (m : Meanings) → T.is_stated table m → IfOk result (λ core. IsSound m (T.names table) state.now.names state.now.values) }
        ensures unsound { (m : Meanings) → T.is_stated table m → IfErr result (λ refused. refused.0 ≢ Fault.Memory → ¬ IsSound m (T.names table) state.now.names state.now.values) }
        ensures fault { (p : Program) → IsProgramOf T.Invariants table p
            → IfErr result (λ refused. refused.0 ≢ Fault.Memory → opening_fault p state.now ≡ Some refused.0) }
        ensures memory { (m : Meanings) → T.is_stated table m → IfErr result (λ refused. refused.0 ≡ Fault.Memory → IsSound m (T.names table) state.now.names state.now.values) }
    {
        let indices = indices_of(&table, state.names());
        if let Some(fault) = fault_against(&table, state, indices) {
            return Err((fault, table));
        }
        match copies(alloc, state) {
            Ok((state, waiting)) => {
                let durable = state.count();
                let opened = Snapshot::of(&state);
                Ok(Core {
                    table,
                    state,
                    indices,
                    waiting,
                    durable,
                    is_shut: false,
                    olds: [(0, 0); MAX_WRITES],
                    opened,
                    history: History::Start,
                })
            }
            Err(_) => Err((Fault::Memory, table)),
        }
    }

    /// The table that it was made with, once the core is not needed any more.
    pub fn into_table(self) -> T
        ensures { result ≡ core_table self }
    {
        let Core {
            table,
            state: _state,
            indices: _indices,
            waiting: _waiting,
            durable: _durable,
            is_shut: _is_shut,
            olds: _olds,
            opened: _opened,
            history: _history,
        } = self;
        table
    }

    /// The present value of a variable, also of a core that is shut.
    pub fn peek(&self, var: u16) -> i64
        requires { var < length (core_state self.now).values }
        ensures { slice_get (core_state self.now).values var ≡ Some result }
    {
        self.state.value(var)
    }

    /// Whether an invariant holds on these values, which a transaction sees at its point: also in a core that is shut. The present
    /// values count for nothing. It takes no memory.
    pub fn probe(&self, probe: &Probe) -> bool
        requires named { has_name (T.names (core_table self.now)) probe.now.name ≡ true }
        requires filled { (index : ℕ) → slice_get (T.names (core_table self.now)) index ≡ Some probe.now.name
            → length probe.now.values ≡ length (slice_index_or (T.footprints (core_table self.now)) index []) }
        ensures { (m : Meanings) → T.is_stated (core_table self.now) m → result ≡ m.test probe.now.name probe.now.values }
    {
        match self.table.index_of(&probe.name) {
            Some(index) => self.table.answer(index, probe.values.as_slice()),
            None => unreachable!(),
        }
    }

    /// How many transactions were committed.
    pub fn count(&self) -> u64
        ensures { result ≡ (core_state self.now).count }
    {
        self.state.count()
    }

    /// How many of them are known durable.
    pub fn durable(&self) -> u64
        ensures { result ≡ durable_of self.now }
    {
        self.durable
    }

    /// Whether it was shut.
    pub fn is_shut(&self) -> bool
        ensures { result ≡ is_shut_of self.now }
    {
        self.is_shut
    }

    /// Whether a name is registered.
    pub fn has(&self, name: &Name) -> bool
        ensures { result ≡ has_name (core_state self.now).names name.now }
    {
        self.state.has(name)
    }

    /// Every later attempt is refused as `Closed`.
    pub fn shut(&mut self)
        ensures { core_view self.new ≡ record (core_view self.old) { is_shut = true } }
    {
        self.is_shut = true;
    }

    /// Settles an attempt by the present state, and commits its effect where it commits. One that checked an invariant where that
    /// was false is answered `Refused` with its name. An invariant that it retires is not tested at its end. Refused with `Closed`
    /// where the core is shut; with `Conflict` where a value that was read is not the present one; with `Full` where as many as
    /// may wait do; with `Spent` where no greater count is left. Nothing changes then, nor where the answer is no `Committed`.
    pub fn settle(&mut self, attempt: &Attempt) -> Result<Settled, Fault>
        requires variables { IsForVariables (length (core_state self.old).values) attempt.now }
        requires names { IsForNames (T.names (core_table self.old)) attempt.now }
        ensures { Settles self.old self.new attempt.now result }
    {
        let decision = self.decide(attempt)?;
        Ok(decision.settled(&attempt.registers))
    }

    /// Settles an attempt as `settle` does, and is refused as it is. The answer leaves out the registers: they are those of the
    /// attempt, and are not copied.
    pub fn decide(&mut self, attempt: &Attempt) -> Result<Decision, Fault>
        requires variables { IsForVariables (length (core_state self.old).values) attempt.now }
        requires names { IsForNames (T.names (core_table self.old)) attempt.now }
        ensures settles { Settles self.old self.new attempt.now (answer_of result attempt.now.registers) }
        ensures retries { RetriesAt (core_state self.old).count result }
    {
        if self.is_shut {
            return Err(Fault::Closed);
        }
        if has_changed(&self.state, &attempt.reads) {
            return Err(Fault::Conflict);
        }
        match attempt.ending {
            Ending::Normal => self.settle_normal(&attempt.effect),
            Ending::Retry => Ok(Decision::Retry(self.state.count())),
            Ending::Abort(code) => Ok(Decision::Aborted(code)),
            Ending::Broken(name) => Ok(Decision::Refused(name)),
        }
    }

    // Settles an attempt that ended normally on the present values.
    fn settle_normal(&mut self, effect: &Effect) -> Result<Decision, Fault>
        requires variables { All (λ var. var < length (core_state self.old).values) (keys_of effect.now.writes) }
        requires names { All (λ name. IsTrue (has_name (T.names (core_table self.old)) name)) effect.now.names }
        requires apart { AreApart effect.now.names effect.now.retired }
        ensures answer { (p : Program) → IsProgramOf T.Invariants (core_table self.old) p
            → (registers : List ℤ) → answer_of result registers ≡ normal_answer p (core_state self.old) (durable_of self.old) effect.now registers }
        ensures refused { IfErr result IsRefusal }
        ensures retries { RetriesAt (core_state self.old).count result }
        ensures view { (registers : List ℤ) → core_view self.new ≡ committing (committed_by (answer_of result registers) effect.now) (core_view self.old) }
    {
        let kept = self.indices_kept(effect);
        let proposed = indices_of(&self.table, effect.names.as_slice());
        match self.first_broken(effect, kept, proposed) {
            Some(name) => Ok(Decision::Refused(name)),
            None => self.commit(effect, kept | proposed),
        }
    }

    // The indices of the registered names that an effect does not retire. (Most retire none.)
    fn indices_kept(&self, effect: &Effect) -> u64
        ensures { AreIndicesOf (without_names (core_state self.now).names effect.now.retired) (T.names (core_table self.now)) result }
    {
        let retired = effect.retired.as_slice();
        if retired.is_empty() {
            return self.indices;
        }
        self.indices & !indices_of(&self.table, retired)
    }

    // The first name, in the table's order, that is false of the map that an effect would make, of the registered ones that it
    // does not retire and of those that it proposes: they have these indices. The effect is written into the present values for the
    // test alone.
    fn first_broken(&mut self, effect: &Effect, kept: u64, proposed: u64) -> Option<Name>
        requires variables { All (λ var. var < length (core_state self.old).values) (keys_of effect.now.writes) }
        requires kept { AreIndicesOf (without_names (core_state self.old).names effect.now.retired) (T.names (core_table self.old)) kept }
        requires proposed { AreIndicesOf effect.now.names (T.names (core_table self.old)) proposed }
        ensures first { (m : Meanings) → T.is_stated (core_table self.old) m
            → result ≡ first_false m (T.names (core_table self.old)) (without_names (core_state self.old).names effect.now.retired) effect.now.names (apply (core_state self.old) effect.now).values }
        ensures view { core_view self.new ≡ core_view self.old }
    {
        let (state, olds) = (&mut self.state, &mut self.olds);
        match first_false(&self.table, kept, proposed, state, olds, effect) {
            Some(index) => Some(self.table.name(index)),
            None => None,
        }
    }

    // Settles an effect of which every invariant stays true, where the registered names then have these indices.
    fn commit(&mut self, effect: &Effect, indices: u64) -> Result<Decision, Fault>
        requires variables { All (λ var. var < length (core_state self.old).values) (keys_of effect.now.writes) }
        requires apart { AreApart effect.now.names effect.now.retired }
        requires indices { AreIndicesOf (apply (core_state self.old) effect.now).names (T.names (core_table self.old)) indices }
        requires room { length (apply (core_state self.old) effect.now).names ≤ MAX_NAMES }
        requires known { All (λ name. IsTrue (has_name (T.names (core_table self.old)) name)) (apply (core_state self.old) effect.now).names }
        requires sound { (m : Meanings) → T.is_stated (core_table self.old) m → AllHold m (apply (core_state self.old) effect.now).names (apply (core_state self.old) effect.now).values }
        ensures answer { (registers : List ℤ) → answer_of result registers ≡ sound_answer (core_state self.old) (durable_of self.old) effect.now registers }
        ensures refused { IfErr result IsRefusal }
        ensures retries { RetriesAt (core_state self.old).count result }
        ensures view { (registers : List ℤ) → core_view self.new ≡ committing (committed_by (answer_of result registers) effect.now) (core_view self.old) }
    {
        let number = self.state.count();
        if effect.is_empty() {
            return Ok(Decision::Seen(number));
        }
        if number - self.durable == MAX_WAITING as u64 {
            return Err(Fault::Full);
        }
        if number == u64::MAX {
            return Err(Fault::Spent);
        }
        self.state.commit(effect);
        self.indices = indices;
        self.waiting.push(effect);
        self.history = History::with(&self.history, effect);
        Ok(Decision::Committed(number))
    }

    /// Empties the batch and puts in what waits from this number on: each next record as long as the batch has fewer than 64
    /// and the longest record would still fit. So the first one is always taken.
    pub fn take(&self, from: u64, batch: &mut Batch)
        requires known { durable_of self.now ≤ from }
        requires committed { from ≤ (core_state self.now).count }
        ensures taken { IsTaken (drop (from - durable_of self.now) (waiting_of self.now)) batch.new }

        // The rest is what waits once these are known durable.
        ensures rest { drop (from - durable_of self.now) (waiting_of self.now)
            ≡ batch.new ++ drop (from + length batch.new - durable_of self.now) (waiting_of self.now) }
        ensures reached { from + length batch.new ≤ (core_state self.now).count }

        // What a log takes: some effects but where none waits, 64 at the most, and each loggable.
        ensures some { from < (core_state self.now).count → 1 ≤ length batch.new }
        ensures few { length batch.new ≤ 64 }
        ensures each { All (IsLoggable (length (core_state self.now).values)) batch.new }
    {
        batch.clear();
        let first = (from - self.durable) as usize;
        for index in first..self.waiting.len() {
            if !has_room(batch) {
                return;
            }
            let _ = batch.push(self.waiting.get(index));
        }
    }

    /// So many are known durable from now on, and do not wait any more.
    pub fn learn_durable(&mut self, number: u64)
        requires known { durable_of self.old ≤ number }
        requires committed { number ≤ (core_state self.old).count }
        ensures { core_view self.new ≡ knowing number (core_view self.old) }
    {
        self.waiting.drop_oldest((number - self.durable) as usize);
        self.durable = number;
    }
}

// What stands against a state, whose registered names have these indices in the table.
fn fault_against<T: Invariants>(table: &T, state: &State, indices: u64) -> Option<Fault>
    requires vars { T.vars table.now ≡ length state.now.values }
    requires indices { AreIndicesOf state.now.names (T.names table.now) indices }
    ensures which { (m : Meanings) → T.is_stated table.now m → result ≡ fault_against (T.names table.now) m state.now }
    ensures refusal { IfSome result (λ fault. IsOpeningRefusal fault × (fault ≢ Fault.Memory)) }
    ensures known { IfNone result (All (λ name. IsTrue (has_name (T.names table.now) name)) state.now.names) }
{
    if let Some(name) = table.missing(state.names()) {
        return Some(Fault::Missing(name));
    }
    match table.test_all(state.values(), indices, 0) {
        Some(index) => Some(Fault::Broken(table.name(index))),
        None => None,
    }
}

// Whether a batch has room for any record.
fn has_room(batch: &Batch) -> bool
    ensures { IsTrue result ↔ BatchHasRoom batch.now }
{
    batch.len() < MAX_RECORDS && batch.used() + MAX_RECORD_BYTES <= BATCH_BYTES
}

// The state in memory of its own, and room for all that may wait.
fn copies(alloc: Global, state: &State) -> Result<(State, Waiting), AllocError>
    ensures state { IfOk result (λ made. made.0 ≡ state.now) }
    ensures waiting { IfOk result (λ made. made.1 ≡ []) }
{
    let state = state.copy(alloc)?;
    let waiting = Waiting::new(alloc)?;
    Ok((state, waiting))
}

// Whether some value that was read is not the present one.
fn has_changed(state: &State, reads: &Reads) -> bool
    requires { All (λ var. var < length state.now.values) (keys_of reads.now.entries) }
    ensures { result ≡ has_changed state.now reads.now.entries }
{
    for (var, value) in reads.iter() {
        if state.value(*var) != *value {
            return true;
        }
    }
    false
}
