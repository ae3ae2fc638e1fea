// A list of effects that fits one slot of the log.
ghost use Rattle.std.specs.Prelude.{◌≡◌, ◌≤◌, ◌<◌, ◌+◌, ◌*◌, ◌↔◌, ℕ, [], ◌∷◌, ◌++◌, length, sum_by, false, All, IsTrue, IfOk};
ghost use Rattle.std.specs.Bool.{OnTrue, OnFalse};
ghost use Rattle.tmem_effect.specs.State.{AreWrites, AreChecks, AreApart, is_empty};
ghost use Rattle.tmem_effect.specs.declared.names.TheConstants.{MAX_CHECKS};
ghost use Rattle.tmem_state.specs.declared.records.TheConstants.{MAX_RECORDS};
ghost use Rattle.tmem_state.specs.Batch.{record_length, records_length, IsBatch};

use crate::records::{MAX_RECORDS, Records};
use std::alloc::{AllocError, Global};
use std::marker::Model;
use tmem_effect::Effect;
use tmem_fault::Name;

/// How many bytes the records of a batch may have together.
pub const BATCH_BYTES: usize = 4077;

/// How many bytes one record has at most: with 64 writes, and 8 checked and 8 retired names of 16 letters each.
pub const MAX_RECORD_BYTES: usize = 915;

/// Effects that are to be written together, in order. There is room for all of them from the start.
#[derive(Drop)]
pub struct Batch {
    records: Records,
    // their bytes
    used: usize,
}

impl Model for Batch {
    ghost use Rattle.std.specs.Prelude.{List};
    ghost use Rattle.tmem_effect.specs.declared.effect.Effect.{Effect as EffectOf};
    ghost use Rattle.tmem_state.specs.Batch.{FillsBatch};

    ghost Value = { List EffectOf };

    ghost view = { λ b. b.records };

    ghost invariant = { λ b. FillsBatch b.records b.used };
}

impl Batch {
    /// An empty batch, with room for 64 records and 4077 bytes.
    pub fn new(alloc: Global) -> Result<Batch, AllocError>
        ensures { IfOk result (λ batch. batch ≡ []) }
    {
        let records = Records::new(alloc)?;
        Ok(Batch { records, used: 0 })
    }

    /// How many records it has.
    pub fn len(&self) -> usize
        ensures len { result ≡ length self.now }
        ensures few { result ≤ MAX_RECORDS }
    {
        self.records.len()
    }

    /// How many bytes its records will have together.
    pub fn used(&self) -> usize
        ensures used { result ≡ records_length self.now }
        ensures most { result ≤ BATCH_BYTES }
    {
        self.used
    }

    /// Its records in order.
    pub fn effects(&self) -> &[Effect]
        ensures effects { result.now ≡ self.now }
        ensures few { length self.now ≤ MAX_RECORDS }
        ensures fits { records_length self.now ≤ BATCH_BYTES }
        ensures is_batch { (vars : ℕ) → 1 ≤ length self.now → All (λ e. All (λ w. w.0 < vars) e.writes) self.now → IsBatch vars self.now }
    {
        self.records.effects()
    }

    /// Forgets all records.
    pub fn clear(&mut self)
        ensures { self.new ≡ [] }
    {
        self.records.clear();
        self.used = 0;
    }

    /// Puts a record last. Where there are 64 records already, or its bytes do not fit, nothing changes and the answer
    /// is false.
    pub fn push(&mut self, effect: &Effect) -> bool
        requires not_empty { is_empty effect.now ≡ false }
        requires apart { AreApart effect.now.names effect.now.retired }
        ensures fits { IsTrue result
            ↔ ((length self.old < MAX_RECORDS)
            × (records_length self.old + record_length effect.now ≤ BATCH_BYTES)) }
        ensures pushed { OnTrue result (self.new ≡ self.old ++ effect.now ∷ []) }
        ensures room { length self.old < MAX_RECORDS
            → records_length self.old + MAX_RECORD_BYTES ≤ BATCH_BYTES
            → IsTrue result }
        ensures full { OnFalse result (self.new ≡ self.old) }
    {
        let bytes = length_of(effect);
        if self.records.len() == MAX_RECORDS || BATCH_BYTES - self.used < bytes {
            return false;
        }
        self.records.push(effect);
        self.used += bytes;
        true
    }
}

// How many bytes a record will have.
fn length_of(effect: &Effect) -> usize
    ensures length { result ≡ record_length effect.now }
    ensures most { result ≤ MAX_RECORD_BYTES }
{
    let writes = effect.writes.as_slice();
    let names = names_length(effect.names.as_slice());
    1 + 10 * writes.len() + names + names_length(effect.retired.as_slice())
}

// How many bytes the names will have behind their count, each behind its length.
fn names_length(names: &[Name]) -> usize
    requires { length names.now ≤ MAX_CHECKS }
    ensures bytes { result ≡ 1 + sum_by (λ n. 1 + length n) names.now }
    ensures few { result ≤ 1 + 17 * length names.now }
{
    let mut bytes = 1;
    for name in names {
        bytes += 1 + name.as_bytes().len();
    }
    bytes
}
