// A list of effects as they are read.
ghost use Rattle.std.specs.Prelude.{◌≡◌, ◌≤◌, ◌<◌, [], ◌∷◌, ◌++◌, length, false, All, IfOk};
ghost use Rattle.tmem_effect.specs.State.{AreApart, is_empty};
ghost use Rattle.tmem_state.specs.Batch.{IsBatched};

use std::alloc::{AllocError, Global};
use std::marker::Model;
use tmem_effect::Effect;

/// How many records a batch may have.
pub const MAX_RECORDS: usize = 64;

/// Up to 64 effects, none of them empty, in order. There is room for all of them from the start.
#[derive(Drop)]
pub struct Records {
    // made beforehand: those from `len` on are no records
    effects: Vec<Effect>,
    len: usize,
}

impl Model for Records {
    ghost use Rattle.std.specs.Prelude.{List, take};
    ghost use Rattle.tmem_effect.specs.declared.effect.Effect.{Effect as EffectOf};
    ghost use Rattle.tmem_state.specs.Batch.{FillsRecords};

    ghost Value = { List EffectOf };

    ghost view = { λ r. take r.len r.effects.items };

    ghost invariant = { λ r. FillsRecords r.effects.items r.len };
}

impl Records {
    /// No records, with room for 64.
    pub fn new(alloc: Global) -> Result<Records, AllocError>
        ensures { IfOk result (λ records. records ≡ []) }
    {
        let effects = spare(alloc)?;
        Ok(Records { effects, len: 0 })
    }

    /// How many records there are.
    pub fn len(&self) -> usize
        ensures len { result ≡ length self.now }
        ensures few { result ≤ MAX_RECORDS }
    {
        self.len
    }

    /// The records in order.
    pub fn effects(&self) -> &[Effect]
        ensures effects { result.now ≡ self.now }
        ensures few { length self.now ≤ MAX_RECORDS }
        ensures are_batched { All IsBatched self.now }
    {
        &self.effects[..self.len]
    }

    /// Forgets all records.
    pub fn clear(&mut self)
        ensures { self.new ≡ [] }
    {
        self.len = 0;
    }

    /// Puts a record last.
    pub fn push(&mut self, effect: &Effect)
        requires room { length self.old < MAX_RECORDS }
        requires not_empty { is_empty effect.now ≡ false }
        requires apart { AreApart effect.now.names effect.now.retired }
        ensures { self.new ≡ self.old ++ effect.now ∷ [] }
    {
        // brings in what the lists of an effect are
        let _ = effect.writes.as_slice();
        let _ = effect.names.as_slice();
        let _ = effect.retired.as_slice();
        self.effects[self.len].copy_from(effect);
        self.len += 1;
    }
}

// 64 effects to be filled.
fn spare(alloc: Global) -> Result<Vec<Effect>, AllocError>
    ensures { IfOk result (λ effects. length effects.items ≡ MAX_RECORDS) }
{
    let mut effects = Vec::with_capacity(alloc, MAX_RECORDS)?;
    for _ in 0..MAX_RECORDS {
        effects.push(Effect::new()).unwrap();
    }
    Ok(effects)
}
