// The effects that are committed and not known durable.
ghost use Rattle.std.specs.Prelude.{◌≡◌, ◌≤◌, ◌<◌, [], ◌∷◌, ◌++◌, length, drop, set, slice_get, vec_capacity, Some, IfOk};

use std::alloc::{AllocError, Global};
use std::marker::Model;
use tmem_effect::Effect;

/// How many committed transactions may wait to be made durable.
pub const MAX_WAITING: usize = 256;

/// The effects that wait, the oldest first. There is room for all of them from the start.
#[derive(Drop)]
pub(crate) struct Waiting {
    // a ring, with room for all: the oldest stands at `start`, and the others behind it, around the end. Its entries are made as they
    // are first used: to make all of them would be much of what an opening takes
    effects: Vec<Effect>,
    start: usize,
    len: usize,
}

impl Model for Waiting {
    ghost use Rattle.std.specs.Prelude.{List, take, drop, ◌++◌, vec_capacity};
    ghost use Rattle.tmem_effect.specs.declared.effect.Effect.{Effect as EffectOf};
    ghost use Rattle.tmem_core.specs.Ring.{IsRing};

    ghost Value = { List EffectOf };

    ghost view = { λ w. take w.len (drop w.start w.effects.items ++ take w.start w.effects.items) };

    ghost invariant = { λ w. IsRing w.effects.items (vec_capacity w.effects) w.start w.len };
}

impl Waiting {
    /// No effect waits.
    pub(crate) fn new(alloc: Global) -> Result<Waiting, AllocError>
        ensures { IfOk result (λ waiting. waiting ≡ []) }
    {
        let effects = Vec::with_capacity(alloc, MAX_WAITING)?;
        Ok(Waiting {
            effects,
            start: 0,
            len: 0,
        })
    }

    /// How many effects wait.
    pub(crate) fn len(&self) -> usize
        ensures { result ≡ length self.now }
    {
        self.len
    }

    /// The effect that waits behind so many others.
    pub(crate) fn get(&self, index: usize) -> &Effect
        requires { index < length self.now }
        ensures { slice_get self.now index ≡ Some result.now }
    {
        &self.effects[(self.start + index) % MAX_WAITING]
    }

    /// Another effect waits, behind all others.
    pub(crate) fn push(&mut self, effect: &Effect)
        requires { length self.old < MAX_WAITING }
        ensures { self.new ≡ self.old ++ effect.now ∷ [] }
    {
        let index = (self.start + self.len) % MAX_WAITING;
        fill(&mut self.effects, index, effect);
        self.len += 1;
    }

    /// The oldest ones do not wait any more.
    pub(crate) fn drop_oldest(&mut self, many: usize)
        requires { many ≤ length self.old }
        ensures { self.new ≡ drop many self.old }
    {
        self.start = (self.start + many) % MAX_WAITING;
        self.len -= many;
    }
}

// Puts an effect at an index of the ring. Where no entry is there, one is made, behind all that are.
#[inline(always)]
fn fill(entries: &mut Vec<Effect>, index: usize, effect: &Effect)
    requires { index < vec_capacity entries.old }
    ensures there { index < length entries.old.items → entries.new.items ≡ set entries.old.items index effect.now }
    ensures made { length entries.old.items ≤ index → entries.new.items ≡ entries.old.items ++ effect.now ∷ [] }
    ensures room { vec_capacity entries.old ≤ vec_capacity entries.new }
{
    if index < entries.len() {
        entries[index].copy_from(effect);
        return;
    }
    entries.push(effect.copy()).unwrap();
}
