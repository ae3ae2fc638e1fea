// A batch that is committed to a state while it is read, record by record, so that none of it is kept.
ghost use Rattle.std.specs.Prelude.{◌≡◌, ◌<◌, ◌≤◌, ◌^◌, ◌++◌, ◌↔◌, ℕ, List, length, take, flat_map, All, IsTrue, IfSome, IfNone};
ghost use Rattle.std.specs.Bool.{OnTrue};
ghost use Rattle.tmem_effect.specs.declared.effect.Effect.{Effect as EffectOf};
ghost use Rattle.tmem_effect.specs.State.{IsWithin, StaysWithin, apply};
ghost use Rattle.tmem_state.specs.Batch.{IsRecordIn, IsBatchIn};
ghost use Rattle.tmem_record.specs.Spelling.{record_bytes, batch_bytes, SpellsBatch};
ghost use Rattle.tmem_record.specs.Onto.{CommitsBatch, CommitsFront, CommitsRecords};

use crate::codec::{HEAD_BYTES, Head, number_of, record_of, short_of};
use tmem_effect::Effect;
use tmem_state::{BATCH_BYTES, MAX_RECORDS, State, Version};

/// Reads a batch of a version over so many variables from the front of the bytes, and commits its records to a state, each as it
/// is read into the effect that is lent. `None` where no prefix of the bytes spells a batch that the state takes, with no limit
/// passed after any of its records: a name too many is not mended by a later record that retires one. Then the state is of no
/// use. It takes no memory.
pub fn commit_batch(
    bytes: &[u8],
    vars: u16,
    version: Version,
    effect: &mut Effect,
    state: &mut State,
) -> Option<Head>
    requires sized { length state.old.values ≡ vars }
    requires within { IsWithin state.old }
    ensures found { IfSome result (λ head. CommitsBatch version vars head.generation head.first state.old (take head.length bytes.now) state.new) }
    ensures within { IfSome result (λ head. head.length ≤ length bytes.now) }
    ensures none { IfNone result ((generation first n : ℕ) (es : List EffectOf) → SpellsBatch version vars generation first es (take n bytes.now) → StaysWithin state.old es → ⊥) }
{
    let (generation, first, rest) = commit_front(bytes, vars, version, effect, state)?;
    Some(Head {
        generation,
        first,
        length: bytes.len() - rest.len(),
    })
}

// The batch of a version at the front: its generation, the number of its first record, and what follows it.
fn commit_front<'a>(
    bytes: &'a [u8],
    vars: u16,
    version: Version,
    effect: &mut Effect,
    state: &mut State,
) -> Option<(u64, u64, &'a [u8])>
    requires sized { length state.old.values ≡ vars }
    requires within { IsWithin state.old }
    ensures found { IfSome result (λ found. CommitsFront version vars found.0 found.1 state.old bytes.now found.2.now state.new) }
    ensures none { IfNone result ((generation first : ℕ) (es : List EffectOf) (rest : List ℕ) → generation < 2 ^ 64 → first < 2 ^ 64 → IsBatchIn version vars es → bytes.now ≡ batch_bytes version generation first es ++ rest → StaysWithin state.old es → ⊥) }
{
    if bytes.len() < HEAD_BYTES {
        return None;
    }
    let (generation, behind) = number_of(bytes);
    let (first, behind) = number_of(behind);
    let (count, behind) = short_of(behind);
    if count == 0 || count as usize > MAX_RECORDS {
        return None;
    }
    let rest = commit_records(behind, count, vars, version, effect, state)?;
    // the limit is one of the bytes that are read: the second version spells the same records in more
    if behind.len() - rest.len() > BATCH_BYTES {
        return None;
    }
    Some((generation, first, rest))
}

// So many records of a version from the front on, and what follows them.
fn commit_records<'a>(
    bytes: &'a [u8],
    count: u16,
    vars: u16,
    version: Version,
    effect: &mut Effect,
    state: &mut State,
) -> Option<&'a [u8]>
    requires sized { length state.old.values ≡ vars }
    requires within { IsWithin state.old }
    ensures found { IfSome result (λ rest. CommitsRecords version vars count state.old bytes.now rest.now state.new) }
    ensures none { IfNone result ((es : List EffectOf) (rest : List ℕ) → length es ≡ count → All (IsRecordIn version vars) es → bytes.now ≡ flat_map (record_bytes version) es ++ rest → StaysWithin state.old es → ⊥) }
{
    let mut rest = bytes;
    for _ in 0..count {
        let next = record_of(rest, vars, version, effect)?;
        if !commit_one(state, effect) {
            return None;
        }
        rest = next;
    }
    Some(rest)
}

// Commits an effect where the state stays within the limits then, and answers whether it did.
fn commit_one(state: &mut State, effect: &Effect) -> bool
    requires { All (λ w. w.0 < length state.old.values) effect.now.writes }
    ensures committed { IsTrue result ↔ IsWithin (apply state.old effect.now) }
    ensures state { OnTrue result (state.new ≡ apply state.old effect.now) }
{
    if state.count() == u64::MAX || !state.has_room_for(effect) {
        return false;
    }
    state.commit(effect);
    true
}
