// The batch of one slot, and what it makes of a state.
ghost use Rattle.std.specs.Prelude.{◌≡◌, ◌↔◌, ◌<◌, ◌^◌, ℕ, List, length, IsTrue, OnOk, OnErr, IfErr};
ghost use Rattle.tmem_gate.specs.Gate.{IsOpenAt, HasBody, IsOpenOver};
ghost use Rattle.tmem_record.specs.Spelling.{number_bytes};
ghost use Rattle.tmem_effect.specs.declared.effect.Effect.{Effect as EffectOf};
ghost use Rattle.tmem_redolog.specs.Log.{IsClosedOrStale, IsWithin};
ghost use Rattle.tmem_redolog.specs.Scans.{Replays, MayReplay};

use tmem_effect::Effect;
use tmem_fault::Fault;
use tmem_gate::GATE_OPEN;
use tmem_record::{HEAD_BYTES, commit_batch, read_head};
use tmem_state::{State, Version};

// Whether the gate of a slot is open.
fn is_open(slot: &[u8]) -> bool
    requires { length slot.now ≡ 4096 }
    ensures { IsTrue result ↔ IsOpenAt 0 slot.now }
{
    slot[0] == GATE_OPEN
}

// The number behind the gate of a slot.
fn generation_in(slot: &[u8]) -> u64
    requires { length slot.now ≡ 4096 }
    ensures stands { HasBody 0 (number_bytes 8 result) slot.now }
    ensures fits { result < 2 ^ 64 }
{
    let mut head = [0; HEAD_BYTES];
    head.copy_from_slice(&slot[1..=HEAD_BYTES]);
    read_head(&head).0
}

/// Whether a slot is open and of this generation.
pub(crate) fn carries(slot: &[u8], generation: u64) -> bool
    requires { length slot.now ≡ 4096 }
    ensures { IsTrue result ↔ IsOpenOver 0 (number_bytes 8 generation) slot.now }
{
    is_open(slot) && generation_in(slot) == generation
}

/// Whether a slot is closed or of a lesser generation.
pub(crate) fn is_closed_or_stale(slot: &[u8], generation: u64) -> bool
    requires { length slot.now ≡ 4096 }
    ensures { IsTrue result ↔ IsClosedOrStale generation 0 slot.now }
{
    !is_open(slot) || generation_in(slot) < generation
}

/// Replays the batch that an open slot begins with, in the grammar of this version: it has this generation, and its first
/// number is the count of the state. Each record is read in turn into the effect that is lent, which may be anything before and
/// after. `Damaged` where there is no batch, or where one of its effects takes the state past the limits, whatever a later one
/// does: the one refusal. After it the state is of no use.
pub(crate) fn replay_slot(
    slot: &[u8],
    vars: u16,
    generation: u64,
    version: Version,
    effect: &mut Effect,
    state: &mut State,
) -> Result<(), Fault>
    requires long { length slot.now ≡ 4096 }
    requires open { IsOpenAt 0 slot.now }
    requires sized { length state.old.values ≡ vars }
    requires within { IsWithin state.old }
    ensures errors { IfErr result (λ f. f ≡ Fault.Damaged) }
    ensures replayed { OnOk result (Replays version vars generation state.old slot.now state.new) }
    ensures refused { OnErr result ((es : List EffectOf) → MayReplay version vars generation state.old slot.now es → ⊥) }
{
    let count = state.count();
    let Some(head) = commit_batch(&slot[1..], vars, version, effect, state) else {
        return Err(Fault::Damaged);
    };
    if head.generation != generation || head.first != count {
        return Err(Fault::Damaged);
    }
    Ok(())
}
