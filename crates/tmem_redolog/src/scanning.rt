// Reads the log of a device.
ghost use Rattle.std.specs.Prelude.{◌≡◌, ◌↔◌, ◌<◌, ◌≤◌, ◌+◌, ◌*◌, ℕ, List, length, IsTrue, IfOk, OnOk, OnErr, IfErr};
ghost use Rattle.tmem_gate.specs.Calls.{Uses, OnlyReads};
ghost use Rattle.tmem_gate.specs.Gate.{IsOpenOver};
ghost use Rattle.tmem_record.specs.Layout.{slot_at, end_at};
ghost use Rattle.tmem_record.specs.Spelling.{number_bytes};
ghost use Rattle.tmem_effect.specs.declared.effect.Effect.{Effect as EffectOf};
ghost use Rattle.tmem_redolog.specs.Log.{HoldsLog, IsClosedOrStale, IsWithin};
ghost use Rattle.tmem_redolog.specs.Room.{IsLogRoom};
ghost use Rattle.tmem_redolog.specs.Scans.{FindsLog, IsWhyNone, IsLogOf, slot_bytes, HoldsFrom, Reached};

use crate::log::Log;
use crate::replay::{carries, is_closed_or_stale, replay_slot};
use crate::room::LogRoom;
use tmem_disk::Disk;
use tmem_effect::Effect;
use tmem_fault::Fault;
use tmem_gate::device::read_piece;
use tmem_record::{Layout, SLOT_BYTES};
use tmem_state::{State, Version};

/// Reads the log over an image of this generation and version, and brings the image's state to the state after it. The log is
/// read in one piece, into the room that is given, and in the grammar of the image's version. `Damaged` where the device
/// holds no log over that image; and `Device` where the read failed. After a refusal the state is of no use. It takes no
/// memory.
pub fn scan<D: Disk>(
    disk: &mut D,
    layout: Layout,
    generation: u64,
    state: &mut State,
    room: LogRoom,
    version: Version,
) -> Result<Log, Fault>
    requires fits { end_at layout.vars layout.slots ≤ (D.view disk.old).capacity }
    requires sized { length state.old.values ≡ layout.vars }
    requires room { IsLogRoom layout.slots room }
    ensures uses { Uses (D.view disk.old) (D.view disk.new) result }
    ensures reads_only { OnlyReads (D.view disk.old) (D.view disk.new) }
    ensures generation { IfOk result (λ log. log.generation ≡ generation) }
    ensures few { IfOk result (λ log. log.used ≤ layout.slots) }
    ensures sized { OnOk result (length state.new.values ≡ layout.vars) }
    ensures found { (D.view disk.new).keeps_model →
        IfOk result (λ log. FindsLog version layout.vars layout.slots generation state.old log.used state.new (D.view disk.old).seen) }
    ensures refused { IfErr result (IsWhyNone ((D.view disk.new).keeps_model → (batches : List (List EffectOf)) →
        HoldsLog version layout.vars layout.slots generation state.old batches (D.view disk.old).seen → ⊥)) }
{
    let LogRoom { bytes } = room;
    let log = read_piece(disk, layout.slot(0), bytes)?;
    let bytes: &[u8] = &log;
    let used = replay(bytes, layout, generation, version, state)?;
    if !are_closed_or_stale(bytes, used, layout.slots, generation) {
        return Err(Fault::Damaged);
    }
    Ok(Log { generation, used })
}

// The bytes of a slot, in those of all slots.
fn slot_of(log: &[u8], k: u16) -> &[u8]
    requires { 4096 * k + 4096 ≤ length log.now }
    ensures bytes { result.now ≡ slot_bytes log.now k }
    ensures long { length result.now ≡ 4096 }
{
    let at = SLOT_BYTES * k as usize;
    &log[at..at + SLOT_BYTES]
}

// Replays the slots from the first one on, as long as they are open and of this generation, and answers how many there
// are. `Damaged` where one of them cannot be replayed: the one refusal.
fn replay(
    log: &[u8],
    layout: Layout,
    generation: u64,
    version: Version,
    state: &mut State,
) -> Result<u16, Fault>
    requires long { length log.now ≡ 4096 * layout.slots }
    requires sized { length state.old.values ≡ layout.vars }
    ensures errors { IfErr result (λ f. f ≡ Fault.Damaged) }
    ensures few { IfOk result (λ used. used ≤ layout.slots) }
    ensures sized { OnOk result (length state.new.values ≡ layout.vars) }
    ensures within { OnOk result (IsWithin state.new) }
    ensures reached { IfOk result (λ used. (c : List ℕ) → IsLogOf layout.vars layout.slots log.now c →
        Reached version layout.vars layout.slots generation state.old used state.new c) }
    ensures ends { IfOk result (λ used. used < layout.slots → IsOpenOver 0 (number_bytes 8 generation) (slot_bytes log.now used) → ⊥) }
    ensures refused { OnErr result ((c : List ℕ) → IsLogOf layout.vars layout.slots log.now c → (batches : List (List EffectOf)) →
        HoldsFrom version layout.vars layout.slots generation 0 state.old batches c → ⊥) }
{
    recall_limits(state);
    let mut effect = Effect::new();
    for k in 0..layout.slots {
        let slot = slot_of(log, k);
        if !carries(slot, generation) {
            return Ok(k);
        }
        replay_slot(slot, layout.vars, generation, version, &mut effect, state)?;
    }
    Ok(layout.slots)
}

// That a state is within its limits, for a caller's proof: it does nothing.
fn recall_limits(state: &State)
    ensures { IsWithin state.now }
{
    let _ = state.count();
    let _ = state.names();
}

// Whether each slot from one on is closed or of a lesser generation.
fn are_closed_or_stale(log: &[u8], from: u16, slots: u16, generation: u64) -> bool
    requires { length log.now ≡ 4096 * slots }
    ensures { IsTrue result ↔ ((k : ℕ) → from ≤ k → k < slots → IsClosedOrStale generation 0 (slot_bytes log.now k)) }
{
    for k in from..slots {
        if !is_closed_or_stale(slot_of(log, k), generation) {
            return false;
        }
    }
    true
}
