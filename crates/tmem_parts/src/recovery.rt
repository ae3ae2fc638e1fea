//! What an opening finds.
ghost use Rattle.std.specs.Prelude.{◌≡◌, IfOk, IfErr};
ghost use Rattle.tmem_parts.specs.Parts.{IsRecovery, IsStateFound, IsWhyRefused};

use crate::copy::disk_of;
use std::alloc::Global;
use tmem_fault::Fault;
use tmem_journal::Journal;
use tmem_record::Layout;
use tmem_state::State;

/// What an opening of some bytes finds. It does not look at what the invariants mean: the program that opens the store knows.
#[derive(Drop)]
pub enum Recovery {
    /// The bytes represent this state.
    Found(State),
    /// It is refused.
    Refused(Fault),
}

/// Opens a copy of the bytes in memory, with the numbers of this layout.
pub fn recovery_of(alloc: Global, bytes: &[u8], layout: Layout) -> Recovery
    ensures { IsRecovery layout.vars layout.slots bytes.now result }
{
    match recover(alloc, bytes, layout) {
        Ok(state) => Recovery::Found(state),
        Err(fault) => Recovery::Refused(fault),
    }
}

// The state that an opening finds.
fn recover(alloc: Global, bytes: &[u8], layout: Layout) -> Result<State, Fault>
    ensures found { IfOk result (IsStateFound layout.vars layout.slots bytes.now) }
    ensures refused { IfErr result (IsWhyRefused layout.vars layout.slots bytes.now) }
{
    if (bytes.len() as u64) < layout.end() {
        return Err(Fault::Geometry);
    }
    let disk = disk_of(alloc, bytes)?;
    match Journal::open(alloc, disk, layout.vars, layout.slots) {
        Ok(journal) => copy_of(alloc, journal.state()),
        Err((fault, _disk)) => Err(fault),
    }
}

// A state in memory of its own. The only error is want of memory.
fn copy_of(alloc: Global, state: &State) -> Result<State, Fault>
    ensures same { IfOk result (λ copy. copy ≡ state.now) }
    ensures refused { IfErr result (λ fault. fault ≡ Fault.Memory) }
{
    Ok(state.copy(alloc)?)
}
