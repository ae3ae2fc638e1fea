//! A store that was cut off behind the end of its log.
ghost use Rattle.std.specs.Prelude.{◌≡◌, ◌≤◌, ◌<◌, ◌-◌, ◌++◌, length, replicate, IfOk, IfErr, IfSome};
ghost use Rattle.tmem_parts.specs.Parts.{IsStateFound};
ghost use Rattle.tmem_record.specs.Layout.{end_at};
ghost use Rattle.tmem_effect.specs.State.{State};
ghost use Rattle.tmem_show.specs.Cuts.{EndsTooSoon, lengthened};

use crate::log::{choose, used};
use crate::source::Source;
use std::alloc::{AllocError, Global};
use tmem_fault::Fault;
use tmem_parts::{Recovery, block_of, recovery_of};
use tmem_record::Layout;

// A gate, and the generation behind it, say whether a slot is of the log.
const HEAD_BYTES: u64 = 9;

/// How long a store is to be made, by zeros, that ends too soon, where it still has the gate and the generation of the first slot behind its
/// log: then none of what was cut off is of its log. None where that is not so, or is not known, and where it is long enough. The only error
/// is want of memory.
pub fn length_without_loss(alloc: Global, source: &Source) -> Result<Option<u64>, Fault>
    ensures cut { IfOk result (λ told. IfSome told (EndsTooSoon source.now.bytes.items)) }
    ensures refused { IfErr result (λ fault. fault ≡ Fault.Memory) }
{
    match block_of(&source.bytes) {
        Ok(block) => length_of(alloc, &source.bytes, block.layout),
        Err(_) => Ok(None),
    }
}

// The same of a store of this layout.
fn length_of(alloc: Global, bytes: &[u8], layout: Layout) -> Result<Option<u64>, Fault>
    ensures length { IfOk result (λ told. IfSome told (λ n. n ≡ end_at layout.vars layout.slots)) }
    ensures fewer { IfOk result (λ told. IfSome told (λ n. length bytes.now < n)) }
    ensures found { IfOk result (λ told. IfSome told (λ n. (state : State) × IsStateFound layout.vars layout.slots (lengthened bytes.now n) state)) }
    ensures refused { IfErr result (λ fault. fault ≡ Fault.Memory) }
{
    let end = layout.end();
    if bytes.len() as u64 >= end {
        return Ok(None);
    }
    let whole = with_zeros(alloc, bytes, end as usize)?;
    if !is_end_there(&whole, layout, bytes.len() as u64) {
        return Ok(None);
    }
    match recovery_of(alloc, &whole, layout) {
        Recovery::Found(_) => Ok(Some(end)),
        Recovery::Refused(Fault::Memory) => Err(Fault::Memory),
        Recovery::Refused(_) => Ok(None),
    }
}

// These bytes with zeros behind them, so many in all.
fn with_zeros(alloc: Global, bytes: &[u8], count: usize) -> Result<Vec<u8>, AllocError>
    requires { length bytes.now ≤ count }
    ensures bytes { IfOk result (λ whole. whole.items ≡ lengthened bytes.now count) }
    ensures length { IfOk result (λ whole. length whole.items ≡ count) }
{
    let mut whole = Vec::from_slice(alloc, bytes)?;
    let zeros = vec![in alloc; 0; count - bytes.len()]?;
    whole.extend_from_slice(&zeros)?;
    Ok(whole)
}

// Whether the first slot behind the log over the chosen image begins within so many bytes, up to its generation.
fn is_end_there(whole: &[u8], layout: Layout, there: u64) -> bool
    requires { end_at layout.vars layout.slots ≤ length whole.now }
{
    match choose(whole, layout) {
        Ok(it) => {
            let end = used(whole, layout, it.generation);
            layout.slot(end) + HEAD_BYTES <= there
        }
        Err(_) => false,
    }
}
