//! Which image is chosen, and which slots are of its log.
ghost use Rattle.std.specs.Prelude.{◌≤◌, ◌+◌, length};
ghost use Rattle.tmem_record.specs.Layout.{end_at};

use tmem_gate::reads_open;
use tmem_parts::{FormatFlaw, WrongByte};
use tmem_record::Layout;
use tmem_record::bytes::number_at;

/// The image that recovery begins with.
#[derive(Clone, Copy)]
pub(crate) struct Chosen {
    pub(crate) copy: u8,
    pub(crate) generation: u64,
    pub(crate) ghost one: { copy ≤ 1 },
}

/// The copy that is chosen: the open one of the greater generation.
pub(crate) fn choose(bytes: &[u8], layout: Layout) -> Result<Chosen, WrongByte>
    requires { end_at layout.vars layout.slots ≤ length bytes.now }
{
    let (first, second) = (layout.image(0), layout.image(1));
    match (generation_at(bytes, first), generation_at(bytes, second)) {
        (None, None) => Err(amiss(first, FormatFlaw::NoImage)),
        (Some(one), Some(other)) if one == other => {
            Err(amiss(second.saturating_add(1), FormatFlaw::SameGeneration))
        }
        (Some(one), Some(other)) if one < other => Ok(Chosen {
            copy: 1,
            generation: other,
        }),
        (Some(one), _) => Ok(Chosen {
            copy: 0,
            generation: one,
        }),
        (None, Some(other)) => Ok(Chosen {
            copy: 1,
            generation: other,
        }),
    }
}

/// The generation in a cell, where it is open.
pub(crate) fn generation_at(bytes: &[u8], at: u64) -> Option<u64>
    requires { at + 9 ≤ length bytes.now }
{
    let at = at as usize;
    if reads_open(bytes, at) {
        Some(number_at(bytes, at + 1))
    } else {
        None
    }
}

/// How many slots are of the log over the chosen image: those from the first one on that are open and of its generation.
pub(crate) fn used(bytes: &[u8], layout: Layout, generation: u64) -> u16
    requires { end_at layout.vars layout.slots ≤ length bytes.now }
    ensures { result ≤ layout.slots }
{
    for k in 0..layout.slots {
        if generation_at(bytes, layout.slot(k)) != Some(generation) {
            return k;
        }
    }
    layout.slots
}

/// The first open slot behind the log that is not of an earlier generation.
pub(crate) fn not_stale(
    bytes: &[u8],
    layout: Layout,
    used: u16,
    generation: u64,
) -> Option<WrongByte>
    requires { end_at layout.vars layout.slots ≤ length bytes.now }
{
    for k in used..layout.slots {
        let at = layout.slot(k);
        match generation_at(bytes, at) {
            Some(it) if it >= generation => {
                return Some(amiss(at.saturating_add(1), FormatFlaw::NotStale));
            }
            _ => {}
        }
    }
    None
}

fn amiss(at: u64, why: FormatFlaw) -> WrongByte {
    WrongByte { at, why }
}
