//! Why an opening is refused, and at which byte.
ghost use Rattle.std.specs.Prelude.{◌≤◌, ◌<◌, length};
ghost use Rattle.tmem_record.specs.Layout.{end_at};

use crate::fields::{VERSION_BYTE_IN_COPY, walk_image, walk_slot};
use crate::log::{choose, not_stale, used};
use crate::walk::{Stop, Walk};
use std::alloc::Global;
use tmem_parts::{FormatFlaw, WrongByte};
use tmem_record::bytes::{number_at, short_at};
use tmem_record::{Layout, SLOT_BYTES};
use tmem_state::Version;

/// The first thing that is wrong with bytes that an opening refuses, in the order in which it reads them, for a store that was
/// formatted with this version. The only error is want of memory.
pub(crate) fn reason(
    alloc: Global,
    bytes: &[u8],
    layout: Layout,
    formatted: Version,
) -> Result<WrongByte, Stop>
    requires { end_at layout.vars layout.slots ≤ length bytes.now }
{
    match first_wrong(alloc, bytes, layout, formatted) {
        Ok(wrong) | Err(Stop::Wrong(wrong)) => Ok(wrong),
        Err(Stop::Memory) => Err(Stop::Memory),
    }
}

// The first thing that is wrong, also where a walk stops at it.
fn first_wrong(
    alloc: Global,
    bytes: &[u8],
    layout: Layout,
    formatted: Version,
) -> Result<WrongByte, Stop>
    requires { end_at layout.vars layout.slots ≤ length bytes.now }
{
    let it = match choose(bytes, layout) {
        Ok(it) => it,
        Err(wrong) => return Ok(wrong),
    };
    let at = layout.image(it.copy) as usize;
    let end = at + layout.image_size() as usize;
    let mut walk = Walk::new(alloc, bytes, at, end);
    walk_image(&mut walk, at, layout.vars);
    walk.outcome()?;
    let version = Version::of_byte(bytes[at + VERSION_BYTE_IN_COPY]).unwrap_or(Version::Two);
    if version.number() < formatted.number() {
        return Ok(amiss(at + VERSION_BYTE_IN_COPY, FormatFlaw::Earlier));
    }
    let used = used(bytes, layout, it.generation);
    walk_log(
        alloc,
        bytes,
        layout,
        version,
        used,
        number_at(bytes, at + 9),
    )?;
    match not_stale(bytes, layout, used, it.generation) {
        Some(wrong) => Ok(wrong),
        None if version == Version::One => Ok(amiss(at + 1, FormatFlaw::Last)),
        None => Ok(amiss(layout.slot(0) as usize, FormatFlaw::PastLimits)),
    }
}

// Walks over so many slots of the log, over an image of this count.
fn walk_log(
    alloc: Global,
    bytes: &[u8],
    layout: Layout,
    version: Version,
    used: u16,
    count: u64,
) -> Result<(), Stop>
    requires long { end_at layout.vars layout.slots ≤ length bytes.now }
    requires few { used ≤ layout.slots }
{
    let mut reached = count;
    for k in 0..used {
        reached = walk_on(alloc, bytes, layout, version, k, reached)?;
    }
    Ok(())
}

// Walks over a slot of the log, whose first record has this number. Answers the count behind it.
fn walk_on(
    alloc: Global,
    bytes: &[u8],
    layout: Layout,
    version: Version,
    k: u16,
    count: u64,
) -> Result<u64, Stop>
    requires long { end_at layout.vars layout.slots ≤ length bytes.now }
    requires there { k < layout.slots }
{
    let at = layout.slot(k) as usize;
    let mut walk = Walk::new(alloc, bytes, at, at + SLOT_BYTES);
    walk_slot(&mut walk, layout.vars, version);
    walk.outcome()?;
    if number_at(bytes, at + 9) != count {
        return Err(Stop::Wrong(amiss(at + 9, FormatFlaw::First)));
    }
    match count.checked_add(u64::from(short_at(bytes, at + 17))) {
        Some(count) => Ok(count),
        None => Err(Stop::Wrong(amiss(at + 17, FormatFlaw::PastLimits))),
    }
}

fn amiss(at: usize, why: FormatFlaw) -> WrongByte {
    WrongByte { at: at as u64, why }
}
