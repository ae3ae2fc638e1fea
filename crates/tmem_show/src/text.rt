//! What is shown as text.
ghost use Rattle.std.specs.Prelude.{◌≤◌, ◌<◌};

use crate::error::ShowError;
use crate::printer::Printer;
use crate::shown::{OpeningResult, PartRole, ShownStore, Walked, opening_without_block, too_short};
use crate::source::Source;
use std::alloc::Global;
use std::io::Write;
use tmem_effect::Effect;
use tmem_fault::{Fault, Name};
use tmem_image::ImageState;
use tmem_parts::{Block, Image, Slot, WrongByte, block_of};
use tmem_record::{Head, Layout};
use tmem_state::{Records, State, Version};

// So many bytes of a field are printed at most.
const MOST_SHOWN: usize = 20;

/// Prints what the bytes of a store hold, part by part, and what an opening of them finds; and with `hex` below each part its bytes,
/// field by field.
pub fn show<W: Write>(
    alloc: Global,
    source: &Source,
    hex: bool,
    out: &mut W,
) -> Result<(), ShowError> {
    let mut out = Printer::new(out);
    let outcome = show_source(alloc, source, hex, &mut out);
    out.end(outcome)
}

fn show_source<W: Write>(
    alloc: Global,
    source: &Source,
    hex: bool,
    out: &mut Printer<W>,
) -> Result<(), Fault> {
    out.put_number("", source.size);
    out.put(" bytes; if the store is in use, what was read may be half a flush\n");
    match block_of(&source.bytes) {
        Ok(block) => show_store(alloc, source, block, hex, out),
        Err(wrong) => {
            out.put_item("block 0 at 0: ", &wrong);
            out.put("\n");
            let opening = opening_without_block(alloc, source, wrong)?;
            show_opening(out, &opening);
            Ok(())
        }
    }
}

// The parts of a store with this block 0.
fn show_store<W: Write>(
    alloc: Global,
    source: &Source,
    block: Block,
    hex: bool,
    out: &mut Printer<W>,
) -> Result<(), Fault> {
    let Block { version, layout } = block;
    show_block(out, version, layout);
    if (source.bytes.len() as u64) < layout.end() {
        show_opening(out, &too_short(source));
        return Ok(());
    }
    match &ShownStore::new(alloc, &source.bytes, layout) {
        Ok(shown) => show_parts(alloc, shown, version, hex, out),
        Err(fault) => Err(*fault),
    }
}

// The parts behind block 0, of a store that was formatted with this version, and what an opening finds.
fn show_parts<W: Write>(
    alloc: Global,
    shown: &ShownStore,
    version: Version,
    hex: bool,
    out: &mut Printer<W>,
) -> Result<(), Fault> {
    if hex {
        show_fields(shown, &shown.walk_block()?, out);
    }
    show_image(shown, 0, hex, out)?;
    show_image(shown, 1, hex, out)?;
    show_slots(alloc, shown, hex, out)?;
    let opening = shown.opening(version)?;
    show_opening(out, &opening);
    Ok(())
}

// What block 0 says.
fn show_block<W: Write>(out: &mut Printer<W>, version: Version, layout: Layout) {
    out.put_number("block 0 at 0: open, version ", version.number() as u64);
    out.put_number(", ", layout.vars as u64);
    out.put_number(" variables, ", layout.slots as u64);
    out.put_number(" log slots, ", layout.end());
    out.put(" bytes in all\n");
}

// What an opening finds, or its refusal, and where that comes from.
fn show_opening<W: Write>(out: &mut Printer<W>, opening: &OpeningResult) {
    match opening {
        OpeningResult::Found(state) => show_state(out, state),
        OpeningResult::Refused(fault, wrong) => show_refusal(out, fault, wrong),
    }
}

fn show_refusal<W: Write>(out: &mut Printer<W>, fault: &Fault, wrong: &WrongByte) {
    out.put_item("recovery: ", fault);
    out.put_item(", ", wrong);
    out.put("\n");
}

// An image copy.
fn show_image<W: Write>(
    shown: &ShownStore,
    copy: u8,
    hex: bool,
    out: &mut Printer<W>,
) -> Result<(), Fault>
    requires { copy ≤ 1 }
{
    let walked = shown.walk_image(copy)?;
    begin(out, "image ", copy as u64, walked.at);
    show_copy(shown, copy, &walked, out)?;
    show_hex(shown, &walked, hex, out);
    Ok(())
}

// The kind of a part, its number and where it is.
fn begin<W: Write>(out: &mut Printer<W>, kind: &str, number: u64, at: u64) {
    out.put_number(kind, number);
    out.put_number(" at ", at);
    out.put(": ");
}

// What it holds.
fn show_copy<W: Write>(
    shown: &ShownStore,
    copy: u8,
    walked: &Walked,
    out: &mut Printer<W>,
) -> Result<(), Fault>
    requires { copy ≤ 1 }
{
    let role = match shown.role_of_image(copy) {
        PartRole::Counts => "chosen",
        PartRole::Stale => "stale",
        PartRole::Amiss => "not chosen",
    };
    match shown.image(copy)? {
        Image::Closed => out.put("closed\n"),
        Image::Damaged => show_wrong(out, role, walked),
        Image::Open(image) => show_open_image(out, role, &image),
    }
    Ok(())
}

fn show_open_image<W: Write>(out: &mut Printer<W>, role: &str, image: &ImageState) {
    show_open(out, role);
    out.put_number(", version ", image.version.number() as u64);
    out.put_number(", generation ", image.generation);
    out.put_number(", count ", image.state.count());
    out.put(", names=");
    out.put_all(image.state.names());
    out.put("\n");
}

// That a part is open, and what counts of it.
fn show_open<W: Write>(out: &mut Printer<W>, role: &str) {
    out.put("open, ");
    out.put(role);
}

// The log slots.
fn show_slots<W: Write>(
    alloc: Global,
    shown: &ShownStore,
    hex: bool,
    out: &mut Printer<W>,
) -> Result<(), Fault> {
    let mut records = Records::new(alloc)?;
    for k in 0..shown.layout.slots {
        show_slot(shown, k, &mut records, hex, out)?;
    }
    Ok(())
}

// A log slot.
fn show_slot<W: Write>(
    shown: &ShownStore,
    k: u16,
    records: &mut Records,
    hex: bool,
    out: &mut Printer<W>,
) -> Result<(), Fault>
    requires { k < shown.now.layout.slots }
{
    let walked = shown.walk_slot(k)?;
    begin(out, "slot ", k as u64, walked.at);
    let slot = shown.slot(k, records);
    show_content(out, shown.role_of_slot(k), slot, records, &walked);
    show_hex(shown, &walked, hex, out);
    Ok(())
}

// What it holds.
fn show_content<W: Write>(
    out: &mut Printer<W>,
    role: PartRole,
    slot: Slot,
    records: &Records,
    walked: &Walked,
) {
    match (role, slot) {
        (_, Slot::Closed) => out.put("closed\n"),
        (PartRole::Stale, _) => out.put("open, stale\n"),
        (PartRole::Counts, Slot::Open(head)) => show_batch(out, "in the log", head, records),
        (PartRole::Amiss, Slot::Open(head)) => show_batch(out, "not in the log", head, records),
        (PartRole::Counts, Slot::Damaged) => show_wrong(out, "in the log", walked),
        (PartRole::Amiss, Slot::Damaged) => show_wrong(out, "not in the log", walked),
    }
}

// The batch of a slot.
fn show_batch<W: Write>(out: &mut Printer<W>, role: &str, head: Head, records: &Records) {
    show_open(out, role);
    out.put_number(", generation ", head.generation);
    out.put_number(", first record ", head.first);
    out.put("\n");
    for (i, effect) in records.effects().iter().enumerate() {
        show_record(out, head.first.saturating_add(i as u64), effect);
    }
}

// A record, by its number.
fn show_record<W: Write>(out: &mut Printer<W>, number: u64, effect: &Effect) {
    out.put_number("  record ", number);
    out.put(":");
    for (var, value) in effect.writes.as_slice() {
        out.put_item(" ", var);
        out.put_item("=", value);
    }
    show_names(out, " checks ", effect.names.as_slice());
    show_names(out, " retires ", effect.retired.as_slice());
    out.put("\n");
}

// Names, each behind this text.
fn show_names<W: Write>(out: &mut Printer<W>, before: &str, names: &[Name]) {
    for name in names {
        out.put_item(before, name);
    }
}

// Where a part that is open goes wrong.
fn show_wrong<W: Write>(out: &mut Printer<W>, role: &str, walked: &Walked) {
    show_open(out, role);
    out.put(", damaged");
    if let Some(wrong) = walked.wrong {
        out.put_item(", ", &wrong);
    }
    out.put("\n");
}

// The state that an opening finds, as `tmem run` prints it.
fn show_state<W: Write>(out: &mut Printer<W>, state: &State) {
    let count = state.count();
    out.put_number("recovery: opened ", count);
    out.put_number("\nstate count=", count);
    out.put(" names=");
    out.put_all(state.names());
    out.put(" values=");
    out.put_all(state.values());
    out.put("\n");
}

// The bytes of a part, where they are asked for.
fn show_hex<W: Write>(shown: &ShownStore, walked: &Walked, hex: bool, out: &mut Printer<W>) {
    if hex {
        show_fields(shown, walked, out);
    }
}

// The bytes of a part, field by field.
fn show_fields<W: Write>(shown: &ShownStore, walked: &Walked, out: &mut Printer<W>) {
    for field in &walked.fields {
        out.put_number("  ", field.at);
        out.put(":");
        show_bytes(shown.bytes_of(field), out);
        out.put_item("  ", &field.is);
        out.put("\n");
    }
    if let Some(wrong) = walked.wrong {
        out.put_item("  ", &wrong);
        out.put("\n");
    }
}

// The first bytes of a field, and how many there are where those are not all.
fn show_bytes<W: Write>(bytes: &[u8], out: &mut Printer<W>) {
    for byte in &bytes[..bytes.len().min(MOST_SHOWN)] {
        out.put_byte(" ", *byte);
    }
    if bytes.len() > MOST_SHOWN {
        out.put_number(" .. ", bytes.len() as u64);
        out.put(" bytes");
    }
}
