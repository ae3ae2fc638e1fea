//! What is shown as one JSON object.
ghost use Rattle.std.specs.Prelude.{◌≤◌, ◌<◌};

use crate::error::ShowError;
use crate::printer::Printer;
use crate::shown::{OpeningResult, PartRole, ShownStore, Walked, opening_without_block, too_short};
use crate::source::Source;
use std::alloc::Global;
use std::io::Write;
use tmem_effect::Effect;
use tmem_fault::{Fault, Name};
use tmem_image::ImageState;
use tmem_parts::{Block, Image, Slot, WrongByte, block_of};
use tmem_record::{Head, Layout};
use tmem_state::{Records, State, Version};

/// Prints what the bytes of a store hold, and what an opening of them finds, as one JSON object in a line; and with `hex` the bytes of
/// each part, field by field.
pub fn show_json<W: Write>(
    alloc: Global,
    source: &Source,
    hex: bool,
    out: &mut W,
) -> Result<(), ShowError> {
    let mut out = Printer::new(out);
    let outcome = put_source(alloc, source, hex, &mut out);
    out.end(outcome)
}

// The object and the end of its line.
fn put_source<W: Write>(
    alloc: Global,
    source: &Source,
    hex: bool,
    out: &mut Printer<W>,
) -> Result<(), Fault> {
    out.put_number("{\"size\":", source.size);
    out.put(",\"block\":");
    match block_of(&source.bytes) {
        Ok(block) => put_store(alloc, source, block, hex, out)?,
        Err(wrong) => put_no_store(alloc, source, wrong, out)?,
    }
    out.put("}\n");
    Ok(())
}

// What is wrong with block 0, and what an opening finds.
fn put_no_store<W: Write>(
    alloc: Global,
    source: &Source,
    wrong: WrongByte,
    out: &mut Printer<W>,
) -> Result<(), Fault> {
    out.put("{\"at\":0,");
    put_wrong(out, wrong);
    let opening = opening_without_block(alloc, source, wrong)?;
    out.put("}");
    put_opening(out, &opening);
    Ok(())
}

// The parts of a store with this block 0.
fn put_store<W: Write>(
    alloc: Global,
    source: &Source,
    block: Block,
    hex: bool,
    out: &mut Printer<W>,
) -> Result<(), Fault> {
    let Block { version, layout } = block;
    put_block(out, version, layout);
    if (source.bytes.len() as u64) < layout.end() {
        out.put("}");
        put_opening(out, &too_short(source));
        return Ok(());
    }
    match &ShownStore::new(alloc, &source.bytes, layout) {
        Ok(shown) => put_parts(alloc, shown, version, hex, out),
        Err(fault) => Err(*fault),
    }
}

// The rest of block 0 and the parts behind it, of a store that was formatted with this version, and what an opening finds.
fn put_parts<W: Write>(
    alloc: Global,
    shown: &ShownStore,
    version: Version,
    hex: bool,
    out: &mut Printer<W>,
) -> Result<(), Fault> {
    if hex {
        put_fields(shown, &shown.walk_block()?, out);
    }
    out.put("},\"images\":[");
    put_image(shown, 0, hex, out)?;
    put_image(shown, 1, hex, out)?;
    out.put("]");
    put_slots(alloc, shown, hex, out)?;
    let opening = shown.opening(version)?;
    put_opening(out, &opening);
    Ok(())
}

// The start of block 0, up to the end of the layout.
fn put_block<W: Write>(out: &mut Printer<W>, version: Version, layout: Layout) {
    out.put_number("{\"at\":0,\"version\":", version.number() as u64);
    out.put_number(",\"vars\":", layout.vars as u64);
    out.put_number(",\"slots\":", layout.slots as u64);
    out.put_number(",\"end\":", layout.end());
}

// The log slots.
fn put_slots<W: Write>(
    alloc: Global,
    shown: &ShownStore,
    hex: bool,
    out: &mut Printer<W>,
) -> Result<(), Fault> {
    out.put(",\"slots\":[");
    let mut records = Records::new(alloc)?;
    for k in 0..shown.layout.slots {
        put_slot(shown, k, &mut records, hex, out)?;
    }
    out.put("]");
    Ok(())
}

// What an opening finds, or its refusal, and where that comes from.
fn put_opening<W: Write>(out: &mut Printer<W>, opening: &OpeningResult) {
    out.put(",\"recovery\":");
    match opening {
        OpeningResult::Found(state) => put_state(out, state),
        OpeningResult::Refused(fault, wrong) => put_refusal(out, *fault, *wrong),
    }
}

// An image copy, behind a comma unless it is the first.
fn put_image<W: Write>(
    shown: &ShownStore,
    copy: u8,
    hex: bool,
    out: &mut Printer<W>,
) -> Result<(), Fault>
    requires { copy ≤ 1 }
{
    let walked = shown.walk_image(copy)?;
    begin(out, copy > 0, walked.at);
    put_copy(shown, copy, &walked, out)?;
    end(shown, &walked, hex, out);
    Ok(())
}

// Whether it is open, and what it holds.
fn put_copy<W: Write>(
    shown: &ShownStore,
    copy: u8,
    walked: &Walked,
    out: &mut Printer<W>,
) -> Result<(), Fault>
    requires { copy ≤ 1 }
{
    let role = shown.role_of_image(copy);
    match shown.image(copy)? {
        Image::Closed => out.put("false"),
        Image::Damaged => put_damage(out, role, walked),
        Image::Open(image) => put_head(out, role, &image),
    }
    Ok(())
}

fn put_head<W: Write>(out: &mut Printer<W>, role: PartRole, image: &ImageState) {
    put_role(out, role);
    out.put_number(",\"version\":", image.version.number() as u64);
    out.put_number(",\"generation\":", image.generation);
    put_reached(out, ",\"count\":", &image.state);
}

// The count of a state, behind a text, and its names.
fn put_reached<W: Write>(out: &mut Printer<W>, before: &str, state: &State) {
    out.put_number(before, state.count());
    put_names(out, ",\"names\":[", state.names());
}

// A log slot, behind a comma unless it is the first.
fn put_slot<W: Write>(
    shown: &ShownStore,
    k: u16,
    records: &mut Records,
    hex: bool,
    out: &mut Printer<W>,
) -> Result<(), Fault>
    requires { k < shown.now.layout.slots }
{
    let walked = shown.walk_slot(k)?;
    begin(out, k > 0, walked.at);
    let slot = shown.slot(k, records);
    put_content(out, shown.role_of_slot(k), slot, records, &walked);
    end(shown, &walked, hex, out);
    Ok(())
}

// Whether it is open, and what counts of it.
fn put_content<W: Write>(
    out: &mut Printer<W>,
    role: PartRole,
    slot: Slot,
    records: &Records,
    walked: &Walked,
) {
    match (role, slot) {
        (_, Slot::Closed) => out.put("false"),
        (PartRole::Stale, _) => put_role(out, role),
        (_, Slot::Open(head)) => put_batch(out, role, head, records),
        (_, Slot::Damaged) => put_damage(out, role, walked),
    }
}

// The end of a part, with its bytes where they are asked for.
fn end<W: Write>(shown: &ShownStore, walked: &Walked, hex: bool, out: &mut Printer<W>) {
    if hex {
        put_fields(shown, walked, out);
    }
    out.put("}");
}

// The start of a part, up to whether it is open.
fn begin<W: Write>(out: &mut Printer<W>, is_later: bool, at: u64) {
    let before = if is_later { ",{\"at\":" } else { "{\"at\":" };
    out.put_number(before, at);
    out.put(",\"open\":");
}

// That a part is open, and what counts of it.
fn put_role<W: Write>(out: &mut Printer<W>, role: PartRole) {
    out.put(match role {
        PartRole::Counts => "true,\"counts\":true,\"stale\":false",
        PartRole::Stale => "true,\"counts\":false,\"stale\":true",
        PartRole::Amiss => "true,\"counts\":false,\"stale\":false",
    });
}

// The batch of a slot.
fn put_batch<W: Write>(out: &mut Printer<W>, role: PartRole, head: Head, records: &Records) {
    put_role(out, role);
    out.put_number(",\"generation\":", head.generation);
    out.put_number(",\"first\":", head.first);
    out.put(",\"records\":[");
    put_records(out, records.effects());
    out.put("]");
}

fn put_records<W: Write>(out: &mut Printer<W>, effects: &[Effect]) {
    let mut before = "{\"writes\":[";
    for effect in effects {
        out.put(before);
        put_record(out, effect);
        before = ",{\"writes\":[";
    }
}

// A record, from its writes on.
fn put_record<W: Write>(out: &mut Printer<W>, effect: &Effect) {
    let mut before = "[";
    for (var, value) in effect.writes.as_slice() {
        out.put_item(before, var);
        out.put_item(",", value);
        out.put("]");
        before = ",[";
    }
    put_names(out, "],\"checks\":[", effect.names.as_slice());
    put_names(out, ",\"retires\":[", effect.retired.as_slice());
    out.put("}");
}

// That a part is open, and where it goes wrong.
fn put_damage<W: Write>(out: &mut Printer<W>, role: PartRole, walked: &Walked) {
    put_role(out, role);
    out.put(",");
    match walked.wrong {
        Some(wrong) => put_wrong(out, wrong),
        None => out.put("\"wrong\":null"),
    }
}

fn put_wrong<W: Write>(out: &mut Printer<W>, wrong: WrongByte) {
    out.put_number("\"wrong\":{\"at\":", wrong.at);
    out.put_item(",\"why\":\"", &wrong.why);
    out.put("\"}");
}

// The state that an opening finds.
fn put_state<W: Write>(out: &mut Printer<W>, state: &State) {
    put_reached(out, "{\"count\":", state);
    out.put(",\"values\":[");
    out.put_all(state.values());
    out.put("]}");
}

// The refusal of an opening, and where it comes from.
fn put_refusal<W: Write>(out: &mut Printer<W>, fault: Fault, wrong: WrongByte) {
    let (number, word) = number_and_word(fault);
    out.put_number("{\"fault\":", number);
    out.put(",\"word\":\"");
    out.put(word);
    out.put("\",");
    put_wrong(out, wrong);
    out.put("}");
}

// The number of a refusal of these bytes, and its word.
fn number_and_word(fault: Fault) -> (u64, &'static str) {
    match fault {
        Fault::NotFormatted => (8, "notformatted"),
        Fault::Damaged => (9, "damaged"),
        Fault::Spent => (15, "spent"),
        Fault::Geometry => (17, "geometry"),
        _ => (2, "device"),
    }
}

// The bytes of a part, field by field.
fn put_fields<W: Write>(shown: &ShownStore, walked: &Walked, out: &mut Printer<W>) {
    out.put(",\"fields\":[");
    let mut before = "[";
    for field in &walked.fields {
        out.put_number(before, field.at);
        out.put(",\"");
        for byte in shown.bytes_of(field) {
            out.put_byte("", *byte);
        }
        out.put_item("\",\"", &field.is);
        out.put("\"]");
        before = ",[";
    }
    out.put("]");
}

// Names in quotes, behind a text, with a comma between any two, and the end of their list.
fn put_names<W: Write>(out: &mut Printer<W>, before: &str, names: &[Name]) {
    out.put(before);
    let mut before = "\"";
    for name in names {
        out.put_item(before, name);
        out.put("\"");
        before = ",\"";
    }
    out.put("]");
}
