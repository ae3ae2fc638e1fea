//! What of a store an opening refuses.
ghost use Rattle.std.specs.Prelude.{◌≡◌, ◌⊎◌, ℕ, List, IfErr, IfOk, IfSome};
ghost use Rattle.tmem_parts.specs.Block.{IsBlockWrong};
ghost use Rattle.tmem_show.specs.Refusals.{IsInPart, IsOpening, IsPlaced, IsPlacedBefore, IsPlacedBehind, IsPlacedIn, TellsOf, TellsOpening, is_of_no_store};

use crate::shown::{OpeningResult, ShownStore, least_layout, opening_without_block, too_short};
use crate::source::Source;
use std::alloc::Global;
use std::fmt;
use tmem_fault::Fault;
use tmem_parts::{Block, WrongByte, block_of};
use tmem_record::{BLOCK_BYTES, Layout, SLOT_BYTES};

/// Why an opening of a store is refused, and where. It prints as the part, the byte, and what is wrong there; of bytes that are fewer than
/// those of any store, behind how many there are.
#[derive(Drop)]
pub struct Refusal {
    pub fault: Fault,
    place: Place,
}

// Where something is wrong.
#[derive(Clone, Copy)]
enum Place {
    /// In this part.
    In(Part, WrongByte),
    /// In block 0, of so many bytes as no store has.
    Before(u64, WrongByte),
}

// A part of a store.
#[derive(Clone, Copy)]
enum Part {
    Block,
    Image(u8),
    Slot(u64),
}

impl fmt::Display for Refusal {
    fn fmt<W: fmt::Write>(&self, f: &mut fmt::Formatter<W>) -> fmt::Result {
        match &self.place {
            Place::In(part, wrong) => {
                let (name, number) = match part {
                    Part::Block => ("block", 0),
                    Part::Image(copy) => ("image", *copy as u64),
                    Part::Slot(k) => ("slot", *k),
                };
                write!(f, "{name} {number}, {wrong}")
            }
            Place::Before(size, wrong) => {
                let shortest = least_layout().end();
                write!(
                    f,
                    "it has {size} bytes, and the shortest store has {shortest}; block 0, {wrong}"
                )
            }
        }
    }
}

impl Refusal {
    /// Whether there are too few bytes of what does not begin as a store.
    pub fn is_of_no_store(&self) -> bool
        ensures { result ≡ is_of_no_store self.now.place }
    {
        matches!(self.place, Place::Before(_, _))
    }
}

/// Why an opening of these bytes is refused, if it is. The only error that happens is want of memory: the copy of the bytes that is
/// opened does not fail.
pub fn refusal_of(alloc: Global, source: &Source) -> Result<Option<Refusal>, Fault>
    ensures told { IfOk result (TellsOf source.now.bytes.items) }
    ensures placed { IfOk result (λ told. IfSome told (λ refusal. IsPlaced source.now.size source.now.bytes.items refusal.place)) }
    ensures refused { IfErr result (λ fault. (fault ≡ Fault.Memory) ⊎ (fault ≡ Fault.Device)) }
{
    match block_of(&source.bytes) {
        Ok(block) => refusal_behind(alloc, source, block),
        Err(wrong) => refusal_before(alloc, source, wrong),
    }
}

// The same of a store with this block 0.
fn refusal_behind(alloc: Global, source: &Source, block: Block) -> Result<Option<Refusal>, Fault>
    ensures told { IfOk result (TellsOpening block.layout.vars block.layout.slots source.now.bytes.items) }
    ensures placed { IfOk result (λ told. IfSome told (λ refusal. IsPlacedBehind block.layout.vars block.layout.slots source.now.size source.now.bytes.items refusal.place)) }
    ensures refused { IfErr result (λ fault. (fault ≡ Fault.Memory) ⊎ (fault ≡ Fault.Device)) }
{
    let Block { version, layout } = block;
    if (source.bytes.len() as u64) < layout.end() {
        return Ok(refusal_in(layout, &too_short(source)));
    }
    match &ShownStore::new(alloc, &source.bytes, layout) {
        Ok(shown) => {
            let opening = shown.opening(version)?;
            Ok(refusal_in(layout, &opening))
        }
        Err(fault) => Err(*fault),
    }
}

// What is refused by what an opening finds in a store of this layout.
fn refusal_in(layout: Layout, opening: &OpeningResult) -> Option<Refusal>
    ensures told { (vars slots : ℕ) (c : List ℕ) → IsOpening vars slots c opening.now → TellsOpening vars slots c result }
    ensures placed { IfSome result (λ refusal. IsPlacedIn layout.vars opening.now refusal.place) }
{
    let OpeningResult::Refused(fault, wrong) = opening else {
        return None;
    };
    Some(Refusal {
        fault: *fault,
        place: Place::In(part_at(layout, wrong.at), *wrong),
    })
}

// Why an opening is refused where this is wrong with block 0.
fn refusal_before(
    alloc: Global,
    source: &Source,
    wrong: WrongByte,
) -> Result<Option<Refusal>, Fault>
    requires { IsBlockWrong wrong.why wrong.at source.now.bytes.items }
    ensures told { IfOk result (TellsOpening 1 2 source.now.bytes.items) }
    ensures placed { IfOk result (λ told. IfSome told (λ refusal. IsPlacedBefore source.now.size source.now.bytes.items refusal.place)) }
    ensures refused { IfErr result (λ fault. fault ≡ Fault.Memory) }
{
    let opening = opening_without_block(alloc, source, wrong)?;
    Ok(refusal_at(place_before(source, wrong), &opening))
}

// What is refused, if it is, told at this place.
fn refusal_at(place: Place, opening: &OpeningResult) -> Option<Refusal>
    ensures told { (vars slots : ℕ) (c : List ℕ) → IsOpening vars slots c opening.now → TellsOpening vars slots c result }
    ensures placed { IfSome result (λ refusal. refusal.place ≡ place) }
{
    match opening {
        OpeningResult::Found(_) => None,
        OpeningResult::Refused(fault, _) => Some(Refusal {
            fault: *fault,
            place,
        }),
    }
}

// Where that is told: of bytes that no store has so few of, with their number.
fn place_before(source: &Source, wrong: WrongByte) -> Place
    requires { IsBlockWrong wrong.why wrong.at source.now.bytes.items }
    ensures { IsPlacedBefore source.now.size source.now.bytes.items result }
{
    if (source.bytes.len() as u64) < least_layout().end() {
        Place::Before(source.size, wrong)
    } else {
        Place::In(Part::Block, wrong)
    }
}

// The part that a byte belongs to.
fn part_at(layout: Layout, at: u64) -> Part
    ensures { IsInPart layout.vars at result }
{
    let log = layout.slot(0);
    if at < BLOCK_BYTES as u64 {
        Part::Block
    } else if at < layout.image(1) {
        Part::Image(0)
    } else if at < log {
        Part::Image(1)
    } else {
        Part::Slot((at - log) / SLOT_BYTES as u64)
    }
}
