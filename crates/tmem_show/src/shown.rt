//! What is known of a store once its block 0 was read.
ghost use Rattle.std.specs.Prelude.{◌≡◌, ◌≤◌, ◌<◌, ◌⊎◌, length, IfOk, IfErr};
ghost use Rattle.tmem_record.specs.Layout.{end_at};
ghost use Rattle.tmem_show.specs.Refusals.{IsOpening};

use crate::fields::{Field, walk_block, walk_image, walk_slot, walk_stale};
use crate::log::{Chosen, choose, generation_at, used};
use crate::reason::reason;
use crate::source::Source;
use crate::walk::{Stop, Walk};
use std::alloc::Global;
use tmem_fault::Fault;
use tmem_parts::{FormatFlaw, Image, Recovery, Slot, WrongByte, image_of, recovery_of, slot_of};
use tmem_record::{BLOCK_BYTES, LEAST_SLOTS, Layout, SLOT_BYTES};
use tmem_state::{Records, State, Version};

/// What counts of an image copy or a slot that is open.
#[derive(Clone, Copy)]
pub(crate) enum PartRole {
    /// An image that recovery begins with, or a slot of its log.
    Counts,
    /// Nothing but its generation, which is an earlier one.
    Stale,
    /// It is of a generation that may not be there.
    Amiss,
}

/// What an opening finds.
#[derive(Drop)]
pub(crate) enum OpeningResult {
    /// This state.
    Found(State),
    /// It is refused, for what is wrong there.
    Refused(Fault, WrongByte),
}

/// The bytes of a store that has a block 0, and which image is chosen there.
#[derive(Clone, Copy)]
pub(crate) struct ShownStore<'a> {
    alloc: Global,
    bytes: &'a [u8],
    pub(crate) layout: Layout,
    chosen: Option<Chosen>,
    // the version of its log
    version: Version,
    // how many slots are of the log
    used: u16,
    ghost long: { end_at layout.vars layout.slots ≤ length bytes.now },
}

/// A part as it was walked over: its fields, and where it goes wrong.
#[derive(Drop)]
pub(crate) struct Walked {
    pub(crate) at: u64,
    pub(crate) fields: Vec<Field>,
    pub(crate) wrong: Option<WrongByte>,
}

impl<'a> ShownStore<'a> {
    /// Finds which image is chosen, and how far its log goes.
    pub(crate) fn new(
        alloc: Global,
        bytes: &'a [u8],
        layout: Layout,
    ) -> Result<ShownStore<'a>, Fault>
        requires { end_at layout.vars layout.slots ≤ length bytes.now }
        ensures layout { IfOk result (λ shown. shown.layout ≡ layout) }
        ensures bytes { IfOk result (λ shown. shown.bytes.now ≡ bytes.now) }
        ensures refused { IfErr result (λ fault. (fault ≡ Fault.Memory) ⊎ (fault ≡ Fault.Device)) }
    {
        let Ok(it) = choose(bytes, layout) else {
            return Ok(ShownStore {
                alloc,
                bytes,
                layout,
                chosen: None,
                version: Version::Two,
                used: 0,
            });
        };
        let version = match image_of(alloc, bytes, layout, it.copy)? {
            Image::Open(image) => image.version,
            _ => Version::Two,
        };
        Ok(ShownStore {
            alloc,
            bytes,
            layout,
            chosen: Some(it),
            version,
            used: used(bytes, layout, it.generation),
        })
    }

    /// The bytes of a field.
    pub(crate) fn bytes_of(&self, field: &Field) -> &'a [u8] {
        let from = (field.at as usize).min(self.bytes.len());
        let end = from
            .saturating_add(field.length as usize)
            .min(self.bytes.len());
        &self.bytes[from..end]
    }

    /// What an image copy holds.
    pub(crate) fn image(&self, copy: u8) -> Result<Image, Fault>
        requires { copy ≤ 1 }
    {
        image_of(self.alloc, self.bytes, self.layout, copy)
    }

    /// What counts of an image copy, where it is open.
    pub(crate) fn role_of_image(&self, copy: u8) -> PartRole
        requires { copy ≤ 1 }
    {
        match self.chosen {
            Some(it) if it.copy == copy => PartRole::Counts,
            Some(_) => PartRole::Stale,
            None => PartRole::Amiss,
        }
    }

    /// What a log slot holds, whose records are read into those that are lent.
    pub(crate) fn slot(&self, k: u16, records: &mut Records) -> Slot
        requires { k < self.now.layout.slots }
    {
        slot_of(self.bytes, self.layout, k, self.version, records)
    }

    /// What counts of a log slot, where it is open.
    pub(crate) fn role_of_slot(&self, k: u16) -> PartRole
        requires { k < self.now.layout.slots }
    {
        if k < self.used {
            return PartRole::Counts;
        }
        let generation = generation_at(self.bytes, self.layout.slot(k));
        match (generation, self.chosen) {
            (Some(generation), Some(it)) if generation < it.generation => PartRole::Stale,
            _ => PartRole::Amiss,
        }
    }

    /// Walks over block 0.
    pub(crate) fn walk_block(&self) -> Result<Walked, Fault> {
        let mut walk = Walk::new(self.alloc, self.bytes, 0, BLOCK_BYTES);
        walk_block(&mut walk);
        passed(0, walk)
    }

    /// Walks over an image copy.
    pub(crate) fn walk_image(&self, copy: u8) -> Result<Walked, Fault>
        requires { copy ≤ 1 }
    {
        let at = self.layout.image(copy) as usize;
        let end = at + self.layout.image_size() as usize;
        let mut walk = Walk::new(self.alloc, self.bytes, at, end);
        walk_image(&mut walk, at, self.layout.vars);
        passed(at, walk)
    }

    /// Walks over a log slot.
    pub(crate) fn walk_slot(&self, k: u16) -> Result<Walked, Fault>
        requires { k < self.now.layout.slots }
    {
        let at = self.layout.slot(k) as usize;
        let mut walk = Walk::new(self.alloc, self.bytes, at, at + SLOT_BYTES);
        match self.role_of_slot(k) {
            PartRole::Stale => walk_stale(&mut walk),
            _ => walk_slot(&mut walk, self.layout.vars, self.version),
        }
        passed(at, walk)
    }

    /// What an opening finds, of a store that was formatted with this version.
    pub(crate) fn opening(&self, formatted: Version) -> Result<OpeningResult, Fault>
        ensures found { IfOk result (IsOpening self.now.layout.vars self.now.layout.slots self.now.bytes.now) }
        ensures refused { IfErr result (λ fault. fault ≡ Fault.Memory) }
    {
        let fault = match recovery_of(self.alloc, self.bytes, self.layout) {
            Recovery::Found(state) => return Ok(OpeningResult::Found(state)),
            Recovery::Refused(Fault::Memory) => return Err(Fault::Memory),
            Recovery::Refused(fault) => fault,
        };
        match reason(self.alloc, self.bytes, self.layout, formatted) {
            Ok(wrong) => Ok(OpeningResult::Refused(fault, wrong)),
            Err(_) => Err(Fault::Memory),
        }
    }
}

/// What an opening finds where this is wrong with block 0: with the least numbers, since that tells none, and fewer bytes are a store of
/// none.
pub(crate) fn opening_without_block(
    alloc: Global,
    source: &Source,
    wrong: WrongByte,
) -> Result<OpeningResult, Fault>
    ensures found { IfOk result (IsOpening 1 2 source.now.bytes.items) }
    ensures refused { IfErr result (λ fault. fault ≡ Fault.Memory) }
{
    match recovery_of(alloc, &source.bytes, least_layout()) {
        Recovery::Found(state) => Ok(OpeningResult::Found(state)),
        Recovery::Refused(Fault::Memory) => Err(Fault::Memory),
        Recovery::Refused(Fault::Geometry) => Ok(too_short(source)),
        Recovery::Refused(fault) => Ok(OpeningResult::Refused(fault, wrong)),
    }
}

/// The layout of the shortest store.
pub(crate) fn least_layout() -> Layout
    ensures vars { result.vars ≡ 1 }
    ensures slots { result.slots ≡ 2 }
{
    Layout {
        vars: 1,
        slots: LEAST_SLOTS,
    }
}

/// What an opening finds where there are fewer bytes than the layout has.
pub(crate) fn too_short(source: &Source) -> OpeningResult
    ensures { result ≡ OpeningResult.Refused Fault.Geometry (record { at = source.now.size; why = FormatFlaw.Ends }) }
{
    let wrong = WrongByte {
        at: source.size,
        why: FormatFlaw::Ends,
    };
    OpeningResult::Refused(Fault::Geometry, wrong)
}

// What a walk passed, and where it stopped.
fn passed(at: usize, walk: Walk) -> Result<Walked, Fault>
    ensures { IfErr result (λ fault. fault ≡ Fault.Memory) }
{
    let wrong = match walk.outcome() {
        Ok(()) => None,
        Err(Stop::Wrong(wrong)) => Some(wrong),
        Err(Stop::Memory) => return Err(Fault::Memory),
    };
    Ok(Walked {
        at: at as u64,
        fields: walk.into_fields(),
        wrong,
    })
}
