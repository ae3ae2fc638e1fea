// What each step on the table tells, and how views are cut in two and joined.
ghost use Rattle.tmem_spine.specs.Steps.{told, Accepts, Aims, Stays, Hardens, Trims, Looks, meets_core, gains, meets_journal};
ghost use Rattle.tmem_spine.specs.Notes.{as_core, journal_from, pass_from, gives, note, read_note, core_told, journal_told};
ghost use Rattle.std.specs.Prelude.{[]};

use crate::view::SeatView;
use atomic_table::{Join, Play, Split};
use std::marker::{Brand, PhantomData};

/// What a call picks for its step: an effect under a mark, and a number.
pub trait Choice {
    ghost use Rattle.std.specs.Prelude.{ℕ};
    ghost use Rattle.tmem_spine.specs.declared.view.MarkedEffect.{MarkedEffect};

    ghost picked: { MarkedEffect };

    ghost number: { ℕ };
}

impl Choice for Brand {
    ghost use Rattle.tmem_effect.specs.State.{no_effect};
    ghost use Rattle.tmem_spine.specs.History.{marked_effect};

    ghost picked = { marked_effect 0 no_effect };

    ghost number = { 0 };
}

pub(crate) struct Accept<C> {
    choice: PhantomData<C>,
}

impl<C: Choice> Play<u8, SeatView> for Accept<C> {
    ghost then = { told (Accepts C.picked) };
}

pub(crate) struct Aim<C> {
    choice: PhantomData<C>,
}

impl<C: Choice> Play<u8, SeatView> for Aim<C> {
    ghost then = { told (Aims C.number) };
}

pub(crate) struct Stay;

impl Play<u8, SeatView> for Stay {
    ghost then = { told Stays };
}

pub(crate) struct Harden;

impl Play<u8, SeatView> for Harden {
    ghost then = { told Hardens };
}

pub(crate) struct Trim;

impl Play<u8, SeatView> for Trim {
    ghost then = { told Trims };
}

pub(crate) struct Look;

impl Play<u8, SeatView> for Look {
    ghost then = { told Looks };
}

/// The first seat becomes the core's, and the journal gets one.
pub(crate) struct Begin;

impl Split<SeatView> for Begin {
    ghost left = { as_core };

    ghost right = { journal_from };
}

/// The core gives out a pass.
pub(crate) struct Give;

impl Split<SeatView> for Give {
    ghost left = { gives };

    ghost right = { pass_from };
}

/// The core writes a note of what is committed, and of how many it knows to be durable.
pub(crate) struct CoreTells;

impl Split<SeatView> for CoreTells {
    ghost left = { λ v. v };

    ghost right = { λ v. note v.start v.committed [] v.trimmed };
}

/// The journal writes a note of what is durable.
pub(crate) struct JournalTells;

impl Split<SeatView> for JournalTells {
    ghost left = { λ v. v };

    ghost right = { λ v. note v.start v.durable v.durable 0 };
}

/// A pass writes a note of what it knows and what it saw.
pub(crate) struct PassTells;

impl Split<SeatView> for PassTells {
    ghost left = { λ v. v };

    ghost right = { λ v. note v.start v.known v.seen 0 };
}

/// The core reads a note.
pub(crate) struct CoreHears;

impl Join<SeatView> for CoreHears {
    ghost both = { core_told };

    ghost spent = { read_note };
}

/// The journal reads a note.
pub(crate) struct JournalHears;

impl Join<SeatView> for JournalHears {
    ghost both = { journal_told };

    ghost spent = { read_note };
}

/// A pass meets the core, by its note.
pub(crate) struct MeetCore;

impl Join<SeatView> for MeetCore {
    ghost both = { meets_core };

    ghost spent = { read_note };
}

/// A pass meets the core, and an effect there is its own.
pub(crate) struct Gain<C> {
    choice: PhantomData<C>,
}

impl<C: Choice> Join<SeatView> for Gain<C> {
    ghost both = { gains C.number C.picked.effect };

    ghost spent = { read_note };
}

/// A pass meets the journal, by its note.
pub(crate) struct MeetJournal;

impl Join<SeatView> for MeetJournal {
    ghost both = { meets_journal };

    ghost spent = { read_note };
}
