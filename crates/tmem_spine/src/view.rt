// What a seat knows, in one form for all seats. No value of these types is made: they exist in the proofs alone.
use atomic_table::TableRule;
use std::collections::LinkedList;
use tmem_effect::Effect;

/// A committed effect, under the mark of the pass for which it was committed.
#[derive(Drop)]
pub struct MarkedEffect {
    pub mark: u64,
    pub effect: Effect,
}

/// Whose seat it is.
#[derive(Drop)]
pub enum Role {
    /// The first seat, from which the core's and the journal's come.
    Start,
    Core,
    Journal,
    Pass,
    /// A note with which one seat tells another what it knows.
    Note,
    /// A note that was read.
    Read,
}

/// What a seat knows. The fields of another role are empty.
#[derive(Drop)]
pub struct SeatView {
    pub role: Role,
    /// The count before the first effect of the history.
    pub start: u64,

    /// Of the core: what is committed, and how many passes were given out.
    pub committed: LinkedList<MarkedEffect>,
    pub given: u64,

    /// Of the journal: what it aims at, and what is durable.
    pub aimed: LinkedList<MarkedEffect>,
    pub durable: LinkedList<MarkedEffect>,

    /// Of a pass: its mark, and the numbers and effects that are its own.
    pub mark: u64,
    pub own: LinkedList<(u64, Effect)>,

    /// What is known of the committed effects and of the durable ones, and a number that so many are durable. The core and
    /// the journal have the first two from whoever told them last.
    pub known: LinkedList<MarkedEffect>,
    pub seen: LinkedList<MarkedEffect>,
    pub trimmed: u64,
}

/// The rule of the history. Word 0 counts what is committed, word 1 what is durable. The `atomic_table` has no slots.
pub struct Law;

impl TableRule<u8, SeatView, u64> for Law {
    ghost use Rattle.tmem_spine.specs.Rule.{KeepsHistory};
    ghost use Rattle.tmem_spine.specs.Notes.{first_view};

    ghost holds = { KeepsHistory };

    ghost first = { first_view };
}
