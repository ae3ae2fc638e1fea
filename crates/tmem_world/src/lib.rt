//! Durable transactions for one thread: events are played over the present state and a device.
//!
//! `World` is what callers see. Its replies are those of a run of the model (`WorldModel` in `specs/`), and every crash of
//! its device leaves a content that represents the serial order of committed transactions, cut at a number that holds all
//! that was acknowledged (`Represents`). What a crash leaves, and which state a reopening finds, rests on the disk model; on
//! a device that breaks it a reopening begins another run (`AnyDevice`). `Chain` says all this through any chain of
//! sessions. Transactions, their evaluation, the core and what stands on the device are crates of their own; `core_and_journal`
//! joins a core to a journal.
#![tactic(auto)]

mod attempt;
mod chain;
mod core_and_journal;
mod held;
mod world;

pub use chain::{crash_leaves_store, following_keeps_store, formatted_is_store};
pub use tmem_event::{ATTEMPTS, Event, Reply, Settled};
pub use tmem_journal::{Layout, format};
pub use world::World;
