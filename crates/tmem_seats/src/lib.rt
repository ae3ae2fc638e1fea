//! The seats of a store that threads share: what lies under the core's lock, and what lies under the journal's.
//!
//! `CoreSeat` is the core, and `JournalSeat` the journal, each beside its seat of the spine. Their types keep what they represent.
//! The core's state is what all committed effects make of the opening state, and is sound after each prefix of them. The journal's
//! state is what the durable ones make, and every crash leaves that, or what those make that the journal aims at. `Pass` is a caller's
//! seat, and `specs/Settling` says what it learns of a settled attempt.
#![tactic(auto)]

mod at_once;
mod core_seat;
mod failure;
mod journal_seat;
mod naming;
mod pass;
mod sleepers;

pub use core_seat::{CoreSeat, with_registers};
pub use failure::Failure;
pub use journal_seat::{JournalSeat, LogCounts};
pub use naming::{ProgramNaming, StoreNaming};
pub use pass::Pass;
