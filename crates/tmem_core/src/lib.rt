//! The present state, of which every registered invariant is true, and what was committed and is not known durable.
//!
//! `Core::settle` answers an attempt by the present state: it compares the values that the attempt read, tests the
//! invariants on the map that the effect would make, and commits the effect or nothing. `Core::decide` does the same and leaves
//! the registers out of the answer. `Core::probe` tests one invariant on the values that a transaction sees at its point. The core is
//! memory only: it knows no device and no thread, and only its making takes memory. It asks for `Invariants`, and names no closure.
//! `serial` states what holds of every serial order.
#![tactic(auto)]

mod core_state;
mod decision;
mod history;
mod serial;
mod trial;
mod waiting;

pub use core_state::Core;
pub use decision::Decision;
pub use serial::names_only_grow;
pub use tmem_tree::Settled;
pub use waiting::MAX_WAITING;
