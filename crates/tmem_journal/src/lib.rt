//! The journal: which state the bytes of a device represent.
//!
//! `Contents` in `specs/` says which content represents which state. `format` writes an empty store. A `Journal` owns a
//! device and knows the state that it represents: `open` recovers it, `flush` makes a batch durable, and `checkpoint` makes
//! an image of the state and empties the log. A crash (a power cut or a kill) at any moment of `flush` leaves the
//! state before the batch or the state after it, and at any moment of `open` and of `checkpoint` the state that was there.
//!
//! Images and their logs are of format version 1 or 2. Version 2 is written, and both are read: `open` makes a checkpoint of a
//! store whose image is of version 1. Block 0 keeps the version that the store was formatted with.
//!
//! `recovery` finds the state, over `parts`, which finds block 0; images and the log are crates of their own. `renewing`
//! writes a new image and empties the log behind it, and `migrating` does so once a state of version 1 was found. `block`
//! reads and writes the bytes of block 0, and `calls` writes a cell. `laws` states what holds of every content.
#![tactic(auto)]

mod block;
mod buffer;
mod calls;
mod committing;
mod formatting;
mod journal;
mod laws;
mod migrating;
mod parts;
mod recovery;
mod renewing;
mod room;

pub use formatting::format;
pub use journal::Journal;
pub use laws::{refused_represents_none, represents_one, spent_is_at_last};
pub use tmem_record::Layout;
