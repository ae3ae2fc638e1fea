//! The redo log: batches of transactions behind the open gates of the first slots of a device.
//!
//! `specs/Log.antt` says which log a content holds over an image of one generation: it is spelled in the version of that
//! image. `append` puts a batch of version 2 last: a crash (a power cut or a kill) at any moment leaves the log without it, or
//! with the whole of it. `scan` reads a log of either version and brings the image's state to the state after it.
//! `close_stale` closes what the log of an older generation left open, and `empty` begins a log of the next generation once
//! an image holds all that the log held.
#![tactic(auto)]

mod appending;
mod emptying;
mod log;
mod replay;
mod room;
mod scanning;
mod stale;
mod unique;

pub use appending::append;
pub use emptying::empty;
pub use log::Log;
pub use room::LogRoom;
pub use scanning::scan;
pub use stale::close_stale;
pub use unique::one_log;
