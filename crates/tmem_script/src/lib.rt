//! What goes into the program and comes out of it as text: scripts, the lines that answer them, and what is told where a
//! run fails.
//!
//! `Script::from_slice` reads and checks a whole script, before any device is made: `entry` and `event` read its parts, and
//! `tmem_forms` the transactions in it. `ReplyLine` spells a reply, and `report` a failure, which `failure` gives a status.
#![tactic(auto)]

mod entry;
mod event;
mod failure;
mod line;
mod script;

pub use failure::{ProgramFailure, WordsError, report};
pub use line::ReplyLine;
pub use script::{Playable, Script, ScriptEntry, ScriptError};
