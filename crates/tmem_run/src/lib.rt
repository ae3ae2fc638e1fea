//! Plays scripts of durable transactions, and prints a line for each entry.
//!
//! `playing` plays a script on a device, which `device` makes or opens, and `print` prints the lines. `trace` keeps what of a run is told
//! again where it fails, and `counts` what of it is not durable at its end. `chain` has a law of what a crash of a run leaves.
#![tactic(auto)]

mod chain;
mod counts;
mod device;
mod playing;
mod print;
mod trace;

pub use chain::crash_leaves_run;
pub use counts::Lost;
pub use device::{device_in_memory, made_file};
pub use playing::{Played, play, play_on};
pub use print::{Flushed, flush_output, print_line};
pub use trace::{Refused, Trace};
