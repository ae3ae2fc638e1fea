//! Lines, cut from what is read piece by piece.
//!
//! However a text comes in pieces, `Lines` gives its lines, each once and in order. A line of more than `MAX_LINE_BYTES` bytes is told as too
//! long, and no more than so many bytes of a line are held whose end has not come yet.
#![tactic(auto)]

mod lines;

pub use lines::{Cut, Lines, MAX_LINE_BYTES};
