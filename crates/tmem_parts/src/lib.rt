//! What the bytes of a store hold, part by part, and what an opening of them finds. Nothing is written to a store, and the bytes may
//! come from one that is in use.
//!
//! `block_of`, `image_of` and `slot_of` say what each part holds, and `recovery_of` opens a copy of the bytes in memory. A `WrongByte` is an
//! offset where bytes are not as the format says, and why.
#![tactic(auto)]

mod block;
mod copy;
mod image;
mod recovery;
mod slot;
mod wrong;

pub use block::{Block, block_of};
pub use image::{Image, image_of};
pub use recovery::{Recovery, recovery_of};
pub use slot::{Slot, slot_of};
pub use wrong::{FormatFlaw, WrongByte};
