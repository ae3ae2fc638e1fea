//! A new store: its content, and how it gets to its place.
//!
//! `content_of` makes the bytes of a store in memory: every variable is 0, and the invariants that are always to hold are registered. It
//! opens them once more, so that what it answers represents that state. `make_store` puts them into a new file, behind the text that
//! the store was made of, and `make_in_place` into a file or a block device that is there. Both may be cut off at any moment and begun
//! again with the same words.
#![tactic(auto)]

mod content;
mod error;
mod making;
mod placing;

pub use content::content_of;
pub use error::InitError;
pub use making::{make_in_place, make_store};
pub use placing::{cut_off_begins_again, put_on};
