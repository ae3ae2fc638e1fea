//! Shows what is in a store: what its bytes hold, part by part, and what an opening of them finds. Its file is opened for reading
//! alone, nothing is written, and no lock is taken.
//!
//! `Source` reads the bytes of a file or a block device. `show` prints what `tmem_parts` says of them as text, and `show_json` as one
//! JSON object. `fields` walks over the bytes of a part, for those who want to see each of them and where a part goes wrong; `log`
//! says which image is chosen and which slots are of its log, `reason` why an opening is refused, and at which byte, and `refusal_of` in
//! which part that is. `length_without_loss` says how long one that ends too soon is to be made, where nothing
//! of its log is missing.
#![tactic(auto)]

mod cut;
mod error;
mod fields;
mod json;
mod log;
mod printer;
mod reason;
mod refusal;
mod shown;
mod source;
mod text;
mod walk;

pub use cut::length_without_loss;
pub use error::ShowError;
pub use json::show_json;
pub use refusal::{Refusal, refusal_of};
pub use source::Source;
pub use text::show;
