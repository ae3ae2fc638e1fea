//! A state is what all committed transactions made, and a batch is a list of effects that fits one slot of the log. Both take memory when
//! they are made, and none after that. The format has two versions, which differ in what a record may tell. Words that take no version
//! speak of the second.
#![tactic(auto)]

mod batch;
mod name_set;
mod records;
mod state;
mod version;

pub use batch::{BATCH_BYTES, Batch, MAX_RECORD_BYTES};
pub use name_set::{MAX_NAMES, NameSet};
pub use records::{MAX_RECORDS, Records};
pub use state::State;
pub use version::Version;
