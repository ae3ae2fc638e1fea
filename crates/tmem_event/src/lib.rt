//! What a world is asked and what it answers. A script needs no more of it than this.
#![tactic(auto)]

mod event;

pub use event::{ATTEMPTS, Event, Reply};
pub use tmem_tree::Settled;
