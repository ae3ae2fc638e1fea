//! A store is opened: recovery of what its device holds, a core of the state that is found, and the journal that goes on from it.
//!
//! A world for one thread and the front for many begin with what `Opening::open` answers. So what an opening finds, why it is
//! refused, and what a crash inside it leaves stands here, once.
#![tactic(auto)]

mod opening;

pub use opening::Opening;
