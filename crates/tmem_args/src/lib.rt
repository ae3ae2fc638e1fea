//! The words of the command line of `tmem`: which there may be, and what they ask for. `clap` reads them, and `specs/CommandLine` says
//! what they mean in its terms.
#![tactic(auto)]

mod args;

pub use args::{
    Asked, Counting, Invocation, JOBS_STORE, Making, Paths, Serving, Showing, Timing, asked_of,
    reads_plainly,
};
