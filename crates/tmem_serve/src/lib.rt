//! Serves a store to one client, by lines: opens it, prints the first line, and answers lines until the end of the input.
//!
//! One thread reads what is there, has the desk of `tmem_desk` answer the whole lines of it by one write, and begins again. So nothing
//! that the client was told is lost, whatever crashes. `Service` is the store of a front, as a desk asks for it.
#![tactic(auto)]

mod attempting;
mod error;
mod looking;
mod proposing;
mod service;
mod serving;
mod settling;

pub use error::ServeError;
pub use service::Service;
pub use serving::{InputEnd, Served, serve_store};
