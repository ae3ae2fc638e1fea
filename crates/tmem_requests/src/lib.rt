//! What goes into a served store as text: a line for each request.
//!
//! `Request::read` reads a line, exactly: it gives a request where the line is one, by `specs/Requests`, and else a `NoRequest` that
//! says what is wrong and where. `Request::fits` says whether a request can be made of a store. `NoRequestLine` is what is printed for a
//! line that is no request: its text is `no_request_line`.
#![tactic(auto)]

mod ask;
mod attempt;
mod buffer;
mod explain;
mod fits;
mod items;
mod keys;
mod limits;
mod place;
mod proposal;
mod refusal;
mod request;
mod why;

pub use attempt::proposed_attempt;
pub use buffer::ReadBuffer;
pub use explain::{WrongValue, find_in_tx};
pub use keys::has_only;
pub use limits::MAX_READS;
pub use place::{PointerStep, RequestPlace};
pub use proposal::Proposal;
pub use refusal::{NoRequest, NoRequestLine, RequestError};
pub use request::{Request, RequestBody};
pub use why::RequestFlaw;
