//! What a line is answered that is no request.
use crate::place::RequestPlace;
use crate::why::RequestFlaw;
use std::alloc::AllocError;
use std::fmt;

/// That a line is no request: what is wrong with it, and where.
#[derive(Drop)]
pub struct NoRequest {
    pub why: RequestFlaw,
    pub at: RequestPlace,
}

/// Why a line was not read.
#[derive(Drop)]
pub enum RequestError {
    /// Memory did not suffice.
    Memory(AllocError),
    /// The line is no request.
    NoRequest(NoRequest),
}

impl From<serde_json::Error> for RequestError {
    ghost use Rattle.serde_json.specs.Errors.{IsMemory};
    ghost use Rattle.tmem_requests.specs.Errors.{IsNoRequest, IsNotJson, LacksMemory};

    ghost from_gives = { λ error e. (IsMemory error → LacksMemory e) × (¬ IsMemory error → IsNoRequest e × IsNotJson e) };

    fn from(error: serde_json::Error) -> RequestError {
        if error.is_memory() {
            return RequestError::Memory(AllocError);
        }
        RequestError::NoRequest(NoRequest {
            why: RequestFlaw::NotJson,
            // an empty text has no column, and is wrong at its first
            at: RequestPlace::Column(error.column().max(1) as u64),
        })
    }
}

/// The line that says so of the line of this number, from 1, without its line break.
#[derive(Drop)]
pub struct NoRequestLine {
    pub line: u64,
    pub refusal: NoRequest,
}

impl fmt::Display for NoRequestLine {
    ghost use Rattle.std.specs.Prelude.{Some};
    ghost use Rattle.tmem_requests.specs.Refusals.{no_request_line};

    ghost output = { λ line. Some (no_request_line line.line line.refusal) };

    fn fmt<W: fmt::Write>(&self, f: &mut fmt::Formatter<W>) -> fmt::Result {
        let NoRequest { why, at } = &self.refusal;
        write!(
            f,
            "{{\"line\":{},\"fault\":0,\"word\":\"norequest\",\"why\":\"{why}\",\"at\":\"{at}\"}}",
            self.line,
        )
    }
}
