//! What is wrong with a script, and where.
ghost use Rattle.std.specs.Prelude.{Some, flat_map};
ghost use Rattle.std.specs.Fmt.{DisplaysOnOk};
ghost use Rattle.tmem_requests.specs.Refusals.{step_text};

use crate::expected::Expected;
use std::fmt::{self, Display};
use tmem_requests::PointerStep;

/// What is wrong with a script.
#[derive(Drop)]
pub struct Flaw {
    pub expected: Expected,
    pub at: Spot,
}

/// A place in the text of a script.
#[derive(Drop)]
pub enum Spot {
    /// The value that these steps lead to, from the whole: a JSON pointer (RFC 6901).
    Pointer(Vec<PointerStep>),
    /// A key of the whole that it may not have. It is one that stands in a pointer as it is.
    Unknown(String),
    /// A line and a column of the text, from 1, where it is not JSON.
    Text { line: u64, column: u64 },
}

impl fmt::Display for Spot {
    ghost use Rattle.std.specs.Prelude.{Some};
    ghost use Rattle.tmem_explain.specs.Told.{spot_text};

    ghost output = { λ spot. Some (spot_text spot) };

    fn fmt<W: fmt::Write>(&self, f: &mut fmt::Formatter<W>) -> fmt::Result {
        match self {
            Spot::Pointer(steps) => write_steps(f, steps),
            Spot::Unknown(key) => write!(f, "/{key}"),
            Spot::Text { line, column } => write!(f, "line {line} column {column}"),
        }
    }
}

// The steps of a pointer, one behind the other.
fn write_steps<W: fmt::Write>(f: &mut fmt::Formatter<W>, steps: &[PointerStep]) -> fmt::Result
    ensures { DisplaysOnOk W.write_str_gives f.old result (Some (flat_map step_text steps.now)) f.new }
{
    for step in steps {
        step.fmt(f)?;
    }
    Ok(())
}

impl Flaw {
    ghost use Rattle.std.specs.Prelude.{◌≡◌};
    ghost use Rattle.tmem_explain.specs.Told.{is_whole};

    // Whether it is the whole that is wrong.
    fn is_whole(&self) -> bool
        ensures { result ≡ is_whole self.now.at }
    {
        match &self.at {
            Spot::Pointer(steps) => steps.is_empty(),
            Spot::Unknown(_) | Spot::Text { .. } => false,
        }
    }
}

impl fmt::Display for Flaw {
    ghost use Rattle.std.specs.Prelude.{Some};
    ghost use Rattle.tmem_explain.specs.Told.{flaw_text};

    ghost output = { λ flaw. Some (flaw_text flaw) };

    fn fmt<W: fmt::Write>(&self, f: &mut fmt::Formatter<W>) -> fmt::Result {
        if self.is_whole() {
            self.expected.fmt(f)
        } else {
            write!(f, "{}: {}", self.at, self.expected)
        }
    }
}
