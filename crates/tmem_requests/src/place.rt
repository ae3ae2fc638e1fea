//! Where in a line something is wrong.
ghost use Rattle.std.specs.Prelude.{Some};

use std::fmt::{self, Display};

/// A place in a line.
#[derive(Drop)]
pub enum RequestPlace {
    /// The value that these steps lead to, from the whole: a JSON pointer (RFC 6901).
    Pointer(Vec<PointerStep>),
    /// A column of the line, from 1, where the line is not JSON.
    Column(u64),
}

impl fmt::Display for RequestPlace {
    ghost use Rattle.tmem_requests.specs.Refusals.{place_text};

    ghost output = { λ place. Some (place_text place) };

    fn fmt<W: fmt::Write>(&self, f: &mut fmt::Formatter<W>) -> fmt::Result {
        match self {
            RequestPlace::Pointer(steps) => {
                for step in steps {
                    step.fmt(f)?;
                }
                Ok(())
            }
            RequestPlace::Column(column) => write!(f, "line 1 column {column}"),
        }
    }
}

/// A step from a JSON value to one that it holds.
#[derive(Clone, Copy)]
pub enum PointerStep {
    /// To what stands at this key. Keys are the program's own words: they have nothing in them that is escaped in a JSON string or in a
    /// pointer.
    Key(&'static str),
    /// To the item of this number, from 0.
    Item(u64),
}

impl fmt::Display for PointerStep {
    ghost use Rattle.tmem_requests.specs.Refusals.{step_text};

    ghost output = { λ step. Some (step_text step) };

    fn fmt<W: fmt::Write>(&self, f: &mut fmt::Formatter<W>) -> fmt::Result {
        f.write_str("/")?;
        match self {
            PointerStep::Key(key) => f.write_str(key),
            PointerStep::Item(number) => write!(f, "{number}"),
        }
    }
}
