//! Where in the text of a shape something is wrong.
use crate::key::Key;
use std::fmt;

/// A place in the text of a shape. It prints as the JSON pointer (RFC 6901) of a value or of a key, or as a line and a column
/// where the text is not JSON. Items are counted from 0, lines and columns from 1.
#[derive(Debug, Drop)]
pub enum ShapePlace {
    /// A line and a column of the text.
    Text { line: usize, column: usize },
    /// The value of the whole text.
    Whole,
    /// What stands at this key of the whole.
    Member(Key),
    /// A key of the whole that it may not have.
    Unknown(String),
    /// An invariant.
    Invariant(usize),
    /// What stands at this key of an invariant.
    InvariantMember(usize, Key),
    /// A key of an invariant that it may not have.
    InvariantUnknown(usize, String),
    /// A term of an invariant's sum.
    Term(usize, usize),
    /// An item of such a term.
    TermItem(usize, usize, usize),
    /// The variable of this name.
    Name(String),
}

impl ShapePlace {
    // The place of an invariant, or of the whole.
    pub(crate) fn of(invariant: Option<usize>) -> ShapePlace {
        match invariant {
            Some(i) => ShapePlace::Invariant(i),
            None => ShapePlace::Whole,
        }
    }

    // The place of a key that an invariant, or the whole, may not have.
    pub(crate) fn unknown_in(invariant: Option<usize>, key: String) -> ShapePlace {
        match invariant {
            Some(i) => ShapePlace::InvariantUnknown(i, key),
            None => ShapePlace::Unknown(key),
        }
    }
}

impl fmt::Display for ShapePlace {
    fn fmt<W: fmt::Write>(&self, f: &mut fmt::Formatter<W>) -> fmt::Result {
        match self {
            ShapePlace::Text { line, column } => write!(f, "line {line} column {column}"),
            ShapePlace::Whole => Ok(()),
            ShapePlace::Member(key) => write_step(f, key.as_str()),
            ShapePlace::Unknown(key) => write_step(f, key.as_str()),
            ShapePlace::Invariant(i) => write!(f, "/invariants/{i}"),
            ShapePlace::InvariantMember(i, key) => write_step_in(f, *i, key.as_str()),
            ShapePlace::InvariantUnknown(i, key) => write_step_in(f, *i, key.as_str()),
            ShapePlace::Term(i, term) => write!(f, "/invariants/{i}/sum/{term}"),
            ShapePlace::TermItem(i, term, item) => write!(f, "/invariants/{i}/sum/{term}/{item}"),
            ShapePlace::Name(name) => {
                f.write_str("/names")?;
                write_step(f, name.as_str())
            }
        }
    }
}

// A step to a key of an invariant.
fn write_step_in<W: fmt::Write>(
    f: &mut fmt::Formatter<W>,
    invariant: usize,
    key: &str,
) -> fmt::Result {
    write!(f, "/invariants/{invariant}")?;
    write_step(f, key)
}

// A step of a pointer to a key: a `~` in it is written `~0`, and a `/` `~1`.
fn write_step<W: fmt::Write>(f: &mut fmt::Formatter<W>, key: &str) -> fmt::Result {
    f.write_str("/")?;
    for letter in key.chars() {
        match letter {
            '~' => f.write_str("~0"),
            '/' => f.write_str("~1"),
            _ => f.write_char(letter),
        }?;
    }
    Ok(())
}
