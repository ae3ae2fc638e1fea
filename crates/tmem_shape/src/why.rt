//! What is wrong with the text of a shape.
use crate::key::Key;
use std::fmt;

/// Why a text is not a shape. Its text is what the user is told.
#[derive(Clone, Copy, Debug, PartialEq, Eq)]
pub enum ShapeFlaw {
    /// The text is not JSON, or not UTF-8.
    NotJson,
    NotObject,
    NotArray,
    UnknownKey,
    /// An object lacks this key.
    Missing(Key),
    /// It is not a whole number from the first to the second.
    NotWithin(u16, u16),
    TooManyInvariants,
    /// It is not one to sixteen letters from a to z.
    NotWord,
    /// It is the name of an invariant that programs have built in.
    Taken,
    /// An earlier invariant has this name.
    NameTwice,
    NoTerm,
    TooManyTerms,
    NotTerm,
    NotCoefficient,
    NotVariable,
    /// An earlier term has this variable.
    VariableTwice,
    NotBound,
    /// There is neither a least nor a most.
    NoBound,
    /// The least is more than the most.
    Crossed,
    NotTrue,
    /// It is not a name that a variable may have.
    NotName,
    /// Another name has this variable.
    NamedTwice,
}

impl fmt::Display for ShapeFlaw {
    ghost use Rattle.std.specs.Prelude.{Some};
    ghost use Rattle.tmem_shape.specs.Words.{shape_why_text};

    ghost output = { λ why. Some (shape_why_text why) };

    fn fmt<W: fmt::Write>(&self, f: &mut fmt::Formatter<W>) -> fmt::Result {
        let text = match self {
            ShapeFlaw::NotJson => "this is not JSON (which may nest 127 levels deep)",
            ShapeFlaw::NotObject => "this is not an object",
            ShapeFlaw::NotArray => "this is not an array",
            ShapeFlaw::UnknownKey => "this key is not known",
            ShapeFlaw::Missing(key) => return write!(f, "there is no {}", key.as_str()),
            ShapeFlaw::NotWithin(least, most) => {
                return write!(f, "this is not a whole number from {least} to {most}");
            }
            ShapeFlaw::TooManyInvariants => "there are more than 64 invariants",
            ShapeFlaw::NotWord => "this is not one to sixteen letters from a to z",
            ShapeFlaw::Taken => "nonneg, ordered and sum are names of other invariants",
            ShapeFlaw::NameTwice => "an earlier invariant has this name",
            ShapeFlaw::NoTerm => "there is no term",
            ShapeFlaw::TooManyTerms => "there are more than 16 terms",
            ShapeFlaw::NotTerm => "this is neither [C,VAR] nor [C,VAR,\"nonzero\"]",
            ShapeFlaw::NotCoefficient => "this is not a whole number of 32 bits",
            ShapeFlaw::NotVariable => "this is not a variable of the store",
            ShapeFlaw::VariableTwice => "an earlier term has this variable",
            ShapeFlaw::NotBound => "this is not a whole number of 64 bits",
            ShapeFlaw::NoBound => "there is neither a least nor a most",
            ShapeFlaw::Crossed => "the least is more than the most, so no values keep this",
            ShapeFlaw::NotTrue => "this is not true; write true, or leave the key out",
            ShapeFlaw::NotName =>
                "this name is not 1 to 32 of a to z, 0 to 9 and _, a letter first",
            ShapeFlaw::NamedTwice => "another name has this variable",
        };
        f.write_str(text)
    }
}
