//! What is wrong with a line.
use std::fmt;

/// What is wrong with a line that is no request. Its text is what the client is told.
#[derive(Clone, Copy, Debug, PartialEq, Eq)]
pub enum RequestFlaw {
    /// It is longer than 65536 bytes.
    TooLong,
    /// It is not JSON, or not UTF-8.
    NotJson,
    NotObject,
    NoId,
    /// It has no key that says what is asked for.
    NoAsk,
    /// It has two such keys.
    TwoAsks,
    UnknownKey,
    NotInteger,
    NotVariable,
    NotRegister,
    NotCode,
    NotArray,
    NotTwo,
    NotThree,
    /// It is not one to sixteen letters from a to z.
    NotWord,
    NotQuestion,
    NotTransaction,
    NotStep,
    TooManyReads,
    TooManyWrites,
    TooManyChecks,
    TooManyRetires,
    VariableTwice,
    NameTwice,
    CheckedAndRetired,
    NoSuchVariable,
    NoSuchName,
    /// An invariant that always holds would be retired.
    AlwaysHolds,
    /// None of these was found, though it is no request.
    NotRequest,
}

impl RequestFlaw {
    ghost use Rattle.std.specs.Prelude.{◌≡◌};
    ghost use Rattle.tmem_requests.specs.Refusals.{request_why_text};

    // The flaw in words.
    fn text(self) -> &'static str
        ensures { result.now ≡ request_why_text self }
    {
        match self {
            RequestFlaw::TooLong => "the line is longer than 65536 bytes",
            RequestFlaw::NotJson => "this is not JSON (which may nest 127 levels deep)",
            RequestFlaw::NotObject => "this is not an object",
            RequestFlaw::NoId => "there is no id",
            RequestFlaw::NoAsk => "nothing is asked for",
            RequestFlaw::TwoAsks => "two things are asked for",
            RequestFlaw::UnknownKey => "a key of this object is not known",
            RequestFlaw::NotInteger => "this is not a whole number of 64 bits",
            RequestFlaw::NotVariable =>
                "this is not a whole number from 0 to 65535, as a variable is",
            RequestFlaw::NotRegister =>
                "this is not a whole number from 0 to 255, as a register is",
            RequestFlaw::NotCode => "this is not a whole number from 0 to 65535, as a code is",
            RequestFlaw::NotArray => "this is not an array",
            RequestFlaw::NotTwo => "this is not an array of two",
            RequestFlaw::NotThree => "this is not an array of three",
            RequestFlaw::NotWord => "this is not one to sixteen letters from a to z",
            RequestFlaw::NotQuestion => "this is none of look, state, checkpoint and stats",
            RequestFlaw::NotTransaction => "this is not a transaction",
            RequestFlaw::NotStep => "this is not the name of a step",
            RequestFlaw::TooManyReads => "more than 500 variables are read",
            RequestFlaw::TooManyWrites => "more than 64 variables are written",
            RequestFlaw::TooManyChecks => "more than 8 names are checked",
            RequestFlaw::TooManyRetires => "more than 8 names are retired",
            RequestFlaw::VariableTwice => "a variable stands twice in this list",
            RequestFlaw::NameTwice => "a name stands twice in this list",
            RequestFlaw::CheckedAndRetired => "a name is both checked and retired",
            RequestFlaw::NoSuchVariable => "the store has no such variable",
            RequestFlaw::NoSuchName => "the store has no invariant of this name",
            RequestFlaw::AlwaysHolds => "an invariant that always holds cannot be retired",
            RequestFlaw::NotRequest => "this is not a request",
        }
    }
}

impl fmt::Display for RequestFlaw {
    ghost use Rattle.std.specs.Prelude.{Some};
    ghost use Rattle.tmem_requests.specs.Refusals.{request_why_text};

    ghost output = { λ why. Some (request_why_text why) };

    fn fmt<W: fmt::Write>(&self, f: &mut fmt::Formatter<W>) -> fmt::Result {
        f.write_str(self.text())
    }
}
