//! Where bytes are not as the format says.
use std::fmt;

/// An offset where bytes are not as the format says, and why.
#[derive(Clone, Copy)]
pub struct WrongByte {
    /// The byte, counted from the first one of the store.
    pub at: u64,
    pub why: FormatFlaw,
}

impl fmt::Display for WrongByte {
    fn fmt<W: fmt::Write>(&self, f: &mut fmt::Formatter<W>) -> fmt::Result {
        write!(f, "byte {}: {}", self.at, self.why)
    }
}

/// What is wrong with the bytes at an offset.
#[derive(Clone, Copy)]
pub enum FormatFlaw {
    /// There are no more bytes.
    Ends,
    /// The gate of block 0 is closed.
    BlockClosed,
    /// It is not the letter of `TMEM` that stands there.
    Letters,
    /// No version of the format has this number.
    BlockVersion,
    /// The number of variables is out of its limits.
    Vars,
    /// The number of log slots is out of its limits.
    Slots,
    /// A byte that has to be 0 is not.
    NotZero,
    /// No image copy is open.
    NoImage,
    /// Both image copies are open, with this generation.
    SameGeneration,
    /// The generation is 0.
    NoGeneration,
    /// There are more names than may be registered.
    TooManyNames,
    /// No name stands here.
    NoName,
    /// The name does not come behind the one before it.
    NotAscending,
    /// The header of an image ends with a byte that no version has.
    VersionByte,
    /// The image is of an earlier version than block 0.
    Earlier,
    /// The image is of version 1 and of the last generation, so that none of version 2 can follow.
    Last,
    /// The number of the first record does not follow on.
    First,
    /// The number of records is out of its limits.
    Records,
    /// A record has too many writes.
    TooManyWrites,
    /// There is no such variable.
    Variable,
    /// The variable is written twice by its record, or the name stands twice there.
    Twice,
    /// A record checks too many names.
    TooManyChecks,
    /// A record retires too many names.
    TooManyRetires,
    /// The record changes nothing.
    Nothing,
    /// The batch is longer than one may be.
    TooLong,
    /// An open slot behind the log is not of an earlier generation.
    NotStale,
    /// After the records of this batch the count or the names are past their limits.
    PastLimits,
}

impl fmt::Display for FormatFlaw {
    fn fmt<W: fmt::Write>(&self, f: &mut fmt::Formatter<W>) -> fmt::Result {
        f.pad(self.words())
    }
}

impl FormatFlaw {
    fn words(self) -> &'static str {
        match self {
            FormatFlaw::Ends => "the bytes end here",
            FormatFlaw::BlockClosed => "the gate of block 0 is closed",
            FormatFlaw::Letters => "it is not the letter of TMEM that stands here",
            FormatFlaw::BlockVersion => "no version of the format has this number",
            FormatFlaw::Vars => "the number of variables is not 1 to 1024",
            FormatFlaw::Slots => "the number of log slots is not 2 to 64",
            FormatFlaw::NotZero => "the byte is not 0",
            FormatFlaw::NoImage => "neither image copy is open",
            FormatFlaw::SameGeneration => "both image copies are of this generation",
            FormatFlaw::NoGeneration => "the generation is 0",
            FormatFlaw::TooManyNames => "there are more than 64 names",
            FormatFlaw::NoName => "no name stands here",
            FormatFlaw::NotAscending => "the name does not come behind the one before it",
            FormatFlaw::VersionByte => "no version of the format has this version byte",
            FormatFlaw::Earlier => "the image is of an earlier version than block 0",
            FormatFlaw::Last => "the generation is the last one, and the image is of version 1",
            FormatFlaw::First => "the number of the first record does not follow on",
            FormatFlaw::Records => "the number of records is not 1 to 64",
            FormatFlaw::TooManyWrites => "the record has more than 64 writes",
            FormatFlaw::Variable => "there is no such variable",
            FormatFlaw::Twice => "it stands twice in the record",
            FormatFlaw::TooManyChecks => "the record checks more than 8 names",
            FormatFlaw::TooManyRetires => "the record retires more than 8 names",
            FormatFlaw::Nothing => "the record changes nothing",
            FormatFlaw::TooLong => "the records have more than 4077 bytes",
            FormatFlaw::NotStale => "an open slot behind the log is not of an earlier generation",
            FormatFlaw::PastLimits => "the records take the count or the names past their limits",
        }
    }
}
