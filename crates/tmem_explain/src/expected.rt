//! What was expected where something is wrong.
ghost use Rattle.std.specs.Prelude.{Some};
ghost use Rattle.std.specs.Fmt.{DisplaysOnOk};
ghost use Rattle.tmem_explain.specs.Told.{transaction_text};

use crate::excess::Excess;
use std::fmt::{self, Display};
use tmem_requests::RequestFlaw;

/// What was expected at a place. Its text is what the user is told.
#[derive(Clone, Copy)]
pub enum Expected {
    /// JSON in UTF-8.
    Json,
    /// More of it: the text ends too soon.
    MoreJson,
    Object,
    /// A member of this key.
    Member(&'static str),
    /// No other key than these three.
    ScriptKeys,
    /// One of these three keys.
    ScriptKey,
    /// A number of variables or of log slots that a store may have.
    Vars,
    Slots,
    /// A number of variables or of log slots.
    Number,
    Entries,
    Entry,
    /// An attempt and a transaction.
    Begin,
    Attempt,
    /// What a transaction has there.
    Transaction(RequestFlaw),
    /// A transaction within the limit that this is past, for so many variables.
    Plan { excess: Excess, vars: u16 },
    /// A script: no reason was found why it is none.
    Script,
}

impl fmt::Display for Expected {
    ghost use Rattle.std.specs.Prelude.{Some};
    ghost use Rattle.tmem_explain.specs.Told.{expected_text};

    ghost output = { λ expected. Some (expected_text expected) };

    fn fmt<W: fmt::Write>(&self, f: &mut fmt::Formatter<W>) -> fmt::Result {
        let text = match self {
            Expected::Json => "from here on this is not JSON (which may nest 127 levels deep)",
            Expected::MoreJson => "the text ends here, before its JSON does",
            Expected::Object => "this is not an object with the keys vars, slots and events",
            Expected::Member(key) => return write!(f, "there is no {key}"),
            Expected::ScriptKeys => "this has a key that is none of vars, slots and events",
            Expected::ScriptKey => "this key is none of vars, slots and events",
            Expected::Vars => "a store has 1 to 1024 variables",
            Expected::Slots => "a store has 2 to 64 log slots",
            Expected::Number => "this is not a whole number from 0 to 65535",
            Expected::Entries => "this is not an array of entries",
            Expected::Entry =>
                "this is none of \"flush\", \"checkpoint\", \"look\", \"reopen\" and \"show\", and no object with one of the keys begin, turn and settle alone",
            Expected::Begin => "this is not an array of an attempt and a transaction",
            Expected::Attempt => "this is not a whole number from 0 to 15, as an attempt is",
            Expected::Transaction(why) => return write_transaction(f, *why),
            Expected::Plan { excess, .. } => return excess.fmt(f),
            Expected::Script => "this is not a script",
        };
        f.write_str(text)
    }
}

// What a transaction has there, or which words there may be.
fn write_transaction<W: fmt::Write>(f: &mut fmt::Formatter<W>, why: RequestFlaw) -> fmt::Result
    ensures { DisplaysOnOk W.write_str_gives f.old result (Some (transaction_text why)) f.new }
{
    match why {
        RequestFlaw::NotTransaction => f.write_str(
            "this is neither \"skip\" nor \"retry\", and no object with one of the keys seq, put, read, write, step, when, orelse, abort, check and retire alone",
        ),
        RequestFlaw::NotStep => f.write_str(
            "this is none of the steps \"add\", \"sub\" and \"need\"",
        ),
        _ => why.fmt(f),
    }
}
