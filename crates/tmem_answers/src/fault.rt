//! Faults, as they are printed.
ghost use Rattle.std.specs.Prelude.{◌≡◌, Some};
ghost use Rattle.std.specs.Fmt.{DisplaysOnOk};
ghost use Rattle.tmem_answers.specs.Answers.{cause_text, fault_detail, fault_number, fault_text, fault_word};

use std::fmt;
use tmem_fault::{Cause, Fault};

/// A fault: its number, its word, and what it names.
pub(crate) fn write_fault<W: fmt::Write>(f: &mut fmt::Formatter<W>, fault: &Fault) -> fmt::Result
    ensures { DisplaysOnOk W.write_str_gives f.old result (Some (fault_text fault.now)) f.new }
{
    write!(
        f,
        "\"fault\":{},\"word\":\"{}\"{}",
        number_of(fault),
        word_of(fault),
        Detail(fault)
    )
}

fn number_of(fault: &Fault) -> u8
    ensures { result ≡ fault_number fault.now }
{
    match fault {
        Fault::Memory => 1,
        Fault::Device => 2,
        Fault::Closed => 3,
        Fault::Unknown => 4,
        Fault::Full => 5,
        Fault::LogFull => 6,
        Fault::Conflict => 7,
        Fault::NotFormatted => 8,
        Fault::Damaged => 9,
        Fault::Missing(_) => 10,
        Fault::Broken(_) => 11,
        Fault::BadPlan(_) => 12,
        Fault::BadName => 13,
        Fault::BadFootprint => 14,
        Fault::Spent => 15,
        Fault::NoSeat => 16,
        Fault::Geometry => 17,
    }
}

fn word_of(fault: &Fault) -> &'static str
    ensures { result.now ≡ fault_word fault.now }
{
    match fault {
        Fault::Memory => "memory",
        Fault::Device => "device",
        Fault::Closed => "closed",
        Fault::Unknown => "unknown",
        Fault::Full => "full",
        Fault::LogFull => "logfull",
        Fault::Conflict => "conflict",
        Fault::NotFormatted => "notformatted",
        Fault::Damaged => "damaged",
        Fault::Missing(_) => "missing",
        Fault::Broken(_) => "broken",
        Fault::BadPlan(_) => "badplan",
        Fault::BadName => "badname",
        Fault::BadFootprint => "badfootprint",
        Fault::Spent => "spent",
        Fault::NoSeat => "noseat",
        Fault::Geometry => "geometry",
    }
}

// What a fault names.
#[derive(Drop)]
struct Detail<'a>(&'a Fault);

impl<'a> fmt::Display for Detail<'a> {
    ghost output = { λ it. Some (fault_detail it.0.now) };

    fn fmt<W: fmt::Write>(&self, f: &mut fmt::Formatter<W>) -> fmt::Result {
        match self.0 {
            Fault::Missing(name) | Fault::Broken(name) => write!(f, ",\"name\":\"{name}\""),
            Fault::BadPlan(cause) => {
                write!(f, ",\"cause\":{cause},\"why\":\"{}\"", words_of(*cause))
            }
            _ => Ok(()),
        }
    }
}

/// Why a transaction is no plan, in words.
pub fn words_of(cause: Cause) -> &'static str
    ensures { result.now ≡ cause_text cause }
{
    match cause {
        Cause::TooDeep => "it is deeper than 32",
        Cause::TooManyNodes => "it has more than 512 nodes",
        Cause::TooManyWrites => "it has more than 64 writes",
        Cause::TooManyChecks => "it has more than 8 checks",
        Cause::BadRegister => "a register is not below 16",
        Cause::BadVariable => "the store has no such variable",
        Cause::BadStep => "there is no such step",
        Cause::BadArguments => "a step takes another number of registers",
        Cause::UnknownName => "the store has no invariant of this name",
        Cause::TooManyRetires => "it retires more than 8 names",
    }
}
