// The refusals of all layers, as the program prints them.
ghost use Rattle.std.specs.Prelude.{◌≡◌};
ghost use Rattle.tmem_fault.specs.declared.fault.Fault.TheVariants.{Memory};
ghost use Rattle.tmem_fault.specs.Fault.{cause_number, text_of};

use crate::Name;
use std::alloc::{AllocError, AllocFailed};
use std::fmt;
use thiserror::Error;

/// Why a call was refused. Each is printed as `fault`, its number and its word.
#[derive(Clone, Copy, Debug, PartialEq, Eq, Error)]
pub enum Fault {
    /// Memory that the call asked for was really refused. It may come in place of any other answer of such a call.
    Memory,
    /// A call of the device failed: any call, in formatting, in opening or in making a file; in a flush or a checkpoint
    /// a read, or a write other than one that opens a gate. After a flush no record of the batch is durable.
    Device,
    /// The journal or the core was closed before, by a failure of the device or by whoever holds it, or there is no
    /// core.
    Closed,
    /// In a flush or a checkpoint a sync failed, or the write that opens a gate. After a flush, reopening finds the
    /// state with the whole batch or without it.
    Unknown,
    /// As many committed transactions as may wait are not known durable.
    Full,
    /// Every slot of the log is used.
    LogFull,
    /// A value that was read is no longer the present one.
    Conflict,
    /// The device does not begin as a formatted one does: the gate of its first block is closed, or its letters are
    /// others.
    NotFormatted,
    /// What stands on the device is nothing that the format allows.
    Damaged,
    /// This invariant is registered on the device, and the table that was handed in lacks it. Of several it is the
    /// first by its bytes.
    Missing(Name),
    /// This registered invariant is false of the state on the device. Of several it is the first in the table's order.
    Broken(Name),
    /// A transaction is outside the limits of a plan, for this cause.
    BadPlan(Cause),
    /// A name is not one to sixteen letters from a to z, or a table has a name twice or too many of them.
    BadName,
    /// A footprint is empty, too long, names a variable twice, or names one that is not there.
    BadFootprint,
    /// The count of transactions or the generation stands at its greatest number.
    Spent,
    /// A front has given out all its passes.
    NoSeat,
    /// Numbers of variables or slots are out of limits or not those of the device, or the device is too small for them.
    Geometry,
}

impl fmt::Display for Fault {
    ghost use Rattle.std.specs.Prelude.{Some};

    ghost output = { λ fault. Some (text_of fault) };

    fn fmt<W: fmt::Write>(&self, f: &mut fmt::Formatter<W>) -> fmt::Result {
        match self {
            Fault::Memory => f.write_str("fault 1 memory"),
            Fault::Device => f.write_str("fault 2 device"),
            Fault::Closed => f.write_str("fault 3 closed"),
            Fault::Unknown => f.write_str("fault 4 unknown"),
            Fault::Full => f.write_str("fault 5 full"),
            Fault::LogFull => f.write_str("fault 6 logfull"),
            Fault::Conflict => f.write_str("fault 7 conflict"),
            Fault::NotFormatted => f.write_str("fault 8 notformatted"),
            Fault::Damaged => f.write_str("fault 9 damaged"),
            Fault::Missing(name) => write!(f, "fault 10 missing {name}"),
            Fault::Broken(name) => write!(f, "fault 11 broken {name}"),
            Fault::BadPlan(cause) => write!(f, "fault 12 badplan {cause}"),
            Fault::BadName => f.write_str("fault 13 badname"),
            Fault::BadFootprint => f.write_str("fault 14 badfootprint"),
            Fault::Spent => f.write_str("fault 15 spent"),
            Fault::NoSeat => f.write_str("fault 16 noseat"),
            Fault::Geometry => f.write_str("fault 17 geometry"),
        }
    }
}

impl From<AllocError> for Fault {
    ghost from_gives = { λ _ fault. fault ≡ Memory };

    fn from(_error: AllocError) -> Fault {
        Fault::Memory
    }
}

impl<T: Drop> From<AllocFailed<T>> for Fault {
    ghost from_gives = { λ _ fault. fault ≡ Memory };

    fn from(_error: AllocFailed<T>) -> Fault {
        Fault::Memory
    }
}

/// Why a transaction is no plan. Where several hold, the one of the least number is answered.
#[derive(Clone, Copy, Debug, PartialEq, Eq)]
pub enum Cause {
    /// The tree is deeper than 32.
    TooDeep,
    /// It has more than 512 nodes.
    TooManyNodes,
    /// It has more than 64 writes.
    TooManyWrites,
    /// It has more than 8 checks.
    TooManyChecks,
    /// A register is not below 16.
    BadRegister,
    /// A variable is not below the number of variables.
    BadVariable,
    /// No step has this index, or there are more than 64 steps.
    BadStep,
    /// A step is given another number of arguments than it takes, or takes more than 4.
    BadArguments,
    /// No invariant of this name was handed in.
    UnknownName,
    /// It retires more than 8 names.
    TooManyRetires,
}

impl Cause {
    // The number that is printed, 1 to 10 in the order of the variants.
    fn number(self) -> u8
        ensures { result ≡ cause_number self }
    {
        match self {
            Cause::TooDeep => 1,
            Cause::TooManyNodes => 2,
            Cause::TooManyWrites => 3,
            Cause::TooManyChecks => 4,
            Cause::BadRegister => 5,
            Cause::BadVariable => 6,
            Cause::BadStep => 7,
            Cause::BadArguments => 8,
            Cause::UnknownName => 9,
            Cause::TooManyRetires => 10,
        }
    }
}

impl fmt::Display for Cause {
    ghost use Rattle.std.specs.Prelude.{Some};
    ghost use Rattle.std.specs.Fmt.{decimal};

    ghost output = { λ cause. Some (decimal (cause_number cause)) };

    fn fmt<W: fmt::Write>(&self, f: &mut fmt::Formatter<W>) -> fmt::Result {
        write!(f, "{}", self.number())
    }
}
