//! What a fault means, and what to do.
ghost use Rattle.std.specs.Prelude.{◌++◌, Some, codes};
ghost use Rattle.std.specs.Fmt.{DisplaysOnOk};

use std::fmt;
use tmem_answers::words_of;
use tmem_fault::{Fault, Name};

/// What went wrong, and what to do, in a line for a fault.
#[derive(Clone, Copy)]
pub struct FaultHelp(pub Fault);

impl fmt::Display for FaultHelp {
    ghost use Rattle.std.specs.Prelude.{Some};
    ghost use Rattle.tmem_explain.specs.Helps.{fault_help};

    ghost output = { λ help. Some (fault_help help.0) };

    fn fmt<W: fmt::Write>(&self, f: &mut fmt::Formatter<W>) -> fmt::Result {
        let text = match &self.0 {
            Fault::Memory =>
                "memory did not suffice, or no thread could be started; give the program more (ulimit -v, ulimit -u), or ask for less",
            Fault::Device =>
                "a call on the file failed, or a sync of it failed before, and this process makes none any more; look at its rights, at room (df), at limits (ulimit -f, ulimit -n), whether it is read-only, and into the system's log (dmesg); then open the store again, and see what it has before anything is repeated; if the store fails again, end each program that uses it, copy it to a new file on another disk, and sync that; only if it was copied to its end, use that copy alone from then on",
            Fault::Closed =>
                "an earlier failure has closed the store: a call on its file failed, or it could not be opened again; mend that, open the store again, and see what it has before anything is repeated",
            Fault::Unknown =>
                "a write or sync failed; of a flush, all of the batch is in the store, or none of it; a checkpoint puts no transaction in doubt; repeat nothing yet: open the store again, after an error of the disk (dmesg) once the machine was started anew, and see how many transactions there are; if writes fail again, look for room, also below the device (df, lvs), or end each program that uses the store, copy it to a new file on another disk, and sync that; only if it was copied to its end, use that copy alone from then on",
            Fault::Full => "256 transactions wait to be durable; flush, and settle again",
            Fault::LogFull => "every slot of the log is used; make a checkpoint, and flush again",
            Fault::Conflict => "a value that the transaction read has changed; begin it again",
            Fault::NotFormatted =>
                "this does not begin as a store; check the path; only if a store was there, move this away, and put a backup in its place (what the backup lacks is lost); only if there never was one, make one by tmem init, at another path or, on a block device, here by --in-place",
            Fault::Damaged =>
                "the file is not as tmem leaves one: something else changed it, or a later release of tmem wrote it; run that release, or else move the file away and put a backup in its place (tmem does not repair it, and what the backup lacks is lost)",
            Fault::Missing(name) => return write_named(
                f,
                name,
                " is registered in the store, and this program or shape has none of this name; check the paths of the store and of the shape or script; if they are the ones, open the store with the program or shape that used it last, as that was then (a transaction there can retire it, unless that shape has it always); only if that had none of this name, too, something changed the file: move it away, and put a backup in its place (what the backup lacks is lost)",
            ),
            Fault::Broken(name) => return write_named(
                f,
                name,
                " is registered in the store, and as this program or shape means it, it is false of the store's values; check the paths of the store and of the shape or script; if they are the ones, compare what it means here with what it meant in the program or shape that used the store last, as that was then; if that differs, open the store with that one; only if not, something changed the file: move it away, and put a backup in its place (what the backup lacks is lost)",
            ),
            Fault::BadPlan(cause) => return write!(
                f,
                "{}; change the transaction",
                words_of(*cause)
            ),
            Fault::BadName =>
                "a name is not 1 to 16 letters from a to z, or stands twice, or there are more than 64; change the program",
            Fault::BadFootprint =>
                "an invariant is over no variable, over more than 16, over one twice, or over one that the store lacks (they count from 0); correct that invariant",
            Fault::Spent =>
                "the count of transactions or of images is at 2^64 - 1, to which no use comes, so something changed the file; see what it has (tmem show PATH); then move it away, and put a backup in its place (what the backup lacks is lost)",
            Fault::NoSeat =>
                "all 32 passes were given out, and one that was dropped is lost until the store is opened again; keep passes, or share them: acquire_pass lends one, and release_pass hands it back",
            Fault::Geometry =>
                "the numbers of variables and log slots that were asked for are out of limits (1 to 1024, 2 to 64) or not the store's own, or its file was cut off; check the paths; use the shape or script that the store was made with (tmem show PATH prints the store's numbers); if these are the same, move the file away, and put a backup in its place (what the backup lacks is lost)",
        };
        f.write_str(text)
    }
}

// What is told of the invariant of a name.
fn write_named<W: fmt::Write>(f: &mut fmt::Formatter<W>, name: &Name, rest: &str) -> fmt::Result
    ensures { DisplaysOnOk W.write_str_gives f.old result (Some (codes "the invariant " ++ (name.now ++ rest.now))) f.new }
{
    write!(f, "the invariant {name}{rest}")
}

/// What to do where an opening refuses the bytes of a store by a fault, in a line for it.
#[derive(Clone, Copy)]
pub struct RefusalHelp {
    pub fault: Fault,
    /// The bytes are fewer than those of any store.
    pub is_of_no_store: bool,
    /// They were read without the lock of their file.
    pub is_shown: bool,
}

impl fmt::Display for RefusalHelp {
    ghost use Rattle.std.specs.Prelude.{Some};
    ghost use Rattle.tmem_explain.specs.Helps.{refusal_help};

    ghost output = { λ help. Some (refusal_help help) };

    fn fmt<W: fmt::Write>(&self, f: &mut fmt::Formatter<W>) -> fmt::Result {
        let RefusalHelp {
            fault,
            is_of_no_store,
            is_shown,
        } = *self;
        match fault {
            Fault::Geometry if is_of_no_store => f.write_str(
                "these bytes are too few for a store; check the path; only if a store was there, move this away, and put a backup in its place (what the backup lacks is lost)",
            ),
            Fault::Geometry => f.write_str(
                "the file was cut off, or is no store; check the path, or move it away and put a backup in its place (what the backup lacks is lost)",
            ),
            Fault::Damaged if is_shown => write!(
                f,
                "if a program has it open, look again; else {}",
                FaultHelp(Fault::Damaged)
            ),
            _ => FaultHelp(fault).fmt(f),
        }
    }
}
