//! Shows what is in a store.
ghost use Rattle.std.specs.Prelude.{None, IfErr, OnOk};
ghost use Rattle.tmem_show.specs.Refusals.{TellsOf};
ghost use Rattle.tmem.specs.Commands.{IsWhyNotShown, OpensShown};

use std::alloc::Global;
use std::fs::{File, Files};
use std::io::Write;
use tmem_args::Showing;
use tmem_run::{Flushed, flush_output};
use tmem_script::ProgramFailure;
use tmem_show::{ShowError, Source, refusal_of};

/// Shows what is in a store.
pub(crate) fn show_store<W: Write>(
    rt: &(impl Files<File = File> + AllocGlobal),
    showing: Showing,
    out: &mut W,
) -> Result<Flushed, ProgramFailure>
    ensures failed { IfErr result IsWhyNotShown }
{
    show_file(rt, showing, out)?;
    flush_output(out)
}

// Prints what is in a store. Its file is opened for reading alone, and is not locked. `Device` where it is not read, and `Memory` where
// there is none; and what an opening would be refused by, once all is printed.
fn show_file<W: Write>(
    rt: &(impl Files<File = File> + AllocGlobal),
    showing: Showing,
    out: &mut W,
) -> Result<(), ProgramFailure>
    ensures opens { OnOk result OpensShown }
    ensures failed { IfErr result IsWhyNotShown }
{
    let source = Source::read(rt, showing.store.unwrap_or(""))?;
    show_source(rt.alloc(), &source, showing, out)
}

/// Prints what these bytes of a store hold. Ends well only where an opening of them is not refused.
pub(crate) fn show_source<W: Write>(
    alloc: Global,
    source: &Source,
    showing: Showing,
    out: &mut W,
) -> Result<(), ProgramFailure>
    ensures opens { OnOk result (TellsOf source.now.bytes.items None) }
    ensures failed { IfErr result IsWhyNotShown }
{
    print_source(alloc, source, showing, out)?;
    flush_output(out)?;
    check_opening(alloc, source)
}

// Prints what was read.
fn print_source<W: Write>(
    alloc: Global,
    source: &Source,
    showing: Showing,
    out: &mut W,
) -> Result<(), ProgramFailure>
    ensures { IfErr result IsWhyNotShown }
{
    let shown = if showing.is_json {
        tmem_show::show_json(alloc, source, showing.has_hex, out)
    } else {
        tmem_show::show(alloc, source, showing.has_hex, out)
    };
    match shown {
        Ok(()) => Ok(()),
        Err(ShowError::Output) => Err(ProgramFailure::Output),
        Err(ShowError::Refused(fault)) => Err(ProgramFailure::Refused(fault)),
    }
}

// Refuses what an opening refuses.
fn check_opening(alloc: Global, source: &Source) -> Result<(), ProgramFailure>
    ensures opens { OnOk result (TellsOf source.now.bytes.items None) }
    ensures failed { IfErr result IsWhyNotShown }
{
    match refusal_of(alloc, source)? {
        Some(refusal) => Err(ProgramFailure::Refused(refusal.fault)),
        None => Ok(()),
    }
}
