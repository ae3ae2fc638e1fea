//! Serves pieces of input in a new store of 4 variables, whose log takes 2 batches. It has one invariant, `solvent`: that neither of the
//! variables 0 and 1 is below 0.
//!
//! `row` reads what is to be served, and how the `output` takes what is told; `input` gives a piece by each read. `store` makes the store,
//! which `desk` serves by a desk.

mod desk;
mod input;
pub(crate) mod output;
mod row;
mod store;

use crate::failure::CallFailure;
use output::Output;
use row::{ServedRow, row_of};
use std::alloc::Global;
use std::io::{self, Read, Write};
use std::sync::Wait;
use store::{ServingEnd, serve};
use tmem_desk::DeskFailure;

/// Reads the row on the input, serves its pieces, and prints what they are told.
pub(crate) fn serve_input<R: Wait, I: Read, W: Write>(
    rt: &R,
    alloc: Global,
    input: &mut I,
    out: &mut W,
) -> Result<(), CallFailure> {
    let mut text = Vec::new(alloc);
    input.read_to_end(&mut text)?;
    let (row, mut output) = row_of(alloc, &text)?;
    let served = serve(rt, alloc, &row, &mut output)?;
    Ok(print_served(&row, &served, &output, out)?)
}

// Prints what the output took; and before it, where the row says how the output behaves, how serving ended, and the flushes.
fn print_served<W: Write>(
    row: &ServedRow,
    served: &ServingEnd,
    output: &Output,
    out: &mut W,
) -> io::Result<()> {
    if row.tells_end {
        print_end(served, out)?;
        print_flushes(&output.flushed, out)?;
    }
    out.write_all(&output.taken)?;
    out.flush()
}

fn print_end<W: Write>(served: &ServingEnd, out: &mut W) -> io::Result<()> {
    match served {
        Ok(()) => out.write_all(b"input read\n"),
        Err(DeskFailure::Output) => out.write_all(b"output failed\n"),
        Err(DeskFailure::Fault(fault)) => writeln!(out, "{fault}"),
    }
}

fn print_flushes<W: Write>(flushed: &[usize], out: &mut W) -> io::Result<()> {
    out.write_all(b"flushed:")?;
    for count in flushed {
        write!(out, " {count}")?;
    }
    out.write_all(b"\n")
}
