//! Pieces of lines.

use std::io::{self, Write};
use tmem_fault::{Fault, Name};

// What stands in front of an item of this index.
fn comma(index: usize) -> &'static str {
    if index > 0 { "," } else { "" }
}

/// Prints a number, as an item of this index.
pub(crate) fn print_number<W: Write>(index: usize, number: i64, out: &mut W) -> io::Result<()> {
    write!(out, "{}{number}", comma(index))
}

/// Prints numbers, joined by commas.
pub(crate) fn print_numbers<W: Write>(numbers: &[i64], out: &mut W) -> io::Result<()> {
    for (i, number) in numbers.iter().enumerate() {
        print_number(i, *number, out)?;
    }
    Ok(())
}

/// Prints a name, as an item of this index.
pub(crate) fn print_name<W: Write>(index: usize, name: &Name, out: &mut W) -> io::Result<()> {
    write!(out, "{}{name}", comma(index))
}

/// Prints a variable with its value, as an item of this index.
pub(crate) fn print_pair<W: Write>(
    index: usize,
    var: u16,
    value: i64,
    out: &mut W,
) -> io::Result<()> {
    write!(out, "{}{var}:{value}", comma(index))
}

/// Prints a fault as a line.
pub(crate) fn print_fault<W: Write>(fault: Fault, out: &mut W) -> io::Result<()> {
    writeln!(out, "{fault}")
}
