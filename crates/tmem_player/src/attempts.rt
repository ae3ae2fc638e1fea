//! Compares attempts, and prints them.

use crate::printing::{print_name, print_numbers, print_pair};
use std::io::{self, Write};
use tmem_fault::Name;
use tmem_tentative::{Attempt, Ending, Reads};
use tmem_tree::REGISTERS;

/// Whether two attempts are equal: their reads, in order, their endings, their registers and their effects.
pub(crate) fn are_alike(one: &Attempt, other: &Attempt) -> bool {
    one.ending == other.ending
        && one.registers == other.registers
        && are_read_alike(&one.reads, &other.reads)
        && one.effect.writes.as_slice() == other.effect.writes.as_slice()
        && one.effect.names.as_slice() == other.effect.names.as_slice()
        && one.effect.retired.as_slice() == other.effect.retired.as_slice()
}

/// Whether the same variables were read, with the same values, in the same order.
pub(crate) fn are_read_alike(one: &Reads, other: &Reads) -> bool {
    if one.len() != other.len() {
        return false;
    }
    for index in 0..one.len() {
        if one.get_index(index) != other.get_index(index) {
            return false;
        }
    }
    true
}

/// Prints an attempt, without the end of its line.
pub(crate) fn print_attempt<W: Write>(attempt: &Attempt, out: &mut W) -> io::Result<()> {
    print_ending(attempt.ending, out)?;
    print_reads(&attempt.reads, out)?;
    print_registers(&attempt.registers, out)?;
    print_writes(attempt.effect.writes.as_slice(), out)?;
    out.write_all(b" names=")?;
    print_names(attempt.effect.names.as_slice(), out)?;
    print_retired(attempt.effect.retired.as_slice(), out)
}

fn print_ending<W: Write>(ending: Ending, out: &mut W) -> io::Result<()> {
    match ending {
        Ending::Normal => out.write_all(b"ended reads="),
        Ending::Retry => out.write_all(b"retry reads="),
        Ending::Abort(code) => write!(out, "aborted {code} reads="),
        Ending::Broken(name) => write!(out, "broken {name} reads="),
    }
}

fn print_reads<W: Write>(reads: &Reads, out: &mut W) -> io::Result<()> {
    for (i, (var, value)) in reads.iter().enumerate() {
        print_pair(i, *var, *value, out)?;
    }
    Ok(())
}

// Prints the registers of an attempt, where one is not 0.
fn print_registers<W: Write>(registers: &[i64; REGISTERS], out: &mut W) -> io::Result<()> {
    out.write_all(b" registers=")?;
    if *registers != [0; REGISTERS] {
        print_numbers(registers, out)?;
    }
    Ok(())
}

fn print_writes<W: Write>(writes: &[(u16, i64)], out: &mut W) -> io::Result<()> {
    out.write_all(b" writes=")?;
    for (i, (var, value)) in writes.iter().enumerate() {
        print_pair(i, *var, *value, out)?;
    }
    Ok(())
}

// Prints the names that an attempt retires, where there are some.
fn print_retired<W: Write>(names: &[Name], out: &mut W) -> io::Result<()> {
    if names.is_empty() {
        return Ok(());
    }
    out.write_all(b" retired=")?;
    print_names(names, out)
}

fn print_names<W: Write>(names: &[Name], out: &mut W) -> io::Result<()> {
    for (i, name) in names.iter().enumerate() {
        print_name(i, name, out)?;
    }
    Ok(())
}
