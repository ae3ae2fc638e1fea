//! Lines that no row prints: of answers that no program gives, and of how an output is flushed and written.

use crate::failure::CallFailure;
use crate::serving::output::Output;
use std::alloc::Global;
use std::io::{self, ErrorKind, Write};
use tmem_answers::{Answer, AnswerLine};
use tmem_fault::{Fault, Name};
use tmem_run::flush_output;
use tmem_script::ProgramFailure;
use tmem_tree::Settled;

/// Prints them.
pub(crate) fn print_lines<W: Write>(alloc: Global, out: &mut W) -> Result<(), CallFailure> {
    print_answers(out)?;
    print_flushes(alloc, out)?;
    print_writes(alloc, out)?;
    Ok(out.flush()?)
}

// Answers to the request -3. While one client is served, a refusal has the values that its test saw, and no invariant of an opened store
// is false.
fn print_answers<W: Write>(out: &mut W) -> Result<(), CallFailure> {
    let refused = Answer::Settled(Settled::Refused(Name::new("nonneg")?));
    print_answer(refused, out)?;
    let broken = Answer::Fault(Fault::Broken(Name::new("cap")?));
    Ok(print_answer(broken, out)?)
}

fn print_answer<W: Write>(answer: Answer, out: &mut W) -> io::Result<()> {
    writeln!(out, "{}", AnswerLine { id: -3, answer })
}

// What the flushes of an output are answered.
const FLUSHES: &[(&str, Option<ErrorKind>)] = &[
    ("well", None),
    ("broken pipe", Some(ErrorKind::BrokenPipe)),
    ("permission denied", Some(ErrorKind::PermissionDenied)),
    ("storage full", Some(ErrorKind::StorageFull)),
];

// Whether the output counts as flushed, for each of these, and how often it was asked to flush.
fn print_flushes<W: Write>(alloc: Global, out: &mut W) -> io::Result<()> {
    for (answered, kind) in FLUSHES {
        let mut output = Output::new(alloc, Vec::new(alloc), *kind);
        let end = match flush_output(&mut output) {
            Ok(_) => "flushed",
            Err(ProgramFailure::Output) => "output failed",
            Err(_) => "another failure",
        };
        writeln!(out, "{answered}: {end}, asked {} times", output.flushes)?;
    }
    Ok(())
}

// How many bytes four writes take of an output that takes one byte, is interrupted, and begins again.
fn print_writes<W: Write>(alloc: Global, out: &mut W) -> io::Result<()> {
    let turns = vec![in alloc; Ok(1), Err(ErrorKind::Interrupted)]?;
    let mut output = Output::new(alloc, turns, None);
    out.write_all(b"taken:")?;
    for _ in 0..4 {
        let printed = match output.write(b"ab") {
            Ok(count) => write!(out, " {count}"),
            Err(_) => out.write_all(b" none"),
        };
        printed?;
    }
    out.write_all(b"\n")
}
