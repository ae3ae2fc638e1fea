//! `tmem_caller`: makes calls of fronts and of desks. It is a tool for tests. It does what each word of its command line says, one after
//! another: `serve` serves pieces of input, `lines` prints lines that no row prints, and `refusals` makes calls that may be refused memory.
//! Words are read as they come: what those before a wrong one printed stays, and only the first `serve` finds its row on the input. A bad row
//! has status 3, a wrong word 2, and what fails otherwise 1.
//!
//! A row of `serve` is a JSON object with these keys. Other keys are for its reader.
//!
//! | Key | What it says |
//! |---|---|
//! | `"by"` | who serves a new store: a `"desk"`, which is handed each piece; a `"second desk"`, the same once another desk of the store has committed a transaction, and has flushed it or met the fault of the device; or the `"store"`: `serve_store` reads each piece by a read of its own, once it has printed the first line |
//! | `"pieces"` | the pieces of input, each an array of texts that it is put together of |
//! | `"fails"` | the sync of the device that fails, counted from 0 once the store is open, if one does |
//! | `"writes"` | what the writes of the output are answered, in turn, and then from the first one on again: so many bytes at most, `"all"`, a `"signal"`, or a `"failure"`. If it is there, two lines say first how serving ended, and how many bytes were taken at each flush; those at the same number count once |
//! | `"flushes"` | that each flush of the output fails, if it is there |
//!
//! Then it prints what the output took.
#![tactic(auto)]

mod failure;
mod lines;
mod refusals;
mod serving;

use failure::CallFailure;
use lines::print_lines;
use refusals::make_calls;
use serving::serve_input;
use std::env::{self, Env};
use std::io::{Read, Write};
use std::process::ExitCode;
use std::rt::Clock;
use std::sync::Wait;

fn main(rt: HostRuntime) -> ExitCode {
    let (mut input, mut output, mut err) = (rt.stdin(), rt.stdout(), rt.stderr());
    match run(&rt, &mut input, &mut output) {
        Ok(()) => ExitCode::from(0),
        Err(failure) => {
            // where this fails too, nobody is left to tell
            let _ = writeln!(&mut err, "tmem_caller: {failure}");
            ExitCode::from(failure.status())
        }
    }
}

// Does what each word of the command line says, one after another.
fn run<I: Read, W: Write, R: AllocGlobal + Clock + Env + Print + Wait>(
    rt: &R,
    input: &mut I,
    output: &mut W,
) -> Result<(), CallFailure> {
    let mut words = env::args(rt)?;
    let _ = words.next();
    if words.len() == 0 {
        return Err(CallFailure::Words);
    }
    for word in words {
        do_word(rt, &word, input, output)?;
    }
    Ok(())
}

// Does what a word of the command line says.
fn do_word<I: Read, W: Write, R: AllocGlobal + Clock + Print + Wait>(
    rt: &R,
    word: &str,
    input: &mut I,
    output: &mut W,
) -> Result<(), CallFailure> {
    match word {
        "serve" => serve_input(rt, rt.alloc(), input, output),
        "lines" => print_lines(rt.alloc(), output),
        "refusals" => Ok(make_calls(rt, rt.alloc())?),
        _ => Err(CallFailure::Words),
    }
}
