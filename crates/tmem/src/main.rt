//! `tmem`: plays scripts of durable transactions, and prints a line for each event; or lets threads count up, and prints their totals; or
//! times the jobs of a service; or shows what is in a store, makes one of a shape, or serves one; or checks a script.
//!
//! `words` does what the words of a command line say. `script` plays a script, which it reads first, `count` lets threads count up,
//! `bench` has the jobs of a service timed, `show` shows a store, `init` makes one of a shape, `serve` serves one, and `check` says what
//! is wrong with a script. `status` answers the status of what a command came to, and tells the user.
#![tactic(auto)]

mod bench;
mod check;
mod command_line;
mod count;
mod init;
mod script;
mod serve;
mod show;
mod status;
mod words;

use command_line::words_of;
use std::io::LineWriter;
use std::process::ExitCode;
use tmem_script::{ProgramFailure, report};
use words::run_words;

fn main(rt: HostRuntime) -> ExitCode {
    let (mut input, mut err) = (rt.stdin(), rt.stderr());
    let mut out = match LineWriter::new(rt.alloc(), rt.stdout()) {
        Ok(out) => out,
        // With no buffer, a line goes out in pieces.
        Err(_) => LineWriter::with_capacity(rt.alloc(), 0, rt.stdout()).unwrap(),
    };
    let status = match words_of(&rt) {
        Ok(words) => run_words(&rt, words, &mut input, &mut out, &mut err).0,
        Err(refusal) => report(&ProgramFailure::Words(refusal), &mut err),
    };
    ExitCode::from(status)
}
