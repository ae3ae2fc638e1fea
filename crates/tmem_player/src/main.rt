//! `tmem_player`: plays a row of behavior, which is a JSON file beside its output. It is a tool for tests. `step` and `play` on its command
//! line play the row on the input. Words are read as they come: what those before a wrong one printed stays, and only the first one finds
//! the row on the input.
//!
//! A row is a script of the program `tmem`, played on a device in memory that was formatted for its numbers. The device is
//! opened first, as the program does, unless the row begins with an entry that ends a session. These entries are a row's own:
//!
//! | Entry | What it does, and prints |
//! |---|---|
//! | `"registers"` | prints the registers of the last transaction that was committed or seen |
//! | `"calls"` | prints how often closures of invariants, and stored steps, were called since the last time |
//! | `{"times":[N,[ENTRY,..]]}` | these entries, N times |
//!
//! Each of these ends the session, if there is one, and leaves the device as it is:
//!
//! | Entry | What it does, and prints |
//! |---|---|
//! | `{"open":TABLE}`, `{"open":[TABLE,VARS,SLOTS]}` | opens the device with the invariants of the program (`"builtin"`), with none (`"none"`) or with a `nonneg` that is always false (`"broken"`): `opened COUNT` or a fault |
//! | `{"fail":[CALL,K]}` | lets call number K from now fail, a `"read"`, a `"write"` or a `"sync"`; prints nothing |
//! | `{"crash":["write",K,FILL]}`, `{"crash":["place",AT,FILL]}` | crashes the device at write number K from now, or at the next one that starts at byte AT; prints nothing. FILL is `"old"`, `"new"` or a byte, for what was written since the last sync |
//! | `{"crash":["now",FILL]}` | crashes it now; prints nothing |
//! | `"restart"` | starts the device again: `restarted`, or `not crashed` |
//! | `{"bytes":[AT,COUNT]}` | prints bytes in hexadecimal |
//! | `{"write":[AT,[BYTE,..]]}`, `{"copy":[FROM,COUNT,TO]}` | writes bytes, and syncs: `written` or a fault |
//! | `{"blank":SIZE}` | puts a device of zeros in its place; prints nothing |
//! | `{"format":[VARS,SLOTS]}` | `formatted` or a fault |
//! | `{"recover":[VARS,SLOTS]}` | opens a journal: `recovered COUNT` or a fault |
//! | `{"evaluate":[[VALUE,..],TX]}` | evaluates a transaction where variable 0, 1 and so on have these values, by `evaluate` from the start each time, and by a `Cursor`. Prints what it comes to, and how often each called a stored step; or `differ`. A call that is refused memory is told by a line, and made once more |
//!
//! `tmem_player step < ROW` plays each event by `World::step`. `tmem_player play < ROW` hands each longest run of events to
//! `World::play`. Both print the same. A bad row has status 3, and what was printed before it was found bad stays. Where the
//! list of a run is refused memory, one line says so, and the row goes on. Each line goes out by itself, but for those of a list.
//!
//! `reading` reads a row, and `draft` puts its entries together. `device` does what they do with the device, `handing` makes the
//! closures that a world is opened with, `session` plays the events, and `evaluating` evaluates transactions, whose
//! `attempts` are compared and printed.
#![tactic(auto)]

mod attempts;
mod calls;
mod device;
mod draft;
mod evaluating;
mod failure;
mod handing;
mod playing;
mod printing;
mod reading;
mod row;
mod session;

use failure::PlayFailure;
use playing::play;
use reading::row_of;
use std::alloc::Global;
use std::env::{self, Env};
use std::io::{BufWriter, Read, Write};
use std::process::ExitCode;

/// How the events of a row are played.
#[derive(Clone, Copy)]
pub(crate) enum Mode {
    /// One after another.
    Step,
    /// Each longest run of them as one list.
    Play,
}

fn main(rt: HostRuntime) -> ExitCode {
    let (mut input, mut output, mut err) = (rt.stdin(), rt.stdout(), rt.stderr());
    match run(&rt, &mut input, &mut output) {
        Ok(()) => ExitCode::from(0),
        Err(failure) => {
            // where this fails too, nobody is left to tell
            let _ = writeln!(&mut err, "tmem_player: {failure}");
            ExitCode::from(failure.status())
        }
    }
}

// Does what each word of the command line says, one after another.
fn run<I: Read, W: Write, R: AllocGlobal + Env>(
    rt: &R,
    input: &mut I,
    output: &mut W,
) -> Result<(), PlayFailure> {
    let mut words = env::args(rt)?;
    let _ = words.next();
    if words.len() == 0 {
        return Err(PlayFailure::Words);
    }
    for word in words {
        do_word(rt, &word, input, output)?;
    }
    Ok(())
}

// Does what a word of the command line says.
fn do_word<I: Read, W: Write, R: AllocGlobal>(
    rt: &R,
    word: &str,
    input: &mut I,
    output: &mut W,
) -> Result<(), PlayFailure> {
    match word {
        "step" => play_input(rt.alloc(), Mode::Step, input, output),
        "play" => play_input(rt.alloc(), Mode::Play, input, output),
        _ => Err(PlayFailure::Words),
    }
}

// Plays the row on the input, and prints what is buffered, also where it is bad.
fn play_input<I: Read, W: Write>(
    alloc: Global,
    mode: Mode,
    input: &mut I,
    output: &mut W,
) -> Result<(), PlayFailure> {
    let mut out = BufWriter::new(alloc, output)?;
    let played = play_row(alloc, mode, input, &mut out);
    out.flush()?;
    played
}

// Reads the row on the input, and plays it.
fn play_row<I: Read, W: Write>(
    alloc: Global,
    mode: Mode,
    input: &mut I,
    out: &mut W,
) -> Result<(), PlayFailure> {
    let mut text = Vec::new(alloc);
    input.read_to_end(&mut text)?;
    play(alloc, mode, row_of(alloc, &text)?, out)
}
