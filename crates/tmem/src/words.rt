//! What the program answers to the words of a command line.
ghost use Rattle.std.specs.Prelude.{◌≡◌, ◌≤◌, None, map, string_bytes, IsSome};
ghost use Rattle.tmem_args.specs.CommandLine.{AreRefused, AsksToCheck, AsksToPlay, AsksToServe, ExplainsNothing, disk_in, path_in};
ghost use Rattle.tmem.specs.Outcomes.{HasNoScript, IsDone, IsFailed};

use crate::bench::time_jobs;
use crate::check::check_script;
use crate::count::count_in_threads;
use crate::init::init_store;
use crate::script::run_script;
use crate::serve::serve;
use crate::show::show_store;
use crate::status::{answer, conclude, conclude_check, conclude_store};
use std::fs::{File, Files};
use std::io::{Read, Write};
use std::rt::Clock;
use std::sync::Wait;
use std::thread::Threads;
use tmem_args::{Asked, asked_of};
use tmem_run::{Played, Trace};

/// Does what the words of a command line say, the program's name first, and answers the status: 0 where help or the
/// version was printed, a script was played to its end, threads counted up, jobs were timed, or a store was shown, made, or served to the
/// end of the input, or a script was checked, and a run refuses none of its numbers and transactions; 1 where that failed on the way; 2
/// where the words were refused, or memory did not suffice to read them; 3 where there was no script to play, or to check. Beside it
/// stands the device of the file that a script was played on, and how it was found. Behind `--explain` more is told on the error stream of
/// what failed.
pub(crate) fn run_words<R: Read, W: Write, E: Write>(
    rt: &(impl Files<File = File> + AllocGlobal + Threads + Wait + Clock + Sync),
    words: Vec<String>,
    input: &mut R,
    out: &mut W,
    err: &mut E,
) -> (u8, Option<Played>)
    ensures done { result.0 ≡ 0 → IsDone (map string_bytes words.items) (R.remaining input.old) (R.remaining input.new) result.1 (W.contents out.old) (W.contents out.new) }
    ensures stopped { result.0 ≡ 1 → IsFailed (map string_bytes words.items) (R.remaining input.old) result.1 }
    ensures no_script { result.0 ≡ 3 → HasNoScript (map string_bytes words.items) (R.remaining input.old) result.1 (W.contents out.old) (W.contents out.new) }
    ensures refused { AreRefused (map string_bytes words.items) → result.0 ≡ 2 }
    ensures most { result.0 ≤ 3 }

    // Nothing is told where all was done, unless more is to be told. Nothing is printed where the words were refused or there was no
    // script to play, where nothing is wrong with a script that was checked, and where a script was to be played on a file, that failed, and
    // no device is handed back. The input is left alone where no script was
    // asked for and no store is to be served, where the words were not read, and where they give the path of a script.
    ensures untold { ExplainsNothing (map string_bytes words.items) → result.0 ≡ 0 → err.new ≡ err.old }
    ensures unprinted { ¬ AsksToCheck (map string_bytes words.items) → 2 ≤ result.0 → out.new ≡ out.old }
    ensures checked { AsksToCheck (map string_bytes words.items) → result.0 ≡ 0 → out.new ≡ out.old }
    ensures withheld { AsksToPlay (map string_bytes words.items) → IsSome (disk_in (map string_bytes words.items)) → 1 ≤ result.0 → result.1 ≡ None → out.new ≡ out.old }
    ensures unasked { ¬ AsksToPlay (map string_bytes words.items) → ¬ AsksToServe (map string_bytes words.items) → input.new ≡ input.old }
    ensures unread { result.0 ≡ 2 → input.new ≡ input.old }
    ensures other_file { AsksToPlay (map string_bytes words.items) → IsSome (path_in (map string_bytes words.items)) → input.new ≡ input.old }
{
    let told = match asked_of(rt.alloc(), words.as_slice()) {
        Ok(told) => told,
        Err(refusal) => return (answer(&refusal, out, err), None),
    };
    let mut trace = Trace::new(rt.alloc(), told.explains);
    match told.asked {
        Asked::Run(paths) => {
            let mut device = None;
            let outcome = run_script(rt, paths, input, out, &mut device, &mut trace);
            trace.keep_device(device.is_some());
            (conclude(rt, told, &trace, outcome, err), device)
        }
        Asked::Threads(counting) => {
            let outcome = count_in_threads(rt, counting, out, &mut trace);
            (conclude(rt, told, &trace, outcome, err), None)
        }
        Asked::Bench(timing) => {
            let outcome = time_jobs(rt, timing, out);
            (conclude(rt, told, &trace, outcome, err), None)
        }
        Asked::Show(showing) => {
            let outcome = show_store(rt, showing, out);
            (conclude(rt, told, &trace, outcome, err), None)
        }
        Asked::Init(making) => (conclude_store(rt, told, init_store(rt, making), err), None),
        Asked::Serve(serving) => {
            let served = serve(rt, serving, input, out);
            (conclude_store(rt, told, served, err), None)
        }
        Asked::Check(path) => {
            let checked = check_script(rt, path.unwrap_or(""), out);
            (conclude_check(rt, told.asked, checked, err), None)
        }
    }
}
