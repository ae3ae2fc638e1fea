//! Plays a script that is read from a file, or else from the input.
ghost use Rattle.std.specs.Prelude.{◌≡◌, None, ℕ, List, option_map, IfErr, IfOk, IfSome, IsSome, OnErr, OnOk};
ghost use Rattle.tmem_script.specs.Errors.{IsUnread};
ghost use Rattle.tmem_script.specs.Scripts.{IsScriptText};
ghost use Rattle.tmem_script.specs.Statuses.{status_of};
ghost use Rattle.tmem.specs.Commands.{IsWhyNotPlayed, IsWhyNotRead, MayBeRead, PlaysRead};

use std::alloc::Global;
use std::fs::{self, File, Files};
use std::io::{Read, Write};
use tmem_args::Paths;
use tmem_run::{Flushed, Played, Trace, flush_output, play};
use tmem_script::{ProgramFailure, Script, ScriptError};

/// Reads a script, from its file or else from the input, plays it to its end, and flushes what was printed. The device of a
/// file is left in `device`, and how it was found.
pub(crate) fn run_script<R: Read, W: Write>(
    rt: &(impl Files<File = File> + AllocGlobal),
    paths: Paths,
    input: &mut R,
    out: &mut W,
    device: &mut Option<Played>,
    trace: &mut Trace,
) -> Result<Flushed, ProgramFailure>
    requires { device.old ≡ None }
    ensures played { OnOk result (PlaysRead (MayBeRead (option_map (λ text. text.now) paths.entry.script) (R.remaining input.old)) (option_map (λ text. text.now) paths.entry.disk) device.new (W.contents out.old) (W.contents out.new)) }
    ensures failed { IfErr result (IsWhyNotPlayed (MayBeRead (option_map (λ text. text.now) paths.entry.script) (R.remaining input.old)) (option_map (λ text. text.now) paths.entry.disk) device.new) }
    ensures unprinted { IfErr result (λ failure. status_of failure ≡ 3 → out.new ≡ out.old) }
    ensures withheld { IsSome paths.entry.disk → OnErr result (device.new ≡ None → out.new ≡ out.old) }
    ensures other_file { IsSome paths.entry.script → input.new ≡ input.old }
{
    let script = script_of(rt, paths.script, input, trace)?;
    play(rt, script, paths.disk, out, device, trace)?;
    flush_output(out)
}

// Reads the script to play, from its file or else from the input.
fn script_of<R: Read>(
    rt: &(impl Files<File = File> + AllocGlobal),
    path: Option<&str>,
    input: &mut R,
    trace: &mut Trace,
) -> Result<Script, ScriptError>
    ensures script { IfOk result (λ script. (text : List ℕ) × MayBeRead (option_map (λ text. text.now) path.entry) (R.remaining input.old) text
        × IsScriptText script.vars script.slots script.entries.items text) }
    ensures refused { IfErr result (IsWhyNotRead (MayBeRead (option_map (λ text. text.now) path.entry) (R.remaining input.old))) }
    ensures other_file { IsSome path.entry → input.new ≡ input.old }
{
    let text = text_of(rt, path, input)?;
    let script = Script::from_slice(rt.alloc(), &text);
    trace.keep_text(text);
    script
}

// Reads a whole file, or else all that is left of the input.
fn text_of<R: Read>(
    rt: &(impl Files<File = File> + AllocGlobal),
    path: Option<&str>,
    input: &mut R,
) -> Result<Vec<u8>, ScriptError>
    ensures text { IfOk result (λ text. MayBeRead (option_map (λ text. text.now) path.entry) (R.remaining input.old) text.items) }
    ensures refused { IfErr result IsUnread }
    ensures other_file { IsSome path.entry → input.new ≡ input.old }
{
    match path {
        Some(path) => Ok(fs::read(rt, path)?),
        None => read_all(rt.alloc(), input),
    }
}

// Reads all that is left of the input.
fn read_all<R: Read>(alloc: Global, input: &mut R) -> Result<Vec<u8>, ScriptError>
    ensures text { IfOk result (λ text. IfSome (R.remaining input.old) (λ bytes. text.items ≡ bytes)) }
    ensures refused { IfErr result IsUnread }
{
    let mut text = Vec::new(alloc);
    input.read_to_end(&mut text)?;
    Ok(text)
}
