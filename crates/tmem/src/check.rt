//! Says what is wrong with a script.
ghost use Rattle.std.specs.Prelude.{◌≡◌, ◌⊎◌, true, false, IfErr, IfOk, OnOk};
ghost use Rattle.std.specs.Io.KnownBytes.{Appends};
ghost use Rattle.tmem_script.specs.Errors.{IsUnread};
ghost use Rattle.tmem_script.specs.Statuses.{status_of};
ghost use Rattle.tmem_script.specs.declared.failure.ProgramFailure.TheVariants.{Output, Refused};
ghost use Rattle.tmem_explain.specs.Limits.{IsFineText};
ghost use Rattle.tmem.specs.Checked.{HasFlaws, IsWhyNotChecked, IsScriptThere, TellsFlaws, lines_of};

use std::alloc::Global;
use std::fs::{self, File, Files};
use std::io::Write;
use tmem_explain::{Flaw, flaws_in};
use tmem_fault::Fault;
use tmem_run::{flush_output, print_line};
use tmem_script::{ProgramFailure, ScriptError};

/// Prints a line for each flaw of the script in a file. Whether it is a script of which a run refuses no number and no transaction: then
/// nothing is printed. `Unreadable` where it is not read, and `Memory` where that does not suffice.
pub(crate) fn check_script<W: Write>(
    rt: &(impl Files<File = File> + AllocGlobal),
    path: &str,
    out: &mut W,
) -> Result<bool, ProgramFailure>
    ensures fine { IfOk result (λ fine. fine ≡ true → IsScriptThere × (out.new ≡ out.old)) }
    ensures flawed { IfOk result (λ fine. fine ≡ false → HasFlaws (W.contents out.old) (W.contents out.new)) }
    ensures failed { IfErr result IsWhyNotChecked }
    ensures unread { IfErr result (λ failure. status_of failure ≡ 3 → out.new ≡ out.old) }
{
    let text = text_of(rt, path)?;
    check_text(rt.alloc(), &text, out)
}

/// Prints a line for each flaw of a text. Whether it is a script of which a run refuses no number and no transaction: then nothing is
/// printed. `Memory` where that does not suffice.
pub(crate) fn check_text<W: Write>(
    alloc: Global,
    text: &[u8],
    out: &mut W,
) -> Result<bool, ProgramFailure>
    ensures fine { IfOk result (λ fine. fine ≡ true → IsFineText text.now × (out.new ≡ out.old)) }
    ensures flawed { IfOk result (λ fine. fine ≡ false → TellsFlaws text.now (W.contents out.old) (W.contents out.new)) }
    ensures failed { IfErr result (λ failure. (failure ≡ Refused Fault.Memory) ⊎ (failure ≡ Output)) }
{
    let Ok(flaws) = flaws_in(alloc, text) else {
        return Err(ProgramFailure::Refused(Fault::Memory));
    };
    if flaws.is_empty() {
        return Ok(true);
    }
    print_flaws(out, &flaws)?;
    flush_output(out)?;
    Ok(false)
}

fn text_of(rt: &(impl Files<File = File> + AllocGlobal), path: &str) -> Result<Vec<u8>, ScriptError>
    ensures { IfErr result IsUnread }
{
    Ok(fs::read(rt, path)?)
}

// Prints a line for each flaw.
fn print_flaws<W: Write>(out: &mut W, flaws: &[Flaw]) -> Result<(), ProgramFailure>
    ensures lines { OnOk result (Appends (W.contents out.old) (W.contents out.new) (lines_of flaws.now)) }
    ensures failed { IfErr result (λ failure. failure ≡ Output) }
{
    for flaw in flaws {
        print_line(out, format_args!("{flaw}"))?;
    }
    Ok(())
}
