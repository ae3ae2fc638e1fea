//! Prints lines: of replies, and of the state.
ghost use Rattle.std.specs.Prelude.{◌≡◌, ◌++◌, ℕ, List, true, IfSome, IfErr, IfOk, OnOk, codes, if◌then◌else◌};
ghost use Rattle.std.specs.Io.KnownBytes.{Appends, Keeps};
ghost use Rattle.tmem_core.specs.Program.{Program};
ghost use Rattle.tmem_script.specs.declared.failure.ProgramFailure.TheVariants.{Output};
ghost use Rattle.tmem_world.specs.WorldModel.{WorldModel, present};
ghost use Rattle.tmem_world.specs.Represents.{Represents, numbers_of, HasCore};
ghost use Rattle.tmem_run.specs.Printed.{line, listed, registered, values_text, shown};

use std::fmt::Display;
use std::io::Write;
use tmem_builtins::names;
use tmem_disk::Disk;
use tmem_fault::Fault;
use tmem_invariants::Invariants;
use tmem_script::{ProgramFailure, ReplyLine};
use tmem_tree::StoredSteps;
use tmem_world::{Reply, World};

/// Prints a text and a line break.
pub fn print_line<W: Write, T: Display + Drop>(out: &mut W, text: T) -> Result<(), ProgramFailure>
    ensures line { OnOk result (IfSome (T.output text) (λ bytes. Appends (W.contents out.old) (W.contents out.new) (line bytes))) }
    ensures failed { IfErr result (λ failure. failure ≡ Output) }
{
    writeln!(out, "{text}").map_err(|_| ProgramFailure::Output)
}

/// That an output was flushed, and did not fail. Only `flush_output` makes one.
#[derive(Drop)]
pub struct Flushed {
    is_flushed: (),
}

/// Flushes what was printed. `Output` where that fails.
pub fn flush_output<W: Write>(out: &mut W) -> Result<Flushed, ProgramFailure>
    ensures kept { Keeps (W.contents out.old) (W.contents out.new) }
    ensures failed { IfErr result (λ failure. failure ≡ Output) }
{
    match out.flush() {
        Ok(()) => Ok(Flushed { is_flushed: () }),
        Err(_) => Err(ProgramFailure::Output),
    }
}

/// Prints the present state, or the refusal where there is no core.
pub(crate) fn print_state<D: Disk + Drop, T: Invariants + Drop, S: StoredSteps + Drop, W: Write>(
    out: &mut W,
    world: &World<D, T, S>,
    vars: u16,
) -> Result<(), ProgramFailure>
    requires { (numbers_of world.now).vars ≡ vars }
    ensures shown { OnOk result ((program : Program) (m : WorldModel) → Represents program world.now m
        → Appends (W.contents out.old) (W.contents out.new) (line (shown vars m.status (present program m)))) }
    ensures failed { IfErr result (λ failure. failure ≡ Output) }
{
    if !world.has_core() {
        return print_line(out, ReplyLine(Reply::Fault(Fault::Closed)));
    }
    print_text(out, format_args!("state count={} names=", world.count()))?;
    print_names(out, world)?;
    print_text(out, " values=")?;
    print_values(out, world, vars)?;
    print_line(out, "")
}

// Prints the names that are registered, joined by commas.
fn print_names<D: Disk + Drop, T: Invariants + Drop, S: StoredSteps + Drop, W: Write>(
    out: &mut W,
    world: &World<D, T, S>,
) -> Result<(), ProgramFailure>
    requires { HasCore world.now }
    ensures names { OnOk result ((program : Program) (m : WorldModel) → Represents program world.now m
        → Appends (W.contents out.old) (W.contents out.new) (listed (registered (present program m)))) }
    ensures failed { IfErr result (λ failure. failure ≡ Output) }
{
    let names = names();
    let mut is_first = true;
    for name in &names {
        if world.has(name) {
            print_item(out, is_first, *name)?;
            is_first = false;
        }
    }
    Ok(())
}

// Prints the value of each variable, joined by commas.
fn print_values<D: Disk + Drop, T: Invariants + Drop, S: StoredSteps + Drop, W: Write>(
    out: &mut W,
    world: &World<D, T, S>,
    vars: u16,
) -> Result<(), ProgramFailure>
    requires open { HasCore world.now }
    requires vars { (numbers_of world.now).vars ≡ vars }
    ensures values { OnOk result ((program : Program) (m : WorldModel) → Represents program world.now m
        → Appends (W.contents out.old) (W.contents out.new) (listed (values_text vars (present program m)))) }
    ensures failed { IfErr result (λ failure. failure ≡ Output) }
{
    for var in 0..vars {
        print_item(out, var == 0, world.value(var))?;
    }
    Ok(())
}

// Prints one of several texts: behind a comma, unless it is the first.
fn print_item<W: Write, T: Display + Drop>(
    out: &mut W,
    is_first: bool,
    text: T,
) -> Result<(), ProgramFailure>
    ensures item { OnOk result (IfSome (T.output text) (λ bytes. Appends (W.contents out.old) (W.contents out.new) ((if is_first then codes "" else codes ",") ++ bytes))) }
    ensures failed { IfErr result (λ failure. failure ≡ Output) }
{
    let comma = if is_first { "" } else { "," };
    print_text(out, format_args!("{comma}{text}"))
}

// Prints a text.
fn print_text<W: Write, T: Display + Drop>(out: &mut W, text: T) -> Result<(), ProgramFailure>
    ensures text { OnOk result (IfSome (T.output text) (Appends (W.contents out.old) (W.contents out.new))) }
    ensures failed { IfErr result (λ failure. failure ≡ Output) }
{
    write!(out, "{text}").map_err(|_| ProgramFailure::Output)
}
