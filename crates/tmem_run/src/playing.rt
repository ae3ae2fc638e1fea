//! Plays a script on a device.
ghost use Rattle.std.specs.Prelude.{◌≡◌, ◌⊎◌, [], ◌∷◌, None, IfErr, IsSome, OnOk, OnErr, length, option_map};
ghost use Rattle.std.specs.Io.KnownBytes.{Appends};
ghost use Rattle.tmem_builtins.specs.Invariants.{is_not_negative, add_to_hundred, are_ordered};
ghost use Rattle.tmem_record.specs.Layout.{IsLayout};
ghost use Rattle.tmem_script.specs.declared.failure.ProgramFailure.TheVariants.{Output, Refused};
ghost use Rattle.tmem_world.specs.Represents.{AreMeantBy, KeepsSetting, WritesInStore, numbers_of, world_view};
ghost use Rattle.tmem_run.specs.Builtin.{builtin_program};
ghost use Rattle.tmem_run.specs.Chains.{PlaysEntriesOn, PlaysFirstOn};
ghost use Rattle.tmem_run.specs.Printed.{PlaysEntries};
ghost use Rattle.tmem_run.specs.Stored.{PlaysOver, StopsOver, RefusesOver, PlaysWhere, StopsWhere, StopsPlaying};

use crate::counts::is_flush;
use crate::device::{device_in_file, device_in_memory};
use crate::print::{print_line, print_state};
use crate::trace::Trace;
use std::alloc::Global;
use std::fs::{File, Files};
use std::io::Write;
use std::snapshot::Snapshot;
use tmem_builtins::{nonneg, ordered, stored_steps, sum, table_of};
use tmem_disk::Disk;
use tmem_fault::Fault;
use tmem_file::FileDisk;
use tmem_invariants::Invariants;
use tmem_journal::{refused_represents_none, represents_one, spent_is_at_last};
use tmem_script::{ProgramFailure, ReplyLine, Script, ScriptEntry};
use tmem_tree::StoredSteps;
use tmem_world::{Layout, Reply, World};

/// The device of a file that a script was played on.
#[derive(Drop)]
pub struct Played {
    /// Where a file was made, the zeros that it was made of: for clauses alone, as the next one is.
    pub zeros: Option<Snapshot<FileDisk>>,
    /// The device as it was found or made, before the script was played: for clauses alone, it takes no memory.
    pub found: Snapshot<FileDisk>,
    /// The device that it became.
    pub left: FileDisk,
}

/// Plays a script on a fresh device in memory, or on the device of the file at a path, and prints a line for the opening
/// and one for each entry. A refused event is printed as its refusal, and the next is played. Refused by `Geometry`, before
/// there is a device, where the script's numbers are out of limits. The device of a file is left in `device`, and how it was found.
pub fn play<R: Files<File = File> + AllocGlobal, W: Write>(
    rt: &R,
    script: Script,
    path: Option<&str>,
    out: &mut W,
    device: &mut Option<Played>,
    trace: &mut Trace,
) -> Result<(), ProgramFailure>
    requires { device.old ≡ None }
    ensures played { OnOk result (PlaysWhere (option_map (λ text. text.now) path.entry) device.new script.vars script.slots script.entries.items (W.contents out.old) (W.contents out.new)) }
    ensures fits { OnOk result (IsLayout script.vars script.slots) }
    ensures geometry { ¬ IsLayout script.vars script.slots → result ≡ Err (Refused Fault.Geometry) }
    ensures failed { IfErr result (StopsPlaying (option_map (λ text. text.now) path.entry) device.new script.vars script.slots script.entries.items) }
    ensures withheld { IsSome path.entry → OnErr result (device.new ≡ None → out.new ≡ out.old) }
{
    let alloc = rt.alloc();
    let layout = Layout::new(script.vars, script.slots)?;
    let at_least_zero = Box::new(
        alloc,
        |values: &[i64]| -> bool
            requires { length values.now ≡ 1 }
            ensures { result ≡ is_not_negative values.now }
        { nonneg(values) },
    );
    let a_hundred = Box::new(
        alloc,
        |values: &[i64]| -> bool
            requires { length values.now ≡ 2 }
            ensures { result ≡ add_to_hundred values.now }
        { sum(values) },
    );
    let in_order = Box::new(
        alloc,
        |values: &[i64]| -> bool
            requires { length values.now ≡ 2 }
            ensures { result ≡ are_ordered values.now }
        { ordered(values) },
    );
    let (Ok(at_least_zero), Ok(a_hundred), Ok(in_order)) = (at_least_zero, a_hundred, in_order)
    else {
        return Err(ProgramFailure::Refused(Fault::Memory));
    };
    let table = table_of(alloc, script.vars, at_least_zero, a_hundred, in_order)?;
    play_with(
        rt,
        path,
        layout,
        script.entries,
        table,
        stored_steps(),
        out,
        device,
        trace,
    )
}

/// Plays the entries of a script, under these invariants and with these stored steps, on a fresh device in memory or on the
/// device of the file at a path, which is left in `device` with how it was found.
fn play_with<
    R: Files<File = File> + AllocGlobal,
    T: Invariants + Drop,
    S: StoredSteps + Drop,
    W: Write,
>(
    rt: &R,
    path: Option<&str>,
    layout: Layout,
    entries: Vec<ScriptEntry>,
    table: T,
    steps: S,
    out: &mut W,
    device: &mut Option<Played>,
    trace: &mut Trace,
) -> Result<(), ProgramFailure>
    requires none { device.old ≡ None }
    requires vars { T.vars table ≡ layout.vars }
    requires arities { S.arities steps ≡ 2 ∷ 2 ∷ 2 ∷ [] }
    requires meant { AreMeantBy S.StoredSteps T.Invariants steps table (builtin_program layout.vars) }
    ensures played { OnOk result (PlaysWhere (option_map (λ text. text.now) path.entry) device.new layout.vars layout.slots entries.items (W.contents out.old) (W.contents out.new)) }
    ensures failed { IfErr result (StopsWhere (option_map (λ text. text.now) path.entry) device.new layout.vars layout.slots entries.items) }

    // Where a path is given and no device is handed back, nothing was printed.
    ensures withheld { IsSome path.entry → OnErr result (device.new ≡ None → out.new ≡ out.old) }
{
    // what opening finds on a device that was formatted in memory is the first state, of version 2, and that is not refused
    represents_one();
    refused_represents_none();
    spent_is_at_last();
    match path {
        None => {
            let disk = device_in_memory(rt.alloc(), layout)?;
            play_on(rt.alloc(), disk, layout, entries, table, steps, out, trace).1
        }
        Some(path) => {
            let (disk, zeros) = device_in_file(rt, path, layout)?;
            let found = Snapshot::of(&disk);
            let (left, outcome) = play_on(
                rt.alloc(),
                disk,
                layout,
                entries,
                table,
                steps,
                out,
                trace,
            );
            *device = Some(Played { zeros, found, left });
            outcome
        }
    }
}

/// Opens a device, plays the entries of a script on it as `tmem run` does, and hands the device back. The invariants and the
/// steps are the builtin ones, for as many variables as the layout has, and no call of the device has failed yet. `Output`
/// where the output failed; `Refused` with its fault where the opening was refused, and nothing is printed then. `trace` takes the
/// entries that are refused, and what is committed and durable.
pub fn play_on<D: Disk + Drop, T: Invariants + Drop, S: StoredSteps + Drop, W: Write>(
    alloc: Global,
    disk: D,
    layout: Layout,
    entries: Vec<ScriptEntry>,
    table: T,
    steps: S,
    out: &mut W,
    trace: &mut Trace,
) -> (D, Result<(), ProgramFailure>)
    requires vars { T.vars table ≡ layout.vars }
    requires arities { S.arities steps ≡ 2 ∷ 2 ∷ 2 ∷ [] }
    requires meant { AreMeantBy S.StoredSteps T.Invariants steps table (builtin_program layout.vars) }
    requires failures { (D.view disk).failures ≡ 0 }
    ensures played { OnOk result.1 (PlaysOver D.view layout.vars layout.slots entries.items disk result.0 (W.contents out.old) (W.contents out.new)) }
    ensures failed { IfErr result.1 (λ failure. StopsOver D.view layout.vars layout.slots entries.items disk result.0 failure ⊎ RefusesOver D.view layout.vars layout.slots disk result.0 failure) }
{
    let mut world = match World::open(alloc, disk, layout.vars, layout.slots, table, steps) {
        Ok(world) => world,
        Err((fault, disk)) => return (disk, Err(ProgramFailure::Refused(fault))),
    };
    let count = world.count();
    trace.keep_found(count);
    match print_line(out, ReplyLine(Reply::Opened(count))) {
        Ok(()) => {}
        Err(failure) => return (world.into_disk(), Err(failure)),
    }
    let outcome = play_entries(&mut world, entries, layout.vars, out, trace);
    (world.into_disk(), outcome)
}

/// Plays the entries of a script, one after another.
fn play_entries<D: Disk + Drop, T: Invariants + Drop, S: StoredSteps + Drop, W: Write>(
    world: &mut World<D, T, S>,
    entries: Vec<ScriptEntry>,
    vars: u16,
    out: &mut W,
    trace: &mut Trace,
) -> Result<(), ProgramFailure>
    requires { (numbers_of world.old).vars ≡ vars }
    ensures played { OnOk result (PlaysEntries world.old (W.contents out.old) entries.items world.new (W.contents out.new)) }
    ensures failed { IfErr result (λ failure. failure ≡ Output) }

    // The history of a chain of sessions goes on by the entries: by all of them, or by an initial part where the output failed.
    ensures chain { OnOk result (PlaysEntriesOn world.old entries.items world.new (Appends (W.contents out.old) (W.contents out.new))) }
    ensures stopped { OnErr result (PlaysFirstOn world.old entries.items world.new) }
    ensures elsewhere { WritesInStore (numbers_of world.old) (world_view world.old) (world_view world.new) }
    ensures kept { KeepsSetting world.old world.new }
{
    for entry in entries {
        play_entry(world, entry, vars, out, trace)?;
    }
    Ok(())
}

/// Plays one entry, and prints its line.
fn play_entry<D: Disk + Drop, T: Invariants + Drop, S: StoredSteps + Drop, W: Write>(
    world: &mut World<D, T, S>,
    entry: ScriptEntry,
    vars: u16,
    out: &mut W,
    trace: &mut Trace,
) -> Result<(), ProgramFailure>
    requires { (numbers_of world.old).vars ≡ vars }
    ensures played { OnOk result (PlaysEntries world.old (W.contents out.old) (entry ∷ []) world.new (W.contents out.new)) }
    ensures failed { IfErr result (λ failure. failure ≡ Output) }
    ensures chain { PlaysEntriesOn world.old (entry ∷ []) world.new (λ text. OnOk result (Appends (W.contents out.old) (W.contents out.new) text)) }
    ensures elsewhere { WritesInStore (numbers_of world.old) (world_view world.old) (world_view world.new) }
    ensures kept { KeepsSetting world.old world.new }
{
    match entry {
        ScriptEntry::Event(playable) => {
            let is_flush = is_flush(&playable.event);
            let reply = world.step(playable.event);
            trace.keep_reply(is_flush, &reply);
            print_line(out, ReplyLine(reply))
        }
        ScriptEntry::Show => {
            trace.keep_shown(world.has_core());
            print_state(out, world, vars)
        }
    }
}
