//! A world that is open, and what is played on it.
ghost use Rattle.std.specs.Prelude.{◌≡◌, IfOk};
ghost use Rattle.tmem_world.specs.Represents.{numbers_of, HasCore};

use crate::Mode;
use crate::calls::{CallCounts, CountedSteps};
use crate::failure::PlayFailure;
use crate::printing::{print_fault, print_name, print_number, print_numbers};
use crate::row::{Events, Numbers, RowPart};
use std::alloc::Global;
use std::io::{self, Write};
use std::mem;
use tmem_builtins::names;
use tmem_disk::SimDisk;
use tmem_fault::Fault;
use tmem_invariants::Invariants;
use tmem_script::ReplyLine;
use tmem_tree::{REGISTERS, StoredSteps};
use tmem_world::{Reply, Settled, World};

/// A world, and how many variables it has.
struct OpenWorld<T: Invariants, S: StoredSteps> {
    world: World<SimDisk, T, S>,
    vars: u16,
    // of the last transaction that was answered with some
    registers: [i64; REGISTERS],
    ghost fits: { (numbers_of world).vars ≡ vars },
}

/// Opens a device, and plays parts on it. What an opening is refused by is a line too.
pub(crate) fn play_session<T: Invariants + Drop, W: Write>(
    alloc: Global,
    mode: Mode,
    disk: &mut SimDisk,
    numbers: Numbers,
    parts: &mut [RowPart],
    table: T,
    calls: &CallCounts,
    out: &mut W,
) -> Result<(), PlayFailure>
    requires { T.vars table ≡ numbers.vars }
{
    match opened(alloc, disk, numbers, table, CountedSteps { counts: calls }) {
        Ok(mut session) => {
            let played = session.play_parts(alloc, mode, parts, calls, out);
            *disk = session.into_disk();
            Ok(played?)
        }
        Err(fault) => refuse(fault, parts, out),
    }
}

// Opens the device. Until the session hands it back, one that holds nothing stands in its place.
fn opened<T: Invariants + Drop, S: StoredSteps + Drop>(
    alloc: Global,
    disk: &mut SimDisk,
    numbers: Numbers,
    table: T,
    steps: S,
) -> Result<OpenWorld<T, S>, Fault>
    requires { T.vars table ≡ numbers.vars }
    ensures { IfOk result (λ session. HasCore session.world) }
{
    let Numbers { vars, slots } = numbers;
    let held = mem::replace(disk, SimDisk::new(alloc, 0)?);
    match World::open(alloc, held, vars, slots, table, steps) {
        Ok(world) => Ok(OpenWorld {
            world,
            vars,
            registers: [0; REGISTERS],
        }),
        Err((fault, held)) => {
            *disk = held;
            Err(fault)
        }
    }
}

// Prints why a device was not opened. The row is bad where something was to be played on it.
fn refuse<W: Write>(fault: Fault, parts: &[RowPart], out: &mut W) -> Result<(), PlayFailure> {
    print_fault(fault, out)?;
    if parts.is_empty() {
        Ok(())
    } else {
        Err(PlayFailure::NoSession)
    }
}

impl<T: Invariants + Drop, S: StoredSteps + Drop> OpenWorld<T, S> {
    // Prints how many transactions were found, and plays parts.
    fn play_parts<W: Write>(
        &mut self,
        alloc: Global,
        mode: Mode,
        parts: &mut [RowPart],
        calls: &CallCounts,
        out: &mut W,
    ) -> io::Result<()>
        requires { HasCore self.old.world }
    {
        writeln!(out, "opened {}", self.world.count())?;
        out.flush()?;
        for part in parts {
            self.play_part(alloc, mode, part, calls, out)?;
            out.flush()?;
        }
        Ok(())
    }

    fn play_part<W: Write>(
        &mut self,
        alloc: Global,
        mode: Mode,
        part: &mut RowPart,
        calls: &CallCounts,
        out: &mut W,
    ) -> io::Result<()> {
        match part {
            RowPart::Show => self.show(out),
            RowPart::Registers => print_registers(&self.registers, out),
            RowPart::Calls => print_calls(calls, out),
            RowPart::Events(events) => {
                let events = mem::replace(events, Events::new(alloc));
                match mode {
                    Mode::Step => self.step_all(events, out),
                    Mode::Play => self.play_all(events, out),
                }
            }
        }
    }

    // Plays events one by one.
    fn step_all<W: Write>(&mut self, events: Events, out: &mut W) -> io::Result<()> {
        let Events { list } = events;
        for event in list {
            tell(self.world.step(event), &mut self.registers, out)?;
            out.flush()?;
        }
        Ok(())
    }

    // Plays events as one list. Where the list as a whole is refused, one line says so.
    fn play_all<W: Write>(&mut self, events: Events, out: &mut W) -> io::Result<()> {
        let Events { list } = events;
        match self.world.play(list) {
            Ok(replies) => {
                for reply in replies {
                    tell(reply, &mut self.registers, out)?;
                }
            }
            Err(fault) => print_fault(fault, out)?,
        }
        Ok(())
    }

    // Prints the present state.
    fn show<W: Write>(&self, out: &mut W) -> io::Result<()> {
        if !self.world.has_core() {
            return print_fault(Fault::Closed, out);
        }
        write!(out, "state count={} names=", self.world.count())?;
        self.print_names(out)?;
        self.print_values(out)
    }

    // Prints the names that are registered.
    fn print_names<W: Write>(&self, out: &mut W) -> io::Result<()>
        requires { HasCore self.now.world }
    {
        let mut count = 0;
        for name in &names() {
            if self.world.has(name) {
                print_name(count, name, out)?;
                count = 1;
            }
        }
        Ok(())
    }

    // Prints the values, to the end of the line.
    fn print_values<W: Write>(&self, out: &mut W) -> io::Result<()>
        requires { HasCore self.now.world }
    {
        out.write_all(b" values=")?;
        for var in 0..self.vars {
            print_number(usize::from(var), self.world.value(var), out)?;
        }
        out.write_all(b"\n")
    }

    fn into_disk(self) -> SimDisk {
        let OpenWorld {
            world,
            vars: _,
            registers: _,
        } = self;
        world.into_disk()
    }
}

// Prints what an event was answered, and keeps the registers that it was answered with.
fn tell<W: Write>(reply: Reply, kept: &mut [i64; REGISTERS], out: &mut W) -> io::Result<()> {
    if let Reply::Settled(
        Settled::Committed { registers, .. } | Settled::Seen { registers, .. },
    ) = reply
    {
        *kept = registers;
    }
    writeln!(out, "{}", ReplyLine(reply))
}

fn print_registers<W: Write>(registers: &[i64; REGISTERS], out: &mut W) -> io::Result<()> {
    out.write_all(b"registers ")?;
    print_numbers(registers, out)?;
    out.write_all(b"\n")
}

// Prints how often closures and stored steps were called since the last time.
fn print_calls<W: Write>(calls: &CallCounts, out: &mut W) -> io::Result<()> {
    let (tests, steps) = (calls.take_tests(), calls.take_steps());
    writeln!(out, "calls invariants={tests} steps={steps}")
}
