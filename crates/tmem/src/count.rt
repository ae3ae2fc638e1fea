//! Lets threads count up in a new store.
ghost use Rattle.std.specs.Prelude.{IfErr, IfOk, OnOk, option_map};
ghost use Rattle.tmem_effect.specs.State.{State};
ghost use Rattle.tmem_bench.specs.Counting.{AreTotals};
ghost use Rattle.tmem.specs.Commands.{CountsUp, IsMadeAt, IsWhyNotCounted};

use std::fmt;
use std::fs::{File, Files};
use std::io::Write;
use std::rt::Clock;
use std::sync::Wait;
use std::thread::Threads;
use tmem_args::Counting;
use tmem_bench::{COUNTING_SLOTS, COUNTING_VARS, CountingWork, Totals, count_up};
use tmem_fault::Fault;
use tmem_run::{Flushed, Trace, device_in_memory, flush_output, made_file, print_line};
use tmem_script::ProgramFailure;
use tmem_world::Layout;

/// Lets threads count up, and prints their totals.
pub(crate) fn count_in_threads<W: Write>(
    rt: &(impl Files<File = File> + AllocGlobal + Threads + Wait + Clock + Sync),
    counting: Counting,
    out: &mut W,
    trace: &mut Trace,
) -> Result<Flushed, ProgramFailure>
    ensures counted { OnOk result (CountsUp (record { workers = counting.entry.workers; turns = counting.entry.turns }) (option_map (λ text. text.now) counting.entry.disk) (W.contents out.old) (W.contents out.new)) }
    ensures failed { IfErr result IsWhyNotCounted }
{
    let work = CountingWork {
        workers: counting.workers,
        turns: counting.turns,
    };
    let totals = count_on(rt, work, counting.disk, trace)?;
    print_line(out, TotalsText(totals))?;
    flush_output(out)
}

// Lets workers count up in a store that is made for them: in memory, or in a file that is not there yet. Once that is made, the trace
// keeps that this program had it open.
fn count_on<R: Files<File = File> + AllocGlobal + Threads + Wait + Clock + Sync>(
    rt: &R,
    work: CountingWork,
    path: Option<&str>,
    trace: &mut Trace,
) -> Result<Totals, Fault>
    ensures made { IfOk result (λ _. IsMadeAt (option_map (λ text. text.now) path.entry)) }
    ensures totals { IfOk result (λ totals. (opening : State) × AreTotals opening work totals) }
{
    let layout = Layout::new(COUNTING_VARS, COUNTING_SLOTS)?;
    match path {
        None => count_up(rt, rt.alloc(), device_in_memory(rt.alloc(), layout)?, work),
        Some(path) => {
            let made = made_file(rt, path, layout)?;
            trace.keep_device(true);
            let (disk, _zeros) = made;
            count_up(rt, rt.alloc(), disk, work)
        }
    }
}

// What threads did, as its lines but for the last line break.
#[derive(Drop)]
struct TotalsText(Totals);

impl fmt::Display for TotalsText {
    ghost use Rattle.std.specs.Prelude.{Some};
    ghost use Rattle.tmem.specs.Commands.{totals_text};

    ghost output = { λ text. Some (totals_text text.0) };

    fn fmt<W: fmt::Write>(&self, f: &mut fmt::Formatter<W>) -> fmt::Result {
        let Totals {
            committed,
            value,
            durable,
        } = self.0;
        write!(f, "committed {committed}\nvalue {value}\ndurable {durable}")
    }
}
