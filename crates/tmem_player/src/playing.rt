//! Plays a row, one act after another.

use crate::Mode;
use crate::calls::{CallCounts, no_calls};
use crate::device::touch;
use crate::failure::PlayFailure;
use crate::handing::do_task;
use crate::row::{Numbers, Row, RowAct};
use std::alloc::Global;
use std::io::Write;
use tmem_disk::SimDisk;
use tmem_fault::Fault;
use tmem_world::{Layout, format};

/// Plays a row on a device that was formatted for its numbers, and prints its lines.
pub(crate) fn play<W: Write>(
    alloc: Global,
    mode: Mode,
    row: Row,
    out: &mut W,
) -> Result<(), PlayFailure> {
    let Row { numbers, acts } = row;
    let mut disk = formatted(alloc, numbers)?;
    let calls = no_calls(alloc)?;
    for act in acts {
        play_act(alloc, mode, &mut disk, act, &calls, out)?;
        out.flush()?;
    }
    Ok(())
}

// A device that is formatted for these numbers.
fn formatted(alloc: Global, numbers: Numbers) -> Result<SimDisk, Fault> {
    let layout = Layout::new(numbers.vars, numbers.slots)?;
    let mut disk = SimDisk::new(alloc, layout.end())?;
    format(&mut disk, numbers.vars, numbers.slots)?;
    Ok(disk)
}

// Does one act on the device.
fn play_act<W: Write>(
    alloc: Global,
    mode: Mode,
    disk: &mut SimDisk,
    act: RowAct,
    calls: &CallCounts,
    out: &mut W,
) -> Result<(), PlayFailure> {
    match act {
        RowAct::Blank(size) => {
            *disk = SimDisk::new(alloc, size)?;
            Ok(())
        }
        RowAct::Touch(act) => touch(alloc, disk, &act, out),
        RowAct::Do(task) => do_task(alloc, mode, disk, task, calls, out),
    }
}
