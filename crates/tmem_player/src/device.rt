//! What a row does to its device.
ghost use Rattle.std.specs.Prelude.{◌≡◌, ◌≤◌, ◌+◌, true};
ghost use Rattle.tmem_disk.specs.SimParts.{sim_view};

use crate::failure::PlayFailure;
use crate::printing::print_fault;
use crate::row::{Numbers, Touch};
use std::alloc::Global;
use std::io::Write;
use std::mem;
use tmem_disk::{DeviceFault, Disk, SimDisk};
use tmem_fault::Fault;
use tmem_journal::{Journal, format};

/// Does something to a device that needs no store.
pub(crate) fn touch<W: Write>(
    alloc: Global,
    disk: &mut SimDisk,
    act: &Touch,
    out: &mut W,
) -> Result<(), PlayFailure> {
    match act {
        Touch::Format(numbers) => {
            let done = format(disk, numbers.vars, numbers.slots);
            print_done(done, "formatted\n", out)
        }
        Touch::Recover(numbers) => recover(alloc, disk, *numbers, out),
        Touch::Restart => print_done(Ok(()), restart(disk), out),
        Touch::Bytes(at, count) => {
            let bytes = read(alloc, disk, *at, *count)?;
            print_bytes(&bytes, out)
        }
        Touch::Write(at, bytes) => overwrite(disk, *at, bytes, out),
        Touch::Copy(from, count, to) => {
            let bytes = read(alloc, disk, *from, *count)?;
            overwrite(disk, *to, &bytes, out)
        }
        armed => {
            arm(disk, armed);
            Ok(())
        }
    }
}

// Prints the line of what was done, or the fault.
fn print_done<W: Write>(
    done: Result<(), Fault>,
    line: &str,
    out: &mut W,
) -> Result<(), PlayFailure> {
    let printed = match done {
        Ok(()) => out.write_all(line.as_bytes()),
        Err(fault) => print_fault(fault, out),
    };
    Ok(printed?)
}

// Arms a crash or a failure.
fn arm(disk: &mut SimDisk, act: &Touch) {
    match act {
        Touch::Fail(DeviceFault::Read, k) => disk.fail_read(*k),
        Touch::Fail(DeviceFault::Write, k) => disk.fail_write(*k),
        Touch::Fail(DeviceFault::Sync, k) => disk.fail_sync(*k),
        Touch::CrashAtWrite(k, fill) => disk.stop_at_write(*k, *fill),
        Touch::CrashAtPlace(at, fill) => disk.stop_at_place(*at, *fill),
        Touch::CrashNow(fill) => disk.stop_now(*fill),
        _ => {}
    }
}

// Opens a journal, and prints how many transactions it found.
fn recover<W: Write>(
    alloc: Global,
    disk: &mut SimDisk,
    numbers: Numbers,
    out: &mut W,
) -> Result<(), PlayFailure> {
    let printed = match recovered(alloc, disk, numbers) {
        Ok(count) => writeln!(out, "recovered {count}"),
        Err(fault) => print_fault(fault, out),
    };
    Ok(printed?)
}

// How many transactions a journal finds. Until the device is handed back, one that holds nothing stands in its place.
fn recovered(alloc: Global, disk: &mut SimDisk, numbers: Numbers) -> Result<u64, Fault> {
    let held = mem::replace(disk, SimDisk::new(alloc, 0)?);
    match Journal::open(alloc, held, numbers.vars, numbers.slots) {
        Ok(journal) => {
            let count = journal.count();
            *disk = journal.into_disk();
            Ok(count)
        }
        Err((fault, held)) => {
            *disk = held;
            Err(fault)
        }
    }
}

// Starts a device again. The line says whether it had crashed.
fn restart(disk: &mut SimDisk) -> &'static str {
    if disk.is_crashed() {
        disk.restart();
        "restarted\n"
    } else {
        "not crashed\n"
    }
}

// Writes bytes, and syncs. The row is bad where the device has no room for them.
fn overwrite<W: Write>(
    disk: &mut SimDisk,
    at: u64,
    bytes: &[u8],
    out: &mut W,
) -> Result<(), PlayFailure> {
    if !has_range(disk, at, bytes.len() as u64) {
        return Err(PlayFailure::NoRow);
    }
    let done = if disk.write_at(at, bytes).is_err() || disk.sync().is_err() {
        Err(Fault::Device)
    } else {
        Ok(())
    };
    print_done(done, "written\n", out)
}

// Whether a device has so many bytes from an offset on.
fn has_range(disk: &SimDisk, at: u64, count: u64) -> bool
    ensures { result ≡ true → at + count ≤ (sim_view disk.now).capacity }
{
    match at.checked_add(count) {
        Some(end) => end <= disk.size(),
        None => false,
    }
}

// The bytes that a read gives. The row is bad where the device has none there; a read that fails ends it.
fn read(alloc: Global, disk: &mut SimDisk, at: u64, count: u64) -> Result<Vec<u8>, PlayFailure> {
    if !has_range(disk, at, count) {
        return Err(PlayFailure::NoRow);
    }
    let len = count as usize;
    let mut bytes = vec![in alloc; 0; len]?;
    match disk.read(at, bytes.as_mut_slice()) {
        Ok(()) => Ok(bytes),
        Err(_) => Err(PlayFailure::Refused(Fault::Device)),
    }
}

// Prints bytes in hexadecimal.
fn print_bytes<W: Write>(bytes: &[u8], out: &mut W) -> Result<(), PlayFailure> {
    out.write_all(b"bytes")?;
    for byte in bytes {
        write!(out, " {byte:02x}")?;
    }
    Ok(out.write_all(b"\n")?)
}
