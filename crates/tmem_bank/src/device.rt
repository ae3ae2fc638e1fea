// Where the store is kept.
use crate::service::ACCOUNTS;
use std::alloc::{AllocGlobal, Global};
use std::fs::{self, File, Files};
use tmem_disk::SimDisk;
use tmem_fault::Fault;
use tmem_file::{FileDisk, NewFile};
use tmem_journal::{Layout, format};

/// How many batches the log takes between two checkpoints.
pub const SLOTS: u16 = 4;

/// A new store in memory.
pub fn device_in_memory(alloc: Global) -> Result<SimDisk, Fault> {
    let mut disk = SimDisk::new(alloc, Layout::new(ACCOUNTS, SLOTS)?.end())?;
    format(&mut disk, ACCOUNTS, SLOTS)?;
    Ok(disk)
}

/// The store of a file: the one that is there, or a new one.
pub fn device_in_file<R: AllocGlobal + Files<File = File>>(
    rt: &R,
    path: &str,
) -> Result<FileDisk, Fault> {
    match fs::exists(rt, path) {
        Ok(true) => FileDisk::open(rt, path, Layout::new(ACCOUNTS, SLOTS)?.end()),
        Ok(false) => new_file(rt, path),
        Err(_) => Err(Fault::Device),
    }
}

// A file gets its path once it is formatted.
fn new_file<R: AllocGlobal + Files<File = File>>(rt: &R, path: &str) -> Result<FileDisk, Fault> {
    let mut new = NewFile::create(rt, path, Layout::new(ACCOUNTS, SLOTS)?.end())?;
    match format(&mut new.disk, ACCOUNTS, SLOTS) {
        Ok(()) => new.give_name(rt),
        Err(fault) => {
            new.discard(rt);
            Err(fault)
        }
    }
}
