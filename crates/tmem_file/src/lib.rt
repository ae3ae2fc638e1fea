//! A file of the operating system, or a block device, as a device. What its promises about contents rest on is read off its calls: a
//! `FileDisk` keeps a record of them, and it keeps the disk model as long as each read gives what the record says that the
//! file holds. The record takes no memory and does nothing at run time.
//!
//! `FileDisk::open` opens one that is there. `NewFile` makes one beside its name, which gets that name once it is whole.
//!
//! That each call of the system does what its name says is not proved: `calls` has those that read, write and
//! sync, each with what it puts on record, `naming` those that open, lock and sync a folder, and `new_file` those that link and remove.
#![tactic(auto)]

mod calls;
mod disk;
mod naming;
mod new_file;
mod record;
mod recorded;

pub use disk::FileDisk;
pub use new_file::NewFile;
