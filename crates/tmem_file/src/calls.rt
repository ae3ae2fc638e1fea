// The calls of the system that read, write and sync a file, each with what it puts on record. No contract of the system's calls says
// which bytes they move, so that a record tells what its call did has to be read, in three functions: `Range::read`, `Range::write`
// and `Synced::sync`. Bytes and syncs come on record in no other way.
ghost use Rattle.std.specs.Prelude.{◌≡◌, ◌+◌, ◌<◌, ◌^◌, [], ◌++◌, length, IfOk};
ghost use Rattle.tmem_file.specs.Bytes.{bytes_in};

use std::fs::File;
use std::io;
use std::os::unix::fs::FileExt;
use std::snapshot::Snapshot;

// Bytes that went to a file or came from it.
#[derive(Drop)]
enum Bytes {
    Empty,
    With(Snapshot<Bytes>, Snapshot<u8>),
}

impl Bytes {
    // These and more behind them.
    fn and(self, more: &[u8]) -> Bytes
        ensures { bytes_in result ≡ bytes_in self ++ more.now }
    {
        let mut so_far = self;
        for byte in more {
            so_far = Bytes::With(Snapshot::of(&so_far), Snapshot::of(byte));
        }
        so_far
    }
}

/// A range of a file, and the bytes that the system gave from there or was given for it.
#[derive(Drop)]
pub(crate) struct Range {
    at: u64,
    end: u64,
    bytes: Bytes,
    ghost long: { end ≡ at + length (bytes_in bytes) },
}

impl Range {
    /// An empty one at an offset.
    pub(crate) fn from(at: u64) -> Range
        ensures at { result.at ≡ at }
        ensures bytes { bytes_in result.bytes ≡ [] }
    {
        Range {
            at,
            end: at,
            bytes: Bytes::Empty,
        }
    }

    /// Fills a buffer with the bytes behind this one, and takes them to it.
    pub(crate) fn read(self, file: &File, into: &mut [u8]) -> io::Result<Range>
        requires { self.end + length into.old < 2 ^ 64 }
        ensures at { IfOk result (λ range. range.at ≡ self.at) }
        ensures bytes { IfOk result (λ range. bytes_in range.bytes ≡ bytes_in self.bytes ++ into.new) }
    {
        file.read_exact_at(into, self.end)?;
        Ok(self.and(into))
    }

    /// Writes over the bytes behind this one, and takes those that were written to it.
    pub(crate) fn write(self, file: &File, bytes: &[u8]) -> io::Result<Range>
        requires { self.end + length bytes.now < 2 ^ 64 }
        ensures at { IfOk result (λ range. range.at ≡ self.at) }
        ensures bytes { IfOk result (λ range. bytes_in range.bytes ≡ bytes_in self.bytes ++ bytes.now) }
    {
        file.write_all_at(bytes, self.end)?;
        Ok(self.and(bytes))
    }

    // This one and more behind it.
    fn and(self, more: &[u8]) -> Range
        requires { self.end + length more.now < 2 ^ 64 }
        ensures at { result.at ≡ self.at }
        ensures bytes { bytes_in result.bytes ≡ bytes_in self.bytes ++ more.now }
    {
        Range {
            at: self.at,
            end: self.end + more.len() as u64,
            bytes: self.bytes.and(more),
        }
    }
}

/// That the system put on the disk what was written to a file.
#[derive(Drop)]
pub(crate) struct Synced {
    is_synced: (),
}

impl Synced {
    /// Has the system do that.
    pub(crate) fn sync(file: &File) -> io::Result<Synced> {
        file.sync_data()?;
        Ok(Synced { is_synced: () })
    }
}
