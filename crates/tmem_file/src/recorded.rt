// A file with the record of its calls.
ghost use Rattle.std.specs.Prelude.{◌≡◌, false, ◌+◌, ◌≤◌, ◌<◌, ◌^◌, pos, List, [], ◌∷◌, length, replicate, IfOk, OnOk, OnErr};
ghost use Rattle.std.specs.Int.Signed.{◌<ℤ◌};
ghost use Rattle.std.specs.Fd.{file_raw_fd};
ghost use Rattle.tmem_file.specs.Record.{FileEvent, gave, holds, synced, lost, has_lost, is_synced};
ghost use Rattle.tmem_file.specs.Recorded.{range_bytes, event_of, first_range, start_of, call_events, Spoils};

use crate::calls::{Range, Synced};
use crate::naming::size_of;
use crate::record::{Calls, FileCall};
use std::fs::File;
use std::io::{self, ErrorKind};

// So many bytes of a file are read or written at once where that is done for the record: as it is opened or made, and after a
// write that failed.
const PIECE_BYTES: usize = 65536;

/// An open file and the record of its calls.
#[derive(Drop)]
pub(crate) struct RecordedFile {
    file: File,
    size: u64,
    pub(crate) calls: Calls,
    // It is no longer known for sure what the file holds.
    unsure: bool,
    // A sync succeeded, nothing was written since, and it is known for sure what the file holds.
    synced: bool,
    ghost begins: { (first_range calls).at ≡ 0 },
    ghost long: { length (start_of calls) ≡ size },
    ghost fits: { length (start_of calls) < 2 ^ 64 },
    ghost doubt: { has_lost (call_events calls) ≡ unsure },
    ghost rest: { is_synced (call_events calls) ≡ synced },
    ghost number: { pos 2 <ℤ file_raw_fd file },
}

impl RecordedFile {
    /// A file that is there, with the bytes that it gives, of which no more than so many are read. They may stand in the system's
    /// memory alone: the record says that a crash leaves them only once a sync has succeeded.
    pub(crate) fn found(file: File, most: u64) -> io::Result<RecordedFile>
        requires { pos 2 <ℤ file_raw_fd file }
        ensures events { IfOk result (λ found. call_events found.calls ≡ []) }
        ensures most { IfOk result (λ found. length (start_of found.calls) ≤ most) }
    {
        let size = size_of(&file)?.min(most);
        let found = find(&file, 0, size)?;
        Ok(RecordedFile {
            file,
            size,
            calls: Calls::start(&found),
            unsure: false,
            synced: false,
        })
    }

    /// An empty file, after so many zeros were written into it.
    pub(crate) fn zeros(file: File, size: u64) -> io::Result<RecordedFile>
        requires { pos 2 <ℤ file_raw_fd file }
        ensures start { IfOk result (λ made. start_of made.calls ≡ replicate size 0) }
        ensures events { IfOk result (λ made. call_events made.calls ≡ []) }
    {
        let written = fill(&file, size)?;
        Ok(RecordedFile {
            file,
            size,
            calls: Calls::start(&written),
            unsure: false,
            synced: false,
        })
    }

    /// How many bytes of it are the device.
    pub(crate) fn size(&self) -> u64
        ensures { result ≡ length (start_of self.now.calls) }
    {
        self.size
    }

    /// Has a sync succeeded, was nothing written since, and is it known for sure what the file holds? A sync has nothing to do.
    pub(crate) fn is_synced(&self) -> bool
        ensures { result ≡ is_synced (call_events self.now.calls) }
    {
        self.synced
    }

    /// Fills a buffer with the bytes from an offset on.
    pub(crate) fn read(&mut self, at: u64, into: &mut [u8]) -> io::Result<()>
        requires { at + length into.old < 2 ^ 64 }
        ensures start { start_of self.new.calls ≡ start_of self.old.calls }
        ensures gave { OnOk result (call_events self.new.calls ≡ gave at into.new ∷ call_events self.old.calls) }
        ensures same { OnErr result (call_events self.new.calls ≡ call_events self.old.calls) }
    {
        let given = Range::from(at).read(&self.file, into)?;
        self.note(&FileCall::Gave(given));
        Ok(())
    }

    /// Writes over the bytes from an offset on. Where that fails, what stands there now is read for the record.
    pub(crate) fn write(&mut self, at: u64, bytes: &[u8]) -> io::Result<()>
        requires { at + length bytes.now < 2 ^ 64 }
        ensures start { start_of self.new.calls ≡ start_of self.old.calls }
        ensures wrote { OnOk result (call_events self.new.calls ≡ holds at bytes.now ∷ call_events self.old.calls) }
        ensures spoilt { OnErr result (Spoils at (length bytes.now) (call_events self.old.calls) (call_events self.new.calls)) }
    {
        match Range::from(at).write(&self.file, bytes) {
            Ok(written) => {
                self.note(&FileCall::Holds(written));
                Ok(())
            }
            Err(error) => {
                self.note(&self.what_stands(at, bytes.len() as u64));
                Err(error)
            }
        }
    }

    // What stands in a range in which a write failed.
    fn what_stands(&self, at: u64, count: u64) -> FileCall
        requires { at + count < 2 ^ 64 }
        ensures { (earlier : List FileEvent) → Spoils at count earlier (event_of result ∷ earlier) }
    {
        match find(&self.file, at, count) {
            Ok(found) => FileCall::Holds(found),
            Err(_) => FileCall::Tore(at, count),
        }
    }

    /// Has the system put on the disk what was written. After one that failed each later one fails too: the system may have
    /// dropped the bytes that it could not write, and would then succeed without them. So it does after a write that left
    /// nobody knows what.
    pub(crate) fn sync(&mut self) -> io::Result<()>
        ensures start { start_of self.new.calls ≡ start_of self.old.calls }
        ensures sure { OnOk result (has_lost (call_events self.old.calls) ≡ false) }
        ensures synced { OnOk result (call_events self.new.calls ≡ synced ∷ call_events self.old.calls) }
        ensures lost { OnErr result (call_events self.new.calls ≡ lost ∷ call_events self.old.calls) }
    {
        let outcome = if self.unsure {
            Err(io::Error::from(ErrorKind::InvalidData))
        } else {
            Synced::sync(&self.file)
        };
        match outcome {
            Ok(synced) => {
                self.note(&FileCall::Synced(synced));
                Ok(())
            }
            Err(error) => {
                self.note(&FileCall::Lost);
                Err(error)
            }
        }
    }

    // Puts a call on record.
    fn note(&mut self, call: &FileCall)
        ensures start { first_range self.new.calls ≡ first_range self.old.calls }
        ensures events { call_events self.new.calls ≡ event_of call.now ∷ call_events self.old.calls }
    {
        self.synced = match call {
            FileCall::Gave(_) => self.synced,
            FileCall::Synced(_) => !self.unsure,
            _ => false,
        };
        self.unsure = call.is_loss() || self.unsure;
        self.calls = self.calls.with(call);
    }
}

// A range, read piece by piece.
fn find(file: &File, at: u64, count: u64) -> io::Result<Range>
    requires { at + count < 2 ^ 64 }
    ensures at { IfOk result (λ range. range.at ≡ at) }
    ensures long { IfOk result (λ range. length (range_bytes range) ≡ count) }
{
    let mut piece = [0u8; PIECE_BYTES];
    let mut found = Range::from(at);
    let mut done = 0;
    while done < count {
        let n = (count - done).min(PIECE_BYTES as u64) as usize;
        found = found.read(file, &mut piece[..n])?;
        done += n as u64;
    }
    Ok(found)
}

// Writes so many zeros piece by piece from the start on, so that no later write has to find room.
fn fill(file: &File, size: u64) -> io::Result<Range>
    ensures at { IfOk result (λ range. range.at ≡ 0) }
    ensures zeros { IfOk result (λ range. range_bytes range ≡ replicate size 0) }
{
    let zeros = [0u8; PIECE_BYTES];
    let mut written = Range::from(0);
    let mut done = 0;
    while done < size {
        let n = (size - done).min(PIECE_BYTES as u64) as usize;
        written = written.write(file, &zeros[..n])?;
        done += n as u64;
    }
    Ok(written)
}
