//! An output that takes bytes in pieces, is interrupted, or fails.

use std::alloc::Global;
use std::io::{self, ErrorKind, Write};

/// What a write is answered: it takes so many bytes at most, or none for this reason.
pub(crate) type WriteTurn = Result<usize, ErrorKind>;

/// An output, and what it took.
#[derive(Drop)]
pub(crate) struct Output {
    // what its writes are answered, in turn, and then from the first one on again; where there is none, each takes all
    writes: Vec<WriteTurn>,
    // the next of them
    at: usize,
    // why its flushes fail
    flush_fails: Option<ErrorKind>,
    pub(crate) taken: Vec<u8>,
    /// How many bytes it had taken at the flushes that did not fail. Flushes at the same number count once.
    pub(crate) flushed: Vec<usize>,
    /// How often it was asked to flush.
    pub(crate) flushes: u32,
}

impl Output {
    pub(crate) fn new(
        alloc: Global,
        writes: Vec<WriteTurn>,
        flush_fails: Option<ErrorKind>,
    ) -> Output {
        Output {
            writes,
            at: 0,
            flush_fails,
            taken: Vec::new(alloc),
            flushed: Vec::new(alloc),
            flushes: 0,
        }
    }
}

impl Write for Output {
    fn write(&mut self, buf: &[u8]) -> io::Result<usize> {
        let turn = match self.writes.get(self.at) {
            Some(turn) => *turn,
            None => Ok(usize::MAX),
        };
        self.at = self.at.wrapping_add(1);
        if self.at >= self.writes.len() {
            self.at = 0;
        }
        match turn {
            Ok(most) => {
                let count = buf.len().min(most);
                self.taken.extend_from_slice(&buf[..count])?;
                Ok(count)
            }
            Err(kind) => Err(io::Error::from(kind)),
        }
    }

    fn flush(&mut self) -> io::Result<()> {
        self.flushes = self.flushes.wrapping_add(1);
        if let Some(kind) = self.flush_fails {
            return Err(io::Error::from(kind));
        }
        let count = self.taken.len();
        match self.flushed.last() {
            Some(last) if *last == count => Ok(()),
            _ => Ok(self.flushed.push(count)?),
        }
    }
}
