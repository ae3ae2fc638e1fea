//! An input that gives a piece by each read.

use std::io::{self, Read};

/// Pieces of input, of which each read gives the next one.
#[derive(Drop)]
pub(crate) struct Pieces<'a> {
    pieces: &'a [Vec<u8>],
    // the next of them
    at: usize,
}

impl<'a> Pieces<'a> {
    pub(crate) fn new(pieces: &'a [Vec<u8>]) -> Pieces<'a> {
        Pieces { pieces, at: 0 }
    }
}

impl Read for Pieces<'_> {
    fn read(&mut self, buf: &mut [u8]) -> io::Result<usize> {
        let mut piece = match self.pieces.get(self.at) {
            Some(piece) => piece.as_slice(),
            None => return Ok(0),
        };
        self.at = self.at.wrapping_add(1);
        piece.read(buf)
    }
}
