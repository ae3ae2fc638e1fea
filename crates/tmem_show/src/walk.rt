//! A walk over the bytes of a part, field by field.
ghost use Rattle.std.specs.Prelude.{true, ◌≡◌, ◌≤◌, ◌<◌, ◌+◌, length};

use crate::fields::{Field, Is};
use std::alloc::{AllocFailed, Global};
use tmem_fault::Name;
use tmem_parts::{FormatFlaw, WrongByte};
use tmem_record::bytes::{number_at, short_at, value_at};
use tmem_record::read_name;

/// Why a walk ended before the end of its part.
#[derive(Clone, Copy)]
pub(crate) enum Stop {
    /// The bytes are not as the format says.
    Wrong(WrongByte),
    /// There was no memory for the fields.
    Memory,
}

/// A walk over a part of some bytes. Once it has stopped it passes nothing more, and each number that it reads is 0.
#[derive(Drop)]
pub(crate) struct Walk<'a> {
    pub(crate) alloc: Global,
    bytes: &'a [u8],
    // where the part ends
    end: usize,
    at: usize,
    fields: Vec<Field>,
    stop: Option<Stop>,
    ghost within: { at ≤ end },
    ghost there: { end ≤ length bytes.now },
}

impl<'a> Walk<'a> {
    /// A walk that begins at an offset, in a part that ends at another.
    pub(crate) fn new(alloc: Global, bytes: &'a [u8], at: usize, end: usize) -> Walk<'a>
        requires within { at ≤ end }
        requires there { end ≤ length bytes.now }
    {
        Walk {
            alloc,
            bytes,
            end,
            at,
            fields: Vec::new(alloc),
            stop: None,
        }
    }

    /// The fields that it passed.
    pub(crate) fn into_fields(self) -> Vec<Field> {
        self.fields
    }

    /// Why it stopped, if it did.
    pub(crate) fn outcome(&self) -> Result<(), Stop> {
        match self.stop {
            None => Ok(()),
            Some(stop) => Err(stop),
        }
    }

    /// Stops for this, unless it has stopped.
    pub(crate) fn stop(&mut self, stop: Stop) {
        if self.stop.is_none() {
            self.stop = Some(stop);
        }
    }

    /// Stops where a call found no memory.
    pub(crate) fn need<T: Drop>(&mut self, outcome: Result<(), AllocFailed<T>>) {
        if outcome.is_err() {
            self.stop(Stop::Memory);
        }
    }

    /// Passes so many bytes as one field, or all that are left where they are fewer.
    pub(crate) fn pass(&mut self, count: usize, is: Is) {
        if self.stop.is_some() {
            return;
        }
        let count = count.min(self.end - self.at);
        let field = Field {
            at: self.at as u64,
            length: count as u64,
            is,
        };
        self.at += count;
        let outcome = self.fields.push(field);
        self.need(outcome);
    }

    /// Stops at the next byte, which is wrong.
    pub(crate) fn wrong(&mut self, why: FormatFlaw) {
        self.wrong_behind(0, why);
    }

    /// Stops at the next byte unless this holds.
    pub(crate) fn check(&mut self, holds: bool, why: FormatFlaw) {
        if !holds {
            self.wrong(why);
        }
    }

    // Stops at the byte behind so many.
    fn wrong_behind(&mut self, count: usize, why: FormatFlaw) {
        let at = (self.at as u64).saturating_add(count as u64);
        self.stop(Stop::Wrong(WrongByte { at, why }));
    }

    // Whether so many bytes are left and it goes on. It stops at the end of the part where they are not.
    fn has(&mut self, count: usize) -> bool
        ensures has { result ≡ true → self.new.at + count ≤ self.new.end }
    {
        let left = self.end - self.at;
        if left < count {
            self.wrong_behind(left, FormatFlaw::Ends);
            return false;
        }
        self.stop.is_none()
    }

    /// The next byte.
    pub(crate) fn byte(&mut self) -> u8 {
        if self.has(1) { self.bytes[self.at] } else { 0 }
    }

    /// The number of the next two bytes.
    pub(crate) fn short(&mut self) -> u16 {
        if self.has(2) {
            short_at(self.bytes, self.at)
        } else {
            0
        }
    }

    /// The number of the next eight bytes.
    pub(crate) fn number(&mut self) -> u64 {
        if self.has(8) {
            number_at(self.bytes, self.at)
        } else {
            0
        }
    }

    /// The value of the next eight bytes.
    pub(crate) fn value(&mut self) -> i64 {
        if self.has(8) {
            value_at(self.bytes, self.at)
        } else {
            0
        }
    }

    /// The value of the eight bytes behind the next two.
    pub(crate) fn value_behind_short(&mut self) -> i64 {
        if self.has(10) {
            value_at(self.bytes, self.at + 2)
        } else {
            0
        }
    }

    /// How many values of 0 come next, at most so many: where the next one is 0, at least it.
    pub(crate) fn zero_values(&self, most: u16) -> u16
        requires { 1 ≤ most }
        ensures some { 1 ≤ result }
        ensures most { result ≤ most }
    {
        let left = &self.bytes[self.at..self.end];
        u16::try_from(zeros_in(left) / 8)
            .unwrap_or(u16::MAX)
            .max(1)
            .min(most)
    }

    /// The next byte as a count, which may be so much.
    pub(crate) fn count(&mut self, most: usize, why: FormatFlaw) -> u8 {
        let count = self.byte();
        if count as usize > most {
            self.wrong(why);
            return 0;
        }
        count
    }

    /// The next name, behind its length.
    pub(crate) fn name(&mut self) -> Option<Name> {
        let name = read_name(&self.bytes[self.at..self.end]);
        self.check(name.is_some(), FormatFlaw::NoName);
        name
    }

    /// Passes zeros up to an offset in the part.
    pub(crate) fn zeros_to(&mut self, at: usize) {
        let end = at.min(self.end);
        if end <= self.at {
            return;
        }
        let zeros = &self.bytes[self.at..end];
        let before = zeros_in(zeros);
        if before < zeros.len() {
            self.wrong_behind(before, FormatFlaw::NotZero);
        }
        self.pass(before, Is::Zeros);
    }
}

// How many zeros bytes begin with.
fn zeros_in(bytes: &[u8]) -> usize {
    for (i, byte) in bytes.iter().enumerate() {
        if *byte != 0 {
            return i;
        }
    }
    bytes.len()
}
