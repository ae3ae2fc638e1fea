// Lines of what was read.
ghost use Rattle.std.specs.Prelude.{◌≡◌, ◌≢◌, ◌≤◌, ◌<◌, ◌++◌, ℕ, List, length, [], false, OnOk, OnErr, IsTrue};
ghost use Rattle.tmem_lines.specs.Lines.{HoldsRestOf, IsCutOff, IsUnbroken, IsLine, IsLongLine};

use memchr::memchr;
use std::alloc::{AllocError, Global};
use std::marker::Model;

/// The most bytes of a line, without its line break.
pub const MAX_LINE_BYTES: usize = 65536;

/// What comes next of what was read.
#[derive(Clone, Copy, Debug, PartialEq, Eq)]
pub enum Cut {
    /// A line, which `Lines::line` lends.
    Line,
    /// A line that is longer than `MAX_LINE_BYTES`.
    TooLong,
    /// No line has ended.
    Nothing,
}

/// Cuts what is read into lines. Contracts see the line that was cut off last, what is held behind it, whether a line began before
/// that and is too long already, and how many bytes are held in all.
#[derive(Drop)]
pub struct Lines {
    bytes: Vec<u8>,
    // where the last line begins and ends
    from: usize,
    to: usize,
    // where what is held behind it begins
    next: usize,
    is_long: bool,
}

impl Model for Lines {
    ghost use Rattle.std.specs.Prelude.{◌≤◌, drop, length, slice_range, vec_len};
    ghost use Rattle.tmem_lines.specs.Views.{LinesView};

    ghost Value = { LinesView };

    ghost view = { λ l. record { line = slice_range l.bytes.items l.from l.to; rest = drop l.next l.bytes.items; is_long = l.is_long; held = length l.bytes.items } };

    ghost invariant = { λ l. (l.from ≤ l.to) × (l.to ≤ vec_len l.bytes) × (l.next ≤ vec_len l.bytes) };
}

impl Lines {
    /// Nothing was read yet.
    pub fn new(alloc: Global) -> Lines
        ensures { HoldsRestOf result [] }
    {
        Lines {
            bytes: Vec::new(alloc),
            from: 0,
            to: 0,
            next: 0,
            is_long: false,
        }
    }

    /// Adds a piece to what was read, and lets go all that was cut off. At an `Err` it is as before.
    pub fn add(&mut self, piece: &[u8]) -> Result<(), AllocError>
        ensures ok { OnOk result ((text : List ℕ) → HoldsRestOf self.old text → HoldsRestOf self.new (text ++ piece.now)) }
        ensures err { OnErr result ((text : List ℕ) → HoldsRestOf self.old text → HoldsRestOf self.new text) }
        ensures little { self.new.held ≡ length self.new.rest }
    {
        drop(self.bytes.drain(..self.next));
        self.from = 0;
        self.to = 0;
        self.next = 0;
        self.bytes.extend_from_slice(piece)?;
        Ok(())
    }

    /// Cuts off the next line that has ended.
    pub fn cut(&mut self) -> Cut
        ensures line { result ≡ Cut.Line → (text : List ℕ) → HoldsRestOf self.old text → IsCutOff text self.new.line self.new × IsLine self.new.line }
        ensures long { result ≡ Cut.TooLong → (text : List ℕ) → HoldsRestOf self.old text → (bytes : List ℕ) × IsCutOff text bytes self.new × IsLongLine bytes }
        ensures nothing { result ≡ Cut.Nothing → (text : List ℕ) → HoldsRestOf self.old text → IsUnbroken text × HoldsRestOf self.new text }
        ensures little { result ≡ Cut.Nothing → length self.new.rest ≤ MAX_LINE_BYTES }
    {
        let rest = &self.bytes[self.next..];
        let Some(at) = memchr(b'\n', rest) else {
            self.forget_a_long_one();
            return Cut::Nothing;
        };
        let is_long = is_too_long(self.is_long, at);
        self.from = self.next;
        self.to = self.next + at;
        self.next = self.to + 1;
        self.is_long = false;
        if is_long {
            return Cut::TooLong;
        }
        Cut::Line
    }

    // Holds no bytes of a line that is too long already.
    fn forget_a_long_one(&mut self)
        requires { IsUnbroken self.old.rest }
        ensures same { (text : List ℕ) → HoldsRestOf self.old text → IsUnbroken text × HoldsRestOf self.new text }
        ensures little { length self.new.rest ≤ MAX_LINE_BYTES }
    {
        if is_too_long(self.is_long, self.bytes.len() - self.next) {
            self.next = self.bytes.len();
            self.is_long = true;
        }
    }

    /// Cuts off what is left at the end of the input: a line that lacks its line break.
    pub fn cut_last(&mut self) -> Cut
        ensures line { result ≡ Cut.Line → (text : List ℕ) → HoldsRestOf self.old text → (text ≡ self.new.line) × IsLine text × (text ≢ []) }
        ensures long { result ≡ Cut.TooLong → (text : List ℕ) → HoldsRestOf self.old text → IsLongLine text }
        ensures nothing { result ≡ Cut.Nothing → (text : List ℕ) → HoldsRestOf self.old text → text ≡ [] }
        ensures rest { HoldsRestOf self.new [] }
    {
        let left = self.bytes.len() - self.next;
        let is_long = is_too_long(self.is_long, left);
        self.from = self.next;
        self.to = self.bytes.len();
        self.next = self.bytes.len();
        self.is_long = false;
        if is_long {
            return Cut::TooLong;
        }
        if left == 0 {
            return Cut::Nothing;
        }
        Cut::Line
    }

    /// The line that was cut off last.
    pub fn line(&self) -> &[u8]
        ensures { result.now ≡ self.now.line }
    {
        &self.bytes[self.from..self.to]
    }
}

// Whether a line is too long that was so before, or has so many bytes more.
fn is_too_long(was_long: bool, more: usize) -> bool
    ensures long { IsTrue result → was_long ≡ false → MAX_LINE_BYTES < more }
    ensures short { result ≡ false → (was_long ≡ false) × (more ≤ MAX_LINE_BYTES) }
{
    was_long || more > MAX_LINE_BYTES
}
