//! An output that remembers whether it failed.
use crate::error::ShowError;
use std::fmt::Display;
use std::io::Write;
use tmem_fault::Fault;

/// Prints to an output. Once that has failed, nothing more is printed.
#[derive(Drop)]
pub(crate) struct Printer<W: Write> {
    out: W,
    has_failed: bool,
}

impl<W: Write> Printer<W> {
    /// A printer to an output that has not failed.
    pub(crate) fn new(out: W) -> Printer<W> {
        Printer {
            out,
            has_failed: false,
        }
    }

    /// Why not all was printed: the output failed, or else what was to be printed came to this end.
    pub(crate) fn end(&self, outcome: Result<(), Fault>) -> Result<(), ShowError> {
        match outcome {
            _ if self.has_failed => Err(ShowError::Output),
            Err(fault) => Err(ShowError::Refused(fault)),
            Ok(()) => Ok(()),
        }
    }

    /// A text as it stands.
    pub(crate) fn put(&mut self, text: &str) {
        if !self.has_failed {
            self.has_failed = self.out.write_all(text.as_bytes()).is_err();
        }
    }

    /// An item behind a text.
    pub(crate) fn put_item<T: Display>(&mut self, before: &str, item: &T) {
        self.put(before);
        if !self.has_failed {
            self.has_failed = write!(self.out, "{item}").is_err();
        }
    }

    /// A number behind a text.
    pub(crate) fn put_number(&mut self, before: &str, number: u64) {
        self.put_item(before, &number);
    }

    /// A byte behind a text, in two hexadecimal digits.
    pub(crate) fn put_byte(&mut self, before: &str, byte: u8) {
        self.put(before);
        if !self.has_failed {
            self.has_failed = write!(self.out, "{byte:02x}").is_err();
        }
    }

    /// Items, with a comma between any two.
    pub(crate) fn put_all<T: Display>(&mut self, items: &[T]) {
        let mut comma = "";
        for item in items {
            self.put_item(comma, item);
            comma = ",";
        }
    }
}
