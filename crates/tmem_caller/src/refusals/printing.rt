//! Lines that are printed in several places.

use tmem_fault::{Fault, Name};

/// Prints a line.
pub(crate) fn say_line<R: Print>(rt: &R, line: &str) {
    let _ = rt.println(line);
}

/// Prints a word, and a number behind it.
pub(crate) fn say_number<R: Print>(rt: &R, word: &str, number: u64) {
    let _ = println!(rt; "{word} {number}");
}

/// Prints a word, and a name behind it.
pub(crate) fn say_name<R: Print>(rt: &R, word: &str, name: &Name) {
    let _ = println!(rt; "{word} {name}");
}

/// Prints a fault as a line.
pub(crate) fn say_fault<R: Print>(rt: &R, fault: Fault) {
    let _ = rt.println(fault);
}
