//! Runs of bytes in a buffer.
ghost use Rattle.std.specs.Prelude.{◌≡◌, ◌<◌, ◌≤◌, ◌+◌, ◌↔◌, ◌++◌, length, take, drop, replicate, IsTrue, FitsSigned};
ghost use Rattle.std.specs.Int.{w64};
ghost use Rattle.tmem_record.specs.Spelling.{number_bytes, value_bytes};
ghost use Rattle.tmem_record.specs.StandsAt.{StandsAt, zero_bytes};

use byteorder::{ByteOrder, LittleEndian};

/// Writes over the bytes from an offset on, and answers the offset behind them.
pub fn put(into: &mut [u8], at: usize, bytes: &[u8]) -> usize
    requires { at + length bytes.now ≤ length into.old }
    ensures next { result ≡ at + length bytes.now }
    ensures front { take result into.new ≡ take at into.old ++ bytes.now }
    ensures rest { drop result into.new ≡ drop result into.old }
{
    let next = at + bytes.len();
    into[at..next].copy_from_slice(bytes);
    next
}

/// Whether all of the bytes are 0.
pub fn is_zero(bytes: &[u8]) -> bool
    ensures { IsTrue result ↔ (bytes.now ≡ replicate (length bytes.now) 0) }
{
    bytes.iter().all(|byte| *byte == 0)
}

/// Whether so many bytes from an offset on are 0.
pub fn is_blank(bytes: &[u8], from: usize, count: usize) -> bool
    requires { from + count ≤ length bytes.now }
    ensures { IsTrue result ↔ StandsAt from (zero_bytes count) bytes.now }
{
    is_zero(&bytes[from..from + count])
}

/// The number of 2 bytes from an offset on.
pub fn short_at(bytes: &[u8], at: usize) -> u16
    requires { at + 2 ≤ length bytes.now }
    ensures { StandsAt at (number_bytes 2 result) bytes.now }
{
    LittleEndian::read_u16(&bytes[at..])
}

/// The number of 8 bytes from an offset on.
pub fn number_at(bytes: &[u8], at: usize) -> u64
    requires { at + 8 ≤ length bytes.now }
    ensures { StandsAt at (number_bytes 8 result) bytes.now }
{
    LittleEndian::read_u64(&bytes[at..])
}

/// Whether this number of 8 bytes stands from an offset on.
pub fn is_number(bytes: &[u8], at: usize, number: u64) -> bool
    requires { at + 8 ≤ length bytes.now }
    ensures { IsTrue result ↔ StandsAt at (number_bytes 8 number) bytes.now }
{
    number_at(bytes, at) == number
}

/// The value from an offset on.
pub fn value_at(bytes: &[u8], at: usize) -> i64
    requires { at + 8 ≤ length bytes.now }
    ensures bytes { StandsAt at (value_bytes result) bytes.now }
    ensures fits { FitsSigned w64 result }
{
    LittleEndian::read_i64(&bytes[at..])
}
