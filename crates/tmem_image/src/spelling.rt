// The bytes of an image, part by part.
ghost use Rattle.std.specs.Prelude.{◌≡◌, ◌<◌, ◌≤◌, ◌+◌, ◌*◌, ◌^◌, ◌++◌, length, take, drop, flat_map};
ghost use Rattle.tmem_effect.specs.Names.{AreRegistered};
ghost use Rattle.tmem_record.specs.Spelling.{value_bytes};
ghost use Rattle.tmem_state.specs.declared.version.Version.TheVariants.{Two};
ghost use Rattle.tmem_image.specs.Spelling.{header_body, page_bytes, page_values, AreValues};

use crate::reading::{HEADER_BODY_BYTES, VERSION_BYTE_AT};
use tmem_record::bytes::put;
use tmem_record::{PAGE_BYTES, PAGE_VALUES, write_names};
use tmem_state::{State, Version};

/// Spells a header of version 2 without its gate.
pub(crate) fn header_of(generation: u64, state: &State) -> [u8; HEADER_BODY_BYTES]
    ensures bytes { result ≡ header_body Two generation state.now }
    ensures names { AreRegistered state.now.names }
    ensures countable { state.now.count < 2 ^ 64 }
{
    let mut bytes = [0; HEADER_BODY_BYTES];
    put(&mut bytes, VERSION_BYTE_AT, &[Version::Two.byte()]);
    let mut at = put(&mut bytes, 0, &generation.to_le_bytes());
    at = put(&mut bytes, at, &state.count().to_le_bytes());
    write_names(&mut bytes, at, state.names());
    bytes
}

/// Spells a page of these values.
pub(crate) fn page_of(values: &[i64], page: u16) -> [u8; PAGE_BYTES]
    requires { 64 * page ≤ length values.now }
    ensures bytes { result ≡ page_bytes values.now page }
    ensures numbers { AreValues (page_values values.now page) }
{
    let mut bytes = [0; PAGE_BYTES];
    let from = PAGE_VALUES * page as usize;
    let count = PAGE_VALUES.min(values.len() - from);
    put_values(&mut bytes, &values[from..from + count]);
    bytes
}

// Spells values from the front of a buffer on, and returns the offset behind them.
fn put_values(into: &mut [u8], values: &[i64]) -> usize
    requires { 8 * length values.now ≤ length into.old }
    ensures next { result ≡ 8 * length values.now }
    ensures front { take result into.new ≡ flat_map value_bytes values.now }
    ensures rest { drop result into.new ≡ drop result into.old }
    ensures numbers { AreValues values.now }
{
    let mut at = 0;
    for value in values {
        at = put(into, at, &value.to_le_bytes());
    }
    at
}
