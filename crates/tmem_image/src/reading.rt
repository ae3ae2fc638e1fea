// An image, from its bytes.
ghost use Rattle.std.specs.Bool.{OnTrue, OnFalse};
ghost use Rattle.std.specs.Prelude.{◌≡◌, ◌≤◌, ◌+◌, ◌*◌, ◌↔◌, ℕ, List, [], length, vec_capacity, IfSome, IfNone, IsTrue};
ghost use Rattle.tmem_effect.specs.Names.{AreRegistered};
ghost use Rattle.tmem_effect.specs.State.{State as StateOf};
ghost use Rattle.tmem_state.specs.declared.version.Version.{Version as VersionOf};
ghost use Rattle.tmem_record.specs.StandsAt.{StandsAt, values_bytes};
ghost use Rattle.tmem_record.specs.Layout.{image_size};
ghost use Rattle.tmem_image.specs.Spelling.{names_body, image_body, AreValues, IsImage};
ghost use Rattle.tmem_image.specs.Image.{IsGeneration};
ghost use Rattle.tmem_image.specs.Framed.{IsPadded};

use tmem_record::bytes::{is_blank, is_zero, number_at, value_at};
use tmem_record::{HEADER_BYTES, read_name_set};
use tmem_state::{NameSet, State, Version};

/// How long an image's header is without its gate.
pub const HEADER_BODY_BYTES: usize = HEADER_BYTES - 1;

/// Where the version byte stands in an image's header without its gate: in the last byte.
pub const VERSION_BYTE_AT: usize = HEADER_BODY_BYTES - 1;

// How many of its bytes stand in front of the names.
const NAMES_AT: usize = 16;

/// An image that was read.
#[derive(Drop)]
pub struct ImageState {
    /// The version of the format that it is spelled in. The log over it is spelled in the same.
    pub version: Version,
    /// Its generation.
    pub generation: u64,
    /// Its state.
    pub state: State,
}

// Whether zeros stand behind the values.
fn is_padded(bytes: &[u8], vars: u16) -> bool
    requires { length bytes.now + 1 ≡ image_size vars }
    ensures { IsTrue result ↔ IsPadded vars bytes.now }
{
    let end = HEADER_BODY_BYTES + 8 * vars as usize;
    is_blank(bytes, end, bytes.len() - end)
}

// Reads the names of an image, from their number on to the version byte, into an empty set, and answers whether
// they stand there.
fn read_names(bytes: &[u8], names: &mut NameSet) -> bool
    requires long { length bytes.now ≡ 2030 }
    requires empty { names.old ≡ [] }
    ensures found { OnTrue result (bytes.now ≡ names_body names.new) }
    ensures are_registered { OnTrue result (AreRegistered names.new) }
    ensures none { OnFalse result ((ns : List (List ℕ)) → AreRegistered ns → bytes.now ≡ names_body ns → ⊥) }
{
    let Some(rest) = read_name_set(bytes, names) else {
        return false;
    };
    is_zero(rest)
}

// Reads the values that stand from an offset on, into an empty list that has room for them.
fn read_values(bytes: &[u8], from: usize, count: u16, values: &mut Vec<i64>)
    requires there { from + 8 * count ≤ length bytes.now }
    requires empty { values.old.items ≡ [] }
    requires room { count ≤ vec_capacity values.old }
    ensures length { length values.new.items ≡ count }
    ensures fits { AreValues values.new.items }
    ensures values { StandsAt from (values_bytes values.new.items) bytes.now }
{
    for k in 0..count {
        values.push(value_at(bytes, from + 8 * k as usize)).unwrap();
    }
}

/// Reads an image of either version from all of the bytes behind its gate, into an empty set of names and an empty list of
/// values with room.
pub(crate) fn read_image(
    bytes: &[u8],
    vars: u16,
    mut names: NameSet,
    mut values: Vec<i64>,
) -> Option<ImageState>
    requires long { length bytes.now + 1 ≡ image_size vars }
    requires no_names { names ≡ [] }
    requires no_values { values.items ≡ [] }
    requires room { vars ≤ vec_capacity values }
    ensures number { IfSome result (λ image. IsGeneration image.generation) }
    ensures fits { IfSome result (λ image. IsImage vars image.state) }
    ensures found { IfSome result (λ image. bytes.now ≡ image_body image.version vars image.generation image.state) }
    ensures none { IfNone result ((v : VersionOf) (generation : ℕ) (s : StateOf) → IsGeneration generation → IsImage vars s → bytes.now ≡ image_body v vars generation s → ⊥) }
{
    if !is_padded(bytes, vars) {
        return None;
    }
    let generation = number_at(bytes, 0);
    if generation == 0 {
        return None;
    }
    if !read_names(&bytes[NAMES_AT..VERSION_BYTE_AT], &mut names) {
        return None;
    }
    let version = Version::of_byte(bytes[VERSION_BYTE_AT])?;
    let count = number_at(bytes, 8);
    read_values(bytes, HEADER_BODY_BYTES, vars, &mut values);
    let state = State::of(count, names, values);
    Some(ImageState {
        version,
        generation,
        state,
    })
}
