//! Batches and names as bytes: a batch has one spelling, which is written and read here. Batches of both versions of the
//! format are read, and those of the second are written. Words that take no version speak of the second. `commit_batch`
//! reads a batch onto a state. `Layout` has the offsets of the parts of a device.
#![tactic(auto)]

pub mod bytes;
mod codec;
mod layout;
mod onto;

pub use codec::{
    Decoded, HEAD_BYTES, Head, NAME_BYTES, SLOT_BODY_BYTES, decode_batch, encode_batch,
    one_spelling, read_batch, read_head, read_name, read_name_set, write_name, write_names,
};
pub use layout::{
    BLOCK_BYTES, HEADER_BYTES, LEAST_SLOTS, Layout, MOST_SLOTS, MOST_VARS, PAGE_BYTES, PAGE_VALUES,
    SLOT_BYTES,
};
pub use onto::commit_batch;
