//! Block 0.
ghost use Rattle.std.specs.Prelude.{◌≡◌, ◌≢◌, ◌≤◌, ◌+◌, length, take, drop, codes, IfOk, IfErr, IfSome, IfNone, OnErr, OnSome};
ghost use Rattle.tmem_record.specs.Layout.{IsLayout};
ghost use Rattle.tmem_record.specs.StandsAt.{StandsAt, zero_bytes};
ghost use Rattle.tmem_parts.specs.Block.{IsBlockWrong, IsBlock, IsHeadedBy, IsNoBlock, short_in};

use crate::wrong::{FormatFlaw, WrongByte};
use tmem_gate::reads_open;
use tmem_record::{BLOCK_BYTES, LEAST_SLOTS, Layout};
use tmem_state::Version;

// Where the letters begin.
const LETTERS_AT: usize = 1;

// Where the zeros behind the numbers begin, up to the end.
const ZEROS_AT: usize = 10;

/// What block 0 says: which version the store was formatted with, and its numbers.
#[derive(Clone, Copy)]
pub struct Block {
    pub version: Version,
    pub layout: Layout,
}

/// Reads block 0. Where it is none of a store, the error is the first thing that is wrong with it.
pub fn block_of(bytes: &[u8]) -> Result<Block, WrongByte>
    ensures block { IfOk result (λ block. IsBlock block.version block.layout.vars block.layout.slots bytes.now) }
    ensures none { OnErr result (IsNoBlock bytes.now) }
    ensures wrong { IfErr result (λ wrong. IsBlockWrong wrong.why wrong.at bytes.now) }
{
    if bytes.len() < BLOCK_BYTES {
        return Err(WrongByte {
            at: bytes.len() as u64,
            why: FormatFlaw::Ends,
        });
    }
    if !reads_open(bytes, 0) {
        return Err(WrongByte {
            at: 0,
            why: FormatFlaw::BlockClosed,
        });
    }
    if let Some(at) = other_letter(bytes) {
        return Err(WrongByte {
            at,
            why: FormatFlaw::Letters,
        });
    }
    match Version::of_block(bytes[5]) {
        Some(version) => numbers_of(bytes, version),
        None => Err(WrongByte {
            at: 5,
            why: FormatFlaw::BlockVersion,
        }),
    }
}

// The offset of the first letter that is another one than that of `TMEM`.
fn other_letter(bytes: &[u8]) -> Option<u64>
    requires { 512 ≤ length bytes.now }
    ensures other { IfSome result (λ at. IsBlockWrong FormatFlaw.Letters at bytes.now) }
    ensures some { OnSome result (take 4 (drop 1 bytes.now) ≢ codes "TMEM") }
    ensures none { IfNone result (take 4 (drop 1 bytes.now) ≡ codes "TMEM") }
{
    let letters = b"TMEM";
    for i in 0..4 {
        if bytes[LETTERS_AT + i] != letters[i] {
            return Some((LETTERS_AT + i) as u64);
        }
    }
    None
}

// The block of a version, by its numbers and the zeros behind them.
fn numbers_of(bytes: &[u8], version: Version) -> Result<Block, WrongByte>
    requires { IsHeadedBy version bytes.now }
    ensures block { IfOk result (λ block. IsBlock block.version block.layout.vars block.layout.slots bytes.now) }
    ensures none { OnErr result (IsNoBlock bytes.now) }
    ensures wrong { IfErr result (λ wrong. IsBlockWrong wrong.why wrong.at bytes.now) }
{
    let (vars, slots) = (short_at(bytes, 6), short_at(bytes, 8));
    let Ok(layout) = Layout::new(vars, slots) else {
        return Err(wrong_number(bytes));
    };
    if let Some(at) = other_than_zero(bytes) {
        return Err(WrongByte {
            at,
            why: FormatFlaw::NotZero,
        });
    }
    Ok(Block { version, layout })
}

// The number of two bytes.
fn short_at(bytes: &[u8], at: usize) -> u16
    requires { at + 2 ≤ length bytes.now }
    ensures { result ≡ short_in bytes.now at }
{
    u16::from(bytes[at]) + 256 * u16::from(bytes[at + 1])
}

// Which of the two numbers is out of its limits: that of the variables, where it is, and else that of the log slots.
fn wrong_number(bytes: &[u8]) -> WrongByte
    requires long { 512 ≤ length bytes.now }
    requires unfit { ¬ IsLayout (short_in bytes.now 6) (short_in bytes.now 8) }
    ensures { IsBlockWrong result.why result.at bytes.now }
{
    if Layout::new(short_at(bytes, 6), LEAST_SLOTS).is_ok() {
        WrongByte {
            at: 8,
            why: FormatFlaw::Slots,
        }
    } else {
        WrongByte {
            at: 6,
            why: FormatFlaw::Vars,
        }
    }
}

// The offset of the first byte behind the numbers that is not 0.
fn other_than_zero(bytes: &[u8]) -> Option<u64>
    requires { 512 ≤ length bytes.now }
    ensures other { IfSome result (λ at. IsBlockWrong FormatFlaw.NotZero at bytes.now) }
    ensures some { OnSome result (¬ StandsAt 10 (zero_bytes 502) bytes.now) }
    ensures none { IfNone result (StandsAt 10 (zero_bytes 502) bytes.now) }
{
    for at in ZEROS_AT..BLOCK_BYTES {
        if bytes[at] != 0 {
            return Some(at as u64);
        }
    }
    None
}
