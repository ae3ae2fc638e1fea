// Batches and names as bytes: how they are written, in the second version, and read, in either.
ghost use Rattle.std.specs.Prelude.{◌≡◌, ◌≤◌, ◌<◌, ◌+◌, ◌*◌, ◌^◌, ◌↔◌, [], ◌∷◌, ◌++◌, ℕ, ℤ, length, take, drop, flat_map, sum_by, All, IsTrue, IfOk, IfErr, IfSome, IfNone, List, FitsSigned};
ghost use Rattle.std.specs.Int.{w64};
ghost use Rattle.tmem_fault.specs.Name.{IsName};
ghost use Rattle.tmem_effect.specs.declared.effect.Effect.{Effect as EffectOf};
ghost use Rattle.tmem_effect.specs.State.{AreWrites, AreChecks, AreRegistered, AreApart};
ghost use Rattle.tmem_effect.specs.Prefix.{IsPrefix};
ghost use Rattle.tmem_state.specs.Batch.{record_length, records_length, IsRecordIn, IsBatchIn};
ghost use Rattle.tmem_state.specs.Versions.{MayRetire};
ghost use Rattle.tmem_state.specs.declared.version.Version.TheVariants.{Two};
ghost use Rattle.tmem_record.specs.Spelling.{number_bytes, value_bytes, write_bytes, name_bytes, writes_bytes, names_bytes, retired_bytes, record_bytes, batch_bytes, SpellsBatch, OneSpelling};

use crate::bytes::put;
use crate::layout::SLOT_BYTES;
use byteorder::{ByteOrder, LittleEndian};
use std::alloc::Global;
use tmem_effect::{Effect, MAX_CHECKS, MAX_WRITES, Names, Writes, holds};
use tmem_fault::{Fault, Name};
use tmem_state::{BATCH_BYTES, Batch, MAX_NAMES, MAX_RECORDS, NameSet, Records, Version};

/// How many bytes a batch may have: as many as a log slot has behind its gate.
pub const SLOT_BODY_BYTES: usize = SLOT_BYTES - 1;

/// How many bytes the longest name takes: its length, and 16 letters.
pub const NAME_BYTES: usize = 17;

/// How many bytes stand between the gate of a log slot and its records.
pub const HEAD_BYTES: usize = 18;

// How many bytes a write takes.
const WRITE_BYTES: usize = 10;

/// A batch that was read.
#[derive(Drop)]
pub struct Decoded {
    /// The generation of the image that it changes.
    pub generation: u64,
    /// The number of its first record.
    pub first: u64,
    /// Its records in order.
    pub effects: Records,
    /// How many bytes spell it.
    pub length: usize,
}

/// What stands before the records of a batch that was read, and how many bytes spell the whole of it.
#[derive(Clone, Copy, Debug, PartialEq, Eq)]
pub struct Head {
    /// The generation of the image that the batch changes.
    pub generation: u64,
    /// The number of its first record.
    pub first: u64,
    /// How many bytes spell the batch.
    pub length: usize,
}

// Spells writes from an offset on, and returns the offset behind them.
fn put_writes(into: &mut [u8], start: usize, writes: &[(u16, i64)]) -> usize
    requires { start + 10 * length writes.now ≤ length into.old }
    ensures next { result ≡ start + 10 * length writes.now }
    ensures front { take result into.new ≡ take start into.old ++ flat_map write_bytes writes.now }
{
    let mut at = start;
    for write in writes {
        at = put(into, at, &write.0.to_le_bytes());
        at = put(into, at, &write.1.to_le_bytes());
    }
    at
}

// Spells names from an offset on, each behind its length, and returns the offset behind them.
fn put_names(into: &mut [u8], start: usize, names: &[Name]) -> usize
    requires { start + sum_by (λ n. 1 + length n) names.now ≤ length into.old }
    ensures next { result ≡ start + sum_by (λ n. 1 + length n) names.now }
    ensures front { take result into.new ≡ take start into.old ++ flat_map name_bytes names.now }
    ensures rest { drop result into.new ≡ drop result into.old }
{
    let mut at = start;
    for name in names {
        let letters = name.as_bytes();
        at = put(into, at, &[letters.len() as u8]);
        at = put(into, at, letters);
    }
    at
}

/// Writes names into a buffer from an offset on, behind how many there are, and returns the offset behind them. The rest of
/// the buffer stays.
pub fn write_names(into: &mut [u8], start: usize, names: &[Name]) -> usize
    requires room { start + length (names_bytes names.now) ≤ length into.old }
    requires few { length names.now < 2 ^ 8 }
    ensures next { result ≡ start + length (names_bytes names.now) }
    ensures front { take result into.new ≡ take start into.old ++ names_bytes names.now }
    ensures rest { drop result into.new ≡ drop result into.old }
{
    let at = put(into, start, &[names.len() as u8]);
    put_names(into, at, names)
}

/// Writes the bytes of a name to the front of a buffer, and returns how many there are. The rest of the buffer stays.
pub fn write_name(name: &Name, into: &mut [u8]) -> usize
    requires { NAME_BYTES ≤ length into.old }
    ensures next { result ≡ 1 + length name.now }
    ensures bytes { take result into.new ≡ name_bytes name.now }
    ensures rest { drop result into.new ≡ drop result into.old }
{
    let letters = name.as_bytes();
    let at = put(into, 0, &[letters.len() as u8]);
    put(into, at, letters)
}

// Spells a record from an offset on, and returns the offset behind it.
fn put_record(into: &mut [u8], start: usize, effect: &Effect) -> usize
    requires { start + record_length effect.now ≤ length into.old }
    ensures next { result ≡ start + record_length effect.now }
    ensures front { take result into.new ≡ take start into.old ++ record_bytes Two effect.now }
{
    let writes = effect.writes.as_slice();
    let mut at = put(into, start, &[writes.len() as u8]);
    at = put_writes(into, at, writes);
    at = write_names(into, at, effect.names.as_slice());
    write_names(into, at, effect.retired.as_slice())
}

// Spells records from an offset on, one after another, and returns the offset behind them.
fn put_records(into: &mut [u8], start: usize, effects: &[Effect]) -> usize
    requires { start + records_length effects.now ≤ length into.old }
    ensures next { result ≡ start + records_length effects.now }
    ensures front { take result into.new ≡ take start into.old ++ flat_map (record_bytes Two) effects.now }
{
    let mut at = start;
    for effect in effects {
        at = put_record(into, at, effect);
    }
    at
}

/// Writes the bytes of a batch, in the second version, to the front of a buffer, and returns how many there are.
pub fn encode_batch(batch: &Batch, generation: u64, first: u64, into: &mut [u8]) -> usize
    requires some { 1 ≤ length batch.now }
    requires room { SLOT_BODY_BYTES ≤ length into.old }
    ensures room { result ≤ SLOT_BODY_BYTES }
    ensures bytes { take result into.new ≡ batch_bytes Two generation first batch.now }
    ensures spells { (vars : ℕ) → All (λ e. All (λ w. w.0 < vars) e.writes) batch.now → SpellsBatch Two vars generation first batch.now (take result into.new) }
{
    let effects = batch.effects();
    let mut at = put(into, 0, &generation.to_le_bytes());
    at = put(into, at, &first.to_le_bytes());
    at = put(into, at, &(effects.len() as u16).to_le_bytes());
    put_records(into, at, effects)
}

// The first byte, and what follows it.
fn byte_of(bytes: &[u8]) -> Option<(u8, &[u8])>
    ensures found { IfSome result (λ found. bytes.now ≡ found.0 ∷ found.1.now) }
    ensures none { IfNone result (bytes.now ≡ []) }
{
    match bytes {
        [] => None,
        [byte, rest @ ..] => Some((*byte, rest)),
    }
}

// The number of 2 bytes at the front, and what follows it.
pub(crate) fn short_of(bytes: &[u8]) -> (u16, &[u8])
    requires { 2 ≤ length bytes.now }
    ensures parts { bytes.now ≡ number_bytes 2 result.0 ++ result.1.now }
    ensures rest { length result.1.now + 2 ≡ length bytes.now }
{
    (LittleEndian::read_u16(bytes), &bytes[2..])
}

// The number of 8 bytes at the front, and what follows it.
pub(crate) fn number_of(bytes: &[u8]) -> (u64, &[u8])
    requires { 8 ≤ length bytes.now }
    ensures parts { bytes.now ≡ number_bytes 8 result.0 ++ result.1.now }
    ensures rest { length result.1.now + 8 ≡ length bytes.now }
{
    (LittleEndian::read_u64(bytes), &bytes[8..])
}

// The value at the front, and what follows it.
fn value_of(bytes: &[u8]) -> (i64, &[u8])
    requires { 8 ≤ length bytes.now }
    ensures parts { bytes.now ≡ value_bytes result.0 ++ result.1.now }
    ensures fits { FitsSigned w64 result.0 }
    ensures rest { length result.1.now + 8 ≡ length bytes.now }
{
    (LittleEndian::read_i64(bytes), &bytes[8..])
}

// The write at the front, of one of so many variables, and what follows it.
fn write_of(bytes: &[u8], vars: u16) -> Option<((u16, i64), &[u8])>
    ensures within { IfSome result (λ found. found.0.0 < vars) }
    ensures fits { IfSome result (λ found. FitsSigned w64 found.0.1) }
    ensures found { IfSome result (λ found. bytes.now ≡ write_bytes found.0 ++ found.1.now) }
    ensures none { IfNone result ((w : ℕ × ℤ) (rest : List ℕ) → w.0 < vars → FitsSigned w64 w.1 → bytes.now ≡ write_bytes w ++ rest → ⊥) }
{
    if bytes.len() < WRITE_BYTES {
        return None;
    }
    let (var, rest) = short_of(bytes);
    let (value, rest) = value_of(rest);
    if var >= vars {
        return None;
    }
    Some(((var, value), rest))
}

// The writes of a record, behind how many there are, and what follows them.
#[inline(always)]
fn writes_of<'a>(bytes: &'a [u8], vars: u16, writes: &mut Writes) -> Option<&'a [u8]>
    requires { writes.old ≡ [] }
    ensures are_writes { IfSome result (λ rest. AreWrites writes.new) }
    ensures within { IfSome result (λ rest. All (λ w. w.0 < vars) writes.new) }
    ensures found { IfSome result (λ rest. bytes.now ≡ writes_bytes writes.new ++ rest.now) }
    ensures none { IfNone result ((ws : List (ℕ × ℤ)) (rest : List ℕ) → AreWrites ws → All (λ w. w.0 < vars) ws → bytes.now ≡ writes_bytes ws ++ rest → ⊥) }
{
    let (count, behind) = byte_of(bytes)?;
    if count as usize > MAX_WRITES {
        return None;
    }
    let mut rest = behind;
    for _ in 0..count {
        let (write, next) = write_of(rest, vars)?;
        if writes.has(write.0) {
            return None;
        }
        writes.put(write.0, write.1);
        rest = next;
    }
    Some(rest)
}

// The name at the front, and what follows it.
fn name_of(bytes: &[u8]) -> Option<(Name, &[u8])>
    ensures is_name { IfSome result (λ found. IsName found.0) }
    ensures found { IfSome result (λ found. bytes.now ≡ name_bytes found.0 ++ found.1.now) }
    ensures none { IfNone result ((name rest : List ℕ) → IsName name → bytes.now ≡ name_bytes name ++ rest → ⊥) }
{
    let (len, behind) = byte_of(bytes)?;
    if behind.len() < len as usize {
        return None;
    }
    let (letters, rest) = behind.split_at(len as usize);
    let Ok(text) = std::str::from_utf8(letters) else {
        return None;
    };
    let Ok(name) = Name::new(text) else {
        return None;
    };
    Some((name, rest))
}

/// Reads a name from the front of the bytes. `None` where no prefix of them spells a name.
pub fn read_name(bytes: &[u8]) -> Option<Name>
    ensures found { IfSome result (λ name. IsPrefix (name_bytes name) bytes.now) }
    ensures none { IfNone result ((name : List ℕ) → IsName name → IsPrefix (name_bytes name) bytes.now → ⊥) }
{
    match name_of(bytes) {
        Some((name, _)) => Some(name),
        None => None,
    }
}

/// Reads a set of names from the front of the bytes into an empty one: how many names there are, and each of them in
/// ascending order. Returns the bytes behind them, or `None` where no prefix of the bytes spells such names.
pub fn read_name_set<'a>(bytes: &'a [u8], names: &mut NameSet) -> Option<&'a [u8]>
    requires { names.old ≡ [] }
    ensures are_registered { IfSome result (λ rest. AreRegistered names.new) }
    ensures found { IfSome result (λ rest. bytes.now ≡ names_bytes names.new ++ rest.now) }
    ensures none { IfNone result ((ns : List (List ℕ)) (rest : List ℕ) → AreRegistered ns → bytes.now ≡ names_bytes ns ++ rest → ⊥) }
{
    let (total, behind) = byte_of(bytes)?;
    if total as usize > MAX_NAMES {
        return None;
    }
    let mut rest = behind;
    for _ in 0..total {
        let Some((name, next)) = name_of(rest) else {
            return None;
        };
        if !names.push(&name) {
            return None;
        }
        rest = next;
    }
    Some(rest)
}

// The names of a record, behind how many there are, and what follows them. Most records have none.
#[inline(always)]
fn names_of<'a>(bytes: &'a [u8], names: &mut Names) -> Option<&'a [u8]>
    requires { names.old ≡ [] }
    ensures are_checks { IfSome result (λ rest. AreChecks names.new) }
    ensures found { IfSome result (λ rest. bytes.now ≡ names_bytes names.new ++ rest.now) }
    ensures none { IfNone result ((ns : List (List ℕ)) (rest : List ℕ) → AreChecks ns → bytes.now ≡ names_bytes ns ++ rest → ⊥) }
{
    let (count, behind) = byte_of(bytes)?;
    if count == 0 {
        return Some(behind);
    }
    some_names_of(bytes, names)
}

// The same, where there are some. (In a frame of its own.)
#[inline(never)]
fn some_names_of<'a>(bytes: &'a [u8], names: &mut Names) -> Option<&'a [u8]>
    requires { names.old ≡ [] }
    ensures are_checks { IfSome result (λ rest. AreChecks names.new) }
    ensures found { IfSome result (λ rest. bytes.now ≡ names_bytes names.new ++ rest.now) }
    ensures none { IfNone result ((ns : List (List ℕ)) (rest : List ℕ) → AreChecks ns → bytes.now ≡ names_bytes ns ++ rest → ⊥) }
{
    let (count, behind) = byte_of(bytes)?;
    if count as usize > MAX_CHECKS {
        return None;
    }
    let mut rest = behind;
    for _ in 0..count {
        let Some((name, next)) = name_of(rest) else {
            return None;
        };
        if names.has(&name) {
            return None;
        }
        names.put(&name);
        rest = next;
    }
    Some(rest)
}

// The retired names of a record of a version, and what follows them.
#[inline(always)]
fn retired_of<'a>(bytes: &'a [u8], version: Version, names: &mut Names) -> Option<&'a [u8]>
    requires { names.old ≡ [] }
    ensures are_checks { IfSome result (λ rest. AreChecks names.new) }
    ensures may_retire { IfSome result (λ rest. MayRetire version names.new) }
    ensures found { IfSome result (λ rest. bytes.now ≡ retired_bytes version names.new ++ rest.now) }
    ensures none { IfNone result ((ns : List (List ℕ)) (rest : List ℕ) → AreChecks ns → MayRetire version ns → bytes.now ≡ retired_bytes version ns ++ rest → ⊥) }
{
    match version {
        Version::One => Some(bytes),
        Version::Two => names_of(bytes, names),
    }
}

// Whether none of these names is among the others.
fn are_apart(names: &[Name], others: &[Name]) -> bool
    ensures { IsTrue result ↔ AreApart names.now others.now }
{
    names.iter().all(|name| !holds(others, name))
}

// The record of a version at the front, and what follows it. (As a part of its two callers: an answer that came by way of memory
// would be waited for at each record.)
#[inline(always)]
pub(crate) fn record_of<'a>(
    bytes: &'a [u8],
    vars: u16,
    version: Version,
    effect: &mut Effect,
) -> Option<&'a [u8]>
    ensures is_record { IfSome result (λ rest. IsRecordIn version vars effect.new) }
    ensures found { IfSome result (λ rest. bytes.now ≡ record_bytes version effect.new ++ rest.now) }
    ensures none { IfNone result ((e : EffectOf) (rest : List ℕ) → IsRecordIn version vars e → bytes.now ≡ record_bytes version e ++ rest → ⊥) }
{
    effect.clear();
    let behind = writes_of(bytes, vars, &mut effect.writes)?;
    let behind = names_of(behind, &mut effect.names)?;
    let rest = retired_of(behind, version, &mut effect.retired)?;
    if effect.is_empty() {
        return None;
    }
    if !are_apart(effect.names.as_slice(), effect.retired.as_slice()) {
        return None;
    }
    Some(rest)
}

// So many records of a version from the front on, and what follows them.
fn records_of<'a>(
    bytes: &'a [u8],
    count: u16,
    vars: u16,
    version: Version,
    effect: &mut Effect,
    records: &mut Records,
) -> Option<&'a [u8]>
    requires none_yet { records.old ≡ [] }
    requires few { count ≤ MAX_RECORDS }
    ensures counted { IfSome result (λ rest. length records.new ≡ count) }
    ensures each { IfSome result (λ rest. All (IsRecordIn version vars) records.new) }
    ensures found { IfSome result (λ rest. bytes.now ≡ flat_map (record_bytes version) records.new ++ rest.now) }
    ensures none { IfNone result ((es : List EffectOf) (rest : List ℕ) → length es ≡ count → All (IsRecordIn version vars) es → bytes.now ≡ flat_map (record_bytes version) es ++ rest → ⊥) }
{
    let mut rest = bytes;
    for _ in 0..count {
        let next = record_of(rest, vars, version, effect)?;
        records.push(effect);
        rest = next;
    }
    Some(rest)
}

// The batch of a version at the front: its generation, the number of its first record, and what follows it.
fn batch_of<'a>(
    bytes: &'a [u8],
    vars: u16,
    version: Version,
    effect: &mut Effect,
    records: &mut Records,
) -> Option<(u64, u64, &'a [u8])>
    requires { records.old ≡ [] }
    ensures is_batch { IfSome result (λ found. IsBatchIn version vars records.new) }
    ensures found { IfSome result (λ found. bytes.now ≡ batch_bytes version found.0 found.1 records.new ++ found.2.now) }
    ensures none { IfNone result ((generation first : ℕ) (es : List EffectOf) (rest : List ℕ) → generation < 2 ^ 64 → first < 2 ^ 64 → IsBatchIn version vars es → bytes.now ≡ batch_bytes version generation first es ++ rest → ⊥) }
{
    if bytes.len() < HEAD_BYTES {
        return None;
    }
    let (generation, behind) = number_of(bytes);
    let (first, behind) = number_of(behind);
    let (count, behind) = short_of(behind);
    if count == 0 || count as usize > MAX_RECORDS {
        return None;
    }
    let rest = records_of(behind, count, vars, version, effect, records)?;
    // the limit is one of the bytes that are read: the second version spells the same records in more
    if behind.len() - rest.len() > BATCH_BYTES {
        return None;
    }
    Some((generation, first, rest))
}

/// The generation, the number of the first record and the number of records, from the bytes that stand between the gate
/// of a slot and its records.
pub fn read_head(bytes: &[u8; HEAD_BYTES]) -> (u64, u64, u16)
    ensures { bytes.now ≡ number_bytes 8 result.0 ++ (number_bytes 8 result.1 ++ number_bytes 2 result.2) }
{
    let (generation, behind) = number_of(bytes);
    let (first, behind) = number_of(behind);
    let (count, _) = short_of(behind);
    (generation, first, count)
}

/// Reads a batch of a version over so many variables from the front of the bytes into records that are lent, whose own are
/// forgotten before. `None` where no prefix of the bytes spells one, and then what the lent records hold is open. It takes
/// no memory.
pub fn read_batch(bytes: &[u8], vars: u16, version: Version, records: &mut Records) -> Option<Head>
    ensures found { IfSome result (λ head. SpellsBatch version vars head.generation head.first records.new (take head.length bytes.now)) }
    ensures within { IfSome result (λ head. head.length ≤ length bytes.now) }
    ensures none { IfNone result ((generation first n : ℕ) (es : List EffectOf) → SpellsBatch version vars generation first es (take n bytes.now) → ⊥) }
{
    records.clear();
    let mut effect = Effect::new();
    let (generation, first, rest) = batch_of(bytes, vars, version, &mut effect, records)?;
    Some(Head {
        generation,
        first,
        length: bytes.len() - rest.len(),
    })
}

/// Reads a batch of a version over so many variables from the front of the bytes. `None` where no prefix of them spells
/// one. The only error is want of memory.
pub fn decode_batch(
    alloc: Global,
    bytes: &[u8],
    vars: u16,
    version: Version,
) -> Result<Option<Decoded>, Fault>
    ensures found { IfOk result (λ found. IfSome found (λ d. SpellsBatch version vars d.generation d.first d.effects (take d.length bytes.now))) }
    ensures within { IfOk result (λ found. IfSome found (λ d. d.length ≤ length bytes.now)) }
    ensures none { IfOk result (λ found. IfNone found ((generation first n : ℕ) (es : List EffectOf) → SpellsBatch version vars generation first es (take n bytes.now) → ⊥)) }
    ensures refused { IfErr result (λ fault. fault ≡ Fault.Memory) }
{
    let mut effects = Records::new(alloc)?;
    let Some(head) = read_batch(bytes, vars, version, &mut effects) else {
        return Ok(None);
    };
    Ok(Some(Decoded {
        generation: head.generation,
        first: head.first,
        effects,
        length: head.length,
    }))
}

/// A batch of a version has one spelling, and no spelling is a prefix of that of another batch of this version.
pub fn one_spelling()
    ensures { OneSpelling }
{}
