//! The fields of each part, and where a part goes wrong.
ghost use Rattle.std.specs.Prelude.{◌<◌, ◌≤◌};

use crate::walk::Walk;
use std::fmt;
use tmem_effect::{MAX_CHECKS, MAX_RETIRES, MAX_WRITES};
use tmem_fault::Name;
use tmem_gate::GATE_OPEN;
use tmem_parts::FormatFlaw;
use tmem_state::{MAX_NAMES, MAX_RECORDS, Version};

/// Where in an image copy the version byte stands: in the last byte of the header.
pub(crate) const VERSION_BYTE_IN_COPY: usize = 2047;

/// Some bytes that belong together, and what they are.
#[derive(Clone, Copy)]
pub(crate) struct Field {
    /// The offset of the first one in the store.
    pub(crate) at: u64,
    pub(crate) length: u64,
    pub(crate) is: Is,
}

/// What the bytes of a field are.
#[derive(Clone, Copy)]
pub(crate) enum Is {
    Open,
    Closed,
    Letters,
    Version(u8),
    Vars(u16),
    Slots(u16),
    Zeros,
    Generation(u64),
    Count(u64),
    Names(u8),
    Name(Name),
    VersionByte(u8),
    Value(u16, i64),
    ZeroValues(u16, u16),
    First(u64),
    Records(u16),
    Writes(u8),
    Write(u16, i64),
    Checks(u8),
    Retires(u8),
    Ignored,
}

impl fmt::Display for Is {
    fn fmt<W: fmt::Write>(&self, f: &mut fmt::Formatter<W>) -> fmt::Result {
        let text = match *self {
            Is::Open => "the gate, open",
            Is::Closed => "the gate, closed",
            Is::Letters => "TMEM",
            Is::Zeros => "zeros",
            Is::Ignored => "not looked at",
            Is::Name(name) => return name.fmt(f),
            Is::Value(var, value) => return put_value(f, var, "is", value),
            Is::Write(var, value) => return put_value(f, var, "becomes", value),
            Is::ZeroValues(first, last) if first == last => return put_value(f, first, "is", 0),
            Is::ZeroValues(first, last) => return put_zeros(f, first, last),
            Is::Version(_)
            | Is::Vars(_)
            | Is::Slots(_)
            | Is::Generation(_)
            | Is::Count(_)
            | Is::Names(_)
            | Is::VersionByte(_)
            | Is::First(_)
            | Is::Records(_)
            | Is::Writes(_)
            | Is::Checks(_)
            | Is::Retires(_) => return put_number(f, self),
        };
        f.write_str(text)
    }
}

// A number, and what stands before or behind it; nothing of a field that is no number.
fn put_number<W: fmt::Write>(f: &mut fmt::Formatter<W>, is: &Is) -> fmt::Result {
    let (before, number, behind) = match *is {
        Is::Version(number) => ("version ", number as u64, ""),
        Is::Vars(number) => ("", number as u64, " variables"),
        Is::Slots(number) => ("", number as u64, " log slots"),
        Is::Generation(number) => ("generation ", number, ""),
        Is::Count(number) => ("count ", number, ""),
        Is::Names(number) => ("", number as u64, " names"),
        Is::VersionByte(number) => ("version byte ", number as u64, ""),
        Is::First(number) => ("first record ", number, ""),
        Is::Records(number) => ("", number as u64, " records"),
        Is::Writes(number) => ("", number as u64, " writes"),
        Is::Checks(number) => ("", number as u64, " names are checked"),
        Is::Retires(number) => ("", number as u64, " names are retired"),
        _ => return Ok(()),
    };
    write!(f, "{before}{number}{behind}")
}

fn put_value<W: fmt::Write>(
    f: &mut fmt::Formatter<W>,
    var: u16,
    verb: &str,
    value: i64,
) -> fmt::Result {
    write!(f, "variable {var} {verb} {value}")
}

fn put_zeros<W: fmt::Write>(f: &mut fmt::Formatter<W>, first: u16, last: u16) -> fmt::Result {
    write!(f, "variables {first} to {last} are 0")
}

// Walks over a gate, and behind a closed one to the end. Answers whether it is open.
fn walk_gate(walk: &mut Walk) -> bool {
    let is_open = walk.byte() == GATE_OPEN;
    if is_open {
        walk.pass(1, Is::Open);
    } else {
        walk.pass(1, Is::Closed);
        walk.pass(usize::MAX, Is::Ignored);
    }
    is_open
}

/// Walks over block 0.
pub(crate) fn walk_block(walk: &mut Walk) {
    if walk_gate(walk) {
        walk.pass(4, Is::Letters);
        let version = walk.byte();
        walk.pass(1, Is::Version(version));
        let vars = walk.short();
        walk.pass(2, Is::Vars(vars));
        let slots = walk.short();
        walk.pass(2, Is::Slots(slots));
        walk.zeros_to(usize::MAX);
    }
}

/// Walks over an image copy of so many variables, which begins at this offset.
pub(crate) fn walk_image(walk: &mut Walk, at: usize, vars: u16) {
    if walk_gate(walk) {
        walk_header(walk, at);
        walk_values(walk, vars);
        walk.zeros_to(usize::MAX);
    }
}

// The rest of the header of an image copy.
fn walk_header(walk: &mut Walk, at: usize) {
    let generation = walk.number();
    walk.check(generation > 0, FormatFlaw::NoGeneration);
    walk.pass(8, Is::Generation(generation));
    let count = walk.number();
    walk.pass(8, Is::Count(count));
    walk_registered(walk);
    walk.zeros_to(at.saturating_add(VERSION_BYTE_IN_COPY));
    let byte = walk.byte();
    walk.check(Version::of_byte(byte).is_some(), FormatFlaw::VersionByte);
    walk.pass(1, Is::VersionByte(byte));
}

// The registered names, behind how many there are.
fn walk_registered(walk: &mut Walk) {
    let count = walk.count(MAX_NAMES, FormatFlaw::TooManyNames);
    walk.pass(1, Is::Names(count));
    let mut last = None;
    for _ in 0..count {
        let name = walk.name();
        walk.check(name > last, FormatFlaw::NotAscending);
        pass_name(walk, name);
        last = name;
    }
}

fn pass_name(walk: &mut Walk, name: Option<Name>) {
    if let Some(name) = name {
        walk.pass(1 + name.as_bytes().len(), Is::Name(name));
    }
}

// The values: those that are not 0 one by one, and those that are 0 together.
fn walk_values(walk: &mut Walk, vars: u16) {
    let mut var = 0;
    while var < vars {
        var = walk_value(walk, var, vars);
    }
}

// The value of a variable, or of that and those behind it where they are 0. Answers the variable behind them.
fn walk_value(walk: &mut Walk, var: u16, vars: u16) -> u16
    requires { var < vars }
    ensures behind { var < result }
    ensures within { result ≤ vars }
{
    let value = walk.value();
    if value != 0 {
        walk.pass(8, Is::Value(var, value));
        return var + 1;
    }
    let zeros = walk.zero_values(vars - var);
    walk.pass(8 * zeros as usize, Is::ZeroValues(var, var + zeros - 1));
    var + zeros
}

/// Walks over a log slot whose batch is in the grammar of a version, for so many variables.
pub(crate) fn walk_slot(walk: &mut Walk, vars: u16, version: Version) {
    if walk_gate(walk) {
        walk_generation(walk);
        let first = walk.number();
        walk.pass(8, Is::First(first));
        walk_records(walk, vars, version);
        walk.pass(usize::MAX, Is::Ignored);
    }
}

fn walk_generation(walk: &mut Walk) {
    let generation = walk.number();
    walk.pass(8, Is::Generation(generation));
}

// The records of a batch, behind how many there are.
fn walk_records(walk: &mut Walk, vars: u16, version: Version) {
    let count = walk.short();
    if count == 0 || count as usize > MAX_RECORDS {
        return walk.wrong(FormatFlaw::Records);
    }
    walk.pass(2, Is::Records(count));
    for _ in 0..count {
        walk_record(walk, vars, version);
    }
}

/// Walks over a log slot of which nothing but its generation counts.
pub(crate) fn walk_stale(walk: &mut Walk) {
    if walk_gate(walk) {
        walk_generation(walk);
        walk.pass(usize::MAX, Is::Ignored);
    }
}

// A record of a batch.
fn walk_record(walk: &mut Walk, vars: u16, version: Version) {
    let mut names = Vec::new(walk.alloc);
    let writes = walk_writes(walk, vars);
    let checks = walk.count(MAX_CHECKS, FormatFlaw::TooManyChecks);
    walk.pass(1, Is::Checks(checks));
    walk_names(walk, checks, &mut names);
    let retires = match version {
        Version::One => 0,
        Version::Two => walk_retired(walk, &mut names),
    };
    let changes = writes > 0 || checks > 0 || retires > 0;
    walk.check(changes, FormatFlaw::Nothing);
}

// The writes of a record. Answers how many there are.
fn walk_writes(walk: &mut Walk, vars: u16) -> u8 {
    let count = walk.count(MAX_WRITES, FormatFlaw::TooManyWrites);
    walk.pass(1, Is::Writes(count));
    let mut written = Vec::new(walk.alloc);
    for _ in 0..count {
        walk_write(walk, vars, &mut written);
    }
    count
}

// A write, to a variable that is none of those that were written. It is put there.
fn walk_write(walk: &mut Walk, vars: u16, written: &mut Vec<u16>) {
    let var = walk.short();
    walk.check(var < vars, FormatFlaw::Variable);
    walk.check(!written.contains(&var), FormatFlaw::Twice);
    walk.need(written.push(var));
    let value = walk.value_behind_short();
    walk.pass(10, Is::Write(var, value));
}

// The retired names of a record, none of which may be among those that it checks. Answers how many there are.
fn walk_retired(walk: &mut Walk, names: &mut Vec<Name>) -> u8 {
    let count = walk.count(MAX_RETIRES, FormatFlaw::TooManyRetires);
    walk.pass(1, Is::Retires(count));
    walk_names(walk, count, names);
    count
}

// So many names, none of which may be among these. They are put there.
fn walk_names(walk: &mut Walk, count: u8, names: &mut Vec<Name>) {
    for _ in 0..count {
        walk_name(walk, names);
    }
}

fn walk_name(walk: &mut Walk, names: &mut Vec<Name>) {
    let name = walk.name();
    if let Some(name) = name {
        walk.check(!names.contains(&name), FormatFlaw::Twice);
        walk.need(names.push(name));
    }
    pass_name(walk, name);
}
