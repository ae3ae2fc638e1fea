//! The bytes of records, of both versions of the format.
use super::effects::{are_spelled, effect_of};
use super::rows::assert_no_row_differs;
use std::alloc::{AllocError, Global};
use tmem_record::{Decoded, SLOT_BODY_BYTES, decode_batch, encode_batch};
use tmem_state::Version::{One, Two};
use tmem_state::{Batch, Version};

/// The bytes of a batch of generation 1, with number 0 and so many records, and these bytes behind that.
macro_rules! batch_bytes {
    ($count:expr, [$($byte:expr),* $(,)?]) => {
        &[1, 0, 0, 0, 0, 0, 0, 0, 0, 0, 0, 0, 0, 0, 0, 0, $count, 0, $($byte),*]
    };
}

/// The bytes of a batch of one record, and behind them nine that are none of its.
macro_rules! in_front {
    ([$($byte:expr),* $(,)?]) => {
        batch_bytes!(1, [$($byte,)* 0xee, 0xee, 0xee, 0xee, 0xee, 0xee, 0xee, 0xee, 0xee])
    };
}

/// What is written, checked and retired for a record.
type Asked<'a> = (&'a [(u16, i64)], &'a [&'a str], &'a [&'a str]);

/// What is read of a batch.
#[derive(Clone, Copy)]
struct Found<'a> {
    /// How many bytes spell it, and how many records it has.
    length: usize,
    count: usize,
    /// What the last of them writes, checks and retires.
    last: Asked<'a>,
}

/// A record: what is asked for it, the bytes of its batch in front of others, and its writes as they are read again.
struct Record<'a> {
    asked: Asked<'a>,
    in_front: &'a [u8],
    writes: &'a [(u16, i64)],
}

/// A number, a negative one, a name, two writes of one variable, which are one in the record, a name that is retired, and what has
/// several of these.
static RECORDS: &[Record<'static>] = &[
    Record {
        asked: (&[(0, 5)], &[], &[]),
        in_front: in_front!([1, 0, 0, 5, 0, 0, 0, 0, 0, 0, 0, 0, 0]),
        writes: &[(0, 5)],
    },
    Record {
        asked: (&[(3, -1)], &[], &[]),
        in_front: in_front!([
            1, 3, 0, 0xff, 0xff, 0xff, 0xff, 0xff, 0xff, 0xff, 0xff, 0, 0,
        ]),
        writes: &[(3, -1)],
    },
    Record {
        asked: (&[], &["nonneg"], &[]),
        in_front: in_front!([0, 1, 6, b'n', b'o', b'n', b'n', b'e', b'g', 0]),
        writes: &[],
    },
    Record {
        asked: (&[(0, -1), (0, 3)], &[], &[]),
        in_front: in_front!([1, 0, 0, 3, 0, 0, 0, 0, 0, 0, 0, 0, 0]),
        writes: &[(0, 3)],
    },
    Record {
        asked: (&[], &[], &["nonneg"]),
        in_front: in_front!([0, 0, 1, 6, b'n', b'o', b'n', b'n', b'e', b'g']),
        writes: &[],
    },
    Record {
        asked: (&[(0, -1)], &[], &["nonneg"]),
        in_front: in_front!([
            1, 0, 0, 0xff, 0xff, 0xff, 0xff, 0xff, 0xff, 0xff, 0xff, 0, 1, 6, b'n', b'o', b'n',
            b'n', b'e', b'g',
        ]),
        writes: &[(0, -1)],
    },
    Record {
        asked: (&[(0, 5)], &["sum"], &["nonneg"]),
        in_front: in_front!([
            1, 0, 0, 5, 0, 0, 0, 0, 0, 0, 0, 1, 3, b's', b'u', b'm', 1, 6, b'n', b'o', b'n', b'n',
            b'e', b'g',
        ]),
        writes: &[(0, 5)],
    },
    // in the order in which they came, and not in that of their letters
    Record {
        asked: (&[], &["sum", "b"], &["nonneg", "a"]),
        in_front: in_front!([
            0, 2, 3, b's', b'u', b'm', 1, b'b', 2, 6, b'n', b'o', b'n', b'n', b'e', b'g', 1, b'a',
        ]),
        writes: &[],
    },
];

/// Puts a record last in a batch, if it is one and fits.
fn is_pushed(batch: &mut Batch, (writes, checks, retires): Asked) -> bool {
    match effect_of(writes, checks, retires) {
        Some(made) => !made.effect.is_empty() && batch.push(&made.effect),
        None => false,
    }
}

/// Whether the batch of this record has these bytes.
fn is_spelled(alloc: Global, asked: Asked, bytes: &[u8]) -> bool {
    match Batch::new(alloc) {
        Ok(mut batch) => {
            is_pushed(&mut batch, asked) && batch.len() == 1 && is_encoded(&batch, bytes)
        }
        Err(_) => false,
    }
}

/// Whether a batch, of generation 1 and with number 0, has these bytes.
fn is_encoded(batch: &Batch, bytes: &[u8]) -> bool {
    if batch.effects().is_empty() {
        return false;
    }
    let mut buffer = [0xee; SLOT_BODY_BYTES];
    let length = encode_batch(batch, 1, 0, &mut buffer);
    &buffer[..length] == bytes
}

/// Whether that is read at the front of these bytes over so many variables.
fn is_read(alloc: Global, bytes: &[u8], vars: u16, version: Version, found: &Found) -> bool {
    match decode_batch(alloc, bytes, vars, version) {
        Ok(Some(decoded)) => is_decoded(&decoded, found),
        _ => false,
    }
}

fn is_decoded(decoded: &Decoded, found: &Found) -> bool {
    let Some(record) = decoded.effects.effects().last() else {
        return false;
    };
    decoded.generation == 1
        && decoded.first == 0
        && decoded.length == found.length
        && decoded.effects.len() == found.count
        && record.writes.as_slice() == found.last.0
        && are_spelled(record.names.as_slice(), found.last.1)
        && are_spelled(record.retired.as_slice(), found.last.2)
}

/// Whether a record is spelled by its bytes, and read from them, alone and in front of others.
fn is_record_of_its(alloc: Global, record: &Record) -> bool {
    let Some(length) = record.in_front.len().checked_sub(9) else {
        return false;
    };
    let bytes = &record.in_front[..length];
    let (_, checks, retires) = record.asked;
    let found = Found {
        length,
        count: 1,
        last: (record.writes, checks, retires),
    };
    is_spelled(alloc, record.asked, bytes)
        && is_read(alloc, bytes, 4, Two, &found)
        && is_read(alloc, record.in_front, 4, Two, &found)
}

fn differing_record(alloc: Global) -> Option<usize> {
    for (row, record) in RECORDS.iter().enumerate() {
        if !is_record_of_its(alloc, record) {
            return Some(row);
        }
    }
    None
}

#[test]
fn a_record_has_these_bytes(rt: HostRuntime) {
    assert_no_row_differs(&rt, differing_record(rt.alloc()));
}

/// The bytes of as many records, each of which writes -1 to one of these variables.
macro_rules! writes_to_each {
    ($count:expr, [$($var:expr),* $(,)?]) => {
        batch_bytes!($count, [$(1, $var, 0, 0xff, 0xff, 0xff, 0xff, 0xff, 0xff, 0xff, 0xff, 0, 0),*])
    };
}

/// The batch of 64 records, each of which writes -1 to the variable of its number.
static BYTES_OF_64: &[u8] = writes_to_each!(
    64,
    [
        0, 1, 2, 3, 4, 5, 6, 7, 8, 9, 10, 11, 12, 13, 14, 15, 16, 17, 18, 19, 20, 21, 22, 23, 24,
        25, 26, 27, 28, 29, 30, 31, 32, 33, 34, 35, 36, 37, 38, 39, 40, 41, 42, 43, 44, 45, 46, 47,
        48, 49, 50, 51, 52, 53, 54, 55, 56, 57, 58, 59, 60, 61, 62, 63,
    ]
);

/// What is read of it.
static FOUND_OF_64: Found<'static> = Found {
    length: 850,
    count: 64,
    last: (&[(63, -1)], &[], &[]),
};

/// The batch of those records, up to the first one that does not fit.
fn batch_of_64(alloc: Global) -> Result<Batch, AllocError> {
    let mut batch = Batch::new(alloc)?;
    let mut fits = true;
    for var in 0..64 {
        fits = fits && is_pushed(&mut batch, (&[(var, -1)], &[], &[]));
    }
    Ok(batch)
}

/// Whether these bytes are spelled by the 64 records, and read as them.
fn are_64_records(alloc: Global, bytes: &[u8]) -> bool {
    match batch_of_64(alloc) {
        Ok(batch) => {
            batch.len() == 64
                && is_encoded(&batch, bytes)
                && is_read(alloc, bytes, 64, Two, &FOUND_OF_64)
        }
        Err(_) => false,
    }
}

#[test]
fn a_batch_of_64_records_is_encoded_and_decoded(rt: HostRuntime) {
    assert!(rt; BYTES_OF_64.len() == 850);
    assert!(rt; are_64_records(rt.alloc(), BYTES_OF_64));
}

/// How many records batches say that they have and the bytes of these, and whether that is read over four variables as a batch of the
/// first version and of the second. What is not read differs from what is in what is wrong with it.
static CONTENTS: &[(&'static [u8], bool, bool)] = &[
    (
        batch_bytes!(1, [1, 0, 0, 5, 0, 0, 0, 0, 0, 0, 0, 0, 0]),
        true,
        true,
    ),
    // without its last byte, and without another one
    (
        batch_bytes!(1, [1, 0, 0, 5, 0, 0, 0, 0, 0, 0, 0, 0]),
        true,
        false,
    ),
    (
        batch_bytes!(1, [1, 0, 0, 5, 0, 0, 0, 0, 0, 0, 0]),
        false,
        false,
    ),
    // of no record
    (
        batch_bytes!(0, [1, 0, 0, 5, 0, 0, 0, 0, 0, 0, 0, 0, 0]),
        false,
        false,
    ),
    // the record is empty
    (batch_bytes!(1, [0, 1, 1, b'a', 0]), true, true),
    (batch_bytes!(1, [0, 0]), false, false),
    (batch_bytes!(1, [0, 0, 0]), false, false),
    // it has variable 0 twice
    (
        batch_bytes!(
            1,
            [
                2, 1, 0, 5, 0, 0, 0, 0, 0, 0, 0, 0, 0, 6, 0, 0, 0, 0, 0, 0, 0, 0, 0,
            ]
        ),
        true,
        true,
    ),
    (
        batch_bytes!(
            1,
            [
                2, 0, 0, 5, 0, 0, 0, 0, 0, 0, 0, 0, 0, 6, 0, 0, 0, 0, 0, 0, 0, 0, 0,
            ]
        ),
        false,
        false,
    ),
    // it has a variable that is not there
    (
        batch_bytes!(1, [1, 3, 0, 5, 0, 0, 0, 0, 0, 0, 0, 0, 0]),
        true,
        true,
    ),
    (
        batch_bytes!(1, [1, 4, 0, 5, 0, 0, 0, 0, 0, 0, 0, 0, 0]),
        false,
        false,
    ),
    // it has a name of no letter
    (batch_bytes!(1, [0, 1, 0, 0]), false, false),
    // it has a name with a capital letter
    (
        batch_bytes!(1, [0, 1, 6, b'n', b'o', b'n', b'n', b'e', b'g', 0]),
        true,
        true,
    ),
    (
        batch_bytes!(1, [0, 1, 6, b'N', b'o', b'n', b'n', b'e', b'g', 0]),
        false,
        false,
    ),
    // it retires a name: one of no letter, one with a capital letter, and without its last letter
    (
        batch_bytes!(1, [0, 0, 1, 6, b'n', b'o', b'n', b'n', b'e', b'g']),
        false,
        true,
    ),
    (batch_bytes!(1, [0, 0, 1, 0]), false, false),
    (
        batch_bytes!(1, [0, 0, 1, 6, b'n', b'o', b'n', b'n', b'e', b'G']),
        false,
        false,
    ),
    (
        batch_bytes!(1, [0, 0, 1, 6, b'n', b'o', b'n', b'n', b'e']),
        false,
        false,
    ),
    // it retires the name that it checks, or one twice
    (batch_bytes!(1, [0, 1, 1, b'a', 1, 1, b'b']), true, true),
    (batch_bytes!(1, [0, 1, 1, b'a', 1, 1, b'a']), true, false),
    (batch_bytes!(1, [0, 0, 2, 1, b'a', 1, b'b']), false, true),
    (batch_bytes!(1, [0, 0, 2, 1, b'a', 1, b'a']), false, false),
    // it retires eight names, or nine
    (
        batch_bytes!(
            1,
            [
                0, 0, 8, 1, b'a', 1, b'b', 1, b'c', 1, b'd', 1, b'e', 1, b'f', 1, b'g', 1, b'h',
            ]
        ),
        false,
        true,
    ),
    (
        batch_bytes!(
            1,
            [
                0, 0, 9, 1, b'a', 1, b'b', 1, b'c', 1, b'd', 1, b'e', 1, b'f', 1, b'g', 1, b'h', 1,
                b'i',
            ]
        ),
        false,
        false,
    ),
    // two records, of which the second one retires what the first one checks
    (
        batch_bytes!(
            2,
            [
                0, 1, 6, b'n', b'o', b'n', b'n', b'e', b'g', 0, 0, 0, 1, 6, b'n', b'o', b'n', b'n',
                b'e', b'g',
            ]
        ),
        false,
        true,
    ),
    // two writes, of the second version and of the first
    (
        batch_bytes!(
            2,
            [
                1, 0, 0, 5, 0, 0, 0, 0, 0, 0, 0, 0, 0, 1, 1, 0, 6, 0, 0, 0, 0, 0, 0, 0, 0, 0,
            ]
        ),
        false,
        true,
    ),
    (
        batch_bytes!(
            2,
            [
                1, 0, 0, 5, 0, 0, 0, 0, 0, 0, 0, 0, 1, 1, 0, 6, 0, 0, 0, 0, 0, 0, 0, 0,
            ]
        ),
        true,
        false,
    ),
];

/// Whether a batch is read from these bytes over four variables, if there is memory.
fn is_batch(alloc: Global, bytes: &[u8], version: Version) -> Option<bool> {
    match decode_batch(alloc, bytes, 4, version) {
        Ok(decoded) => Some(decoded.is_some()),
        Err(_) => None,
    }
}

fn differing_content(alloc: Global) -> Option<usize> {
    for (row, (bytes, first, second)) in CONTENTS.iter().enumerate() {
        let in_first = is_batch(alloc, bytes, One);
        let in_second = is_batch(alloc, bytes, Two);
        if in_first != Some(*first) || in_second != Some(*second) {
            return Some(row);
        }
    }
    None
}

#[test]
fn a_batch_with_a_fault_is_not_read(rt: HostRuntime) {
    assert_no_row_differs(&rt, differing_content(rt.alloc()));
}

/// A record that checks a name, and behind it what an older and longer batch left in its slot.
const OVER_OLDER: &[u8] = batch_bytes!(
    1,
    [
        0, 1, 7, b'o', b'r', b'd', b'e', b'r', b'e', b'd', 1, 6, b'n', b'o', b'n', b'n', b'e', b'g',
    ]
);

/// How that is read in each version.
static IN_FIRST: Found<'static> = Found {
    length: 28,
    count: 1,
    last: (&[], &["ordered"], &[]),
};

static IN_SECOND: Found<'static> = Found {
    length: 36,
    count: 1,
    last: (&[], &["ordered"], &["nonneg"]),
};

// The same bytes are a record of each version, and the version alone says what they retire.
#[test]
fn a_record_is_read_in_its_version(rt: HostRuntime) {
    assert!(rt; is_read(rt.alloc(), OVER_OLDER, 4, One, &IN_FIRST));
    assert!(rt; is_read(rt.alloc(), OVER_OLDER, 4, Two, &IN_SECOND));
}

/// That in the second version, each time with another length, number of records or last record.
static NOT_IN_SECOND: &[Found<'static>] = &[
    Found {
        length: 35,
        count: 1,
        last: (&[], &["ordered"], &["nonneg"]),
    },
    Found {
        length: 36,
        count: 2,
        last: (&[], &["ordered"], &["nonneg"]),
    },
    Found {
        length: 36,
        count: 1,
        last: (&[(0, 0)], &["ordered"], &["nonneg"]),
    },
    Found {
        length: 36,
        count: 1,
        last: (&[], &["order"], &["nonneg"]),
    },
    Found {
        length: 36,
        count: 1,
        last: (&[], &["ordered"], &[]),
    },
];

/// The first of them that is taken for what is read.
fn mistaken(alloc: Global) -> Option<usize> {
    for (row, found) in NOT_IN_SECOND.iter().enumerate() {
        if is_read(alloc, OVER_OLDER, 4, Two, found) {
            return Some(row);
        }
    }
    None
}

#[test]
fn a_record_is_read_as_no_other(rt: HostRuntime) {
    assert_no_row_differs(&rt, mistaken(rt.alloc()));
}

/// 64 writes of 0, and 8 names that are checked and as many that are retired, of 16 letters each.
static ZEROS: &[(u16, i64)] = &[
    (0, 0),
    (1, 0),
    (2, 0),
    (3, 0),
    (4, 0),
    (5, 0),
    (6, 0),
    (7, 0),
    (8, 0),
    (9, 0),
    (10, 0),
    (11, 0),
    (12, 0),
    (13, 0),
    (14, 0),
    (15, 0),
    (16, 0),
    (17, 0),
    (18, 0),
    (19, 0),
    (20, 0),
    (21, 0),
    (22, 0),
    (23, 0),
    (24, 0),
    (25, 0),
    (26, 0),
    (27, 0),
    (28, 0),
    (29, 0),
    (30, 0),
    (31, 0),
    (32, 0),
    (33, 0),
    (34, 0),
    (35, 0),
    (36, 0),
    (37, 0),
    (38, 0),
    (39, 0),
    (40, 0),
    (41, 0),
    (42, 0),
    (43, 0),
    (44, 0),
    (45, 0),
    (46, 0),
    (47, 0),
    (48, 0),
    (49, 0),
    (50, 0),
    (51, 0),
    (52, 0),
    (53, 0),
    (54, 0),
    (55, 0),
    (56, 0),
    (57, 0),
    (58, 0),
    (59, 0),
    (60, 0),
    (61, 0),
    (62, 0),
    (63, 0),
];

static CHECKED: &[&'static str] = &[
    "aaaaaaaaaaaaaaaa",
    "aaaaaaaaaaaaaaab",
    "aaaaaaaaaaaaaaac",
    "aaaaaaaaaaaaaaad",
    "aaaaaaaaaaaaaaae",
    "aaaaaaaaaaaaaaaf",
    "aaaaaaaaaaaaaaag",
    "aaaaaaaaaaaaaaah",
];

static RETIRED: &[&'static str] = &[
    "bbbbbbbbbbbbbbba",
    "bbbbbbbbbbbbbbbb",
    "bbbbbbbbbbbbbbbc",
    "bbbbbbbbbbbbbbbd",
    "bbbbbbbbbbbbbbbe",
    "bbbbbbbbbbbbbbbf",
    "bbbbbbbbbbbbbbbg",
    "bbbbbbbbbbbbbbbh",
];

/// Puts a record last in a batch, if it fits: so many writes of 0, and as many names that are checked and retired.
fn is_large_pushed(batch: &mut Batch, writes: u16, names: u8) -> bool {
    let writes = ZEROS.get(..usize::from(writes));
    let checks = CHECKED.get(..usize::from(names));
    let retires = RETIRED.get(..usize::from(names));
    match (writes, checks, retires) {
        (Some(writes), Some(checks), Some(retires)) => {
            is_pushed(batch, (writes, checks, retires))
        }
        _ => false,
    }
}

/// How many such records a batch takes, of as many as there may be, and how many bytes it has then.
fn taken(alloc: Global, records: &[(u16, u8)]) -> Result<(usize, usize), AllocError> {
    let mut batch = Batch::new(alloc)?;
    let mut fits = true;
    for (writes, names) in records {
        fits = fits && is_large_pushed(&mut batch, *writes, *names);
    }
    Ok((batch.len(), batch.used()))
}

/// Records by their writes and names, how many of them a batch takes, and how many bytes these have.
static LARGE: &[(&'static [(u16, u8)], usize, usize)] = &[
    // the longest one
    (&[(64, 8), (64, 8), (64, 8), (64, 8), (64, 8)], 4, 3660),
    (
        &[
            (64, 0),
            (64, 0),
            (64, 0),
            (64, 0),
            (64, 0),
            (64, 0),
            (64, 0),
        ],
        6,
        3858,
    ),
    // one that fits to the last byte but six, and one that is too long by four
    (
        &[
            (64, 0),
            (64, 0),
            (64, 0),
            (64, 0),
            (64, 0),
            (64, 0),
            (21, 0),
        ],
        7,
        4071,
    ),
    (
        &[
            (64, 0),
            (64, 0),
            (64, 0),
            (64, 0),
            (64, 0),
            (64, 0),
            (22, 0),
        ],
        6,
        3858,
    ),
];

fn differing_large(alloc: Global) -> Option<usize> {
    for (row, (records, count, bytes)) in LARGE.iter().enumerate() {
        match taken(alloc, records) {
            Ok((had_count, had_bytes)) if had_count == *count && had_bytes == *bytes => {}
            _ => return Some(row),
        }
    }
    None
}

#[test]
fn a_batch_takes_what_fits(rt: HostRuntime) {
    assert_no_row_differs(&rt, differing_large(rt.alloc()));
}

/// The batch of seven records of the first version, six with 64 writes of 0 and one with so many.
fn full_batch(alloc: Global, writes: u8) -> Result<Vec<u8>, AllocError> {
    let mut bytes = Vec::from_slice(alloc, batch_bytes!(7, []))?;
    for _ in 0..6 {
        push_writes(&mut bytes, 64)?;
    }
    push_writes(&mut bytes, writes)?;
    Ok(bytes)
}

fn push_writes(bytes: &mut Vec<u8>, writes: u8) -> Result<(), AllocError> {
    bytes.push(writes)?;
    for var in 0..writes {
        bytes.extend_from_slice(&[var, 0, 0, 0, 0, 0, 0, 0, 0, 0])?;
    }
    bytes.push(0)?;
    Ok(())
}

/// Whether that has so many bytes, and all of them are read as seven records, or as no batch.
fn is_full_read(alloc: Global, writes: u8, length: usize, is_batch: bool) -> bool {
    let Ok(bytes) = full_batch(alloc, writes) else {
        return false;
    };
    let is_so = match decode_batch(alloc, &bytes, 64, One) {
        Ok(Some(decoded)) => is_batch && decoded.effects.len() == 7 && decoded.length == length,
        Ok(None) => !is_batch,
        Err(_) => false,
    };
    is_so && bytes.len() == length
}

// In the second version these records have seven bytes more, and would not fit a slot. With one write more they do not fit it in the first
// either.
#[test]
fn a_full_batch_of_the_first_version_is_read(rt: HostRuntime) {
    assert!(rt; is_full_read(rt.alloc(), 22, 4092, true));
    assert!(rt; is_full_read(rt.alloc(), 23, 4102, false));
}
