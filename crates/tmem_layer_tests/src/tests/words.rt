//! Names, and the lines of refusals.
use super::rows::assert_no_row_differs;
use std::alloc::Global;
use tmem_fault::{Cause, Fault, Name};

/// Texts, and whether they are names.
static TEXTS: &[(&'static str, bool)] = &[
    ("a", true),
    ("nonneg", true),
    ("abcdefghijklmnop", true),
    ("zz", true),
    ("", false),
    ("abcdefghijklmnopq", false),
    ("Abc", false),
    ("a1", false),
    ("a b", false),
    ("a_b", false),
    ("\u{e9}", false),
    ("`", false),
    ("{", false),
];

/// Whether a text makes a name, which is then that text. Else it is refused as no name.
fn makes_name(text: &str) -> Option<bool> {
    match Name::new(text) {
        Ok(name) if name.as_str() == text && name.as_bytes() == text.as_bytes() => Some(true),
        Err(Fault::BadName) => Some(false),
        _ => None,
    }
}

fn differing_text() -> Option<usize> {
    for (row, (text, is_name)) in TEXTS.iter().enumerate() {
        if makes_name(text) != Some(*is_name) {
            return Some(row);
        }
    }
    None
}

/// Whether one name is less than another.
fn is_before(one: &str, other: &str) -> bool {
    match (Name::new(one), Name::new(other)) {
        (Ok(one), Ok(other)) => one < other,
        _ => false,
    }
}

#[test]
fn a_name_is_one_to_sixteen_letters(rt: HostRuntime) {
    assert_no_row_differs(&rt, differing_text());
    assert!(rt; is_before("ab", "b") && is_before("a", "aa"));
}

/// A refusal for each row, with its line.
fn refusal_at(row: usize) -> Option<(Fault, &'static str)> {
    let refusal = match row {
        0 => (Fault::Memory, "fault 1 memory"),
        1 => (Fault::Device, "fault 2 device"),
        2 => (Fault::Closed, "fault 3 closed"),
        3 => (Fault::Unknown, "fault 4 unknown"),
        4 => (Fault::Full, "fault 5 full"),
        5 => (Fault::LogFull, "fault 6 logfull"),
        6 => (Fault::Conflict, "fault 7 conflict"),
        7 => (Fault::NotFormatted, "fault 8 notformatted"),
        8 => (Fault::Damaged, "fault 9 damaged"),
        9 => (Fault::BadPlan(Cause::TooDeep), "fault 12 badplan 1"),
        10 => (Fault::BadPlan(Cause::TooManyWrites), "fault 12 badplan 3"),
        11 => (Fault::BadPlan(Cause::UnknownName), "fault 12 badplan 9"),
        12 => (Fault::BadPlan(Cause::TooManyRetires), "fault 12 badplan 10"),
        13 => (Fault::BadName, "fault 13 badname"),
        14 => (Fault::BadFootprint, "fault 14 badfootprint"),
        15 => (Fault::Spent, "fault 15 spent"),
        16 => (Fault::NoSeat, "fault 16 noseat"),
        17 => (Fault::Geometry, "fault 17 geometry"),
        _ => return None,
    };
    Some(refusal)
}

fn is_printed(alloc: Global, fault: Fault, line: &str) -> bool {
    match format!(in alloc; "{fault}") {
        Ok(printed) => printed.as_str() == line,
        Err(_) => false,
    }
}

/// The first row whose line is another; 18, which is behind the last, where none is.
fn differing_line(alloc: Global) -> Option<usize> {
    for row in 0..19 {
        match refusal_at(row) {
            Some((fault, line)) if is_printed(alloc, fault, line) => {}
            _ => return Some(row),
        }
    }
    None
}

/// Whether a refusal that names an invariant has it in its line.
fn are_named(alloc: Global) -> bool {
    match Name::new("nonneg") {
        Ok(name) => {
            is_printed(alloc, Fault::Missing(name), "fault 10 missing nonneg")
                && is_printed(alloc, Fault::Broken(name), "fault 11 broken nonneg")
        }
        Err(_) => false,
    }
}

#[test]
fn each_fault_has_its_line(rt: HostRuntime) {
    let row = differing_line(rt.alloc());
    assert!(rt; row == Some(18), "row {row:?}");
    assert!(rt; refusal_at(18).is_none() && are_named(rt.alloc()));
}
