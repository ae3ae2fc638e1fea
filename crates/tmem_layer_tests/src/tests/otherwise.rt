//! An act that is answered otherwise is seen.
use super::acts::Act::{
    Case, FlushesName, FlushesRun, Formats, HoldsNames, HoldsRun, Made, MadeBytes, Makes, Opens,
    Otherwise, Row, Writes, Wrote,
};
use super::acts::{Act, play};
use super::refusals::Refusal::Damaged;

static OTHERWISE: &[Act<'static>] = &[
    Case("what is opened"),
    Row,
    Makes(20000),
    Otherwise,
    Opens(4, 2, Err(Damaged)),
    Opens(4, 2, Ok(0)),
    Case("the calls of a device"),
    Row,
    Makes(512),
    Writes(0, b"a"),
    Writes(2, b"bc"),
    Otherwise,
    Made(Some(1), 2, 0),
    Made(None, 1, 0),
    Made(None, 2, 1),
    MadeBytes(2),
    Wrote(&[(0, 1)]),
    Wrote(&[(0, 1), (2, 1)]),
    Wrote(&[(0, 1), (2, 2), (0, 0)]),
    Case("the names of a journal"),
    Row,
    Makes(16896),
    Formats(200, 2, Ok(())),
    Opens(200, 2, Ok(0)),
    FlushesName("ab", Ok(1)),
    Otherwise,
    HoldsNames(&[]),
    HoldsNames(&["a"]),
    HoldsNames(&["ab", "b"]),
    // variable 148 has 5, and variable 185 has 0
    Case("a run of batches"),
    Row,
    Makes(16896),
    Formats(200, 2, Ok(())),
    Opens(200, 2, Ok(0)),
    FlushesRun(5),
    HoldsRun(5),
    Otherwise,
    HoldsRun(4),
    HoldsRun(6),
];

#[test]
fn an_act_that_is_answered_otherwise_is_seen(rt: HostRuntime) {
    play(&rt, OTHERWISE);
}
