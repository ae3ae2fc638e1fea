//! Calls that wait for no longer than a time.
use super::moves::Answer::{Committed, Done, Holds, Late, Number, Refused, Retried, Saw};
use super::moves::Move::{
    Acquire, AcquireWithin, Advance, AwaitHeld, AwaitTries, AwaitWithin, Close, CommitWithin,
    Count, Flush, HoldSteps, HoldSyncs, NeedsAtMost, NewPasses, Release, ReleasePass, Shut, Sleep,
    TriesAtMost, TryCommit,
};
use super::moves::{Answer, Refusal, Task};
use super::scenes::Line::{
    After, Before, ClockReadings, ClockStands, First, Last, Scene, Second, SkipSeconds, Third,
};
use super::scenes::{Line, play};
use std::test::Fail;

const CLOSED: Answer = Refused(Refusal::Closed);

/// More milliseconds than a scene lasts.
const LONG: u64 = 60_000;

/// Ten years of milliseconds.
const YEARS: u64 = 315_360_000_000;

/// A month of seconds.
const MONTH: u64 = 2_592_000;

/// The registers of what waited for a 1.
const ONE: [i64; 16] = [1, 1, 1, 0, 0, 0, 0, 0, 0, 0, 0, 0, 0, 0, 0, 0];

static SCENES: &[Line<'static>] = &[
    Scene("a wait with a limit ends once that is over"),
    First(AwaitWithin(0, 30), Late),
    Second(CommitWithin(Task::NeedOne, 30), Retried),
    Third(AwaitWithin(0, 0), Late),
    // each tried once before it slept, once or twice when the time was over, and once more after the last attempt
    After(TriesAtMost(16), Holds(true)),
    After(NeedsAtMost(2), Holds(true)),
    After(Count, Number(0)),
    Scene("a wait with a limit ends with a flush or a commit"),
    First(AwaitWithin(0, LONG), Done),
    Second(CommitWithin(Task::NeedOne, LONG), Saw(1, ONE)),
    Last(Sleep(50), Done),
    Last(TryCommit(Task::Write(2, 1)), Committed(0)),
    Last(Flush, Number(1)),
    Scene("a wait with a limit ends with a shut"),
    First(AwaitWithin(0, LONG), CLOSED),
    Second(CommitWithin(Task::NeedOne, LONG), CLOSED),
    Last(Sleep(50), Done),
    Last(Shut, Done),
    Scene("what needs no wait is done within no time"),
    First(ReleasePass, Done),
    First(AcquireWithin(0), Done),
    First(CommitWithin(Task::AddOne, 0), Committed(0)),
    First(Flush, Number(1)),
    First(AwaitWithin(0, 0), Done),
    First(Shut, Done),
    First(AwaitWithin(0, 0), Done),
    First(AwaitWithin(1, 0), CLOSED),
    First(CommitWithin(Task::AddOne, 0), CLOSED),
    Scene("a wait with a limit is over though a close is at work"),
    Before(TryCommit(Task::AddOne), Committed(0)),
    Before(HoldSyncs(1), Done),
    First(Close, Done),
    Second(AwaitHeld(1), Done),
    Second(AwaitWithin(0, 50), Late),
    Second(Release, Done),
    Second(AwaitWithin(0, LONG), Done),
    Third(AwaitHeld(1), Done),
    Third(AwaitWithin(0, LONG), Done),
    Last(AwaitHeld(1), Done),
    Scene("the last attempt is made after the time is over"),
    ClockStands,
    Before(HoldSteps(2), Done),
    First(CommitWithin(Task::AddOnceThereIsOne, 50), Committed(1)),
    Last(AwaitHeld(1), Done),
    // the time is over, and this attempt retries
    Last(Advance(200), Done),
    Last(Release, Done),
    Last(AwaitHeld(2), Done),
    Last(TryCommit(Task::Write(2, 1)), Committed(0)),
    Last(Release, Done),
    Scene("a thread that is woken sleeps for what is left"),
    ClockStands,
    First(CommitWithin(Task::NeedOne, 20_000), Retried),
    Last(AwaitTries(1), Done),
    Last(Advance(19_900), Done),
    Last(TryCommit(Task::Write(2, 0)), Committed(0)),
    // it tries again ten times a second
    Last(AwaitTries(12), Done),
    Last(Advance(100), Done),
    Scene("a wait with a limit below a second does not end at once"),
    ClockStands,
    // with the one in hand and those that the threads take first, one is left for the pool
    Before(NewPasses(26), Number(26)),
    First(Acquire, Done),
    First(CommitWithin(Task::NeedOne, 900), Saw(1, ONE)),
    First(ReleasePass, Done),
    Second(AwaitWithin(0, 900), Done),
    Third(AwaitTries(2), Done),
    Third(AcquireWithin(900), Done),
    Last(AwaitTries(3), Done),
    // each of the three has tried, and sleeps
    Last(Sleep(100), Done),
    Last(TriesAtMost(8), Holds(true)),
    Last(TryCommit(Task::Write(2, 1)), Committed(0)),
    Last(Flush, Number(1)),
    Scene("a wait with a limit lasts for more than a half of it"),
    ClockStands,
    Before(NewPasses(26), Number(26)),
    First(Acquire, Done),
    First(CommitWithin(Task::NeedOne, 3000), Saw(1, ONE)),
    First(ReleasePass, Done),
    Second(AwaitWithin(0, 3000), Done),
    Third(AwaitTries(2), Done),
    Third(AcquireWithin(3000), Done),
    Last(AwaitTries(3), Done),
    Last(Advance(2000), Done),
    // each tries again after three seconds
    Last(AwaitTries(6), Done),
    Last(TryCommit(Task::Write(2, 1)), Committed(0)),
    Last(Flush, Number(1)),
    Scene("a wait with the longest limit is not over at once"),
    First(CommitWithin(Task::NeedOne, u64::MAX), Saw(1, ONE)),
    Second(AwaitWithin(0, u64::MAX), Done),
    Last(Sleep(200), Done),
    Last(TriesAtMost(4), Holds(true)),
    Last(TryCommit(Task::Write(2, 1)), Committed(0)),
    Last(Flush, Number(1)),
    Scene("a clock that cannot be read ends a wait"),
    ClockReadings(0),
    First(AwaitWithin(0, LONG), Late),
    Second(CommitWithin(Task::NeedOne, LONG), Retried),
    Last(Sleep(1), Done),
    Scene("a clock that cannot be read any more ends a wait"),
    ClockReadings(1),
    First(AwaitWithin(0, LONG), Late),
    Second(CommitWithin(Task::NeedOne, LONG), Retried),
    Last(Sleep(1), Done),
    Scene("a clock that cannot be read as it begins to sleep ends a wait"),
    ClockReadings(2),
    First(AwaitWithin(0, LONG), Late),
    Last(Sleep(1), Done),
    Scene("a wait with a limit of years is not over after months"),
    SkipSeconds(MONTH),
    Before(NewPasses(26), Number(26)),
    First(Acquire, Done),
    First(CommitWithin(Task::NeedOne, YEARS), Saw(1, ONE)),
    First(ReleasePass, Done),
    Second(AwaitWithin(0, YEARS), Done),
    Third(AwaitTries(2), Done),
    Third(AcquireWithin(YEARS), Done),
    Last(AwaitTries(3), Done),
    Last(TryCommit(Task::Write(2, 1)), Committed(0)),
    Last(Flush, Number(1)),
];

#[test]
fn a_wait_lasts_no_longer_than_its_limit(rt: HostRuntime) -> Result<(), Fail> {
    play(&rt, rt.alloc(), SCENES)
}
