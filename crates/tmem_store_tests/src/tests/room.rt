//! Callers that wait for room, and those that wait until what they committed is durable.
use super::moves::Answer::{Committed, Done, Holds, Number, Refused, Saw, Value};
use super::moves::Move::{
    AddWithRoom, AddsAtMost, Await, AwaitHeld, AwaitTries, Close, CommitDurable, FaultOf, Fill,
    Flush, HoldSyncs, Look, NewPass, Peek, Release, RunFlusher, Seen, Shut, Sleep, TriesAtMost,
    TryCommit,
};
use super::moves::{Answer, Refusal, Task};
use super::scenes::Line::{After, Before, FailSync, First, FirstThree, Last, Scene, Second, Third};
use super::scenes::{Line, play};
use std::test::Fail;

const CLOSED: Answer = Refused(Refusal::Closed);

const UNKNOWN: Answer = Refused(Refusal::Unknown);

const WRITE: Task = Task::Write(0, 1);

/// The registers of what waited for a 1.
const ONE: [i64; 16] = [1, 1, 1, 0, 0, 0, 0, 0, 0, 0, 0, 0, 0, 0, 0, 0];

static SCENES: &[Line<'static>] = &[
    Scene("a flush wakes each thread that waits for room"),
    Before(Fill(256), Number(256)),
    FirstThree(AddWithRoom(1), Number(1)),
    Last(AwaitTries(3), Done),
    Last(Sleep(100), Done),
    // they have not added yet
    Last(Peek(0), Value(1)),
    Last(TriesAtMost(12), Holds(true)),
    Last(AddsAtMost(12), Holds(true)),
    Last(Flush, Number(64)),
    After(Peek(0), Value(4)),
    Scene("a shut wakes each thread that waits for room"),
    Before(Fill(256), Number(256)),
    FirstThree(AddWithRoom(1), CLOSED),
    Last(Sleep(50), Done),
    Last(Shut, Done),
    After(Peek(0), Value(1)),
    Scene("callers that wait for room are never full"),
    First(AddWithRoom(400), Number(400)),
    Second(AddWithRoom(400), Number(400)),
    Third(RunFlusher(1_000_000), Done),
    Last(AddWithRoom(400), Number(400)),
    Last(Await(1199), Done),
    Last(Shut, Done),
    After(Peek(0), Value(1200)),
    After(Look, Number(1200)),
    Scene("a transaction that is awaited is durable"),
    Before(Fill(256), Number(256)),
    First(CommitDurable(Task::Write(1, 7)), Committed(256)),
    First(Seen, Number(257)),
    // the transaction waits for room, so it is in the fifth batch
    Second(Sleep(50), Done),
    Second(RunFlusher(5), Done),
    After(Peek(1), Value(7)),
    Scene("what an awaited transaction read is durable"),
    Before(TryCommit(Task::Write(2, 1)), Committed(0)),
    First(CommitDurable(Task::NeedOne), Saw(1, ONE)),
    First(Seen, Number(1)),
    Last(Sleep(50), Done),
    Last(Flush, Number(1)),
    Scene("nothing is awaited where nothing was committed"),
    Before(NewPass, Done),
    Before(TryCommit(Task::Write(2, 1)), Committed(0)),
    Before(Flush, Number(1)),
    Before(CommitDurable(Task::NeedOne), Saw(1, ONE)),
    Before(Shut, Done),
    Before(CommitDurable(WRITE), CLOSED),
    Scene("a transaction whose front is shut first is unknown"),
    First(CommitDurable(WRITE), UNKNOWN),
    Last(AwaitTries(1), Done),
    Last(Shut, Done),
    After(Peek(0), Value(1)),
    // the flush of a front that is shut goes on
    After(Flush, Number(1)),
    Scene("what was read is unknown where the front is shut first"),
    Before(TryCommit(Task::Write(2, 1)), Committed(0)),
    First(CommitDurable(Task::NeedOne), UNKNOWN),
    Last(AwaitTries(1), Done),
    Last(Shut, Done),
    Scene("a transaction whose device fails is unknown"),
    FailSync(2),
    First(CommitDurable(WRITE), UNKNOWN),
    Second(RunFlusher(1), UNKNOWN),
    After(FaultOf, UNKNOWN),
    After(CommitDurable(WRITE), CLOSED),
    After(AddWithRoom(1), CLOSED),
    Scene("a close lets a transaction become durable that is awaited"),
    Before(HoldSyncs(1), Done),
    First(CommitDurable(WRITE), Committed(0)),
    First(Seen, Number(1)),
    Second(RunFlusher(1), Done),
    Third(AwaitHeld(1), Done),
    Third(Close, Done),
    Last(AwaitHeld(1), Done),
    Last(Sleep(200), Done),
    Last(Release, Done),
];

#[test]
fn callers_wait_for_room_and_until_what_they_committed_is_durable(
    rt: HostRuntime,
) -> Result<(), Fail> {
    play(&rt, rt.alloc(), SCENES)
}
