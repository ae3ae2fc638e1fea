//! One caller of a front whose device fails, or that is shut.
use super::moves::Answer::{Committed, Done, Number, Refused};
use super::moves::Move::{
    Attempt, Await, Checkpoint, Close, Commit, FaultOf, Flush, Look, RunFlusher, Settle, Shut,
    Sleep, TryCommit,
};
use super::moves::{Answer, Refusal, Task};
use super::scenes::Line::{Before, FailSync, FailWrite, First, Last, LastImage, Scene, Slots};
use super::scenes::{Line, play};
use std::test::Fail;

const CLOSED: Answer = Refused(Refusal::Closed);

const WRITE: Task = Task::Write(0, 1);

static SCENES: &[Line<'static>] = &[
    Scene("a failed sync shuts the front"),
    FailSync(2),
    First(TryCommit(WRITE), Committed(0)),
    First(Flush, Refused(Refusal::Unknown)),
    First(TryCommit(WRITE), CLOSED),
    First(Flush, CLOSED),
    First(Checkpoint, CLOSED),
    First(Await(0), CLOSED),
    First(RunFlusher(1), CLOSED),
    First(Commit(Task::NeedOne), CLOSED),
    Scene("what is durable is awaited and no more once the front is shut"),
    First(TryCommit(WRITE), Committed(0)),
    First(RunFlusher(1), Done),
    First(TryCommit(WRITE), Committed(1)),
    First(Await(0), Done),
    First(Shut, Done),
    First(Await(1), CLOSED),
    Scene("what is attempted once a front is shut is closed as it is settled"),
    Before(TryCommit(WRITE), Committed(0)),
    Before(Shut, Done),
    Before(Attempt(Task::AddOne), Done),
    Before(Settle, CLOSED),
    Before(Attempt(Task::Copy), Done),
    Before(Settle, CLOSED),
    Scene("a flush with nothing waiting writes nothing"),
    // a flush makes two writes, so it is the first one of the second batch
    FailWrite(2),
    Before(TryCommit(WRITE), Committed(0)),
    Before(Flush, Number(1)),
    Before(Flush, Number(1)),
    Before(TryCommit(WRITE), Committed(1)),
    Before(Flush, Refused(Refusal::Device)),
    Scene("a failed checkpoint shuts the front"),
    // it is the first one of the checkpoint
    FailWrite(2),
    First(TryCommit(WRITE), Committed(0)),
    First(Flush, Number(1)),
    First(TryCommit(WRITE), Committed(1)),
    First(Attempt(WRITE), Done),
    First(Checkpoint, Refused(Refusal::Device)),
    First(Settle, CLOSED),
    First(TryCommit(WRITE), CLOSED),
    First(Await(0), Done),
    First(Await(1), CLOSED),
    First(Flush, CLOSED),
    First(RunFlusher(1), CLOSED),
    First(Commit(Task::NeedOne), CLOSED),
    Scene("a checkpoint whose sync fails is unknown"),
    FailSync(1),
    Before(Checkpoint, Refused(Refusal::Unknown)),
    Before(FaultOf, Refused(Refusal::Unknown)),
    Before(TryCommit(WRITE), CLOSED),
    Before(Close, Refused(Refusal::Unknown)),
    Scene("nothing is awaited after a close that is refused"),
    FailSync(1),
    Before(TryCommit(Task::Write(0, 1)), Committed(0)),
    Before(Flush, Refused(Refusal::Unknown)),
    Before(Close, Refused(Refusal::Unknown)),
    First(Await(0), CLOSED),
    Last(Sleep(1), Done),
    Scene("the fault of a store that was shut is kept"),
    FailSync(1),
    Before(TryCommit(Task::Write(0, 1)), Committed(0)),
    Before(Shut, Done),
    Before(Flush, Refused(Refusal::Unknown)),
    Before(FaultOf, Refused(Refusal::Unknown)),
    Before(Close, Refused(Refusal::Unknown)),
    Scene("the fault of a close is kept"),
    FailSync(1),
    Before(TryCommit(Task::Write(0, 1)), Committed(0)),
    Before(Close, Refused(Refusal::Unknown)),
    Before(FaultOf, Refused(Refusal::Unknown)),
    Scene("the fault of a checkpoint is kept"),
    FailWrite(2),
    Before(TryCommit(Task::Write(0, 1)), Committed(0)),
    Before(Flush, Number(1)),
    Before(Checkpoint, Refused(Refusal::Device)),
    Before(FaultOf, Refused(Refusal::Device)),
    Before(Close, Refused(Refusal::Device)),
    Scene("a close that cannot flush all is refused"),
    Slots(2),
    LastImage,
    Before(TryCommit(WRITE), Committed(0)),
    Before(Flush, Number(1)),
    Before(TryCommit(WRITE), Committed(1)),
    Before(Flush, Number(2)),
    Before(TryCommit(WRITE), Committed(2)),
    Before(Close, Refused(Refusal::Spent)),
    Before(Look, Number(2)),
    Before(Await(2), CLOSED),
];

#[test]
fn a_front_whose_device_fails_or_that_is_shut_refuses(rt: HostRuntime) -> Result<(), Fail> {
    play(&rt, rt.alloc(), SCENES)
}
