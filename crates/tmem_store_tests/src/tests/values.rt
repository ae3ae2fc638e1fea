//! What a store has at one moment, and what was done to its log.
use super::moves::Answer::{Committed, Done, Holds, Number, Refused};
use super::moves::Move::{
    Checkpoint, Count, CountValues, Flush, FlushWithRoom, HasInvariant, LogIs, Look, OtherPass,
    TryCommit, ValuesAre,
};
use super::moves::{Refusal, Task};
use super::scenes::Line::{Before, FailWrite, Scene, Slots, Vars};
use super::scenes::{Line, play};
use std::test::Fail;

static SCENES: &[Line<'static>] = &[
    Scene("values are told in their order"),
    Before(Count, Number(0)),
    Before(TryCommit(Task::Write(1, 7)), Committed(0)),
    Before(TryCommit(Task::Write(3, -9)), Committed(1)),
    Before(Count, Number(2)),
    Before(ValuesAre([3, 1, 1], [-9, 7, 7]), Holds(true)),
    Before(ValuesAre([0, 1, 3], [0, 7, -9]), Holds(true)),
    Before(
        ValuesAre([0, 100, 3], [0, 7, -9]),
        Refused(Refusal::BadPlan),
    ),
    // nothing is durable yet
    Before(Look, Number(0)),
    Scene("the values of none, and of each of as many variables as a store may have"),
    Vars(1024),
    Before(CountValues(0), Number(0)),
    Before(CountValues(1024), Number(1024)),
    Scene("an invariant is there once it is registered, and until it is retired"),
    Before(HasInvariant, Holds(false)),
    Before(TryCommit(Task::Register), Committed(0)),
    Before(OtherPass, Done),
    Before(HasInvariant, Holds(true)),
    Before(Count, Number(1)),
    Before(TryCommit(Task::Retire), Committed(1)),
    Before(HasInvariant, Holds(false)),
    Before(Count, Number(2)),
    Before(Flush, Number(2)),
    Before(HasInvariant, Holds(false)),
    Scene("flushes and checkpoints are counted, and slots that are free"),
    Slots(2),
    Before(LogIs([0, 0, 2]), Holds(true)),
    Before(TryCommit(Task::Write(1, 7)), Committed(0)),
    Before(Flush, Number(1)),
    // nothing waits, so nothing is written
    Before(Flush, Number(1)),
    Before(LogIs([1, 0, 1]), Holds(true)),
    Before(TryCommit(Task::Write(1, 8)), Committed(1)),
    Before(Flush, Number(2)),
    Before(TryCommit(Task::Write(1, 9)), Committed(2)),
    Before(Flush, Refused(Refusal::LogFull)),
    Before(LogIs([2, 0, 0]), Holds(true)),
    Before(Checkpoint, Done),
    Before(LogIs([2, 1, 2]), Holds(true)),
    Before(FlushWithRoom, Number(3)),
    Before(LogIs([3, 1, 1]), Holds(true)),
    Scene("a checkpoint that fails is not counted"),
    // a flush makes two writes, so it is the first one of the checkpoint
    FailWrite(2),
    Before(TryCommit(Task::Write(0, 1)), Committed(0)),
    Before(Flush, Number(1)),
    Before(Checkpoint, Refused(Refusal::Device)),
    Before(LogIs([1, 0, 3]), Holds(true)),
];

#[test]
fn what_a_store_has_is_told_at_one_moment(rt: HostRuntime) -> Result<(), Fail> {
    play(&rt, rt.alloc(), SCENES)
}
