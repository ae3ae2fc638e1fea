//! Scenes that test the words of which scenes are made: each thread plays, and what is counted is told.
use super::moves::Answer::{Committed, Holds, Number, Retried, Value};
use super::moves::Move::{AddWithRoom, AddsAtMost, Fill, NeedsAtMost, Peek, TryCommit};
use super::moves::Task;
use super::scenes::Line::{After, All, Before, FirstThree, FourMore, Scene};
use super::scenes::{Line, play};
use std::test::Fail;

static SCENES: &[Line<'static>] = &[
    Scene("four threads play, three of them again, and four more"),
    All(AddWithRoom(1), Number(1)),
    FirstThree(AddWithRoom(1), Number(1)),
    FourMore(AddWithRoom(1), Number(1)),
    After(Peek(0), Value(11)),
    Scene("a commit that has another number is not the next one"),
    Before(Fill(2), Number(2)),
    // their numbers are 2 and 3
    Before(Fill(2), Number(0)),
    Scene("an addition is counted, and a number that is needed"),
    Before(TryCommit(Task::AddOne), Committed(0)),
    Before(AddsAtMost(0), Holds(false)),
    Before(TryCommit(Task::NeedOne), Retried),
    Before(NeedsAtMost(0), Holds(false)),
];

#[test]
fn each_thread_plays_and_each_count_is_told(rt: HostRuntime) -> Result<(), Fail> {
    play(&rt, rt.alloc(), SCENES)
}
