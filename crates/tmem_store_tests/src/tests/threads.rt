//! Threads that add over one front.
use super::moves::Answer::{Done, Holds, Number, Value};
use super::moves::Move::{Acquire, Add, AddWithRoom, AwaitTries, Count, Flush, Peek, ReleasePass};
use super::scenes::Line::{After, All, Before, Crowd, Scene, Vars};
use super::scenes::{Line, play};
use std::test::Fail;

static SCENES: &[Line<'static>] = &[
    Scene("no addition of four threads is lost"),
    Vars(4),
    All(Add(25), Number(25)),
    After(Peek(0), Value(100)),
    After(Flush, Number(64)),
    After(Flush, Number(100)),
    Scene("sixty-four threads share thirty-two passes"),
    // so all 32 are the pool's
    Before(ReleasePass, Done),
    Crowd(Acquire, Done),
    // each keeps its own until another thread waits
    Crowd(AwaitTries(1), Done),
    Crowd(AddWithRoom(2), Number(2)),
    Crowd(ReleasePass, Done),
    Crowd(Acquire, Done),
    Crowd(AddWithRoom(1), Number(1)),
    Crowd(ReleasePass, Done),
    Crowd(Acquire, Done),
    Crowd(Add(1), Number(1)),
    Crowd(ReleasePass, Done),
    After(Acquire, Done),
    After(Peek(0), Value(256)),
    After(Count, Number(256)),
    After(Flush, Number(64)),
    After(Flush, Number(128)),
    After(Flush, Number(192)),
    After(Flush, Number(256)),
];

#[test]
fn no_addition_of_several_threads_is_lost(rt: HostRuntime) -> Result<(), Fail> {
    play(&rt, rt.alloc(), SCENES)
}
