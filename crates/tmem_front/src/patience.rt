// How long a call waits.
ghost use Rattle.std.specs.Prelude.{◌≡◌, true, None, IsTrue};

use std::rt::Clock;
use std::sync::{Condvar, CondvarTimeouts, MutexGuard, Wait};
use std::time::{Duration, Instant};

/// How long a call waits.
pub(crate) trait Patience {
    /// It may come to an end.
    ghost ends: { Self → Type 0 };

    /// Whether it has come to an end.
    fn is_over(&self) -> bool
        ensures { IsTrue result → ends self.now };

    /// Sleeps until it is told of a change, or has come to an end.
    fn sleep<'b, T>(&self, changed: &Condvar, guard: MutexGuard<'b, T>) -> MutexGuard<'b, T>;
}

/// It has no end.
#[derive(Drop)]
pub(crate) struct Endless<'a, R: Wait> {
    rt: &'a R,
}

impl<'a, R: Wait> Endless<'a, R> {
    /// It has no end.
    pub(crate) fn new(rt: &'a R) -> Endless<'a, R> {
        Endless { rt }
    }
}

impl<R: Wait> Patience for Endless<'_, R> {
    ghost ends = { λ it. ⊥ };

    fn is_over(&self) -> bool {
        false
    }

    fn sleep<'b, T>(&self, changed: &Condvar, guard: MutexGuard<'b, T>) -> MutexGuard<'b, T> {
        changed.wait(self.rt, guard)
    }
}

/// It ends after a time, or where the clock cannot be read.
#[derive(Drop)]
pub(crate) struct Limited<'a, R: Wait + Clock> {
    rt: &'a R,
    start: Option<Instant>,
    limit: Duration,
}

impl<'a, R: Wait + Clock> Limited<'a, R> {
    /// From now on for so long.
    pub(crate) fn new(rt: &'a R, limit: Duration) -> Limited<'a, R>
        ensures { result.limit ≡ limit }
    {
        let start = Instant::now(rt).ok();
        Limited { rt, start, limit }
    }

    // What is left of it.
    fn left(&self) -> Option<Duration>
        ensures { self.now.start ≡ None → result ≡ None }
    {
        self.limit.checked_sub(self.start?.elapsed(self.rt).ok()?)
    }
}

impl<R: Wait + Clock> Patience for Limited<'_, R> {
    ghost ends = { λ it. Unit {0} };

    fn is_over(&self) -> bool
        ensures { self.now.start ≡ None → result ≡ true }
    {
        match self.left() {
            Some(left) => left.is_zero(),
            None => true,
        }
    }

    fn sleep<'b, T>(&self, changed: &Condvar, guard: MutexGuard<'b, T>) -> MutexGuard<'b, T> {
        let left = self.left().unwrap_or(Duration::ZERO);
        changed.wait_timeout(self.rt, guard, left).0
    }
}
