// How a flusher goes on.
ghost use Rattle.std.specs.Prelude.{◌≡◌, true};

use std::rt::Clock;
use std::thread::yield_now;
use std::time::{Duration, Instant};

// How long other threads are let in: much less than a sync takes, and enough for a caller that was just woken to commit again.
const GATHERING_MICROS: u64 = 10;

// A clock that stands still must not keep a flusher from its flush.
const MOST_YIELDS: u32 = 1000;

/// How a flusher goes on.
pub trait Pace {
    /// Whether there is to be another turn. It is asked at the start of each, and may take its time, so that callers gather.
    fn next(&mut self) -> bool;

    /// The same where a whole batch waits already, so that nobody has to gather. It is asked in place of `next` then.
    fn next_when_full(&mut self) -> bool {
        self.next()
    }
}

/// A pace with no end: the flusher goes on until the store is shut. Where a store has several callers, it lets them in for
/// some ten microseconds at the start of each turn, so that one flush makes the transactions of several durable, unless a whole batch
/// waits already.
#[derive(Drop)]
pub struct Gathering<'a, R: Clock> {
    clock: &'a R,
    has_several: bool,
}

impl<'a, R: Clock> Gathering<'a, R> {
    /// The pace of a store with one caller or with several.
    pub fn new(clock: &'a R, has_several: bool) -> Gathering<'a, R>
        ensures { result.has_several ≡ has_several }
    {
        Gathering { clock, has_several }
    }
}

impl<R: Clock> Pace for Gathering<'_, R> {
    fn next(&mut self) -> bool
        ensures { result ≡ true }
    {
        if self.has_several {
            let_others_in(self.clock);
        }
        self.next_when_full()
    }

    fn next_when_full(&mut self) -> bool
        ensures { result ≡ true }
    {
        true
    }
}

// Lets other threads in for a while.
fn let_others_in<R: Clock>(clock: &R) {
    let Ok(start) = Instant::now(clock) else {
        return;
    };
    let gathering = Duration::from_micros(GATHERING_MICROS);
    for _ in 0..MOST_YIELDS {
        yield_now();
        match start.elapsed(clock) {
            Ok(passed) if passed < gathering => {}
            _ => return,
        }
    }
}
