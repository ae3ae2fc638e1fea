//! What the threads of a scene, its device and its steps tell one another.
ghost use Rattle.std.specs.Prelude.{◌≡◌};

use std::rt::Clock;
use std::sync::atomic::{AtomicBool, AtomicU64, Ordering};
use std::thread::{self, yield_now};
use std::time::Duration;

/// How many milliseconds a sync is held, or a thread is waited for, at the most.
pub(super) const MOST_TURNS: u64 = 10_000;

/// How often a step that is held lets others run, at the most.
const MOST_YIELDS: u64 = 20_000_000;

/// Counters. Nothing is held at first.
#[derive(Drop)]
pub(super) struct Signals {
    // how many of the next ones are still to be held
    syncs: AtomicU64,
    steps: AtomicU64,
    turns: AtomicU64,
    // how many were held, and how many of these may go on
    held: AtomicU64,
    released: AtomicU64,
    gave_up: AtomicBool,
    adds: AtomicU64,
    needs: AtomicU64,
    full_turns: AtomicU64,
    begun: AtomicU64,
    ended: AtomicU64,
    calls: AtomicU64,
    millis: AtomicU64,
}

impl Signals {
    pub(super) fn new() -> Signals {
        Signals {
            syncs: AtomicU64::new(0),
            steps: AtomicU64::new(0),
            turns: AtomicU64::new(0),
            held: AtomicU64::new(0),
            released: AtomicU64::new(0),
            gave_up: AtomicBool::new(false),
            adds: AtomicU64::new(0),
            needs: AtomicU64::new(0),
            full_turns: AtomicU64::new(0),
            begun: AtomicU64::new(0),
            ended: AtomicU64::new(0),
            calls: AtomicU64::new(0),
            millis: AtomicU64::new(0),
        }
    }

    /// So many of the next syncs are each held until one more is released.
    pub(super) fn hold_syncs(&self, times: u64) {
        self.syncs.store(times, Ordering::SeqCst);
    }

    /// So many of the next additions are.
    pub(super) fn hold_steps(&self, times: u64) {
        self.steps.store(times, Ordering::SeqCst);
    }

    /// So many of the next turns of a pace are.
    pub(super) fn hold_turns(&self, times: u64) {
        self.turns.store(times, Ordering::SeqCst);
    }

    /// Waits until so many were held. Answers whether that came in time.
    pub(super) fn await_held<R: Clock>(&self, rt: &R, times: u64) -> bool {
        has_come_in_time(rt, &self.held, times)
    }

    /// Releases one of what is held. Answers whether all were held until they were released.
    pub(super) fn release(&self) -> bool {
        self.released.fetch_add(1, Ordering::SeqCst);
        !self.gave_up.load(Ordering::SeqCst)
    }

    /// Called by a sync.
    pub(super) fn meet_sync<R: Clock>(&self, rt: &R) {
        if is_one_left(&self.syncs) {
            let before = self.held.fetch_add(1, Ordering::SeqCst);
            if !has_come_in_time(rt, &self.released, before.wrapping_add(1)) {
                self.gave_up.store(true, Ordering::SeqCst);
            }
        }
    }

    /// Called by an addition. It has no runtime, so it does not sleep.
    pub(super) fn meet_step(&self) {
        self.adds.fetch_add(1, Ordering::SeqCst);
        if is_one_left(&self.steps) {
            self.hold();
        }
    }

    /// Called at each turn of a pace.
    pub(super) fn meet_turn(&self) {
        if is_one_left(&self.turns) {
            self.hold();
        }
    }

    // Lets others run until one more is released.
    fn hold(&self) {
        let before = self.held.fetch_add(1, Ordering::SeqCst);
        for _ in 0..MOST_YIELDS {
            if self.released.load(Ordering::SeqCst) > before {
                return;
            }
            yield_now();
        }
        self.gave_up.store(true, Ordering::SeqCst);
    }

    /// How many additions were evaluated.
    pub(super) fn adds(&self) -> u64 {
        self.adds.load(Ordering::SeqCst)
    }

    /// Counts that a number was needed.
    pub(super) fn count_need(&self) {
        self.needs.fetch_add(1, Ordering::SeqCst);
    }

    /// How often a number was needed.
    pub(super) fn needs(&self) -> u64 {
        self.needs.load(Ordering::SeqCst)
    }

    /// Counts a turn that began with a whole batch.
    pub(super) fn count_full_turn(&self) {
        self.full_turns.fetch_add(1, Ordering::SeqCst);
    }

    /// How many turns did.
    pub(super) fn full_turns(&self) -> u64 {
        self.full_turns.load(Ordering::SeqCst)
    }

    /// Counts a call of the device.
    pub(super) fn count_call(&self) {
        self.calls.fetch_add(1, Ordering::SeqCst);
    }

    /// How often the device was called.
    pub(super) fn calls(&self) -> u64 {
        self.calls.load(Ordering::SeqCst)
    }

    /// Lets a clock that stands still go on by so many milliseconds.
    pub(super) fn advance(&self, millis: u64) {
        self.millis.fetch_add(millis, Ordering::SeqCst);
    }

    /// What such a clock shows, from 0.
    pub(super) fn time(&self) -> Duration {
        Duration::from_millis(self.millis.load(Ordering::SeqCst))
    }

    /// Counts that a thread has its pass, and waits until so many have theirs. Answers whether that came in time.
    pub(super) fn begin_together<R: Clock>(&self, rt: &R, threads: u64) -> bool {
        self.begun.fetch_add(1, Ordering::SeqCst);
        has_come_in_time(rt, &self.begun, threads)
    }

    /// Counts that a thread has played its lines.
    pub(super) fn count_end(&self) {
        self.ended.fetch_add(1, Ordering::SeqCst);
    }

    /// Waits until so many threads have played their lines. Answers whether that came in time.
    pub(super) fn await_ends<R: Clock>(&self, rt: &R, threads: u64) -> bool {
        has_come_in_time(rt, &self.ended, threads)
    }
}

// Counts down. Answers whether there was one left.
fn is_one_left(count: &AtomicU64) -> bool {
    let left = count.load(Ordering::SeqCst);
    if left > 0 {
        count.store(left.saturating_sub(1), Ordering::SeqCst);
    }
    left > 0
}

// Waits until a counter is so great. Answers whether that came in time.
fn has_come_in_time<R: Clock>(rt: &R, counter: &AtomicU64, least: u64) -> bool {
    for _ in 0..MOST_TURNS {
        if counter.load(Ordering::SeqCst) >= least {
            return true;
        }
        thread::sleep(rt, Duration::from_millis(1));
    }
    false
}
