//! How the pace of a flusher lets callers in.
use std::process::Abort;
use std::rt::Clock;
use std::sync::atomic::{AtomicU64, Ordering};
use std::test::Fail;
use std::time::Duration;
use std::{io, mem};
use tmem_front::{Gathering, Pace};

/// How often a turn reads its clock at the most.
const MOST_READINGS: u64 = 10_000;

/// A clock that stands still. After twice as many readings it cannot be read any more, so that each turn ends.
#[derive(Drop)]
struct Still {
    readings: AtomicU64,
}

impl Still {
    fn new() -> Still {
        let readings = AtomicU64::new(0);
        Still { readings }
    }

    fn readings(&self) -> u64 {
        self.readings.load(Ordering::SeqCst)
    }
}

impl Clock for Still {
    fn monotonic(&self) -> io::Result<Duration> {
        let reading = self.readings.fetch_add(1, Ordering::SeqCst);
        if reading < 2 * MOST_READINGS {
            Ok(Duration::ZERO)
        } else {
            Err(io::Error::from(io::ErrorKind::Other))
        }
    }

    fn since_1970(&self) -> io::Result<Duration> {
        Ok(Duration::ZERO)
    }
}

/// A pace of one turn. It does not say how a turn with a whole batch goes on.
#[derive(Drop)]
struct OneTurn {
    is_left: bool,
}

impl Pace for OneTurn {
    fn next(&mut self) -> bool {
        mem::replace(&mut self.is_left, false)
    }
}

// How often the clock is read at a turn, after which the flusher goes on.
fn readings_of_a_turn<R: Abort>(rt: &R, has_several: bool) -> u64 {
    let clock = Still::new();
    assert!(rt; Gathering::new(&clock, has_several).next());
    clock.readings()
}

#[test]
fn a_turn_with_a_whole_batch_goes_on_as_any_other(rt: HostRuntime) -> Result<(), Fail> {
    let mut pace = OneTurn { is_left: true };
    assert!(&rt; pace.next_when_full());
    assert!(&rt; !pace.next_when_full());
    Ok(())
}

#[test]
fn a_turn_with_a_whole_batch_lets_nobody_in(rt: HostRuntime) -> Result<(), Fail> {
    let clock = Still::new();
    assert!(&rt; Gathering::new(&clock, true).next_when_full());
    assert!(&rt; clock.readings() == 0);
    Ok(())
}

#[test]
fn a_turn_lets_others_in_where_there_are_several(rt: HostRuntime) -> Result<(), Fail> {
    assert!(&rt; readings_of_a_turn(&rt, false) == 0);
    let several = readings_of_a_turn(&rt, true);
    assert!(&rt; several >= 2 && several <= MOST_READINGS, "{several}");
    Ok(())
}

/// A clock of which each reading is so many microseconds behind the one before.
#[derive(Drop)]
struct Stepping {
    micros: u64,
    readings: AtomicU64,
}

impl Clock for Stepping {
    fn monotonic(&self) -> io::Result<Duration> {
        let reading = self.readings.fetch_add(1, Ordering::SeqCst);
        Ok(Duration::from_micros(reading.saturating_mul(self.micros)))
    }

    fn since_1970(&self) -> io::Result<Duration> {
        Ok(Duration::ZERO)
    }
}

// How often a clock of such steps is read at a turn.
fn readings_in_steps_of<R: Abort>(rt: &R, micros: u64) -> u64 {
    let readings = AtomicU64::new(0);
    let clock = Stepping { micros, readings };
    assert!(rt; Gathering::new(&clock, true).next());
    clock.readings.load(Ordering::SeqCst)
}

#[test]
fn a_turn_lets_others_in_for_some_ten_microseconds(rt: HostRuntime) -> Result<(), Fail> {
    // as the turn begins, and each time that others were let in
    assert!(&rt; readings_in_steps_of(&rt, 20) == 2);
    assert!(&rt; readings_in_steps_of(&rt, 4) == 4);
    Ok(())
}
