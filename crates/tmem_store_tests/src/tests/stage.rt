//! What the threads of a scene are given, and the moves that need no front.
use super::moves::{Answer, Move};
use super::scenes::Line;
use super::signals::Signals;
use super::skipping::Skipping;
use std::alloc::Global;
use std::rt::Clock;
use std::thread;
use std::time::Duration;

/// What all threads of a scene are given, its lines too.
#[derive(Drop)]
pub(super) struct Stage<'a, R> {
    pub(super) rt: &'a R,
    pub(super) alloc: Global,
    pub(super) signals: &'a Signals,
    pub(super) lines: &'a [Line<'a>],
    /// How much later it is at each reading of the clock, for a wait that has a limit.
    pub(super) skip: Duration,
    /// How often it can be read in such a wait.
    pub(super) readings: u64,
    /// Whether it stands still then, but where it is let go on.
    pub(super) stands: bool,
}

impl<'a, R> Stage<'a, R> {
    /// The clock of a wait that has a limit.
    pub(super) fn clock(&self) -> Skipping<'a, R> {
        let standing = if self.stands {
            Some(self.signals)
        } else {
            None
        };
        Skipping::new(self.rt, standing, self.skip, self.readings)
    }
}

impl<'a, R: Clock> Stage<'a, R> {
    /// Plays a move that needs no front.
    pub(super) fn answer(&self, step: Move) -> Answer {
        match step {
            Move::Sleep(millis) => self.sleep(millis),
            Move::HoldSyncs(times) => {
                self.signals.hold_syncs(times);
                Answer::Done
            }
            Move::HoldSteps(times) => {
                self.signals.hold_steps(times);
                Answer::Done
            }
            Move::HoldTurns(times) => {
                self.signals.hold_turns(times);
                Answer::Done
            }
            Move::Advance(millis) => {
                self.signals.advance(millis);
                Answer::Done
            }
            Move::AwaitHeld(times) => Answer::in_time(self.signals.await_held(self.rt, times)),
            Move::Release => Answer::in_time(self.signals.release()),
            Move::AddsAtMost(most) => Answer::Holds(self.signals.adds() <= most),
            Move::NeedsAtMost(most) => Answer::Holds(self.signals.needs() <= most),
            Move::FullTurnsAre(turns) => Answer::Holds(self.signals.full_turns() == turns),
            _ => Answer::Nothing,
        }
    }

    fn sleep(&self, millis: u64) -> Answer {
        thread::sleep(self.rt, Duration::from_millis(millis));
        Answer::Done
    }
}
