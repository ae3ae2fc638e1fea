// How far a run has come that goes on where it stopped.

use crate::attempt::{Attempt, Probe};
use crate::path::Path;

/// A run, and the place in its tree where it goes on.
#[derive(Drop)]
pub(crate) struct Course {
    /// What was done so far, and once that has ended, the attempt.
    pub attempt: Attempt,
    /// The place where it goes on.
    pub path: Path,
    /// The answer to its last test, until a Check takes it.
    pub pending: Option<bool>,
    /// The test that it asks for, where it asks for one.
    pub probe: Probe,
}
