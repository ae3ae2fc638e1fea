//! A clock that goes on by a time at each reading, or stands still, and cannot be read any more after some.
use super::signals::Signals;
use std::io;
use std::rt::Clock;
use std::sync::Wait;
use std::sync::atomic::{AtomicU64, Ordering};
use std::time::Duration;

/// The clock of a handle, which was so much further at each reading, and can be read so often.
#[derive(Drop)]
pub(super) struct Skipping<'a, R> {
    rt: &'a R,
    standing: Option<&'a Signals>,
    skip: Duration,
    most: u64,
    readings: AtomicU64,
}

impl<'a, R> Skipping<'a, R> {
    /// It was not read yet. Where it is given signals, it stands still, and shows their time.
    pub(super) fn new(
        rt: &'a R,
        standing: Option<&'a Signals>,
        skip: Duration,
        most: u64,
    ) -> Skipping<'a, R> {
        let readings = AtomicU64::new(0);
        Skipping {
            rt,
            standing,
            skip,
            most,
            readings,
        }
    }
}

impl<R: Wait> Wait for Skipping<'_, R> {}

impl<R: Clock> Clock for Skipping<'_, R> {
    fn monotonic(&self) -> io::Result<Duration> {
        let reading = self.readings.fetch_add(1, Ordering::SeqCst);
        if reading >= self.most {
            return Err(io::Error::from(io::ErrorKind::Other));
        }
        if let Some(signals) = self.standing {
            return Ok(signals.time());
        }
        let times = u32::try_from(reading).unwrap_or(u32::MAX);
        let skipped = self.skip.saturating_mul(times);
        Ok(self.rt.monotonic()?.saturating_add(skipped))
    }

    fn since_1970(&self) -> io::Result<Duration> {
        self.rt.since_1970()
    }
}
