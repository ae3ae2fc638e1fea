// A lock that is mostly held for less time than it takes to sleep and be woken.
use std::sync::{Mutex, MutexGuard, Wait};
use std::thread::yield_now;

// How often a caller tries to take it before it sleeps.
const MOST_TRIES: u32 = 20;

// How often a caller lets other threads run between two tries: once at first, then twice as often each time, up to this.
const MOST_YIELDS: u32 = 16;

/// A value under a lock. A caller that does not get it lets other threads run for a while, and then sleeps. Where one sleeps, each release has
/// to wake it, which costs more than what most do under the lock. It tries seldom: each try takes the lock's word from the processor of
/// the thread that holds it, and a lock that goes from thread to thread takes all that lies under it along.
#[derive(Drop)]
pub(crate) struct BriefLock<T> {
    mutex: Mutex<T>,
}

impl<T> BriefLock<T> {
    /// Nobody has taken it yet.
    pub(crate) fn new(value: T) -> BriefLock<T> {
        BriefLock {
            mutex: Mutex::new(value),
        }
    }

    /// Takes it.
    pub(crate) fn lock<R: Wait>(&self, rt: &R) -> MutexGuard<'_, T> {
        let mut yields = 1;
        for _ in 0..MOST_TRIES {
            if let Some(guard) = self.mutex.try_lock() {
                return guard;
            }
            let_others_run(yields);
            yields = yields.saturating_add(yields).min(MOST_YIELDS);
        }
        self.mutex.lock(rt)
    }
}

// Lets other threads run, so many times.
fn let_others_run(times: u32) {
    for _ in 0..times {
        yield_now();
    }
}
