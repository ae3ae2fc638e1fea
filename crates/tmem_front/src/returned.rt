// How threads are told of a pass that is free again.
ghost use Rattle.std.specs.Prelude.{◌≡◌, ◌≤◌, true, false, vec_len};
ghost use Rattle.std.specs.Sync.Mutex.{mutex_guard_value};

use crate::patience::Patience;
use crate::pool::Pool;
use std::sync::{Condvar, MutexGuard};
use tmem_spine::Naming;

/// Who waits for a pass sleeps here, under the pool's lock. Nobody sleeps who would find one, or that nobody waits any more, and nobody
/// is told of either before the pool has it.
#[derive(Drop)]
pub(crate) struct Returned {
    changed: Condvar,
}

impl Returned {
    /// Nobody sleeps yet.
    pub(crate) fn new() -> Returned {
        Returned {
            changed: Condvar::new(),
        }
    }

    /// Sleeps until it is told, or the patience is over, where none is free and the front is not shut.
    pub(crate) fn sleep<'a, N: Naming, P: Patience>(
        &self,
        patience: &P,
        pool: MutexGuard<'a, Pool<N>>,
    ) -> MutexGuard<'a, Pool<N>>
        requires none { vec_len (mutex_guard_value pool).free ≡ 0 }
        requires open { (mutex_guard_value pool).is_closed ≡ false }
    {
        patience.sleep(&self.changed, pool)
    }

    /// Lets the pool's lock go, and tells one who sleeps that a pass is free.
    pub(crate) fn tell_one<N: Naming>(&self, pool: MutexGuard<Pool<N>>)
        requires { 1 ≤ vec_len (mutex_guard_value pool).free }
    {
        drop(pool);
        self.changed.notify_one();
    }

    /// Lets the pool's lock go, and tells whoever sleeps that nobody waits any more.
    pub(crate) fn tell_end<N: Naming>(&self, pool: MutexGuard<Pool<N>>)
        requires { (mutex_guard_value pool).is_closed ≡ true }
    {
        drop(pool);
        self.changed.notify_all();
    }
}
