// Passes that callers share.
ghost use Rattle.std.specs.Prelude.{◌≡◌, ◌⊎◌, ◌≤◌, vec_capacity, vec_len, None, Ok, IfErr};
ghost use Rattle.tmem_spine.specs.declared.spine.TheConstants.{MOST_PASSES};

use crate::front::Front;
use crate::patience::{Endless, Limited, Patience};
use std::alloc::AllocError;
use std::rt::Clock;
use std::sync::Wait;
use std::time::Duration;
use tmem_disk::Disk;
use tmem_fault::Fault;
use tmem_invariants::Invariants;
use tmem_seats::{Pass, StoreNaming};
use tmem_spine::{MOST_PASSES, Naming};
use tmem_tree::StoredSteps;

/// The passes of a front that are lent, one after another, to whoever asks for one.
#[derive(Drop)]
pub(crate) struct Pool<N: Naming> {
    // those that are not lent now, with room for all of a front once one was asked for
    pub(crate) free: Vec<Pass<N>>,
    // how many it has
    pub(crate) owned: usize,
    // nobody waits for one any more
    pub(crate) is_closed: bool,
    // how often whoever waits for one has tried
    pub(crate) tries: u64,
}

impl<N: Naming> Pool<N> {
    // Whether nobody waits any more. The try is counted.
    fn has_ended(&mut self) -> bool
        ensures ended { result ≡ self.new.is_closed }
        ensures same { self.new ≡ record self.old { tries = self.new.tries } }
    {
        self.tries = self.tries.wrapping_add(1);
        self.is_closed
    }

    // Makes room for all passes of a front.
    fn make_room(&mut self) -> Result<(), AllocError> {
        let missing = (MOST_PASSES as usize).saturating_sub(self.free.len());
        self.free.reserve(missing)
    }

    // The pass is the pool's from now on.
    fn take_over(&mut self, pass: &mut Pass<N>)
        ensures { self.new ≡ record self.old { owned = self.new.owned } }
    {
        pass.is_pooled = true;
        self.owned = self.owned.saturating_add(1);
    }
}

impl<D: Disk + Drop, N: StoreNaming, T: Invariants + Drop, S: StoredSteps + Drop> Front<
    D,
    N,
    T,
    S,
> {
    /// A pass of the pool, to be handed back by `release_pass`. Passes are lent again, each with its mark, with what it knows and with
    /// the memory of its attempts, so any number of threads share the 32 of a front: where all are lent, it waits for one. Refused with
    /// `NoSeat` where the pool has none and `pass` has given out all; with `Closed` where it would wait and the front is shut; and by
    /// `Memory`. A pass that is dropped is lost: where all that were lent are, whoever waits does so until the front is shut.
    pub fn acquire_pass<R: Wait>(&self, rt: &R) -> Result<Pass<N>, Fault>
        ensures refused { IfErr result (λ fault. (fault ≡ Fault.NoSeat) ⊎ (fault ≡ Fault.Closed) ⊎ (fault ≡ Fault.Memory)) }
    {
        match self.borrow_pass(rt, &Endless::new(rt))? {
            Some(pass) => Ok(pass),
            None => unreachable!(),
        }
    }

    /// As `acquire_pass`, for no longer than a time: `None` tells that it was over first. Nothing is claimed of when that is answered.
    /// A clock that cannot be read ends the time.
    pub fn acquire_pass_within<R: Wait + Clock>(
        &self,
        rt: &R,
        limit: Duration,
    ) -> Result<Option<Pass<N>>, Fault>
        ensures refused { IfErr result (λ fault. (fault ≡ Fault.NoSeat) ⊎ (fault ≡ Fault.Closed) ⊎ (fault ≡ Fault.Memory)) }
    {
        self.borrow_pass(rt, &Limited::new(rt, limit))
    }

    // Takes a pass of the pool, or waits for one until the patience is over.
    fn borrow_pass<R: Wait, P: Patience>(
        &self,
        rt: &R,
        patience: &P,
    ) -> Result<Option<Pass<N>>, Fault>
        ensures refused { IfErr result (λ fault. (fault ≡ Fault.NoSeat) ⊎ (fault ≡ Fault.Closed) ⊎ (fault ≡ Fault.Memory)) }
        ensures ended { result ≡ Ok None → P.ends patience.now }
    {
        let mut pool = self.pool.lock(rt);
        for _ in rt.forever() {
            match self.lend(rt, &mut pool) {
                Ok(None) => {}
                lent => return lent,
            }
            if pool.has_ended() {
                return Err(Fault::Closed);
            }
            if patience.is_over() {
                return Ok(None);
            }
            pool = self.returned.sleep(patience, pool);
        }
        unreachable!()
    }

    // A pass of the pool that is free, or a new one: `None` where all are lent, and the pool has some.
    fn lend<R: Wait>(&self, rt: &R, pool: &mut Pool<N>) -> Result<Option<Pass<N>>, Fault>
        ensures refused { IfErr result (λ fault. (fault ≡ Fault.NoSeat) ⊎ (fault ≡ Fault.Memory)) }
        ensures none { result ≡ Ok None → vec_len pool.new.free ≡ 0 }
    {
        if let Some(pass) = pool.free.pop() {
            return Ok(Some(pass));
        }
        pool.free.reserve(MOST_PASSES as usize)?;
        match self.new_for_pool(rt, pool) {
            Ok(pass) => Ok(Some(pass)),
            Err(fault) if pool.owned == 0 => Err(fault),
            Err(_) => Ok(None),
        }
    }

    // A new pass, where the pool has room for all, so that none is lost.
    fn new_for_pool<R: Wait>(&self, rt: &R, pool: &mut Pool<N>) -> Result<Pass<N>, Fault>
        requires room { MOST_PASSES ≤ vec_capacity pool.old.free }
        ensures none { IfErr result (λ fault. fault ≡ Fault.NoSeat) }
        ensures pool { pool.new ≡ record pool.old { owned = pool.new.owned } }
    {
        let mut pass = self.pass(rt)?;
        pool.take_over(&mut pass);
        Ok(pass)
    }

    /// Hands a pass back to the pool, for the next caller. One that `pass` gave out is the pool's from then on. Refused by `Memory` where
    /// there is no room for such a one, which is lost then; one that the pool lent is never refused.
    pub fn release_pass<R: Wait>(&self, rt: &R, mut pass: Pass<N>) -> Result<(), Fault>
        ensures refused { IfErr result (λ fault. fault ≡ Fault.Memory) }
    {
        let mut held = self.pool.lock(rt);
        let pool = &mut *held;
        if !pass.is_pooled {
            pool.make_room()?;
            pool.take_over(&mut pass);
        }
        pool.free.push(pass)?;
        self.returned.tell_one(held);
        Ok(())
    }

    // Ends the wait of each caller that waits for a pass, once the front is shut, and of those to come.
    pub(crate) fn close_pool<R: Wait>(&self, rt: &R) {
        let mut pool = self.pool.lock(rt);
        pool.is_closed = true;
        self.returned.tell_end(pool);
    }
}
