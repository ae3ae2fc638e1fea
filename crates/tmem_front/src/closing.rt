// How a store is closed.
ghost use Rattle.std.specs.Prelude.{◌≡◌, ◌⊎◌, Some, IfErr, IfSome};
ghost use Rattle.tmem_seats.specs.Flushing.{IsFlusherRefusal};

use crate::front::Front;
use std::sync::Wait;
use tmem_disk::Disk;
use tmem_fault::Fault;
use tmem_invariants::Invariants;
use tmem_seats::StoreNaming;
use tmem_tree::StoredSteps;

impl<D: Disk + Drop, N: StoreNaming, T: Invariants + Drop, S: StoredSteps + Drop> Front<
    D,
    N,
    T,
    S,
> {
    /// Closes the store in good order: later attempts are refused as `Closed`, and what waits is made durable, also where the store was
    /// shut before or another close is at work. Whoever awaits a transaction goes on once it is durable, or at the end, by `Closed`. All
    /// other waits end after the first flush, or at the end. Refused with the first fault that the store had, or as a flush that makes
    /// room.
    pub fn close<R: Wait>(&self, rt: &R) -> Result<(), Fault>
        ensures refused { IfErr result IsFlusherRefusal }
    {
        self.core.lock(rt).drain();
        let flushed = self.flush_waiting(rt);
        self.shut(rt);
        match self.fault(rt) {
            Some(fault) => Err(fault),
            None => flushed,
        }
    }

    // Makes durable what waits, until nothing does. Nothing is committed meanwhile.
    fn flush_waiting<R: Wait>(&self, rt: &R) -> Result<(), Fault>
        ensures refused { IfErr result IsFlusherRefusal }
    {
        for _ in rt.forever() {
            if !self.has_waiting(rt) {
                return Ok(());
            }
            self.flush_with_room(rt)?;
        }
        unreachable!()
    }

    // Whether a transaction waits to be durable.
    fn has_waiting<R: Wait>(&self, rt: &R) -> bool {
        self.core.lock(rt).has_waiting()
    }

    /// Closes the store at once: later attempts are refused as `Closed`, and the calls that wait go on.
    pub fn shut<R: Wait>(&self, rt: &R) {
        let mut core = self.core.lock(rt);
        core.shut();
        self.conditions.tell_end(core);
        self.close_pool(rt);
    }

    /// The first fault of the device, `Device` or `Unknown`, as the flush or the checkpoint was answered, also where the front was shut
    /// before it.
    pub fn fault<R: Wait>(&self, rt: &R) -> Option<Fault>
        ensures { IfSome result (λ fault. (fault ≡ Fault.Device) ⊎ (fault ≡ Fault.Unknown)) }
    {
        self.core.lock(rt).failure().fault()
    }
}
