// What is on the disk of a device in memory, and what it could have left at each past moment. The past takes no memory:
// its values are seen by clauses alone.
ghost use Rattle.std.specs.Prelude.{◌≡◌, ◌<◌, ◌≤◌, ◌+◌, ℕ, [], ◌∷◌, ◌++◌, true, false, length, replicate, slice_index_or, IfOk};
ghost use Rattle.tmem_disk.specs.Disk.{overwritten};
ghost use Rattle.tmem_disk.specs.Sim.{LeftBy};

use crate::buffer::{overwrite, set_unsynced};
use std::alloc::{AllocError, Global};
use std::snapshot::Snapshot;

/// What is on the disk: the bytes as at the last sync, and which bytes were written since: these are unsynced.
#[derive(Drop)]
pub(crate) struct Platter {
    pub(crate) synced: Vec<u8>,
    pub(crate) unsynced: Vec<bool>,
    // All unsynced offsets are in the range from `first` on and below `end`, so a sync need not look at others.
    first: usize,
    end: usize,
    ghost ordered: { first ≤ end },
    ghost within: { end ≤ length unsynced.items },
    ghost before: { (i : ℕ) → i < first → slice_index_or unsynced.items i false ≡ false },
    ghost behind: { (i : ℕ) → end ≤ i → slice_index_or unsynced.items i false ≡ false },
}

impl Platter {
    /// So many zeros, none of them unsynced.
    pub(crate) fn new(alloc: Global, len: usize) -> Result<Platter, AllocError>
        ensures synced { IfOk result (λ platter. platter.synced.items ≡ replicate len 0) }
        ensures unsynced { IfOk result (λ platter. platter.unsynced.items ≡ replicate len false) }
    {
        Ok(Platter {
            synced: vec![in alloc; 0; len]?,
            unsynced: vec![in alloc; false; len]?,
            first: 0,
            end: 0,
        })
    }

    /// Leaves so many bytes from an offset on unsynced.
    pub(crate) fn leave_unsynced(&mut self, from: usize, count: usize)
        requires { from + count ≤ length self.old.unsynced.items }
        ensures unsynced { self.new.unsynced.items ≡ overwritten self.old.unsynced.items from (replicate count true) }
        ensures synced { self.new.synced.items ≡ self.old.synced.items }
    {
        set_unsynced(&mut self.unsynced, from, count, true);
        let end = from + count;
        if self.first == self.end {
            self.first = from;
            self.end = end;
        } else {
            self.first = self.first.min(from);
            self.end = self.end.max(end);
        }
    }

    /// Makes these bytes the synced ones, none of them unsynced. They differ from those before at unsynced offsets alone.
    pub(crate) fn sync(&mut self, present: &[u8])
        requires long { length self.old.unsynced.items ≡ length present.now }
        requires agrees { LeftBy self.old.synced.items self.old.unsynced.items present.now }
        ensures synced { self.new.synced.items ≡ present.now }
        ensures unsynced { self.new.unsynced.items ≡ replicate (length present.now) false }
        ensures clean { self.new.first ≡ self.new.end }
    {
        self.sync_range(self.first, self.end, present);
    }

    // The same, looking only at a range that holds all unsynced offsets.
    fn sync_range(&mut self, low: usize, high: usize, present: &[u8])
        requires ordered { low ≤ high }
        requires inside { high ≤ length present.now }
        requires before { (i : ℕ) → i < low → slice_index_or self.old.unsynced.items i false ≡ false }
        requires behind { (i : ℕ) → high ≤ i → slice_index_or self.old.unsynced.items i false ≡ false }
        requires long { length self.old.unsynced.items ≡ length present.now }
        requires agrees { LeftBy self.old.synced.items self.old.unsynced.items present.now }
        ensures synced { self.new.synced.items ≡ present.now }
        ensures unsynced { self.new.unsynced.items ≡ replicate (length present.now) false }
        ensures clean { self.new.first ≡ self.new.end }
    {
        overwrite(&mut self.synced, low, &present[low..high]);
        set_unsynced(&mut self.unsynced, low, high - low, false);
        self.first = 0;
        self.end = 0;
    }
}

/// The platter at each past moment.
#[derive(Drop)]
pub(crate) enum PastMoments {
    Start,
    After(Snapshot<Platter>, Snapshot<PastMoments>),
}

impl PastMoments {
    ghost use Rattle.tmem_disk.specs.Moments.{moments_of};

    /// One moment more.
    pub(crate) fn with(before: &PastMoments, platter: &Platter) -> PastMoments
        ensures { moments_of result ≡ moments_of before.now ++ (platter.now.synced.items, platter.now.unsynced.items) ∷ [] }
    {
        PastMoments::After(Snapshot::of(platter), Snapshot::of(before))
    }
}
