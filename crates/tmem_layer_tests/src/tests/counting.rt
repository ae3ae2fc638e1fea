//! A device that counts its calls, and keeps the offsets of its writes.
use tmem_disk::{DeviceFault, Disk};

/// How often each call was made.
#[derive(Clone, Copy)]
pub(super) struct Calls {
    pub(super) reads: u64,
    pub(super) writes: u64,
    pub(super) syncs: u64,
    /// How many bytes the writes had together.
    pub(super) written: u64,
}

/// No call.
const NONE: Calls = Calls {
    reads: 0,
    writes: 0,
    syncs: 0,
    written: 0,
};

/// How many writes are kept.
const KEPT: usize = 32;

/// A device round another, which counts the calls that it passes on.
#[derive(Drop)]
pub(super) struct CountDisk<D: Disk> {
    pub(super) inner: D,
    pub(super) calls: Calls,
    /// What was counted before the last `count_anew`.
    pub(super) before: Calls,
    // where each of the first writes that are counted began, and how many bytes it had
    kept: [(u64, usize); KEPT],
}

impl<D: Disk> CountDisk<D> {
    /// A device of which no call was made.
    pub(super) fn new(inner: D) -> CountDisk<D> {
        CountDisk {
            inner,
            calls: NONE,
            before: NONE,
            kept: [(0, 0); KEPT],
        }
    }

    /// Sets aside what was counted.
    pub(super) fn count_anew(&mut self) {
        self.before = self.calls;
        self.calls = NONE;
    }

    /// Whether these writes are counted, in this order: each its offset and how many bytes it had.
    pub(super) fn wrote(&self, writes: &[(u64, usize)]) -> bool {
        writes.len() as u64 == self.calls.writes && self.kept.get(..writes.len()) == Some(writes)
    }
}

/// Keeps a write, if there is room for one of its number.
fn keep(kept: &mut [(u64, usize)], number: u64, write: (u64, usize)) {
    if let Some(kept) = kept.get_mut(number as usize) {
        *kept = write;
    }
}

impl<D: Disk> Disk for CountDisk<D> {
    ghost view = { λ d. D.view d.inner };

    ghost is_device = { λ d. D.is_device d.inner };

    fn size(&self) -> u64 {
        self.inner.size()
    }

    fn read(&mut self, at: u64, into: &mut [u8]) -> Result<(), DeviceFault> {
        self.calls.reads = self.calls.reads.saturating_add(1);
        self.inner.read(at, into)
    }

    fn write_at(&mut self, at: u64, bytes: &[u8]) -> Result<(), DeviceFault> {
        keep(&mut self.kept, self.calls.writes, (at, bytes.len()));
        self.calls.writes = self.calls.writes.saturating_add(1);
        self.calls.written = self.calls.written.saturating_add(bytes.len() as u64);
        self.inner.write_at(at, bytes)
    }

    fn sync(&mut self) -> Result<(), DeviceFault> {
        self.calls.syncs = self.calls.syncs.saturating_add(1);
        self.inner.sync()
    }
}
