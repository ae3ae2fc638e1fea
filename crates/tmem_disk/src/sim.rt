// A device in memory that can crash, and whose calls can be made to fail, at chosen ones.
ghost use Rattle.std.specs.Prelude.{◌≡◌, ◌<◌, ◌≤◌, ◌+◌, ◌^◌, ◌↔◌, true, length, replicate, slice_range, IsTrue, IsErr, IfOk, IfSome, OnOk, OnErr, IsOkUnless};
ghost use Rattle.tmem_disk.specs.Disk.{IsCall, SameDevice, overwritten, ReadsAs, SameSeenOutside, Rewritten, LeavesOnly, LeavesEach, StillLeaves, IsSynced, Elapses};
ghost use Rattle.tmem_disk.specs.Start.{IsNewDevice};
ghost use Rattle.tmem_disk.specs.Power.{IsCrashed, fill_of, running, arming, arming_failure, crashed_with, restarted, reading, writing, syncing, power_after, Fails};
ghost use Rattle.tmem_disk.specs.Sim.{LeftBy, blank, bytes_written, range_unsynced, synced_with, filled, stamped};

use crate::buffer::overwrite;
use crate::failures::Failures;
use crate::platter::{PastMoments, Platter};
use crate::power::{ArmedCrash, Power};
use crate::{DeviceFault, Disk, Fill};
use std::alloc::Global;
use tmem_fault::Fault;

/// Bytes in memory. It keeps the disk model, and no call but `new` takes memory.
///
/// It crashes now, or at a call that is chosen: a write, by its number or by the offset where it starts, or a sync, by
/// its number. That call and all later ones fail until `restart`. A failure is armed for a chosen call, which fails once,
/// and the device runs on. A call fails in no other case. While the device runs, each call counts, also one that fails;
/// while it has crashed, none does, so what is armed stays armed over `restart`. Where a call meets both, the crash
/// wins, and the failure is spent.
pub struct SimDisk {
    present: Vec<u8>,
    platter: Platter,
    failures: Failures,
    power: Power,
    past: PastMoments,
    ghost agrees: { LeftBy platter.synced.items platter.unsynced.items present.items },
    ghost long: { length platter.unsynced.items ≡ length present.items },
    ghost fits: { length present.items < 2 ^ 64 },
    ghost counted: { failures.count < 2 ^ 64 },
}

// By hand, so that a function that drops one makes one call.
impl Drop for SimDisk {
    fn drop(self) {
        let SimDisk {
            present: _present,
            platter: _platter,
            failures: _failures,
            power: _power,
            past: _past,
        } = self;
    }
}

impl SimDisk {
    ghost use Rattle.tmem_disk.specs.SimParts.{sim_view, power_of, sim_bytes};

    /// A device of this many zeros, with nothing left to sync and nothing armed. `Memory` is its one refusal.
    pub fn new(alloc: Global, size: u64) -> Result<SimDisk, Fault>
        ensures made { IfOk result (λ disk. IsNewDevice size (sim_view disk)) }
        ensures bytes { IfOk result (λ disk. sim_bytes disk ≡ blank size) }
        ensures power { IfOk result (λ disk. power_of disk ≡ running) }
        ensures refused { IsOkUnless result Fault.Memory }
    {
        let len = size as usize;
        Ok(SimDisk {
            present: vec![in alloc; 0; len]?,
            platter: Platter::new(alloc, len)?,
            failures: Failures {
                count: 0,
                last: None,
            },
            power: Power::running(),
            past: PastMoments::Start,
        })
    }

    /// Crashes the device at write number `k` from now, where 0 is the next: that call and all later ones fail until
    /// `restart`, at which the bytes written since the last successful sync take the fill, those of that write too.
    /// It takes the place of a crash that was armed before. At a crashed device it counts from the restart.
    pub fn stop_at_write(&mut self, k: u64, fill: Fill)
        ensures same { SameDevice (sim_view self.old) (sim_view self.new) }
        ensures bytes { sim_bytes self.new ≡ sim_bytes self.old }
        ensures power { power_of self.new ≡ arming (ArmedCrash.AtWrite k fill) (power_of self.old) }
    {
        self.power.armed = Some(ArmedCrash::AtWrite(k, fill));
    }

    /// Crashes the device at the next write that starts at the offset `at`: that call and all later ones fail until
    /// `restart`, at which the bytes written since the last successful sync take the fill, those of that write too. A
    /// write that only covers the offset doesn't crash it. It takes the place of a crash that was armed before. At a crashed
    /// device it is the next such write from the restart on.
    pub fn stop_at_place(&mut self, at: u64, fill: Fill)
        ensures same { SameDevice (sim_view self.old) (sim_view self.new) }
        ensures bytes { sim_bytes self.new ≡ sim_bytes self.old }
        ensures power { power_of self.new ≡ arming (ArmedCrash.AtPlace at fill) (power_of self.old) }
    {
        self.power.armed = Some(ArmedCrash::AtPlace(at, fill));
    }

    /// Crashes the device at sync number `k` from now, where 0 is the next: that sync syncs nothing, and that call and all
    /// later ones fail until `restart`, at which the bytes written since the last successful sync take the fill. It takes
    /// the place of a crash that was armed before. At a crashed device it counts from the restart.
    pub fn stop_at_sync(&mut self, k: u64, fill: Fill)
        ensures same { SameDevice (sim_view self.old) (sim_view self.new) }
        ensures bytes { sim_bytes self.new ≡ sim_bytes self.old }
        ensures power { power_of self.new ≡ arming (ArmedCrash.AtSync k fill) (power_of self.old) }
    {
        self.power.armed = Some(ArmedCrash::AtSync(k, fill));
    }

    /// Crashes the device now: all calls fail until `restart`, at which the bytes written since the last successful sync
    /// take the fill. At a crashed device the fill takes the place of the one that it crashed with. A crash that is
    /// armed stays armed.
    pub fn stop_now(&mut self, fill: Fill)
        ensures same { SameDevice (sim_view self.old) (sim_view self.new) }
        ensures bytes { sim_bytes self.new ≡ sim_bytes self.old }
        ensures power { power_of self.new ≡ crashed_with fill (power_of self.old) }
    {
        self.power.crashed = Some(fill);
    }

    /// Lets read number `k` from now fail, where 0 is the next. It takes the place of a read that was to fail before. At
    /// a crashed device it counts from the restart.
    pub fn fail_read(&mut self, k: u64)
        ensures same { SameDevice (sim_view self.old) (sim_view self.new) }
        ensures bytes { sim_bytes self.new ≡ sim_bytes self.old }
        ensures power { power_of self.new ≡ arming_failure DeviceFault.Read k (power_of self.old) }
    {
        self.power.failing.read = Some(k);
    }

    /// Lets write number `k` from now fail, where 0 is the next: it changes no byte that a read gives, and its range
    /// counts as written. It takes the place of a write that was to fail before. At a crashed device it counts from the
    /// restart.
    pub fn fail_write(&mut self, k: u64)
        ensures same { SameDevice (sim_view self.old) (sim_view self.new) }
        ensures bytes { sim_bytes self.new ≡ sim_bytes self.old }
        ensures power { power_of self.new ≡ arming_failure DeviceFault.Write k (power_of self.old) }
    {
        self.power.failing.write = Some(k);
    }

    /// Lets sync number `k` from now fail, where 0 is the next: it syncs nothing. It takes the place of a sync that was
    /// to fail before. At a crashed device it counts from the restart.
    pub fn fail_sync(&mut self, k: u64)
        ensures same { SameDevice (sim_view self.old) (sim_view self.new) }
        ensures bytes { sim_bytes self.new ≡ sim_bytes self.old }
        ensures power { power_of self.new ≡ arming_failure DeviceFault.Sync k (power_of self.old) }
    {
        self.power.failing.sync = Some(k);
    }

    /// Whether it has crashed.
    pub fn is_crashed(&self) -> bool
        ensures { IsTrue result ↔ IsCrashed (power_of self.now) }
    {
        self.power.is_crashed()
    }

    /// Starts a crashed device again. The bytes that the crash left are the synced ones then, and nothing counts as
    /// written. What is armed stays armed.
    pub fn restart(&mut self)
        requires { IsCrashed (power_of self.old) }
        ensures left { (sim_view self.old).may_leave (sim_view self.new).seen }
        ensures durable { IsSynced (sim_view self.new) }
        ensures capacity { (sim_view self.new).capacity ≡ (sim_view self.old).capacity }
        ensures failures { (sim_view self.new).failures ≡ (sim_view self.old).failures }
        ensures last_fault { (sim_view self.new).last_fault ≡ (sim_view self.old).last_fault }
        ensures time { Elapses (sim_view self.old) (sim_view self.new) (sim_view self.new).may_leave }
        ensures bytes { IfSome (fill_of (power_of self.old))
            (λ fill. sim_bytes self.new ≡ synced_with (filled fill (sim_bytes self.old))) }
        ensures power { power_of self.new ≡ restarted (power_of self.old) }
    {
        let fill = self.power.restart();
        fill_unsynced(&mut self.present, &self.platter, fill);
        self.sync_all();
    }

    // Writes over a range, which is unsynced then.
    fn store(&mut self, from: usize, bytes: &[u8])
        requires { from + length bytes.now ≤ length self.old.present.items }
        ensures bytes { sim_bytes self.new ≡ bytes_written from bytes.now (sim_bytes self.old) }
        ensures failures { self.new.failures ≡ self.old.failures }
        ensures power { self.new.power ≡ self.old.power }
        ensures crash { LeavesEach (sim_view self.new) (Rewritten from (length bytes.now) (sim_view self.old)) }
        ensures time { Elapses (sim_view self.old) (sim_view self.new) (sim_view self.new).may_leave }
    {
        self.touch(from, bytes.len());
        overwrite(&mut self.present, from, bytes);
    }

    // Leaves a range unsynced, and changes no byte that a read gives.
    fn touch(&mut self, from: usize, count: usize)
        requires { from + count ≤ length self.old.present.items }
        ensures bytes { sim_bytes self.new ≡ range_unsynced from count (sim_bytes self.old) }
        ensures failures { self.new.failures ≡ self.old.failures }
        ensures power { self.new.power ≡ self.old.power }
        ensures crash { LeavesEach (sim_view self.new) (Rewritten from count (sim_view self.old)) }
        ensures time { Elapses (sim_view self.old) (sim_view self.new) (sim_view self.new).may_leave }
    {
        self.past = PastMoments::with(&self.past, &self.platter);
        self.platter.leave_unsynced(from, count);
    }

    // Makes the bytes that a read gives the synced ones, none of them unsynced.
    fn sync_all(&mut self)
        ensures bytes { sim_bytes self.new ≡ synced_with (sim_bytes self.old).present }
        ensures failures { self.new.failures ≡ self.old.failures }
        ensures power { self.new.power ≡ self.old.power }
        ensures durable { IsSynced (sim_view self.new) }
        ensures time { Elapses (sim_view self.old) (sim_view self.new) (sim_view self.new).may_leave }
    {
        self.past = PastMoments::with(&self.past, &self.platter);
        self.platter.sync(&self.present);
    }
}

// Gives the unsynced bytes their fill.
fn fill_unsynced(present: &mut Vec<u8>, platter: &Platter, fill: Fill)
    requires long { length platter.now.unsynced.items ≡ length present.old.items }
    requires agrees { LeftBy platter.now.synced.items platter.now.unsynced.items present.old.items }
    ensures left { LeftBy platter.now.synced.items platter.now.unsynced.items present.new.items }
    ensures filled { present.new.items ≡
        filled fill (record { present = present.old.items; synced = platter.now.synced.items; unsynced = platter.now.unsynced.items }) }
{
    match fill {
        Fill::Old => present.copy_from_slice(&platter.synced),
        Fill::New => {}
        Fill::Byte(byte) => stamp(present, &platter.unsynced, byte),
    }
}

// Writes a byte into each unsynced offset.
fn stamp(present: &mut Vec<u8>, unsynced: &[bool], byte: u8)
    requires { length unsynced.now ≡ length present.old.items }
    ensures { present.new.items ≡ stamped byte present.old.items unsynced.now }
{
    for i in 0..unsynced.len() {
        if unsynced[i] {
            present[i] = byte;
        }
    }
}

impl Disk for SimDisk {
    ghost use Rattle.tmem_disk.specs.SimParts.{sim_view, sim_is_device, power_of, sim_bytes, bytes_after_write, bytes_after_sync};

    ghost view = { sim_view };

    ghost is_device = { sim_is_device };

    fn size(&self) -> u64 {
        self.present.len() as u64
    }

    fn read(&mut self, at: u64, into: &mut [u8]) -> Result<(), DeviceFault>
        requires { at + length into.old ≤ (sim_view self.old).capacity }
        ensures call { IsCall (sim_view self.old) (sim_view self.new) result (λ f. f ≡ DeviceFault.Read) }
        ensures time { Elapses (sim_view self.old) (sim_view self.new) (sim_view self.new).may_leave }
        ensures bytes { (sim_view self.new).keeps_model →
            OnOk result (into.new ≡ slice_range (sim_view self.old).seen at (at + length into.old)) }
        ensures seen { ReadsAs (sim_view self.new) (sim_view self.old).seen }
        ensures crash { LeavesEach (sim_view self.new) (sim_view self.old).may_leave }
        ensures fails { IsErr result ↔ Fails reading (power_of self.old) }
        ensures power { power_of self.new ≡ power_after reading (power_of self.old) }
        ensures unchanged { sim_bytes self.new ≡ sim_bytes self.old }
    {
        if self.power.fails_at_read() {
            self.failures.note(DeviceFault::Read);
            return Err(DeviceFault::Read);
        }
        let from = at as usize;
        into.copy_from_slice(&self.present[from..from + into.len()]);
        Ok(())
    }

    fn write_at(&mut self, at: u64, bytes: &[u8]) -> Result<(), DeviceFault>
        requires { at + length bytes.now ≤ (sim_view self.old).capacity }
        ensures call { IsCall (sim_view self.old) (sim_view self.new) result (λ f. f ≡ DeviceFault.Write) }
        ensures time { Elapses (sim_view self.old) (sim_view self.new) (sim_view self.new).may_leave }
        ensures written { OnOk result (ReadsAs (sim_view self.new) (overwritten (sim_view self.old).seen at bytes.now)) }
        ensures elsewhere { SameSeenOutside at (length bytes.now) (sim_view self.old) (sim_view self.new) }
        ensures crash { LeavesOnly (sim_view self.new) (Rewritten at (length bytes.now) (sim_view self.old)) }
        ensures torn { OnOk result (LeavesEach (sim_view self.new) (Rewritten at (length bytes.now) (sim_view self.old))) }
        ensures still { StillLeaves (sim_view self.old) (sim_view self.new) }
        ensures fails { IsErr result ↔ Fails (writing at) (power_of self.old) }
        ensures power { power_of self.new ≡ power_after (writing at) (power_of self.old) }
        ensures bytes { sim_bytes self.new ≡ bytes_after_write (power_of self.old) at bytes.now (sim_bytes self.old) }
    {
        if self.power.is_crashed() {
            self.failures.note(DeviceFault::Write);
            return Err(DeviceFault::Write);
        }
        if self.power.only_fails_at_write(at) {
            self.touch(at as usize, bytes.len());
            self.failures.note(DeviceFault::Write);
            return Err(DeviceFault::Write);
        }
        self.store(at as usize, bytes);
        if self.power.is_crashed() {
            self.failures.note(DeviceFault::Write);
            return Err(DeviceFault::Write);
        }
        Ok(())
    }

    fn sync(&mut self) -> Result<(), DeviceFault>
        ensures call { IsCall (sim_view self.old) (sim_view self.new) result (λ f. f ≡ DeviceFault.Sync) }
        ensures time { Elapses (sim_view self.old) (sim_view self.new) (sim_view self.new).may_leave }
        ensures durable { OnOk result (IsSynced (sim_view self.new)) }
        ensures seen { ReadsAs (sim_view self.new) (sim_view self.old).seen }
        ensures crash { LeavesOnly (sim_view self.new) (sim_view self.old).may_leave }
        ensures not_synced { OnErr result (LeavesEach (sim_view self.new) (sim_view self.old).may_leave) }
        ensures fails { IsErr result ↔ Fails syncing (power_of self.old) }
        ensures power { power_of self.new ≡ power_after syncing (power_of self.old) }
        ensures synced { sim_bytes self.new ≡ bytes_after_sync (power_of self.old) (sim_bytes self.old) }
    {
        if self.power.fails_at_sync() {
            self.failures.note(DeviceFault::Sync);
            return Err(DeviceFault::Sync);
        }
        self.sync_all();
        Ok(())
    }
}
