//! A device that has crashed.
ghost use Rattle.std.specs.Prelude.{ℕ};
ghost use Rattle.tmem_core.specs.Program.{Program};
ghost use Rattle.tmem_disk.specs.Power.{IsCrashed};
ghost use Rattle.tmem_disk.specs.SimParts.{power_of, sim_view};
ghost use Rattle.tmem_world.specs.Chain.{ChainHistory, IsStore};

use super::worlds::fresh;
use std::test::Fail;
use tmem_disk::{Fill, SimDisk};
use tmem_world::crash_leaves_store;

/// Starts a crashed device again. It is a store with the same history then, if it was one before.
fn start_again(disk: &mut SimDisk)
    requires { IsCrashed (power_of disk.old) }
    ensures { (program : Program) (vars slots : ℕ) (h : ChainHistory) → IsStore program vars slots h (sim_view disk.old) → IsStore program vars slots h (sim_view disk.new) }
{
    crash_leaves_store::<SimDisk>();
    disk.restart();
}

#[test]
fn a_store_is_started_again_after_a_crash(rt: HostRuntime) -> Result<(), Fail> {
    let mut disk = fresh(rt.alloc())?;
    disk.stop_now(Fill::Byte(0x37));
    if !disk.is_crashed() {
        return Err(Fail::new("it did not crash"));
    }
    start_again(&mut disk);
    assert!(rt; !disk.is_crashed());
    Ok(())
}
