// What a world holds between two events.
ghost use Rattle.std.specs.Prelude.{◌≡◌, ◌≤◌};
ghost use Rattle.tmem_disk.specs.Disk.{LeavesOnly};
ghost use Rattle.tmem_journal.specs.Contents.{IsCurrent};
ghost use Rattle.tmem_record.specs.Layout.{end_at};

use crate::core_and_journal::CoreAndJournal;
use tmem_disk::Disk;
use tmem_invariants::Invariants;
use tmem_journal::Layout;

/// The device and the table, where a world has no core.
#[derive(Drop)]
pub(crate) struct DeviceAndTable<D: Disk, T: Invariants> {
    pub(crate) disk: D,
    pub(crate) layout: Layout,
    pub(crate) table: T,
    ghost room: { end_at layout.vars layout.slots ≤ (D.view disk).capacity },
    ghost over: { T.vars table ≡ layout.vars },

    // It is of version 2: an opening found it so, or migrated it.
    ghost current: { LeavesOnly (D.view disk) (IsCurrent layout.vars layout.slots) },
}

/// A core with its journal, open or closed, or what is left without one.
#[derive(Drop)]
pub(crate) enum Held<D: Disk, T: Invariants> {
    With(CoreAndJournal<D, T>),
    Without(DeviceAndTable<D, T>),
}

impl<D: Disk + Drop, T: Invariants + Drop> Held<D, T> {
    ghost use Rattle.tmem_world.specs.Parts.{held_disk, layout_in, table_in};

    /// Lets go of the core, if there is one, and hands out the device and the table.
    pub(crate) fn into_parts(self) -> (D, T)
        ensures disk { result.0 ≡ held_disk self }
        ensures table { result.1 ≡ table_in self }
        ensures room { end_at (layout_in self).vars (layout_in self).slots ≤ (D.view result.0).capacity }
        ensures over { T.vars result.1 ≡ (layout_in self).vars }
    {
        match self {
            Held::With(both) => {
                let CoreAndJournal { core, journal, .. } = both;
                (journal.into_disk(), core.into_table())
            }
            Held::Without(left) => {
                let DeviceAndTable { disk, table, .. } = left;
                (disk, table)
            }
        }
    }
}
