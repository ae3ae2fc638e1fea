// Memory for a log that is read.
ghost use Rattle.std.specs.Prelude.{IfOk};
ghost use Rattle.tmem_redolog.specs.Room.{IsLogRoom};

use std::alloc::{AllocError, Global};
use tmem_record::{Layout, SLOT_BYTES};

/// Memory for a log that is read, all of it: so reading takes none.
#[derive(Drop)]
pub struct LogRoom {
    pub(crate) bytes: Vec<u8>,
}

impl LogRoom {
    /// Room for the log of this layout: for the bytes of all its slots. Its records are not kept.
    pub fn new(alloc: Global, layout: Layout) -> Result<LogRoom, AllocError>
        ensures { IfOk result (IsLogRoom layout.slots) }
    {
        let bytes = vec![in alloc; 0; SLOT_BYTES * layout.slots as usize]?;
        Ok(LogRoom { bytes })
    }
}
