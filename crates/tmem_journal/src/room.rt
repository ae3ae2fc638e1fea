// The memory of a journal.
ghost use Rattle.std.specs.Prelude.{IfOk};
ghost use Rattle.tmem_image.specs.Room.{IsImageRoom};
ghost use Rattle.tmem_redolog.specs.Room.{IsLogRoom};

use crate::buffer::Buffer;
use std::alloc::{AllocError, Global};
use tmem_image::ImageRoom;
use tmem_record::Layout;
use tmem_redolog::LogRoom;

/// All the memory that opening takes: for the image and the log that it reads, and for the bytes of each batch that is
/// flushed later.
#[derive(Drop)]
pub(crate) struct Room {
    pub(crate) image: ImageRoom,
    pub(crate) log: LogRoom,
    pub(crate) buffer: Buffer,
}

impl Room {
    pub(crate) fn new(alloc: Global, layout: Layout) -> Result<Room, AllocError>
        ensures image { IfOk result (λ room. IsImageRoom layout.vars room.image) }
        ensures log { IfOk result (λ room. IsLogRoom layout.slots room.log) }
    {
        let image = ImageRoom::new(alloc, layout)?;
        let log = LogRoom::new(alloc, layout)?;
        let buffer = Buffer::zeroed(alloc)?;
        Ok(Room { image, log, buffer })
    }
}
