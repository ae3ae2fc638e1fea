// Memory for an image that is read.
ghost use Rattle.std.specs.Prelude.{IfOk};
ghost use Rattle.tmem_image.specs.Room.{IsImageRoom};

use std::alloc::{AllocError, Global};
use tmem_record::Layout;
use tmem_state::NameSet;

/// Memory for an image that is read, all of it: so reading takes none.
#[derive(Drop)]
pub struct ImageRoom {
    pub(crate) bytes: Vec<u8>,
    pub(crate) names: NameSet,
    pub(crate) values: Vec<i64>,
}

impl ImageRoom {
    /// Room for one image of this layout.
    pub fn new(alloc: Global, layout: Layout) -> Result<ImageRoom, AllocError>
        ensures { IfOk result (IsImageRoom layout.vars) }
    {
        let bytes = vec![in alloc; 0; layout.image_size() as usize]?;
        let names = NameSet::new(alloc)?;
        let values = Vec::with_capacity(alloc, layout.vars as usize)?;
        Ok(ImageRoom {
            bytes,
            names,
            values,
        })
    }
}
