// Room for the bytes of a batch.
ghost use Rattle.std.specs.Prelude.{◌≡◌, length};
ghost use Rattle.tmem_record.specs.declared.codec.TheConstants.{SLOT_BODY_BYTES};

use std::alloc::{AllocError, Global};
use tmem_record::SLOT_BODY_BYTES;

/// As many bytes as the longest batch has. Each use writes over those of the last one.
#[derive(Drop)]
pub(crate) struct Buffer {
    pub(crate) bytes: Vec<u8>,
    ghost room: { length bytes.items ≡ SLOT_BODY_BYTES },
}

impl Buffer {
    pub(crate) fn zeroed(alloc: Global) -> Result<Buffer, AllocError> {
        Ok(Buffer {
            bytes: vec![in alloc; 0; SLOT_BODY_BYTES]?,
        })
    }
}
