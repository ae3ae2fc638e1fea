// Ranges of a buffer that are written over.
ghost use Rattle.std.specs.Prelude.{◌≡◌, ◌≤◌, ◌+◌, length, replicate};
ghost use Rattle.tmem_disk.specs.Disk.{overwritten};

/// Writes over the bytes from an offset on.
pub(crate) fn overwrite(buffer: &mut Vec<u8>, from: usize, bytes: &[u8])
    requires { from + length bytes.now ≤ length buffer.old.items }
    ensures { buffer.new.items ≡ overwritten buffer.old.items from bytes.now }
{
    buffer[from..from + bytes.len()].copy_from_slice(bytes);
}

/// Sets whether so many bytes from an offset on are unsynced.
pub(crate) fn set_unsynced(unsynced: &mut Vec<bool>, from: usize, count: usize, is_unsynced: bool)
    requires { from + count ≤ length unsynced.old.items }
    ensures { unsynced.new.items ≡ overwritten unsynced.old.items from (replicate count is_unsynced) }
{
    unsynced[from..from + count].fill(is_unsynced);
}
