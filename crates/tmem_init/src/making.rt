//! A new store, from its invariants to its place.
ghost use Rattle.std.specs.Prelude.{◌≡◌, ℕ, List, IfOk};
ghost use Rattle.tmem_file.specs.FileView.{file_view};
ghost use Rattle.tmem_init.specs.Content.{IsContent, IsNewStore};
ghost use Rattle.tmem_init.specs.Placed.{FindsOther, IsPutOnBlank};

use crate::content::content_of;
use crate::error::InitError;
use crate::placing::{place_in, place_store};
use std::fs::{File, Files};
use tmem_fault::Name;
use tmem_file::FileDisk;
use tmem_invariants::Invariants;
use tmem_record::Layout;
use tmem_tree::StoredSteps;

/// Makes a store in a new file: every variable is 0, and these invariants of the table are registered. The text that it is made of gets
/// the store's path with `.json` behind it, and then the store gets its path, each once it is whole and synced. Where that was cut off
/// behind the first step, it goes on with the second. Refused, before anything is made, by `Refused` with `Broken` where one of these
/// invariants is false where every variable is 0, by `StoreIsThere` where something has the store's path, and where something has the
/// other one, by `TextIsThere` if it is not this text, and by `TextUnread` if it cannot be read; and by `Refused` for want of memory and
/// where a call fails.
pub fn make_store<R: Files<File = File> + AllocGlobal, T: Invariants + Drop, S: StoredSteps + Drop>(
    rt: &R,
    path: &str,
    text: &[u8],
    layout: Layout,
    table: T,
    steps: S,
    always: &[Name],
) -> Result<FileDisk, InitError>
    requires { T.vars table ≡ layout.vars }
    ensures { IfOk result (λ disk. IsNewStore layout.vars layout.slots always.now (file_view disk)) }
{
    let content = content_of(rt.alloc(), layout, table, steps, always)?;
    place_store(rt, path, text, &content)
}

/// Makes a store in a file or a block device that is there: in its first bytes, and nothing behind them is read or written. Refused, and
/// begun again where it was cut off, as `put_on` says; and by `Refused` with `Device` where the file is missing, is no regular file and
/// no block device, may not be read and written, or is open as a device already, and with `Broken` as `make_store` is.
pub fn make_in_place<
    R: Files<File = File> + AllocGlobal,
    T: Invariants + Drop,
    S: StoredSteps + Drop,
>(
    rt: &R,
    path: &str,
    layout: Layout,
    table: T,
    steps: S,
    always: &[Name],
) -> Result<FileDisk, InitError>
    requires { T.vars table ≡ layout.vars }
    ensures new { IfOk result (λ disk. IsNewStore layout.vars layout.slots always.now (file_view disk)) }
    ensures put { IfOk result (λ disk. (content : List ℕ) × IsContent layout.vars layout.slots always.now content × IsPutOnBlank content (file_view disk)) }
    ensures not_blank { result ≡ Err InitError.NotBlank → (content : List ℕ) × IsContent layout.vars layout.slots always.now content × FindsOther content }
{
    let content = content_of(rt.alloc(), layout, table, steps, always)?;
    place_in(rt, path, &content)
}
