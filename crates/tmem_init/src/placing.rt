//! How a new store gets to its place.
ghost use Rattle.std.specs.Prelude.{◌≡◌, ◌≢◌, ◌∷◌, ◌≤◌, ◌↔◌, ℕ, List, length, drop, take, IsTrue, IfOk, IfErr, MatchResult, OnOk};
ghost use Rattle.std.specs.IoError.{error_kind};
ghost use Rattle.tmem_disk.specs.Disk.{AtEachMoment, IsSynced, ReadsAs, overwritten};
ghost use Rattle.tmem_gate.specs.Calls.{OnlyReads};
ghost use Rattle.tmem_gate.specs.Gate.{IsOpenAt};
ghost use Rattle.tmem_gate.specs.declared.gate.TheConstants.{GATE_OPEN};
ghost use Rattle.tmem_file.specs.FileView.{file_view};
ghost use Rattle.tmem_init.specs.Placed.{FindsOther, IsBetween, IsBlankFor, IsEarly, IsPutOnBlank, LeftByMaking};

use crate::error::InitError;
use std::alloc::Global;
use std::fs::{self, File, Files};
use std::io::{self, ErrorKind};
use tmem_disk::Disk;
use tmem_fault::Fault;
use tmem_file::{FileDisk, NewFile};
use tmem_gate::device::read_piece;
use tmem_gate::put_cell;

// Makes a file of this content, behind the text that it was made of: the text gets the path with `.json` behind it, and then the file
// gets its path, each once it is whole and synced. Where that was cut off behind the first step, it goes on with the second. Refused,
// before anything is made, by `StoreIsThere` where something has the path, and as `same_text` says where something has the other one;
// and by `Refused` for want of memory and where a call fails.
pub(crate) fn place_store<R: Files<File = File> + AllocGlobal>(
    rt: &R,
    path: &str,
    text: &[u8],
    content: &[u8],
) -> Result<FileDisk, InitError>
    ensures holds { IfOk result (λ disk. ReadsAs (file_view disk) content.now) }
    ensures synced { IfOk result (λ disk. IsSynced (file_view disk)) }
{
    if is_there(rt, path) {
        return Err(InitError::StoreIsThere);
    }
    place_text(rt, path, text)?;
    Ok(place(rt, path, content)?)
}

// Puts the text of a store beside it, where it does not stand there.
fn place_text<R: Files<File = File> + AllocGlobal>(
    rt: &R,
    path: &str,
    text: &[u8],
) -> Result<(), InitError> {
    let beside = format!(in rt.alloc(); "{path}.json")?;
    if is_there(rt, beside.as_str()) {
        return same_text(fs::read(rt, beside.as_str()), text);
    }
    place(rt, beside.as_str(), text)?;
    Ok(())
}

// Whether the text that was found beside a store is this one. Refused by `TextIsThere` where it is another, by `TextUnread` where it
// could not be read, and by `Refused` with `Memory`.
fn same_text(found: io::Result<Vec<u8>>, text: &[u8]) -> Result<(), InitError>
    ensures read { IfOk found (λ bytes. MatchResult result (λ _. bytes.items ≡ text.now) (λ e. (e ≡ InitError.TextIsThere) × (bytes.items ≢ text.now))) }
    ensures unread { IfErr found (λ why. error_kind why ≢ ErrorKind.OutOfMemory → result ≡ Err (InitError.TextUnread why)) }
    ensures memory { IfErr found (λ why. error_kind why ≡ ErrorKind.OutOfMemory → result ≡ Err (InitError.Refused Fault.Memory)) }
{
    match found {
        Ok(bytes) if bytes.as_slice() == text => Ok(()),
        Ok(_) => Err(InitError::TextIsThere),
        Err(why) if why.kind() == ErrorKind::OutOfMemory => Err(InitError::Refused(Fault::Memory)),
        Err(why) => Err(InitError::TextUnread(why)),
    }
}

// Whether something has a path.
fn is_there<R: Files<File = File>>(rt: &R, path: &str) -> bool {
    fs::symlink_metadata(rt, path).is_ok()
}

// Makes a new file of these bytes, which gets its path once they are synced.
fn place<R: Files<File = File> + AllocGlobal>(
    rt: &R,
    path: &str,
    bytes: &[u8],
) -> Result<FileDisk, Fault>
    ensures holds { IfOk result (λ disk. ReadsAs (file_view disk) bytes.now) }
    ensures synced { IfOk result (λ disk. IsSynced (file_view disk)) }
{
    let mut new = NewFile::create(rt, path, bytes.len() as u64)?;
    match new.disk.write_at(0, bytes) {
        Ok(()) => new.give_name(rt),
        Err(_) => {
            new.discard(rt);
            Err(Fault::Device)
        }
    }
}

// Puts this content into the first bytes of a file or a block device that is there, as `put_on` does.
pub(crate) fn place_in<R: Files<File = File> + AllocGlobal>(
    rt: &R,
    path: &str,
    content: &[u8],
) -> Result<FileDisk, InitError>
    requires { IsOpenAt 0 content.now }
    ensures holds { IfOk result (λ disk. ReadsAs (file_view disk) content.now) }
    ensures synced { IfOk result (λ disk. IsSynced (file_view disk)) }
    ensures put { IfOk result (λ disk. IsPutOnBlank content.now (file_view disk)) }
    ensures not_blank { result ≡ Err InitError.NotBlank → FindsOther content.now }
{
    let mut disk = FileDisk::open(rt, path, content.len() as u64)?;
    put_on(rt.alloc(), &mut disk, content)?;
    Ok(disk)
}

/// Puts a content into the first bytes of a device of which everything is synced, and nothing behind them is read or written. The gate
/// of block 0 is opened last, once all else is synced. Refused, before anything is written, by `NotBlank` unless that gate reads 0, and
/// each byte behind it reads 0 or as it would be written; and by `Refused`: with `Geometry` where the device is too small, with
/// `Memory`, and with `Device` or `Unknown` where a call of it failed.
pub fn put_on<D: Disk>(alloc: Global, disk: &mut D, content: &[u8]) -> Result<(), InitError>
    requires some { 1 ≤ length content.now }
    requires synced { IsSynced (D.view disk.old) }
    ensures room { OnOk result (length content.now ≤ (D.view disk.old).capacity) }
    ensures model { (D.view disk.new).keeps_model → (D.view disk.old).keeps_model }
    ensures made { OnOk result (ReadsAs (D.view disk.new) (overwritten (D.view disk.old).seen 0 (GATE_OPEN ∷ drop 1 content.now))) }
    ensures synced { OnOk result (IsSynced (D.view disk.new)) }
    ensures blank { OnOk result ((D.view disk.new).keeps_model → IsBlankFor content.now (take (length content.now) (D.view disk.old).seen)) }
    ensures not_blank { result ≡ Err InitError.NotBlank → (D.view disk.new).keeps_model → ¬ IsBlankFor content.now (take (length content.now) (D.view disk.old).seen) }

    // Where it is refused for another reason than a failed call, nothing was written. And a crash at any moment leaves what one might
    // have left before, or block 0 closed, or the whole content.
    ensures early { IfErr result (λ error. IsEarly error → OnlyReads (D.view disk.old) (D.view disk.new)) }
    ensures any_moment { AtEachMoment (D.view disk.old) (D.view disk.new) (LeftByMaking content.now (D.view disk.old)) }
{
    if disk.size() < content.len() as u64 {
        return Err(InitError::Refused(Fault::Geometry));
    }
    if !is_blank_for(alloc, disk, content)? {
        return Err(InitError::NotBlank);
    }
    put_cell(disk, 0, &content[1..])?;
    Ok(())
}

// Whether this content may be put into the first bytes of a device.
fn is_blank_for<D: Disk>(alloc: Global, disk: &mut D, content: &[u8]) -> Result<bool, Fault>
    requires some { 1 ≤ length content.now }
    requires room { length content.now ≤ (D.view disk.old).capacity }
    ensures capacity { (D.view disk.new).capacity ≡ (D.view disk.old).capacity }
    ensures model { (D.view disk.new).keeps_model → (D.view disk.old).keeps_model }
    ensures reads_only { OnlyReads (D.view disk.old) (D.view disk.new) }
    ensures blank { IfOk result (λ yes. (D.view disk.new).keeps_model → IsTrue yes ↔ IsBlankFor content.now (take (length content.now) (D.view disk.old).seen)) }
{
    let found = vec![in alloc; 0; content.len()]?;
    let found = read_piece(disk, 0, found)?;
    Ok(may_begin(&found, content))
}

// Whether bytes are zeros, or what is left of this content where making it was cut off.
fn may_begin(found: &[u8], content: &[u8]) -> bool
    requires some { 1 ≤ length content.now }
    requires long { length found.now ≡ length content.now }
    ensures { IsTrue result ↔ IsBlankFor content.now found.now }
{
    if found[0] != 0 {
        return false;
    }
    for (i, byte) in found.iter().enumerate() {
        if *byte != 0 && *byte != content[i] {
            return false;
        }
    }
    true
}

/// What is left where `put_on` was cut off may be begun again, with the same content: where each byte is as it was before or as it would
/// be written, as it is after a kill. It does nothing: a caller's proof takes the law from its contract.
pub fn cut_off_begins_again()
    ensures { (content found left : List ℕ) → IsBlankFor content found → IsBetween content found left → IsBlankFor content left }
{}
