//! Why a file could not be used.
ghost use Rattle.std.specs.Prelude.{◌≡◌, ◌↔◌, ◌<◌, ◌≤◌, [], true, Some, IsTrue, IsOk, IfErr, IfSome};
ghost use Rattle.std.specs.Fs.{IsDir};
ghost use Rattle.std.specs.IoError.{error_kind, raw_os_error};
ghost use Rattle.tmem_explain.specs.Causes.{call_cause, last_byte, link_cause, may_be_told};

use std::fmt;
use std::fs::{self, File, FileType, Files, OpenOptions, TryLockError};
use std::io::{self, ErrorKind, Seek, SeekFrom};
use std::os::unix::fs::{FileExt, FileTypeExt, MetadataExt};
use std::path::Path;

// So many bytes are read or written at once, and so often a file is read: the longest store has 283,136 bytes.
const PIECE_BYTES: usize = 4096;

const MOST_PIECES: u64 = 70;

// Under so many names it is tried whether a file can be made, where others are left over.
const MOST_TRIES: u8 = 9;

// The number by which the system tells an error of a disk (EIO).
const DISK_ERROR: i32 = 5;

/// Why a file could not be used, and what to do. Its text stands behind the path.
#[derive(Clone, Copy, Debug, PartialEq, Eq)]
pub enum DeviceCause {
    /// The path is empty.
    Empty,
    /// Another program has it open.
    Locked,
    Folder,
    /// It is no file and no block device.
    NoFile,
    /// Nothing has the path.
    Missing,
    /// A link to nothing has the path.
    DeadLink,
    /// Something has the path.
    There,
    /// A new file was to be made, and the file that has the path has a second name.
    NameInDoubt,
    MissingFolder,
    /// A part of it that is used as a folder is none.
    NoFolder,
    /// The path ends as that of a folder does.
    Slash,
    /// No file may be made in its folder.
    ClosedFolder,
    /// Its file system makes no hard links.
    NoLinks,
    /// It is a block device of no bytes.
    NoBytes,
    /// It has a second name, and its folder cannot be synced.
    SecondName,
    /// A call of the system is refused.
    Call(CallCause),
}

/// Why a call of the system was refused.
#[derive(Clone, Copy, Debug, PartialEq, Eq)]
pub enum CallCause {
    NoPermission,
    ReadOnly,
    NoRoom,
    LongName,
    /// The process may not write a file so long.
    Limit,
    /// Links lead in a circle.
    Circle,
    /// The disk failed.
    DiskError,
    /// Something else, or nothing is refused when it is tried again.
    Other,
}

impl CallCause {
    /// What an error of the system tells.
    pub fn of(error: io::Error) -> CallCause
        ensures { result ≡ call_cause (error_kind error) (raw_os_error error) }
    {
        match error.kind() {
            ErrorKind::PermissionDenied => CallCause::NoPermission,
            ErrorKind::ReadOnlyFilesystem => CallCause::ReadOnly,
            ErrorKind::StorageFull | ErrorKind::QuotaExceeded => CallCause::NoRoom,
            ErrorKind::InvalidFilename => CallCause::LongName,
            ErrorKind::FileTooLarge => CallCause::Limit,
            ErrorKind::FilesystemLoop => CallCause::Circle,
            _ if error.raw_os_error() == Some(DISK_ERROR) => CallCause::DiskError,
            _ => CallCause::Other,
        }
    }
}

impl fmt::Display for CallCause {
    ghost use Rattle.std.specs.Prelude.{Some};
    ghost use Rattle.tmem_explain.specs.Causes.{call_help};

    ghost output = { λ cause. Some (call_help cause) };

    fn fmt<W: fmt::Write>(&self, f: &mut fmt::Formatter<W>) -> fmt::Result {
        f.write_str(match self {
            CallCause::NoPermission =>
                "this user may not use it; look at its rights, at those of each folder on the path, and at its attributes (lsattr), and change what forbids it, or run as its owner",
            CallCause::ReadOnly =>
                "its file system is mounted read-only; look why (dmesg), and mount it for writing; only for a new file name a path on another",
            CallCause::NoRoom =>
                "there is no room on its file system, or no quota is left; free some (df, df -i, quota); only for a new file name a path on another",
            CallCause::LongName =>
                "the path or its last part is too long; name one whose last part has at most 250 bytes, for init 245 (STORE.json)",
            CallCause::Limit =>
                "this process may not write a file so long (ulimit -f); raise that limit, and run the program again",
            CallCause::Circle => "links on this path lead in a circle; mend them, or name the file",
            CallCause::DiskError =>
                "the disk reports an error (EIO, see dmesg); copy what was there to a new file on another disk, not onto a device: a file by cp, of a block device the first 286720 bytes by dd iflag=direct with bs of blockdev --getss, never conv=noerror; use that if it was copied to its end or, of a store, if tmem show --explain finds no transaction of it missing; only else use a backup (what that lacks is lost); make a new one only if there was none",
            CallCause::Other =>
                "a call on it failed, for a reason that is not seen now; if another program was just making it, run this one again; else look at its rights, at room (df), at limits (ulimit -f, ulimit -n), whether it is read-only, into the system's log (dmesg), and for files PATH.new0 to PATH.new999 that are left over (remove them while nothing makes a store and, if PATH is there, only once it was opened); open or make it again, after an error of the disk once the machine was started anew; if a store fails so again, end each program that uses it, copy it to a new file on another disk, and sync that; only if it was copied to its end, use that copy alone from then on",
        })
    }
}

impl fmt::Display for DeviceCause {
    ghost use Rattle.std.specs.Prelude.{Some};
    ghost use Rattle.tmem_explain.specs.Causes.{device_help};

    ghost output = { λ cause. Some (device_help cause) };

    fn fmt<W: fmt::Write>(&self, f: &mut fmt::Formatter<W>) -> fmt::Result {
        let text = match self {
            DeviceCause::Empty => "the path is empty; name a file",
            DeviceCause::Locked =>
                "another program has it open (fuser or lsof says which); wait until that ends, or end it if it is not wanted",
            DeviceCause::Folder => "it is a folder; name a file",
            DeviceCause::NoFile => "it is no file and no block device; name one",
            DeviceCause::Missing =>
                "nothing has this path; check it, and that its disk is mounted (findmnt)",
            DeviceCause::DeadLink =>
                "it is a link to nothing; look whether the disk that it leads to is mounted (findmnt), mend the link, or name a file",
            DeviceCause::There =>
                "something has this path, and a new file was to be made; name another path",
            DeviceCause::NameInDoubt =>
                "it has a second name, as a new file has (PATH.new0) until its folder is synced; if it may have been there before, name another path, and remove nothing; only if it surely was not, this run made it, and that sync failed: look into the system's log (dmesg), and then remove both names",
            DeviceCause::MissingFolder =>
                "its folder is not there; check the path, and that its disk is mounted (findmnt); make the folder only for a new file",
            DeviceCause::NoFolder =>
                "a part of this path, or of a link on it, is used as a folder and is none; check the path",
            DeviceCause::Slash => "it ends in /, as the path of a folder does; name a file",
            DeviceCause::ClosedFolder =>
                "this user may not make a file in its folder, or not read it, as its sync needs; change the folder's rights or attributes (lsattr), or name a path in another",
            DeviceCause::NoLinks =>
                "its file system makes no hard links, by which a new file gets its name; name a path on another",
            DeviceCause::NoBytes =>
                "the device has 0 bytes; look whether anything is attached to it, or what should be to another one (lsblk, losetup -l)",
            DeviceCause::SecondName =>
                "it has a second name, as a new file NAME (readlink -f tells it) has NAME.new0 until its folder is synced, and that sync failed; if this user may not read the folder, change that, or let one who may do it (sync FOLDER), and then remove NAME.new0, never NAME, and only if ls -i shows the same number for both (find FOLDER -samefile NAME tells other names); if it fails otherwise, look into the system's log (dmesg)",
            DeviceCause::Call(cause) => return cause.fmt(f),
        };
        f.write_str(text)
    }
}

/// What was to have a path.
#[derive(Clone, Copy, Debug, PartialEq, Eq)]
pub enum Wanted {
    /// What is there, for reading alone.
    Read,
    /// What is there.
    Found,
    /// What is there, and this program has it open, or had it.
    Held,
    /// What is there, or else a new file.
    FoundOrMade,
    /// A new file.
    Made,
}

/// Why a path could not be used so: what has it is looked at and read, and asked for its lock, which is given back. Where a new file of
/// so many bytes was to be made, one is made beside the path, and removed.
pub fn cause_of<R: Files<File = File> + AllocGlobal>(
    rt: &R,
    path: &str,
    wanted: Wanted,
    size: u64,
) -> DeviceCause
    ensures empty { path.now ≡ [] → result ≡ DeviceCause.Empty }
    ensures told { may_be_told wanted result ≡ true }
{
    if path.is_empty() {
        return DeviceCause::Empty;
    }
    match fs::metadata(rt, path) {
        Ok(found) if wanted == Wanted::Made => cause_of_there(found.is_file(), found.nlink()),
        Ok(found) => cause_of_found(rt, path, wanted, found.file_type()),
        Err(error) => match error.kind() {
            ErrorKind::NotFound => cause_of_missing(rt, path, wanted, size),
            ErrorKind::NotADirectory if ends_in_slash(path) => DeviceCause::Slash,
            ErrorKind::NotADirectory => DeviceCause::NoFolder,
            _ => DeviceCause::Call(CallCause::of(error)),
        },
    }
}

// Why no new file was made where a file or something else is found, which has so many names. It may be new, if only the sync of its folder
// failed. Another sync of that would show nothing: behind one that failed it may succeed.
fn cause_of_there(is_file: bool, names: u64) -> DeviceCause
    ensures told { may_be_told Wanted.Made result ≡ true }
    ensures in_doubt { IsTrue is_file → 1 < names → result ≡ DeviceCause.NameInDoubt }
    ensures other { ¬ IsTrue is_file → result ≡ DeviceCause.There }
    ensures one_name { names ≤ 1 → result ≡ DeviceCause.There }
{
    if is_file && names > 1 {
        DeviceCause::NameInDoubt
    } else {
        DeviceCause::There
    }
}

fn ends_in_slash(path: &str) -> bool
    ensures { IsTrue result ↔ (last_byte path.now ≡ Some 47) }
{
    path.as_bytes().last().copied() == Some(b'/')
}

// The same where nothing is found at a path.
fn cause_of_missing<R: Files<File = File> + AllocGlobal>(
    rt: &R,
    path: &str,
    wanted: Wanted,
    size: u64,
) -> DeviceCause
    ensures { may_be_told wanted result ≡ true }
{
    if fs::symlink_metadata(rt, path).is_ok() {
        return DeviceCause::DeadLink;
    }
    let folder = match Path::new(path).parent() {
        Some(folder) if !folder.as_os_str().is_empty() => fs::metadata(rt, folder),
        _ => fs::metadata(rt, "."),
    };
    if folder.is_err() {
        return DeviceCause::MissingFolder;
    }
    match wanted {
        Wanted::Made | Wanted::FoundOrMade => {
            if ends_in_slash(path) {
                DeviceCause::Slash
            } else if is_folder_closed(rt, path) {
                DeviceCause::ClosedFolder
            } else {
                cause_of_making(rt, path, size)
            }
        }
        _ => DeviceCause::Missing,
    }
}

// Whether this user may not read the folder of a path, which has to be synced where a file is made.
fn is_folder_closed<R: Files<File = File>>(rt: &R, path: &str) -> bool {
    match open_folder(rt, path) {
        Ok(_) => false,
        Err(error) => error.kind() == ErrorKind::PermissionDenied,
    }
}

// Opens the folder of a path.
fn open_folder<R: Files<File = File>>(rt: &R, path: &str) -> io::Result<File> {
    match Path::new(path).parent() {
        Some(folder) if !folder.as_os_str().is_empty() => File::open(rt, folder),
        _ => File::open(rt, "."),
    }
}

// Why no file of so many bytes can be made beside a path. Names that something has are passed over.
fn cause_of_making<R: Files<File = File> + AllocGlobal>(
    rt: &R,
    path: &str,
    size: u64,
) -> DeviceCause
    ensures told { may_be_told Wanted.Made result ≡ true }
    ensures or_found { may_be_told Wanted.FoundOrMade result ≡ true }
{
    for number in 0..MOST_TRIES {
        if let Some(cause) = cause_of_trying(rt, path, size, number) {
            return cause;
        }
    }
    DeviceCause::Call(CallCause::Other)
}

// The same by the name of this number and the next, unless something has one of these.
fn cause_of_trying<R: Files<File = File> + AllocGlobal>(
    rt: &R,
    path: &str,
    size: u64,
    number: u8,
) -> Option<DeviceCause>
    requires { number < 9 }
    ensures told { IfSome result (λ cause. may_be_told Wanted.Made cause ≡ true) }
    ensures or_found { IfSome result (λ cause. may_be_told Wanted.FoundOrMade cause ≡ true) }
{
    let next = number + 1;
    let name = format!(in rt.alloc(); "{path}.try{number}");
    let link = format!(in rt.alloc(); "{path}.try{next}");
    let (Ok(name), Ok(link)) = (&name, &link) else {
        return Some(DeviceCause::Call(CallCause::Other));
    };
    cause_of_names(rt, name.as_str(), link.as_str(), size)
}

// The same by these names.
fn cause_of_names<R: Files<File = File>>(
    rt: &R,
    name: &str,
    link: &str,
    size: u64,
) -> Option<DeviceCause>
    ensures told { IfSome result (λ cause. may_be_told Wanted.Made cause ≡ true) }
    ensures or_found { IfSome result (λ cause. may_be_told Wanted.FoundOrMade cause ≡ true) }
{
    match File::create_new(rt, name) {
        Ok(file) => cause_of_file(rt, &file, name, link, size),
        Err(error) => match error.kind() {
            ErrorKind::AlreadyExists => None,
            ErrorKind::PermissionDenied => Some(DeviceCause::ClosedFolder),
            _ => Some(DeviceCause::Call(CallCause::of(error))),
        },
    }
}

// The same where the file of the first name was made. It is removed.
fn cause_of_file<R: Files<File = File>>(
    rt: &R,
    file: &File,
    name: &str,
    link: &str,
    size: u64,
) -> Option<DeviceCause>
    ensures told { IfSome result (λ cause. may_be_told Wanted.Made cause ≡ true) }
    ensures or_found { IfSome result (λ cause. may_be_told Wanted.FoundOrMade cause ≡ true) }
{
    let filled = fill(file, size);
    let linked = fs::hard_link(rt, name, link);
    // What cannot be removed is left: nothing reads it.
    let _ = fs::remove_file(rt, name);
    if linked.is_ok() {
        let _ = fs::remove_file(rt, link);
    }
    if filled.is_ok() && is_taken(&linked) {
        return None;
    }
    Some(cause_of_made(filled, linked))
}

// Whether a link was not made because something has its name.
fn is_taken(linked: &io::Result<()>) -> bool {
    match linked {
        Ok(()) => false,
        Err(error) => error.kind() == ErrorKind::AlreadyExists,
    }
}

// Why a file was not made that was filled and then linked so.
fn cause_of_made(filled: io::Result<()>, linked: io::Result<()>) -> DeviceCause
    ensures filled { IfErr filled (λ why. result ≡ DeviceCause.Call (call_cause (error_kind why) (raw_os_error why))) }
    ensures linked { IsOk filled → IfErr linked (λ why. result ≡ link_cause (error_kind why) (raw_os_error why)) }
    ensures made { IsOk filled → IsOk linked → result ≡ DeviceCause.Call CallCause.Other }
{
    let error = match (filled, linked) {
        (Err(error), _) => error,
        (Ok(()), Err(error)) => match error.kind() {
            ErrorKind::PermissionDenied | ErrorKind::Unsupported => return DeviceCause::NoLinks,
            _ => error,
        },
        (Ok(()), Ok(())) => return DeviceCause::Call(CallCause::Other),
    };
    DeviceCause::Call(CallCause::of(error))
}

// Writes so many zeros.
fn fill(file: &File, size: u64) -> io::Result<()> {
    let zeros = [0u8; PIECE_BYTES];
    let mut done = 0;
    while done < size {
        let n = (size - done).min(PIECE_BYTES as u64) as usize;
        file.write_all_at(&zeros[..n], done)?;
        done += n as u64;
    }
    file.sync_all()
}

// Why what is there could not be used.
fn cause_of_found<R: Files<File = File> + AllocGlobal>(
    rt: &R,
    path: &str,
    wanted: Wanted,
    kind: FileType,
) -> DeviceCause
    ensures told { may_be_told wanted result ≡ true }
    ensures folder { IsDir kind → result ≡ DeviceCause.Folder }
{
    if kind.is_dir() {
        return DeviceCause::Folder;
    }
    if !kind.is_file() && !kind.is_block_device() {
        return DeviceCause::NoFile;
    }
    let writes = wanted != Wanted::Read;
    match OpenOptions::new().read(true).write(writes).open(rt, path) {
        Ok(file) => cause_of_opened(rt, path, wanted, kind, &file),
        Err(error) => DeviceCause::Call(CallCause::of(error)),
    }
}

// The same of what was opened.
fn cause_of_opened<R: Files<File = File> + AllocGlobal>(
    rt: &R,
    path: &str,
    wanted: Wanted,
    kind: FileType,
    file: &File,
) -> DeviceCause
    ensures { may_be_told wanted result ≡ true }
{
    if may_be_locked(wanted) && is_locked(file) {
        return DeviceCause::Locked;
    }
    if kind.is_block_device() && has_no_bytes(file) {
        return DeviceCause::NoBytes;
    }
    if may_be_named_twice(wanted) && is_name_in_doubt(rt, path, file) {
        return DeviceCause::SecondName;
    }
    cause_of_open(file, wanted != Wanted::Read)
}

// Whether another program may have it open where it was wanted so: not where it is read alone, or this program has it open.
fn may_be_locked(wanted: Wanted) -> bool
    ensures { result ≡ may_be_told wanted DeviceCause.Locked }
{
    matches!(wanted, Wanted::Found | Wanted::FoundOrMade)
}

// Whether a second name may be why, where it was wanted so: what is opened for use has its folder synced then.
fn may_be_named_twice(wanted: Wanted) -> bool
    ensures { result ≡ may_be_told wanted DeviceCause.SecondName }
{
    matches!(wanted, Wanted::Found | Wanted::Held | Wanted::FoundOrMade)
}

// Whether a file has a second name, and the folder in which it stands cannot be synced.
fn is_name_in_doubt<R: Files<File = File> + AllocGlobal>(rt: &R, path: &str, file: &File) -> bool {
    match file.metadata() {
        Ok(found) => found.nlink() > 1 && sync_folder(rt, path).is_err(),
        Err(_) => false,
    }
}

// Syncs the folder in which a file stands. Where a link leads to the file, that is not the link's.
fn sync_folder<R: Files<File = File> + AllocGlobal>(rt: &R, path: &str) -> io::Result<()> {
    let own_path = rt.canonicalize(rt.alloc(), path)?;
    open_folder(rt, own_path.as_str())?.sync_all()
}

fn is_locked(file: &File) -> bool {
    matches!(file.try_lock(), Err(TryLockError::WouldBlock))
}

fn has_no_bytes(mut file: &File) -> bool {
    match file.seek(SeekFrom::End(0)) {
        Ok(size) => size == 0,
        Err(_) => false,
    }
}

// Why what was opened could not be used. It is read, and synced where it was opened for writing.
fn cause_of_open(file: &File, writes: bool) -> DeviceCause
    ensures { (wanted : Wanted) → may_be_told wanted result ≡ true }
{
    match (read_through(file), writes) {
        (Err(error), _) => DeviceCause::Call(CallCause::of(error)),
        (Ok(()), false) => DeviceCause::Call(CallCause::Other),
        (Ok(()), true) => match file.sync_all() {
            Ok(()) => DeviceCause::Call(CallCause::Other),
            Err(error) => DeviceCause::Call(CallCause::of(error)),
        },
    }
}

// Reads as much as the longest store has.
fn read_through(file: &File) -> io::Result<()> {
    let mut piece = [0u8; PIECE_BYTES];
    for k in 0..MOST_PIECES {
        if file.read_at(&mut piece, k * PIECE_BYTES as u64)? < PIECE_BYTES {
            return Ok(());
        }
    }
    Ok(())
}
