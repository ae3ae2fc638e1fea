// The calls of the system that open, lock, make and name files.
ghost use Rattle.std.specs.Prelude.{◌≡◌, ◌⊎◌, ◌↔◌, ◌<◌, pos, IsTrue, IfOk, IfErr};
ghost use Rattle.std.specs.Int.Signed.{◌<ℤ◌};
ghost use Rattle.std.specs.Fd.{file_raw_fd};

use std::fs::{self, File, FileType, Files, OpenOptions};
use std::io::{self, ErrorKind, Seek, SeekFrom};
use std::os::fd::AsRawFd;
use std::os::unix::fs::{FileTypeExt, MetadataExt};
use std::path::Path;
use tmem_fault::Fault;

// The number of standard error, the last of the standard streams.
const LAST_STREAM: i32 = 2;

// So many files that were left over of one name are passed over.
const MOST_LEFT_OVER: u32 = 1000;

/// Opens a regular file or a block device. A link to one is followed. Nothing else is opened, since to open another device may
/// already do something.
pub(crate) fn open_there<R: Files<File = File>>(rt: &R, path: &str) -> io::Result<File> {
    if !may_hold_store(fs::metadata(rt, path)?.file_type()) {
        return Err(io::Error::from(ErrorKind::InvalidInput));
    }
    OpenOptions::new().read(true).write(true).open(rt, path)
}

// Whether a store may be kept in a file of this type.
fn may_hold_store(kind: FileType) -> bool {
    kind.is_file() || kind.is_block_device()
}

/// How many bytes an open file has. The system's metadata say 0 of a block device, so it is where a seek to the end goes.
pub(crate) fn size_of(mut file: &File) -> io::Result<u64> {
    file.seek(SeekFrom::End(0))
}

/// Makes a file that was not there, beside a name, and answers its own name too.
pub(crate) fn make_beside<R: Files<File = File> + AllocGlobal>(
    rt: &R,
    path: &str,
) -> Result<(File, String), Fault>
    ensures { IfErr result (λ fault. (fault ≡ Fault.Memory) ⊎ (fault ≡ Fault.Device)) }
{
    for number in 0..MOST_LEFT_OVER {
        let name = format!(in rt.alloc(); "{path}.new{number}")?;
        match File::create_new(rt, name.as_str()) {
            Ok(file) => return Ok((file, name)),
            Err(error) if error.kind() == ErrorKind::AlreadyExists => {}
            Err(_) => return Err(Fault::Device),
        }
    }
    Err(Fault::Device)
}

/// Opens the folder of a name.
pub(crate) fn open_folder<R: Files<File = File>>(rt: &R, path: &str) -> io::Result<File> {
    match Path::new(path).parent() {
        Some(folder) if !folder.as_os_str().is_empty() => File::open(rt, folder),
        _ => File::open(rt, "."),
    }
}

/// Has the system put on the disk that an open file stands in its folder, where that is in doubt: a new file has a second name until its
/// folder is synced.
pub(crate) fn keep_name<R: Files<File = File> + AllocGlobal>(
    rt: &R,
    path: &str,
    file: &File,
) -> io::Result<()> {
    if is_in_doubt(file.metadata()?.nlink()) {
        sync_folder(rt, path)?;
    }
    Ok(())
}

// Whether a crash may take the name of a file that has so many.
fn is_in_doubt(names: u64) -> bool
    ensures { IsTrue result ↔ 1 < names }
{
    names > 1
}

// Syncs the folder in which a file stands. Where a link leads to the file, that is not the link's.
fn sync_folder<R: Files<File = File> + AllocGlobal>(rt: &R, path: &str) -> io::Result<()> {
    let own_path = rt.canonicalize(rt.alloc(), path)?;
    open_folder(rt, own_path.as_str())?.sync_all()
}

/// Locks an open file or block device, under a number that is none of the standard streams'. The lock lasts until the file is closed.
pub(crate) fn lock(file: File) -> io::Result<File>
    ensures number { IfOk result (λ file. pos 2 <ℤ file_raw_fd file) }
{
    let file = above_streams(file)?;
    file.try_lock()?;
    if !may_hold_store(file.metadata()?.file_type()) {
        return Err(io::Error::from(ErrorKind::InvalidInput));
    }
    Ok(file)
}

// Where a standard stream is closed, the next file that is opened gets its number, and what is printed would land in it. A
// second handle gets a number above.
fn above_streams(file: File) -> io::Result<File>
    ensures number { IfOk result (λ file. pos 2 <ℤ file_raw_fd file) }
{
    if file.as_raw_fd() > LAST_STREAM {
        return Ok(file);
    }
    let higher = file.try_clone()?;
    if higher.as_raw_fd() > LAST_STREAM {
        Ok(higher)
    } else {
        Err(io::Error::from(ErrorKind::Unsupported))
    }
}
