//! The bytes of a store, from its file.
ghost use Rattle.std.specs.Prelude.{◌≡◌, ◌≢◌, ◌⊎◌, IfErr};
ghost use Rattle.std.specs.IoError.{error_kind};

use std::alloc::Global;
use std::fs::{self, File, Files};
use std::io::{self, ErrorKind, Read, Seek, SeekFrom};
use std::os::unix::fs::FileTypeExt;
use tmem_fault::Fault;

// How many bytes the longest layout takes: 1024 variables and 64 log slots. None of those behind it mean anything.
const MOST_BYTES: u64 = 512 + 2 * (2048 + 512 * 16) + 4096 * 64;

/// The bytes of a store as they were read.
#[derive(Drop)]
pub struct Source {
    /// How many bytes the file or the block device has.
    pub size: u64,
    /// The first of them: as many as a store may have.
    pub bytes: Vec<u8>,
}

impl Source {
    /// Reads the store of a file or of a block device, which is opened for reading alone and is not locked: what another program
    /// writes meanwhile may be read in part. Refused by `Memory` for want of memory, and by `Device` where it is neither, or a call fails.
    pub fn read<R: Files<File = File> + AllocGlobal>(rt: &R, path: &str) -> Result<Source, Fault>
        ensures refused { IfErr result (λ fault. (fault ≡ Fault.Memory) ⊎ (fault ≡ Fault.Device)) }
    {
        match read_store(rt, path) {
            Ok(source) => Ok(source),
            Err(error) => Err(fault_of(error)),
        }
    }
}

// What comes of a call that failed.
fn fault_of(error: io::Error) -> Fault
    ensures memory { error_kind error ≡ ErrorKind.OutOfMemory → result ≡ Fault.Memory }
    ensures device { error_kind error ≢ ErrorKind.OutOfMemory → result ≡ Fault.Device }
{
    if error.kind() == ErrorKind::OutOfMemory {
        Fault::Memory
    } else {
        Fault::Device
    }
}

fn read_store<R: Files<File = File> + AllocGlobal>(rt: &R, path: &str) -> io::Result<Source> {
    let kind = fs::metadata(rt, path)?.file_type();
    if !kind.is_file() && !kind.is_block_device() {
        return Err(io::Error::from(ErrorKind::InvalidInput));
    }
    let mut file = File::open(rt, path)?;
    let size = file.seek(SeekFrom::End(0))?;
    file.rewind()?;
    let bytes = first_bytes(rt.alloc(), &mut file, size.min(MOST_BYTES) as usize)?;
    Ok(Source { size, bytes })
}

// So many bytes of a reader.
fn first_bytes<F: Read>(alloc: Global, file: &mut F, count: usize) -> io::Result<Vec<u8>> {
    let mut bytes = vec![in alloc; 0; count]?;
    file.read_exact(&mut bytes)?;
    Ok(bytes)
}
