//! A file as a device.
use super::acts::Act::{Reads, Size, Syncs, Writes};
use super::acts::{Act, are_so};
use std::path::PathBuf;
use std::{env, fs};
use tmem_fault::Fault;
use tmem_file::{FileDisk, NewFile};

const FILE_BYTES: u64 = 10_000;

/// A path.
#[derive(Clone, Copy)]
enum Place<'a> {
    /// Of a folder that is new.
    Folder,
    /// Of the name in it that a file is to have.
    Store,
    /// Of a name in that, as if it were a folder.
    Within,
    /// Of this name.
    At(&'a str),
}

/// The texts of these paths.
#[derive(Drop)]
struct Places {
    folder: PathBuf,
    store: PathBuf,
    within: PathBuf,
}

/// What is done in the folder.
#[derive(Clone, Copy)]
enum Step<'a> {
    /// So many files are in it, and whether one of them is the store.
    Stand(u64, bool),
    /// Another new file is made there beside a first one and removed again: neither has the name before.
    CreatesAnother,
    /// The store is opened with so many bytes at most, does this and is closed.
    OpensFile(u64, &'a [Act<'a>]),
    /// This is refused as a file that is there.
    OpenFails(Place<'a>),
    /// This is refused as a new file.
    CreateFails(Place<'a>),
    /// By another way than a device, these bytes are put into the store, or found there.
    PutsBytes(&'a [u8]),
    KeepsBytes(&'a [u8]),
}

/// The making of a file: what it does before it is named, what is done beside it then, whether it is named, and the same behind that.
struct Making<'a> {
    new: &'a [Act<'a>],
    beside: &'a [Step<'a>],
    is_named: bool,
    behind: &'a [Step<'a>],
    named: &'a [Act<'a>],
}

/// A new folder, whose path was free, in the system's folder for such files.
fn make_folder(rt: HostRuntime) -> Option<PathBuf> {
    let Ok(temporary) = env::temp_dir(&rt) else {
        return None;
    };
    for number in 0..1000u16 {
        let Ok(name) = format!(in rt.alloc(); "tmem_file_test_{number}") else {
            return None;
        };
        let Ok(folder) = temporary.join(rt.alloc(), name.as_str()) else {
            return None;
        };
        if fs::create_dir(&rt, folder.as_str()).is_ok() {
            return Some(folder);
        }
    }
    None
}

/// The paths in a new folder.
fn make_places(rt: HostRuntime) -> Option<Places> {
    let folder = make_folder(rt)?;
    let Ok(store) = folder.join(rt.alloc(), "store") else {
        return None;
    };
    match store.join(rt.alloc(), "store") {
        Ok(within) => Some(Places {
            folder,
            store,
            within,
        }),
        Err(_) => None,
    }
}

/// The text of a path.
fn path_of<'a>(places: &'a Places, place: Place<'a>) -> &'a str {
    match place {
        Place::Folder => places.folder.as_str(),
        Place::Store => places.store.as_str(),
        Place::Within => places.within.as_str(),
        Place::At(path) => path,
    }
}

/// Whether so many files are in the folder, and whether one of them is the store.
fn stand(rt: HostRuntime, places: &Places, wanted: u64, is_there: bool) -> bool {
    let Ok(entries) = fs::read_dir(&rt, places.folder.as_str()) else {
        return false;
    };
    let mut count = 0u64;
    for entry in entries {
        if entry.is_err() {
            return false;
        }
        count = count.saturating_add(1);
    }
    count == wanted && fs::exists(&rt, places.store.as_str()).ok() == Some(is_there)
}

/// Whether another file may be made beside a new one, until that is named.
fn another_is_made(rt: HostRuntime, places: &Places) -> bool {
    match NewFile::create(&rt, places.store.as_str(), 1) {
        Ok(other) => {
            let is_so = stand(rt, places, 2, false);
            other.discard(&rt);
            is_so
        }
        Err(_) => false,
    }
}

/// Whether a file is opened with so many bytes at most, and answers these acts so.
fn is_opened(rt: HostRuntime, path: &str, most: u64, acts: &[Act]) -> bool {
    match FileDisk::open(&rt, path, most) {
        Ok(mut disk) => are_so(&mut disk, acts),
        Err(_) => false,
    }
}

fn open_fails(rt: HostRuntime, path: &str) -> bool {
    matches!(FileDisk::open(&rt, path, u64::MAX), Err(Fault::Device))
}

fn create_fails(rt: HostRuntime, path: &str) -> bool {
    matches!(NewFile::create(&rt, path, FILE_BYTES), Err(Fault::Device))
}

fn has(rt: HostRuntime, path: &str, bytes: &[u8]) -> bool {
    match fs::read(&rt, path) {
        Ok(had) => had.as_slice() == bytes,
        Err(_) => false,
    }
}

fn is_done(rt: HostRuntime, places: &Places, step: &Step) -> bool {
    match *step {
        Step::Stand(count, is_there) => stand(rt, places, count, is_there),
        Step::CreatesAnother => another_is_made(rt, places),
        Step::OpensFile(most, acts) => is_opened(rt, places.store.as_str(), most, acts),
        Step::OpenFails(place) => open_fails(rt, path_of(places, place)),
        Step::CreateFails(place) => create_fails(rt, path_of(places, place)),
        Step::PutsBytes(bytes) => fs::write(&rt, places.store.as_str(), bytes).is_ok(),
        Step::KeepsBytes(bytes) => has(rt, places.store.as_str(), bytes),
    }
}

fn are_done(rt: HostRuntime, places: &Places, steps: &[Step]) -> bool {
    for step in steps {
        if !is_done(rt, places, step) {
            return false;
        }
    }
    true
}

/// Whether a file is made and named so, or refused so where it would be named.
fn is_made(rt: HostRuntime, places: &Places, making: &Making) -> bool {
    let Ok(mut new) = NewFile::create(&rt, places.store.as_str(), FILE_BYTES) else {
        return false;
    };
    let was_so = are_so(&mut new.disk, making.new) && are_done(rt, places, making.beside);
    match new.give_name(&rt) {
        Ok(mut disk) => {
            was_so
                && making.is_named
                && are_done(rt, places, making.behind)
                && are_so(&mut disk, making.named)
        }
        Err(fault) => was_so && !making.is_named && fault == Fault::Device,
    }
}

/// Whether this is done in a new folder, which is removed.
fn is_well_done(rt: HostRuntime, making: Option<&Making>, steps: &[Step]) -> bool {
    let Some(places) = make_places(rt) else {
        return false;
    };
    let was_so = match making {
        Some(making) => is_made(rt, &places, making),
        None => true,
    };
    let is_so = was_so && are_done(rt, &places, steps);
    fs::remove_dir_all(&rt, places.folder.as_str()).is_ok() && is_so
}

/// What is done to a file that is new, to the same once it is named, and to it in another opening; and to one of no byte.
const NEW: &[Act<'static>] = &[
    Size(FILE_BYTES),
    Reads(9994, &[0, 0, 0, 0, 0, 0]),
    Writes(4094, b"abcd"),
    Syncs,
];

const NAMED: &[Act<'static>] = &[Writes(0, b"xy"), Syncs];

const AGAIN: &[Act<'static>] = &[
    Size(FILE_BYTES),
    Reads(4093, b"\0abcd\0"),
    Reads(0, b"xy\0\0\0\0"),
];

const IN_PART: &[Act<'static>] = &[Size(4096), Reads(4093, b"\0ab")];

const EMPTY: &[Act<'static>] = &[Size(0)];

// It is alone in the folder once it is named, and nobody else opens it while it is open.
static NAMING: Making<'static> = Making {
    new: NEW,
    beside: &[Step::CreatesAnother],
    is_named: true,
    behind: &[Step::Stand(1, true), Step::OpenFails(Place::Store)],
    named: NAMED,
};

// The first bytes of it alone are found where no more are asked for.
static OPENINGS: &[Step<'static>] = &[
    Step::OpensFile(FILE_BYTES, AGAIN),
    Step::OpensFile(u64::MAX, AGAIN),
    Step::OpensFile(4096, IN_PART),
];

#[test]
fn a_named_file_is_read_by_the_next_opening(rt: HostRuntime) {
    assert!(rt; is_well_done(rt, Some(&NAMING), OPENINGS));
}

#[test]
fn a_step_that_is_not_so_is_seen(rt: HostRuntime) {
    assert!(rt; !is_well_done(rt, None, &[Step::Stand(1, true)]));
}

// An empty file is none of them.
static REFUSALS: &[Step<'static>] = &[
    Step::OpenFails(Place::Folder),
    Step::CreateFails(Place::Folder),
    Step::OpenFails(Place::Within),
    Step::CreateFails(Place::Within),
    Step::OpenFails(Place::At("/dev/full")),
    Step::CreateFails(Place::At("/dev/full")),
    Step::OpenFails(Place::Store),
    Step::OpenFails(Place::At("")),
    Step::OpenFails(Place::At("/dev/zero")),
    Step::Stand(0, false),
    Step::PutsBytes(b""),
    Step::OpensFile(FILE_BYTES, EMPTY),
];

#[test]
fn refuses_what_is_no_file(rt: HostRuntime) {
    assert!(rt; is_well_done(rt, None, REFUSALS));
}

// The name is taken before a new file is named, which is refused then.
static LATE: Making<'static> = Making {
    new: &[],
    beside: &[Step::PutsBytes(b"kept"), Step::CreateFails(Place::Store)],
    is_named: false,
    behind: &[],
    named: &[],
};

static KEPT: &[Step<'static>] = &[Step::KeepsBytes(b"kept"), Step::Stand(1, true)];

#[test]
fn never_takes_a_name_from_a_file(rt: HostRuntime) {
    assert!(rt; is_well_done(rt, Some(&LATE), KEPT));
}
