//! What has the path of a store, or of a shape, as it is now.
use crate::failure::StoreFailure;
use std::alloc::Global;
use std::fs::{self, File, Files};
use std::os::unix::fs::FileTypeExt;
use tmem_args::{Asked, JOBS_STORE};
use tmem_explain::Wanted;
use tmem_fault::Fault;
use tmem_parts::block_of;
use tmem_show::{Refusal, Source, length_without_loss, refusal_of};

/// The text in a file, which was read before. None where that was no file: a pipe would be empty now, or waited for.
pub(crate) fn text_again(
    rt: &(impl Files<File = File> + AllocGlobal),
    path: &str,
) -> Option<Vec<u8>> {
    match fs::metadata(rt, path) {
        Ok(found) if found.is_file() => fs::read(rt, path).ok(),
        _ => None,
    }
}

/// Whether what is to become a store is one already.
pub(crate) fn is_store(rt: &(impl Files<File = File> + AllocGlobal), asked: Asked) -> bool {
    match store_of(asked) {
        Some((path, _)) => begins_as_store(rt, path),
        None => false,
    }
}

/// Why an opening refuses the bytes that have a path, and where. None where it does not, and where they cannot be read, or memory does not
/// suffice to tell.
pub(crate) fn refusal_at(
    rt: &(impl Files<File = File> + AllocGlobal),
    path: &str,
) -> Option<Refusal> {
    match Source::read(rt, path) {
        Ok(source) => refusal_of(rt.alloc(), &source).ok()?,
        Err(_) => None,
    }
}

/// How long what has the path of the store is to be made, where it is one that ends too soon, behind its log.
pub(crate) fn length_of_cut(
    rt: &(impl Files<File = File> + AllocGlobal),
    asked: Asked,
) -> Option<u64> {
    let (path, _) = store_of(asked)?;
    match Source::read(rt, path) {
        Ok(source) => length_without_loss(rt.alloc(), &source).ok()?,
        Err(_) => None,
    }
}

/// Whether an opening refuses what is there as a store that something changed, or that a later release wrote.
pub(crate) fn is_damaged(rt: &(impl Files<File = File> + AllocGlobal), asked: Asked) -> bool {
    let Some((path, _)) = store_of(asked) else {
        return false;
    };
    match refusal_at(rt, path) {
        Some(refusal) => matches!(refusal.fault, Fault::Damaged),
        None => false,
    }
}

/// Whether what is to become a store is one that was not cut off.
pub(crate) fn is_whole_store(rt: &(impl Files<File = File> + AllocGlobal), asked: Asked) -> bool {
    let Some((path, _)) = store_of(asked) else {
        return false;
    };
    let Ok(source) = Source::read(rt, path) else {
        return false;
    };
    match block_of(&source.bytes) {
        Ok(block) => source.size >= block.layout.end(),
        Err(_) => false,
    }
}

/// Whether what has a path begins as a store does.
pub(crate) fn begins_as_store(rt: &(impl Files<File = File> + AllocGlobal), path: &str) -> bool {
    match Source::read(rt, path) {
        Ok(source) => block_of(&source.bytes).is_ok(),
        Err(_) => false,
    }
}

/// Whether an empty file has the path of a store that was to be there. (One on which a store is to be made is only too short.)
pub(crate) fn is_store_empty(rt: &(impl Files<File = File> + AllocGlobal), asked: Asked) -> bool {
    match (asked, store_of(asked)) {
        (Asked::Init(_), _) | (_, None) => false,
        (_, Some((path, _))) => match Source::read(rt, path) {
            Ok(source) => source.size == 0,
            Err(_) => false,
        },
    }
}

/// Whether a block device has the path of the store.
pub(crate) fn is_block_device(rt: &(impl Files<File = File> + AllocGlobal), asked: Asked) -> bool {
    let Some((path, _)) = store_of(asked) else {
        return false;
    };
    match fs::metadata(rt, path) {
        Ok(found) => found.file_type().is_block_device(),
        Err(_) => false,
    }
}

/// Whether that is a block device of no bytes.
pub(crate) fn has_no_bytes(rt: &(impl Files<File = File> + AllocGlobal), asked: Asked) -> bool {
    let Some((path, _)) = store_of(asked) else {
        return false;
    };
    match Source::read(rt, path) {
        Ok(source) => source.size == 0 && is_block_device(rt, asked),
        Err(_) => false,
    }
}

/// The path of the store, and what was to have it.
pub(crate) fn store_of<'a>(asked: Asked<'a>) -> Option<(&'a str, Wanted)> {
    let (path, wanted) = match asked {
        Asked::Run(paths) => (paths.disk, Wanted::FoundOrMade),
        Asked::Threads(counting) => (counting.disk, Wanted::Made),
        Asked::Bench(timing) => (Some(timing.disk.unwrap_or(JOBS_STORE)), Wanted::Made),
        Asked::Show(showing) => (showing.store, Wanted::Read),
        Asked::Init(making) if making.is_in_place => (making.store, Wanted::Found),
        Asked::Init(making) => (making.store, Wanted::FoundOrMade),
        Asked::Serve(serving) => (serving.store, Wanted::Found),
        Asked::Check(_) => return None,
    };
    Some((path?, wanted))
}

/// The path of the shape beside a store.
pub(crate) fn shape_beside(alloc: Global, store: &str) -> Result<String, StoreFailure> {
    Ok(format!(in alloc; "{store}.json")?)
}
