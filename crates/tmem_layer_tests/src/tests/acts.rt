//! What a test does to a device, to an image on it or to its journal, as data: each act says what it is answered.
use super::counting::CountDisk;
use super::effects::are_spelled;
use super::flushing::{flush, flush_name, flush_two, holds_run, is_run_flushed};
use super::refusals::Refusal;
use std::alloc::{AllocGlobal, Global};
use std::process::Abort;
use tmem_disk::{DeviceFault, Disk, Fill, SimDisk};
use tmem_fault::{Fault, Name};
use tmem_image::{ALL_PAGES, ImageRoom, ImageState, choose, load, write_spare};
use tmem_journal::{Journal, Layout, format};
use tmem_state::{NameSet, State, Version};

/// An act, with what it is answered, or the beginning of a case or a row. Those of a journal are for one that is open, all others
/// for a device.
#[derive(Clone, Copy)]
pub(super) enum Act<'a> {
    /// Begins a case of this name. The acts up to its first row are done first in each of its rows.
    Case(&'a str),
    /// Begins a row of a case.
    Row,
    /// Each act from here on, up to the next row or case, is answered otherwise than it says. There is one.
    Otherwise,
    /// A new device of so many zeros, in the place of any other.
    Makes(u64),
    /// A new device of so many bytes, in the place of any other: these from these offsets on, and zeros elsewhere. It is synced.
    MakesWith(u64, &'a [(u64, &'a [u8])]),
    /// It holds so many bytes.
    Size(u64),
    /// A read from this offset on gives these bytes.
    Reads(u64, &'a [u8]),
    /// It holds these bytes from these offsets on and then those, and zeros elsewhere.
    HoldsBytes(&'a [(u64, &'a [u8])], &'a [(u64, &'a [u8])]),
    /// A read of so many bytes from this offset on fails.
    ReadFails(u64, usize),
    /// These bytes are written from this offset on.
    Writes(u64, &'a [u8]),
    /// That fails.
    WriteFails(u64, &'a [u8]),
    Syncs,
    SyncFails,
    /// Arms a read, a write or a sync to fail, by its number from now.
    FailRead(u64),
    FailWrite(u64),
    FailSync(u64),
    /// Arms a crash, at a write or a sync by its number from now, or at a write by the offset where it starts.
    CrashAtWrite(u64, Fill),
    CrashAtSync(u64, Fill),
    CrashAtPlace(u64, Fill),
    /// Crashes it now.
    CrashNow(Fill),
    /// It has crashed.
    IsCrashed,
    /// It has crashed, and is started again.
    Restarts,
    /// Counts its calls anew.
    CountsAnew,
    /// It was called so often since then: reads beyond those that were counted before, where they matter, writes and syncs.
    Made(Option<u64>, u64, u64),
    /// Its writes since then had so many bytes together.
    MadeBytes(u64),
    /// These are all of its writes since then, each its offset and how many bytes it had.
    Wrote(&'a [(u64, usize)]),
    /// Is formatted for so many variables and slots.
    Formats(u16, u16, Result<(), Refusal>),
    /// The copy of the image that is chosen on a device of `IMAGE_VARS` variables.
    Chooses(Result<u8, Refusal>),
    /// Writes the image of `state` to a copy, with a generation, on a device that is synced before.
    Puts(u8, u64, Result<(), Refusal>),
    /// The generation of a copy of the image, which holds what formatting wrote where it is 1, and else `state`.
    Loads(u8, Result<u64, Refusal>),
    /// A journal is opened for so many variables and slots, and so many transactions are found. Where it is refused, the
    /// device is handed back.
    Opens(u16, u16, Result<u64, Refusal>),
    /// Of an open journal: a batch of one record is flushed, which writes a number to variable 0.
    Flushes(i64, Result<u64, Refusal>),
    /// Of an open journal: a batch of one record is flushed, which writes a number to a variable.
    FlushesTo(u16, i64, Result<u64, Refusal>),
    /// Of an open journal: a batch of one record is flushed, which writes this number to each of two variables.
    FlushesBoth(u16, u16, i64, Result<u64, Refusal>),
    /// Of an open journal: a batch of two records is flushed, each of which writes this number to one variable.
    FlushesTwo(u16, u16, i64, Result<u64, Refusal>),
    /// Of an open journal: a batch of one record is flushed, which checks this name and writes nothing.
    FlushesName(&'a str, Result<u64, Refusal>),
    /// Of an open journal: batches are flushed until there are so many, each over another variable, with a checkpoint whenever the log
    /// is full.
    FlushesRun(u16),
    /// Of an open journal.
    Checkpoints(Result<(), Refusal>),
    /// Of an open journal: so many transactions are durable, with this number in variable 0.
    Holds(u64, i64),
    /// Of an open journal: variables have these numbers.
    HoldsAll(&'a [(u16, i64)]),
    /// Of an open journal: these names are registered, in this order, and no others.
    HoldsNames(&'a [&'a str]),
    /// Of an open journal: each variable has what a run of so many batches leaves in it.
    HoldsRun(u16),
    /// Whether the journal was closed by a failure.
    IsClosed(bool),
    /// Lets go of the journal.
    Closes,
}

/// What the acts are done to.
pub(super) type Device = CountDisk<SimDisk>;

/// Between two acts.
#[derive(Drop)]
struct Store {
    // none while a journal is open, which has the device then
    disk: Option<Device>,
    journal: Option<Journal<Device>>,
}

/// Does what the cases say, each row on a store of its own, and fails where an act is answered otherwise.
pub(super) fn play<R: Abort + AllocGlobal>(rt: &R, acts: &[Act]) {
    assert!(rt; each_case_has_a_row(acts));
    let mut case = acts;
    let mut name = "";
    for (index, act) in acts.iter().enumerate() {
        let behind = &acts[index + 1..];
        match *act {
            Act::Case(named) => {
                case = behind;
                name = named;
            }
            Act::Row => {
                if let Some(other) = other_in_row(rt.alloc(), case, behind) {
                    panic!(rt; "{name}, row at {index}: act {other} of its case or its own");
                }
            }
            _ => {}
        }
    }
}

/// Whether there is a case, and a row follows each one before the next, so that all are played.
fn each_case_has_a_row(acts: &[Act]) -> bool {
    if !matches!(acts.first(), Some(Act::Case(_))) {
        return false;
    }
    let mut has_row = true;
    for act in acts {
        match act {
            Act::Case(_) if !has_row => return false,
            Act::Case(_) => has_row = false,
            Act::Row => has_row = true,
            _ => {}
        }
    }
    has_row
}

/// The first act that is answered otherwise, by its number in the case or in the row.
fn other_in_row(alloc: Global, case: &[Act], row: &[Act]) -> Option<usize> {
    let Ok(disk) = made(alloc, 0) else {
        return Some(0);
    };
    let mut store = Store {
        disk: Some(disk),
        journal: None,
    };
    match differing_in(alloc, &mut store, case) {
        None => differing_in(alloc, &mut store, row),
        other => other,
    }
}

/// Whether a row or a case begins there, or nothing is left.
fn ends_at(acts: &[Act], index: usize) -> bool {
    matches!(acts.get(index), None | Some(Act::Case(_) | Act::Row))
}

/// The first of the acts up to the next row or case that is not answered as it is to be.
fn differing_in(alloc: Global, store: &mut Store, acts: &[Act]) -> Option<usize> {
    let mut wanted = true;
    for (index, act) in acts.iter().enumerate() {
        match act {
            Act::Case(_) | Act::Row => return None,
            Act::Otherwise if ends_at(acts, index + 1) => return Some(index),
            Act::Otherwise => wanted = false,
            _ => {
                if is_so(alloc, store, act) != wanted {
                    return Some(index);
                }
            }
        }
    }
    None
}

/// Whether an act is answered so.
fn is_so(alloc: Global, store: &mut Store, act: &Act) -> bool {
    match *act {
        Act::Opens(vars, slots, answer) => is_opened(alloc, store, vars, slots, answer),
        Act::Closes => is_ended(store),
        _ => match &mut store.journal {
            Some(journal) => is_so_of_journal(alloc, journal, act),
            None => match &mut store.disk {
                Some(disk) => is_so_of_device(alloc, disk, act),
                None => false,
            },
        },
    }
}

/// Whether opening a journal is answered so, for so many variables and slots.
fn is_opened(
    alloc: Global,
    store: &mut Store,
    vars: u16,
    slots: u16,
    answer: Result<u64, Refusal>,
) -> bool {
    let Some(disk) = store.disk.take() else {
        return false;
    };
    match Journal::open(alloc, disk, vars, slots) {
        Ok(journal) => {
            let numbers = journal.layout();
            let is_so = numbers.vars == vars
                && numbers.slots == slots
                && !journal.is_closed()
                && is_same(Ok(journal.count()), answer);
            store.journal = Some(journal);
            is_so
        }
        Err((fault, disk)) => {
            store.disk = Some(disk);
            is_same(Err(fault), answer)
        }
    }
}

/// Lets go of the journal, if one is open.
fn is_ended(store: &mut Store) -> bool {
    match store.journal.take() {
        Some(journal) => {
            store.disk = Some(journal.into_disk());
            true
        }
        None => false,
    }
}

fn is_so_of_journal(alloc: Global, journal: &mut Journal<Device>, act: &Act) -> bool {
    match *act {
        Act::Checkpoints(answer) => is_same(journal.checkpoint(), answer),
        Act::Holds(count, number) => {
            journal.count() == count && hold_all(journal.state().values(), &[(0, number)])
        }
        Act::HoldsAll(numbers) => hold_all(journal.state().values(), numbers),
        Act::HoldsNames(names) => are_spelled(journal.state().names(), names),
        Act::HoldsRun(batches) => holds_run(journal, batches),
        Act::IsClosed(is_closed) => journal.is_closed() == is_closed,
        Act::FlushesRun(batches) => is_run_flushed(alloc, journal, batches),
        _ => is_flushed(alloc, journal, act),
    }
}

fn hold_all(values: &[i64], numbers: &[(u16, i64)]) -> bool {
    for (var, number) in numbers {
        match values.get(usize::from(*var)) {
            Some(value) if *value == *number => {}
            _ => return false,
        }
    }
    true
}

/// Whether a batch is flushed so.
fn is_flushed(alloc: Global, journal: &mut Journal<Device>, act: &Act) -> bool {
    match *act {
        Act::Flushes(number, answer) => is_same(flush(alloc, journal, &[(0, number)]), answer),
        Act::FlushesTo(var, number, answer) => {
            is_same(flush(alloc, journal, &[(var, number)]), answer)
        }
        Act::FlushesBoth(one, other, number, answer) => {
            is_same(
                flush(alloc, journal, &[(one, number), (other, number)]),
                answer,
            )
        }
        Act::FlushesTwo(one, other, number, answer) => {
            is_same(flush_two(alloc, journal, one, other, number), answer)
        }
        Act::FlushesName(name, answer) => is_same(flush_name(alloc, journal, name), answer),
        _ => false,
    }
}

/// Whether an act on images is answered so, or one on the device.
fn is_so_of_device(alloc: Global, disk: &mut Device, act: &Act) -> bool {
    match *act {
        Act::Makes(size) => is_made(alloc, disk, size),
        Act::MakesWith(size, parts) => is_made_with(alloc, disk, size, parts),
        Act::HoldsBytes(parts, changed) => is_content(alloc, disk, parts, changed),
        Act::Formats(vars, slots, answer) => is_same(format(disk, vars, slots), answer),
        Act::Chooses(answer) => is_chosen(disk, answer),
        Act::Puts(copy, generation, answer) => is_put(alloc, disk, copy, generation, answer),
        Act::Loads(copy, answer) => is_loaded(alloc, disk, copy, answer),
        _ => {
            is_so_of_any(disk, act)
                || is_so_of_counting(disk, act)
                || is_so_of_power(&mut disk.inner, act)
        }
    }
}

/// A device of so many zeros.
fn made(alloc: Global, size: u64) -> Result<Device, Fault> {
    match SimDisk::new(alloc, size) {
        Ok(disk) => Ok(CountDisk::new(disk)),
        Err(fault) => Err(fault),
    }
}

/// Puts a device of so many zeros in the place of another.
fn is_made(alloc: Global, disk: &mut Device, size: u64) -> bool {
    match made(alloc, size) {
        Ok(new) => {
            *disk = new;
            true
        }
        Err(_) => false,
    }
}

/// Puts a device of so many bytes in the place of another, these from these offsets on and zeros elsewhere, and syncs it.
fn is_made_with(alloc: Global, disk: &mut Device, size: u64, parts: &[(u64, &[u8])]) -> bool {
    is_made(alloc, disk, size) && are_put(disk, parts) && disk.sync().is_ok()
}

/// Writes these bytes from these offsets on.
fn are_put(disk: &mut Device, parts: &[(u64, &[u8])]) -> bool {
    for (at, bytes) in parts {
        if !matches!(write(disk, *at, bytes), Some(Ok(()))) {
            return false;
        }
    }
    true
}

/// Whether the whole content of a device is so.
fn is_content(
    alloc: Global,
    disk: &mut Device,
    parts: &[(u64, &[u8])],
    changed: &[(u64, &[u8])],
) -> bool {
    let Ok(mut wanted) = made(alloc, disk.size()) else {
        return false;
    };
    if !are_put(&mut wanted, parts) || !are_put(&mut wanted, changed) {
        return false;
    }
    match (content(alloc, disk), content(alloc, &mut wanted)) {
        (Some(had), Some(wanted)) => had == wanted,
        _ => false,
    }
}

/// All bytes of a device.
fn content(alloc: Global, disk: &mut Device) -> Option<Vec<u8>> {
    let Ok(mut bytes) = vec![in alloc; 0; disk.size() as usize] else {
        return None;
    };
    match read(disk, 0, &mut bytes) {
        Some(Ok(())) => Some(bytes),
        _ => None,
    }
}

/// Whether calls of a device, as whoever knows only a device makes them, are answered so.
pub(super) fn are_so<D: Disk>(disk: &mut D, acts: &[Act]) -> bool {
    for act in acts {
        if !is_so_of_any(disk, act) {
            return false;
        }
    }
    true
}

fn is_so_of_any<D: Disk>(disk: &mut D, act: &Act) -> bool {
    match *act {
        Act::Size(size) => disk.size() == size,
        Act::Reads(at, wanted) => is_read(disk, at, wanted),
        Act::ReadFails(at, count) => is_not_read(disk, at, count),
        Act::Writes(at, bytes) => matches!(write(disk, at, bytes), Some(Ok(()))),
        Act::WriteFails(at, bytes) => {
            matches!(write(disk, at, bytes), Some(Err(DeviceFault::Write)))
        }
        Act::Syncs => matches!(disk.sync(), Ok(())),
        Act::SyncFails => matches!(disk.sync(), Err(DeviceFault::Sync)),
        _ => false,
    }
}

/// How many bytes an act reads at most.
const MOST_READ: usize = 64;

/// Whether a read gives these bytes.
fn is_read<D: Disk>(disk: &mut D, at: u64, wanted: &[u8]) -> bool {
    let mut room = [0xEE; MOST_READ];
    match room.get_mut(..wanted.len()) {
        Some(had) => matches!(read(disk, at, had), Some(Ok(()))) && &*had == wanted,
        None => false,
    }
}

/// Whether a read of so many bytes fails.
fn is_not_read<D: Disk>(disk: &mut D, at: u64, count: usize) -> bool {
    let mut room = [0xEE; MOST_READ];
    match room.get_mut(..count) {
        Some(had) => matches!(read(disk, at, had), Some(Err(DeviceFault::Read))),
        None => false,
    }
}

/// What a read answers, where it is within the device.
fn read<D: Disk>(disk: &mut D, at: u64, into: &mut [u8]) -> Option<Result<(), DeviceFault>> {
    match at.checked_add(into.len() as u64) {
        Some(end) if end <= disk.size() => Some(disk.read(at, into)),
        _ => None,
    }
}

/// What a write answers, where it is within the device.
fn write<D: Disk>(disk: &mut D, at: u64, bytes: &[u8]) -> Option<Result<(), DeviceFault>> {
    match at.checked_add(bytes.len() as u64) {
        Some(end) if end <= disk.size() => Some(disk.write_at(at, bytes)),
        _ => None,
    }
}

/// Whether it was called so often.
fn is_so_of_counting(disk: &mut Device, act: &Act) -> bool {
    match *act {
        Act::CountsAnew => {
            disk.count_anew();
            true
        }
        Act::MadeBytes(bytes) => disk.calls.written == bytes,
        Act::Wrote(writes) => disk.wrote(writes),
        Act::Made(reads, writes, syncs) => {
            let more = disk.calls.reads.checked_sub(disk.before.reads);
            disk.calls.writes == writes
                && disk.calls.syncs == syncs
                && (reads.is_none() || reads == more)
        }
        _ => false,
    }
}

/// Whether it fails and crashes so.
fn is_so_of_power(disk: &mut SimDisk, act: &Act) -> bool {
    match *act {
        Act::FailRead(k) => disk.fail_read(k),
        Act::FailWrite(k) => disk.fail_write(k),
        Act::FailSync(k) => disk.fail_sync(k),
        Act::CrashAtWrite(k, fill) => disk.stop_at_write(k, fill),
        Act::CrashAtSync(k, fill) => disk.stop_at_sync(k, fill),
        Act::CrashAtPlace(at, fill) => disk.stop_at_place(at, fill),
        Act::CrashNow(fill) => disk.stop_now(fill),
        Act::IsCrashed => return disk.is_crashed(),
        Act::Restarts if disk.is_crashed() => disk.restart(),
        _ => return false,
    }
    true
}

/// How many variables a device has on which images are tested: two pages of them.
const IMAGE_VARS: u16 = 70;

/// The values that a test writes to an image. None at the edges of the pages is 0.
static VALUES: [i64; 70] = [
    -1,
    3,
    3,
    3,
    3,
    3,
    3,
    3,
    3,
    3,
    3,
    3,
    3,
    3,
    3,
    3,
    3,
    3,
    3,
    3,
    3,
    3,
    3,
    3,
    3,
    3,
    3,
    3,
    3,
    3,
    3,
    3,
    3,
    3,
    3,
    3,
    3,
    3,
    3,
    3,
    3,
    3,
    3,
    3,
    3,
    3,
    3,
    3,
    3,
    3,
    3,
    3,
    3,
    3,
    3,
    3,
    3,
    3,
    3,
    3,
    3,
    3,
    3,
    i64::MAX,
    i64::MIN,
    3,
    3,
    3,
    3,
    1000,
];

/// A state of 258 transactions with these values and two names.
fn state(alloc: Global) -> Option<State> {
    let Ok(mut names) = NameSet::new(alloc) else {
        return None;
    };
    let (Ok(one), Ok(other)) = (Name::new("ab"), Name::new("b")) else {
        return None;
    };
    if !names.push(&one) || !names.push(&other) {
        return None;
    }
    match Vec::from_slice(alloc, &VALUES) {
        Ok(values) => Some(State::of(258, names, values)),
        Err(_) => None,
    }
}

fn is_chosen(disk: &mut Device, answer: Result<u8, Refusal>) -> bool {
    match Layout::new(IMAGE_VARS, 2) {
        Ok(layout) => disk.size() >= layout.end() && is_same(choose(disk, layout), answer),
        Err(_) => false,
    }
}

/// Whether the image of `state` is written so to a copy, with a generation.
fn is_put(
    alloc: Global,
    disk: &mut Device,
    copy: u8,
    generation: u64,
    answer: Result<(), Refusal>,
) -> bool {
    match state(alloc) {
        Some(state) => is_written(disk, copy, generation, &state, answer),
        None => false,
    }
}

fn is_written(
    disk: &mut Device,
    copy: u8,
    generation: u64,
    state: &State,
    answer: Result<(), Refusal>,
) -> bool {
    let Ok(layout) = Layout::new(IMAGE_VARS, 2) else {
        return false;
    };
    let fits = state.values().len() == 70 && disk.size() >= layout.end();
    if !fits || copy > 1 || generation == 0 || disk.sync().is_err() {
        return false;
    }
    is_same(
        write_spare(disk, layout, copy, generation, state, ALL_PAGES),
        answer,
    )
}

/// Whether a copy is loaded so, and holds what it ought to.
fn is_loaded(alloc: Global, disk: &mut Device, copy: u8, answer: Result<u64, Refusal>) -> bool {
    let Ok(layout) = Layout::new(IMAGE_VARS, 2) else {
        return false;
    };
    if copy > 1 || disk.size() < layout.end() {
        return false;
    }
    let Ok(room) = ImageRoom::new(alloc, layout) else {
        return false;
    };
    match load(disk, layout, copy, room) {
        Ok(image) => is_same(Ok(image.generation), answer) && is_whole(&image),
        Err(fault) => is_same(Err(fault), answer),
    }
}

/// Whether an image is of the second version, and holds what formatting wrote where its generation is 1, and else `state`.
fn is_whole(image: &ImageState) -> bool {
    if image.version != Version::Two {
        false
    } else if image.generation == 1 {
        is_of(&image.state, 0, &[], &[0; 70])
    } else {
        is_of(&image.state, 258, &["ab", "b"], &VALUES)
    }
}

fn is_of(state: &State, count: u64, names: &[&str], values: &[i64]) -> bool {
    state.count() == count && are_spelled(state.names(), names) && state.values() == values
}

/// Whether an answer is this one.
fn is_same<T: PartialEq + Copy>(had: Result<T, Fault>, wanted: Result<T, Refusal>) -> bool {
    match (had, wanted) {
        (Ok(had), Ok(wanted)) => had == wanted,
        (Err(fault), Err(refusal)) => fault == refusal.fault(),
        _ => false,
    }
}
