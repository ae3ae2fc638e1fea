//! Scenes: in each a new store, and what one thread does with it, then several at once, and then that one again.
ghost use Rattle.std.specs.Prelude.{◌≡◌, ◌<◌, length, IfOk};
ghost use Rattle.tmem_front.specs.Held.{front_found, spine_of, front_steps, front_table};

use super::moves::{Answer, Move};
use super::no_closures::{AddsAndNeeds, AlwaysTrue};
use super::playing::answer;
use super::signals::Signals;
use super::stage::Stage;
use super::stage_disk::{StageDisk, formatted};
use super::store::{Caller, Calls, Settles};
use std::alloc::{AllocError, Global};
use std::marker::Brand;
use std::process::Abort;
use std::rt::Clock;
use std::sync::Wait;
use std::test::Fail;
use std::thread::{self, Threads, map_indices};
use std::time::Duration;
use tmem_disk::{Disk, SimDisk};
use tmem_fault::Fault;
use tmem_front::{Front, OpenedFront, StoreNaming};
use tmem_invariants::Invariants;
use tmem_tree::StoredSteps;

/// Where the generation of the first image stands.
const GENERATION: u64 = 513;

/// A line of a table of scenes. Those of one thread are played in their order.
#[derive(Clone, Copy)]
pub(super) enum Line<'a> {
    /// Begins a scene of this name in a new store of 100 variables, whose device has four slots and never fails, if no line says
    /// otherwise. Once it is over the device is taken out, and no call of it is made for that.
    Scene(&'a str),
    /// How many variables the store has. Some scenes are played with four, so that nothing hangs on a store of 100.
    Vars(u16),
    /// How many slots the device has.
    Slots(u16),
    /// Which call of it fails, counted from 0 once it is formatted. The first sync is the one of the opening, which writes nothing.
    FailWrite(u64),
    FailSync(u64),
    /// How many milliseconds a sync takes at the least.
    SyncMillis(u64),
    /// How many seconds later it is at each reading of the clock, for a wait that has a limit.
    SkipSeconds(u64),
    /// How often the clock can be read in a wait that has a limit.
    ClockReadings(u64),
    /// The clock of a wait that has a limit stands still, but where a move lets it go on.
    ClockStands,
    /// Its image is of the last generation, so that no checkpoint can be made.
    LastImage,
    /// What one thread does before the others start, and what that has to be answered.
    Before(Move, Answer),
    /// What one of eight threads does, which play at once. The last one waits for others no longer than a time. At its end it waits until
    /// they have ended, and where they have not in ten seconds it shuts the front until they do.
    First(Move, Answer),
    Second(Move, Answer),
    Third(Move, Answer),
    Last(Move, Answer),
    /// What each of the first three does; each of First, Second, Third and Last; each of four more, which do nothing else.
    FirstThree(Move, Answer),
    All(Move, Answer),
    FourMore(Move, Answer),
    /// What each of sixty-four more does. They have no pass in hand at first.
    Crowd(Move, Answer),
    /// What the thread that began does at the end.
    After(Move, Answer),
}

/// A part of a scene.
#[derive(Clone, Copy)]
pub(super) enum Part {
    Before,
    Thread(usize),
    Crowd,
    After,
}

impl Line<'_> {
    // What a part does by this line, and what it has to be answered.
    fn row(&self, part: Part) -> Option<(Move, Answer)> {
        match (*self, part) {
            (Line::Before(step, want), Part::Before)
            | (Line::First(step, want), Part::Thread(0))
            | (Line::Second(step, want), Part::Thread(1))
            | (Line::Third(step, want), Part::Thread(2))
            | (Line::Last(step, want), Part::Thread(LAST))
            | (Line::FirstThree(step, want), Part::Thread(0 | 1 | 2))
            | (Line::All(step, want), Part::Thread(0 | 1 | 2 | LAST))
            | (Line::FourMore(step, want), Part::Thread(4 | 5 | 6 | 7))
            | (Line::Crowd(step, want), Part::Crowd)
            | (Line::After(step, want), Part::After) => Some((step, want)),
            _ => None,
        }
    }
}

/// Which call of the device fails.
#[derive(Clone, Copy)]
enum Failing {
    Never,
    Write(u64),
    Sync(u64),
}

/// The device of a new store.
#[derive(Clone, Copy)]
pub(super) struct Device {
    pub(super) vars: u16,
    pub(super) slots: u16,
    failing: Failing,
    sync_millis: u64,
    has_last_image: bool,
}

// How much later it is at each reading of the clock.
fn skip_of(lines: &[Line]) -> Duration {
    let mut skip = Duration::ZERO;
    for line in lines {
        if let Line::SkipSeconds(seconds) = *line {
            skip = Duration::from_secs(seconds);
        }
    }
    skip
}

// Whether it stands still.
fn stands(lines: &[Line]) -> bool {
    for line in lines {
        if matches!(*line, Line::ClockStands) {
            return true;
        }
    }
    false
}

// How often it can be read.
fn readings_of(lines: &[Line]) -> u64 {
    let mut readings = u64::MAX;
    for line in lines {
        if let Line::ClockReadings(most) = *line {
            readings = most;
        }
    }
    readings
}

/// What lines say of the device.
pub(super) fn device_of(lines: &[Line]) -> Device {
    let mut device = Device {
        vars: 100,
        slots: 4,
        failing: Failing::Never,
        sync_millis: 0,
        has_last_image: false,
    };
    for line in lines {
        match *line {
            Line::Vars(vars) => device.vars = vars,
            Line::Slots(slots) => device.slots = slots,
            Line::FailWrite(k) => device.failing = Failing::Write(k),
            Line::FailSync(k) => device.failing = Failing::Sync(k),
            Line::SyncMillis(millis) => device.sync_millis = millis,
            Line::LastImage => device.has_last_image = true,
            _ => {}
        }
    }
    device
}

/// What went wrong first.
#[derive(Clone, Copy, Debug)]
pub(super) enum Wrong {
    /// No store was made, or no pass given out.
    NotBegun(Fault),
    /// A thread was answered like this at the line of this number, counted from the scene's own.
    Answered { line: usize, answer: Answer },
    /// The others did not begin in time, or did not end.
    Late,
    /// The device was called while it was taken out.
    Called,
}

/// How often the front is shut where threads still wait.
const MOST_SHUTS: u64 = 100;

/// The index of the last thread.
const LAST: usize = 3;

/// How many threads there are, and how many more are a crowd.
const EIGHT: usize = 8;

const CROWD: usize = 64;

// Whether a part does anything.
fn has_part(lines: &[Line], part: Part) -> bool {
    for line in lines {
        if line.row(part).is_some() {
            return true;
        }
    }
    false
}

// How many threads begin with a pass of their own.
fn beginners_of(lines: &[Line]) -> u64 {
    let mut beginners = 0u64;
    for thread in 0..EIGHT {
        if has_part(lines, Part::Thread(thread)) {
            beginners = beginners.saturating_add(1);
        }
    }
    beginners
}

// How many threads a scene has.
fn threads_of(lines: &[Line]) -> usize {
    if has_part(lines, Part::Crowd) {
        EIGHT + CROWD
    } else {
        EIGHT
    }
}

/// What is played on a store. The functions that start threads know no more of it.
trait Plays {
    /// Plays a part with hands of its own, if it does anything, and answers what went wrong first.
    fn play_part<R: Clock + Wait>(&self, stage: &Stage<R>, part: Part) -> Option<Wrong>;

    /// Shuts the store.
    fn shut_down<R: Wait>(&self, stage: &Stage<R>);
}

impl<D: Disk + Drop, N: StoreNaming, T: Invariants + Drop, S: StoredSteps + Drop> Plays
    for Front<D, N, T, S> {
    fn play_part<R: Clock + Wait>(&self, stage: &Stage<R>, part: Part) -> Option<Wrong> {
        play_alone(stage, &mut Caller::new(self), part)
    }

    fn shut_down<R: Wait>(&self, stage: &Stage<R>) {
        self.shut(stage.rt);
    }
}

// Plays a part, if it does anything. But for the crowd it takes a pass, and begins once all others have theirs: else the first thread
// could take the last pass.
fn play_alone<C: Calls, R: Clock + Wait>(
    stage: &Stage<R>,
    caller: &mut C,
    part: Part,
) -> Option<Wrong> {
    if !has_part(stage.lines, part) {
        return None;
    }
    if !matches!(part, Part::Crowd) {
        let taken = caller.take_pass(stage.rt);
        let is_in_time = stage
            .signals
            .begin_together(stage.rt, beginners_of(stage.lines));
        if let Err(fault) = taken {
            return Some(Wrong::NotBegun(fault));
        }
        if !is_in_time {
            return Some(Wrong::Late);
        }
    }
    play_lines(stage, caller, part)
}

// Plays all lines of a part, also after a wrong answer, and answers the first one.
fn play_lines<C: Calls, R: Clock + Wait>(
    stage: &Stage<R>,
    caller: &mut C,
    part: Part,
) -> Option<Wrong> {
    let mut wrong = None;
    for (index, line) in stage.lines.iter().enumerate() {
        if let Some(other) = other_at(stage, caller, part, index, line) {
            wrong = wrong.or(Some(other));
        }
    }
    wrong
}

// Plays a line, if it is of this part, and answers what went wrong.
fn other_at<C: Calls, R: Clock + Wait>(
    stage: &Stage<R>,
    caller: &mut C,
    part: Part,
    index: usize,
    line: &Line,
) -> Option<Wrong> {
    let (step, want) = line.row(part)?;
    let had = answer(stage, caller, step);
    if had == want {
        return None;
    }
    Some(Wrong::Answered {
        line: index,
        answer: had,
    })
}

// Plays what a thread does. The last one waits for the others then.
fn play_thread<F: Plays, R: Clock + Wait>(
    stage: &Stage<R>,
    store: &F,
    thread: usize,
) -> Option<Wrong> {
    let part = if thread < EIGHT {
        Part::Thread(thread)
    } else {
        Part::Crowd
    };
    let wrong = store.play_part(stage, part);
    stage.signals.count_end();
    if thread == LAST && !ends_others(stage, store) {
        return wrong.or(Some(Wrong::Late));
    }
    wrong
}

// Waits until all threads have ended. Where they have not in time, shuts the front for each that still waits.
fn ends_others<F: Plays, R: Clock + Wait>(stage: &Stage<R>, store: &F) -> bool {
    let threads = threads_of(stage.lines) as u64;
    if stage.signals.await_ends(stage.rt, threads) {
        return true;
    }
    for _ in 0..MOST_SHUTS {
        store.shut_down(stage);
        thread::sleep(stage.rt, Duration::from_millis(10));
    }
    false
}

// Each thread of a scene. Answers what went wrong first.
fn play_all<F: Plays + Sync, R: Clock + Threads + Wait + Sync>(
    stage: &Stage<R>,
    store: &F,
) -> Option<Wrong> {
    let threads = threads_of(stage.lines);
    let play = |thread: usize| play_thread(stage, store, thread);
    match map_indices(stage.rt, stage.alloc, threads, &play) {
        Ok(ended) => ended.into_iter().flatten().next(),
        Err(_) => Some(Wrong::NotBegun(Fault::Memory)),
    }
}

// A scene in a store, with the caller that begins it and ends it.
fn play_whole_scene<F: Plays + Sync, C: Calls, R: Clock + Threads + Wait + Sync>(
    stage: &Stage<R>,
    store: &F,
    caller: &mut C,
) -> Option<Wrong> {
    if let Err(fault) = caller.take_pass(stage.rt) {
        return Some(Wrong::NotBegun(fault));
    }
    let before = play_lines(stage, caller, Part::Before);
    let threads = play_all(stage, store);
    let after = play_lines(stage, caller, Part::After);
    before.or(threads).or(after)
}

// A scene in a store. Answers what went wrong first.
fn play_on<
    D: Disk + Drop + Send,
    N: StoreNaming + Send + Sync,
    T: Invariants + Drop + Send,
    S: StoredSteps + Drop + Send + Sync,
    R: Clock + Threads + Wait + Sync,
>(stage: &Stage<R>, front: &Front<D, N, T, S>) -> Option<Wrong> {
    play_whole_scene(stage, front, &mut Caller::new(front))
}

// A new device that fails as it is to.
fn new_disk(alloc: Global, device: Device) -> Result<SimDisk, Fault> {
    let mut disk = formatted(alloc, device.vars, device.slots)?;
    if device.has_last_image && !writes_last_image(&mut disk) {
        return Err(Fault::Device);
    }
    match device.failing {
        Failing::Never => {}
        Failing::Write(k) => disk.fail_write(k),
        Failing::Sync(k) => disk.fail_sync(k),
    }
    Ok(disk)
}

// Makes the image one of the last generation, where it has a place for that.
fn writes_last_image(disk: &mut SimDisk) -> bool {
    disk.size() < GENERATION + 8 || disk.write_at(GENERATION, &u64::MAX.to_le_bytes()).is_ok()
}

/// Such a device.
pub(super) fn stage_disk<'a, R: Clock>(
    stage: &Stage<'a, R>,
    device: Device,
) -> Result<StageDisk<'a, SimDisk, R>, Fault> {
    Ok(StageDisk {
        inner: new_disk(stage.alloc, device)?,
        rt: stage.rt,
        signals: stage.signals,
        sync_millis: device.sync_millis,
    })
}

/// A store on a device of these numbers, which is gone where it is refused.
pub(super) fn open<D: Disk + Drop, T: Invariants + Drop, S: StoredSteps + Drop>(
    alloc: Global,
    disk: D,
    device: Device,
    table: T,
    steps: S,
) -> Result<OpenedFront<D, T, S>, Fault>
    requires { T.vars table ≡ device.vars }
    ensures table { IfOk result (λ opened. front_table opened ≡ table) }
    ensures steps { IfOk result (λ opened. front_steps opened ≡ steps) }
{
    match OpenedFront::open(alloc, disk, device.vars, device.slots, table, steps) {
        Ok(opened) => Ok(opened),
        Err((fault, _disk)) => Err(fault),
    }
}

/// A scene in a store under its name, out of which its device is taken at the end.
pub(super) fn play_named<
    D: Disk + Drop + Send,
    N: StoreNaming + Send + Sync,
    T: Invariants + Drop + Send,
    S: StoredSteps + Drop + Send + Sync,
    R: Clock + Threads + Wait + Sync,
>(stage: &Stage<R>, opened: OpenedFront<D, T, S>) -> Option<Wrong>
    requires spine { spine_of opened ≡ N.name }
    requires opening { front_found opened ≡ N.opening }
    requires steps { S.is_stated (front_steps opened) N.program.steps }
    requires names { T.names (front_table opened) ≡ N.program.names }
    requires stated { T.is_stated (front_table opened) N.program.tests }
{
    let front = opened.named::<N>();
    let wrong = play_on(stage, &front);
    let calls = stage.signals.calls();
    drop(front.into_disk());
    if stage.signals.calls() != calls {
        return wrong.or(Some(Wrong::Called));
    }
    wrong
}

// A scene in a new store.
fn play_on_stage<R: Clock + Threads + Wait + Sync>(
    stage: &Stage<R>,
) -> Result<Option<Wrong>, Fault> {
    let device = device_of(stage.lines);
    let disk = stage_disk(stage, device)?;
    let table = AlwaysTrue { vars: device.vars };
    let steps = AddsAndNeeds {
        signals: stage.signals,
    };
    match open(stage.alloc, disk, device, table, steps) {
        Ok(opened) => Ok(play_named::<_, Brand, _, _, _>(stage, opened)),
        Err(fault) => Err(fault),
    }
}

// A scene, of whose lines the first one names it, on a stage of its own.
fn play_scene<R: Clock + Threads + Wait + Sync>(
    rt: &R,
    alloc: Global,
    lines: &[Line],
) -> Option<Wrong> {
    let signals = Signals::new();
    let stage = Stage {
        rt,
        alloc,
        signals: &signals,
        lines,
        skip: skip_of(lines),
        readings: readings_of(lines),
        stands: stands(lines),
    };
    match play_on_stage(&stage) {
        Ok(wrong) => wrong,
        Err(fault) => Some(Wrong::NotBegun(fault)),
    }
}

// The lines of the scene that begins there.
fn scene_at<'b, 'a>(lines: &'b [Line<'a>], begin: usize) -> &'b [Line<'a>]
    requires { begin < length lines.now }
{
    for end in begin + 1..lines.len() {
        if matches!(lines[end], Line::Scene(_)) {
            return &lines[begin..end];
        }
    }
    &lines[begin..]
}

/// The parts of a scene, one for each kind of line.
const PARTS: [Part; 8] = [
    Part::Before,
    Part::Thread(0),
    Part::Thread(1),
    Part::Thread(2),
    Part::Thread(LAST),
    Part::Thread(4),
    Part::Crowd,
    Part::After,
];

// Whether a scene has something that is done, so that no table is played in vain.
fn is_played(lines: &[Line]) -> bool {
    for part in &PARTS {
        if has_part(lines, *part) {
            return true;
        }
    }
    false
}

// How many scenes a table has, in each of which something is done.
fn scenes_of<R: Abort>(rt: &R, lines: &[Line]) -> usize {
    let mut scenes: usize = 0;
    for begin in 0..lines.len() {
        if let Line::Scene(name) = lines[begin] {
            let is_played = is_played(scene_at(lines, begin));
            assert!(rt; is_played, "{name}: nothing is done");
            scenes = scenes.saturating_add(1);
        }
    }
    scenes
}

/// How many scenes of a table are played at once.
const LANES: usize = 4;

// Plays the scenes of a lane, each fourth one from that of its number on, and answers how many there were, or what went wrong first, and in
// which scene.
fn play_lane<'a, R: Clock + Threads + Wait + Sync>(
    rt: &R,
    alloc: Global,
    lines: &[Line<'a>],
    lane: usize,
) -> Result<usize, (&'a str, Wrong)> {
    let (mut scene, mut played) = (0usize, 0usize);
    for begin in 0..lines.len() {
        let Line::Scene(name) = lines[begin] else {
            continue;
        };
        if scene % LANES == lane {
            if let Some(wrong) = play_scene(rt, alloc, scene_at(lines, begin)) {
                return Err((name, wrong));
            }
            played = played.saturating_add(1);
        }
        scene = scene.saturating_add(1);
    }
    Ok(played)
}

// How many scenes of a lane were played. Fails where something went wrong in one.
fn played_in<R: Abort>(rt: &R, ended: &Result<usize, (&str, Wrong)>) -> usize {
    match ended {
        Ok(played) => *played,
        Err((name, wrong)) => panic!(rt; "{name}: {wrong:?}"),
    }
}

// How many were played in all lanes.
fn play_lanes<R: Abort + Clock + Threads + Wait + Sync>(
    rt: &R,
    alloc: Global,
    lines: &[Line],
) -> Result<usize, AllocError> {
    let mut played: usize = 0;
    for ended in map_indices(rt, alloc, LANES, &|lane| play_lane(rt, alloc, lines, lane))? {
        played = played.saturating_add(played_in(rt, &ended));
    }
    Ok(played)
}

/// Plays the scenes of a table, each in a new store, and several at once. Fails with one of the things that went wrong, or where a scene
/// was left out.
pub(super) fn play<R: Abort + Clock + Threads + Wait + Sync>(
    rt: &R,
    alloc: Global,
    lines: &[Line],
) -> Result<(), Fail> {
    let begins = matches!(lines.first(), Some(Line::Scene(_)));
    assert!(rt; begins, "a table begins with a scene");
    let scenes = scenes_of(rt, lines);
    let played = play_lanes(rt, alloc, lines)?;
    assert!(rt; played == scenes, "{played} of {scenes} scenes were played");
    Ok(())
}
