//! Tells more of what failed, and what to do: for `--explain`.
//!
//! Nothing that the program does rests on it. What has a path is looked at once more, so it is told how that stands now. Only a file or,
//! where it may be a store, a block device is read again: what came out of a pipe is gone, and to open one may wait for ever.

use crate::failure::StoreFailure;
use crate::found::{
    begins_as_store, has_no_bytes, is_block_device, is_damaged, is_store, is_store_empty,
    is_whole_store, length_of_cut, refusal_at, shape_beside, store_of, text_again,
};
use crate::tell::{tell, tell_because, tell_cause, tell_of, tell_path, tell_store_cause};
use crate::texts::{
    A_DEVICE, A_STORE, BEFORE_A_COPY, CUT_BEHIND_ITS_LOG, CUT_STORE, EMPTY_FILE, EMPTY_INPUT,
    EMPTY_STORE, NO_ANSWERS, NO_CLOCK, NO_INPUT, NO_LINES, NO_OUTPUT, NO_SHAPE, NO_SHAPE_OF_STORE,
    NO_STORE, NOT_ANSWERED, NOT_BLANK, NOT_REGISTERED, ON_A_DEVICE, OTHER_TEXT, PLACED_OR_NOT,
    PLAYED, SHORT_DEVICE, STORE_FOR_FILE, STORE_FOR_SCRIPT, STORE_FOR_SHAPE, TEXT_UNREAD,
    TOO_SHORT, UNSEEN, UNSURE, USE_THAT_COPY,
};
use std::alloc::Global;
use std::fmt::Display;
use std::fs::{File, Files};
use std::io::{self, Write};
use tmem_args::Asked;
use tmem_explain::{
    CUT_OFF, CallCause, DeviceCause, Expected, FaultHelp, NumbersHelp, RefusalHelp, Wanted,
    cause_of, flaws_in, is_cut_off, plan_flaw,
};
use tmem_fault::{Cause, Fault};
use tmem_init::InitError;
use tmem_parts::block_of;
use tmem_record::{Layout, MOST_SLOTS, MOST_VARS};
use tmem_run::{Refused, Trace};
use tmem_script::{ProgramFailure, Script, ScriptError};
use tmem_shape::StoreShape;
use tmem_show::{Refusal, Source};

/// Tells more of why a run ended before its last line, and of each entry that was refused.
pub fn explain_run<T, E: Write>(
    rt: &(impl Files<File = File> + AllocGlobal),
    asked: Asked,
    trace: &Trace,
    outcome: &Result<T, ProgramFailure>,
    err: &mut E,
) {
    // Where this fails, nobody is left to tell.
    let _ = match outcome {
        Ok(_) => Ok(()),
        Err(failure) => explain_failure(rt, asked, trace, failure, err),
    };
    let _ = explain_entries(rt, asked, trace, err);
}

// Tells which byte of a store an opening refuses, and what to do. (A store is shown without its lock: what another program writes meanwhile
// is read in part.)
fn tell_bytes<E: Write>(err: &mut E, asked: Asked, path: &str, refusal: Refusal) -> io::Result<()> {
    let help = RefusalHelp {
        fault: refusal.fault,
        is_of_no_store: refusal.is_of_no_store(),
        is_shown: matches!(asked, Asked::Show(_)),
    };
    tell_because(err, path, refusal, help)
}

// Whether transactions are made durable in a file.
fn changes_store(asked: Asked) -> bool {
    match asked {
        Asked::Run(paths) => paths.disk.is_some(),
        Asked::Threads(counting) => counting.disk.is_some(),
        _ => false,
    }
}

fn explain_failure<E: Write>(
    rt: &(impl Files<File = File> + AllocGlobal),
    asked: Asked,
    trace: &Trace,
    failure: &ProgramFailure,
    err: &mut E,
) -> io::Result<()> {
    let text = match failure {
        ProgramFailure::Script(ScriptError::NoScript) if trace.text().is_empty() => {
            return tell_empty(asked, err);
        }
        ProgramFailure::Script(ScriptError::NoScript) => {
            return tell_flaw(rt.alloc(), trace.text(), err);
        }
        ProgramFailure::Script(ScriptError::Unreadable) => return tell_unread(rt, asked, err),
        ProgramFailure::Script(ScriptError::Memory(_)) => return tell(
            err,
            FaultHelp(Fault::Memory),
        ),
        ProgramFailure::Refused(fault) => return tell_fault(rt, asked, trace, *fault, err),
        ProgramFailure::Output if changes_store(asked) => NO_LINES,
        ProgramFailure::Output => NO_OUTPUT,
        ProgramFailure::Clock => NO_CLOCK,
        ProgramFailure::Words(_) => return Ok(()),
    };
    tell(err, text)
}

// Tells that a script has no byte.
fn tell_empty<E: Write>(asked: Asked, err: &mut E) -> io::Result<()> {
    match asked {
        Asked::Run(paths) => match paths.script {
            Some(path) => tell_path(err, path, EMPTY_FILE),
            None => tell(err, EMPTY_INPUT),
        },
        _ => tell(err, EMPTY_FILE),
    }
}

/// Tells more of why a script was not checked.
pub fn explain_check<E: Write>(
    rt: &(impl Files<File = File> + AllocGlobal),
    asked: Asked,
    failure: &ProgramFailure,
    err: &mut E,
) {
    let trace = Trace::new(rt.alloc(), false);
    // Where this fails, nobody is left to tell.
    let _ = explain_failure(rt, asked, &trace, failure, err);
}

/// Tells more of why a store was not made, or not served to its end.
pub fn explain_store<E: Write>(
    rt: &(impl Files<File = File> + AllocGlobal),
    asked: Asked,
    failure: &StoreFailure,
    err: &mut E,
) {
    // Where this fails, nobody is left to tell.
    let _ = explain_store_failure(rt, asked, failure, err);
}

fn explain_store_failure<E: Write>(
    rt: &(impl Files<File = File> + AllocGlobal),
    asked: Asked,
    failure: &StoreFailure,
    err: &mut E,
) -> io::Result<()> {
    let text = match failure {
        StoreFailure::Unread => return tell_unread(rt, asked, err),
        StoreFailure::NoShape(_) => return tell_no_shape(rt, asked, err),
        StoreFailure::NotMade(error) => return explain_not_made(rt, asked, error, err),
        StoreFailure::Refused(fault) => return tell_fault_of_store(rt, asked, *fault, err),
        StoreFailure::Ended(fault) => {
            tell_fault_of_store(rt, asked, *fault, err)?;
            return tell_doubt(*fault, err);
        }
        StoreFailure::Unregistered(_) => return tell_of_bytes(rt, asked, NOT_REGISTERED, err),
        StoreFailure::Input => NO_INPUT,
        StoreFailure::Output => NO_ANSWERS,
    };
    tell(err, text)
}

fn explain_not_made<E: Write>(
    rt: &(impl Files<File = File> + AllocGlobal),
    asked: Asked,
    error: &InitError,
    err: &mut E,
) -> io::Result<()> {
    let text = match error {
        InitError::Refused(fault) => return tell_fault_of_store(rt, asked, *fault, err),
        InitError::StoreIsThere if is_block_device(rt, asked) => A_DEVICE,
        InitError::StoreIsThere => return tell_there(rt, asked, false, err),
        InitError::NotBlank => return tell_there(rt, asked, true, err),
        InitError::TextUnread(_) => TEXT_UNREAD,
        InitError::TextIsThere => {
            return tell_of(err, asked, format_args!("{OTHER_TEXT}; {BEFORE_A_COPY}"));
        }
    };
    tell_of(err, asked, text)
}

// Tells what is there where a store was to be made, in place or not.
fn tell_there<E: Write>(
    rt: &(impl Files<File = File> + AllocGlobal),
    asked: Asked,
    is_in_place: bool,
    err: &mut E,
) -> io::Result<()> {
    if is_store(rt, asked) {
        return tell_store(rt, asked, err);
    }
    if is_damaged(rt, asked) {
        tell_block(rt, asked, err)?;
        return tell_fault_of_store(rt, asked, Fault::Damaged, err);
    }
    if is_in_place {
        tell_of_bytes(rt, asked, NOT_BLANK, err)
    } else {
        tell_no_store(rt, asked, err)
    }
}

// Tells something of the bytes that are there, behind what is to be told of those of a block device.
fn tell_of_bytes<E: Write>(
    rt: &(impl Files<File = File> + AllocGlobal),
    asked: Asked,
    text: &str,
    err: &mut E,
) -> io::Result<()> {
    tell_block(rt, asked, err)?;
    tell_of(err, asked, text)
}

// The same as `tell_fault`, where no script was played.
fn tell_fault_of_store<E: Write>(
    rt: &(impl Files<File = File> + AllocGlobal),
    asked: Asked,
    fault: Fault,
    err: &mut E,
) -> io::Result<()> {
    tell_fault(rt, asked, &Trace::new(rt.alloc(), false), fault, err)
}

// Tells what a fault means. Where the bytes of a block device are refused as those of a store, it tells before that how a backup is put
// there. (Of the numbers, `tell_geometry` does so. Of one on which a store was to be made, no bytes are refused so.)
fn tell_fault<E: Write>(
    rt: &(impl Files<File = File> + AllocGlobal),
    asked: Asked,
    trace: &Trace,
    fault: Fault,
    err: &mut E,
) -> io::Result<()> {
    if refuses_bytes(fault) && !matches!(asked, Asked::Init(_)) {
        tell_block(rt, asked, err)?;
    }
    tell_refused(rt, asked, trace, fault, err)
}

// Whether a fault may refuse the bytes of a store.
fn refuses_bytes(fault: Fault) -> bool {
    match fault {
        Fault::NotFormatted
        | Fault::Damaged
        | Fault::Missing(_)
        | Fault::Broken(_)
        | Fault::Spent => true,
        _ => false,
    }
}

// Of a block device with bytes, tells to look whether it is the one, and how a backup is put there.
fn tell_block<E: Write>(
    rt: &(impl Files<File = File> + AllocGlobal),
    asked: Asked,
    err: &mut E,
) -> io::Result<()> {
    if is_block_device(rt, asked) && !has_no_bytes(rt, asked) {
        tell_of(err, asked, ON_A_DEVICE)
    } else {
        Ok(())
    }
}

// The same, where its disk reports an error.
fn tell_failing_block<E: Write>(
    rt: &(impl Files<File = File> + AllocGlobal),
    asked: Asked,
    cause: DeviceCause,
    err: &mut E,
) -> io::Result<()> {
    match cause {
        DeviceCause::Call(CallCause::DiskError) => tell_block(rt, asked, err),
        _ => Ok(()),
    }
}

// Of what has too few bytes, tells what to do before all else where it is a store without the bytes behind its log, or a block device.
fn tell_short<E: Write>(
    rt: &(impl Files<File = File> + AllocGlobal),
    asked: Asked,
    err: &mut E,
) -> io::Result<()> {
    if let Some(length) = length_of_cut(rt, asked) {
        tell_of(
            err,
            asked,
            format_args!("{CUT_BEHIND_ITS_LOG} (truncate -s {length} COPY), {USE_THAT_COPY}"),
        )?;
    }
    if is_block_device(rt, asked) {
        tell_of(err, asked, SHORT_DEVICE)
    } else {
        Ok(())
    }
}

// Tells that requests may be done, where a store may have been served before the fault.
fn tell_doubt<E: Write>(fault: Fault, err: &mut E) -> io::Result<()> {
    match fault {
        Fault::Memory | Fault::Device | Fault::Closed | Fault::Unknown | Fault::Spent => {
            tell(err, NOT_ANSWERED)
        }
        _ => Ok(()),
    }
}

// Tells what to do with a store where one was to be made.
fn tell_store<E: Write>(
    rt: &(impl Files<File = File> + AllocGlobal),
    asked: Asked,
    err: &mut E,
) -> io::Result<()> {
    if is_whole_store(rt, asked) {
        return tell_of(err, asked, A_STORE);
    }
    tell_short(rt, asked, err)?;
    tell_of(err, asked, CUT_STORE)
}

// Tells what is there where a store was to be made and none is.
fn tell_no_store<E: Write>(
    rt: &(impl Files<File = File> + AllocGlobal),
    asked: Asked,
    err: &mut E,
) -> io::Result<()> {
    let Some((path, _)) = store_of(asked) else {
        return tell(err, NO_STORE);
    };
    let cause = cause_of(rt, path, Wanted::Read, 0);
    let text = match cause {
        DeviceCause::Call(CallCause::Other) => {
            return tell(
                err,
                format_args!(
                    "{path}: {NO_STORE}; check the path; move this away, or name another path; {BEFORE_A_COPY}"
                ),
            );
        }
        DeviceCause::Call(_) => UNSEEN,
        _ => NO_STORE,
    };
    tell_because(err, path, text, cause)
}

// Tells the first flaw of a text that is no script, and how many more there are; or that it is a store.
fn tell_flaw<E: Write>(alloc: Global, text: &[u8], err: &mut E) -> io::Result<()> {
    if block_of(text).is_ok() {
        return tell(err, STORE_FOR_SCRIPT);
    }
    let Ok(flaws) = flaws_in(alloc, text) else {
        return tell(err, FaultHelp(Fault::Memory));
    };
    match flaws.split_first() {
        Some((flaw, [])) => tell(err, format_args!("{flaw}")),
        Some((flaw, others)) => tell(
            err,
            format_args!("{flaw} (and {} more, which tmem check tells)", others.len()),
        ),
        None => Ok(()),
    }
}

// Tells what to do where a text is no shape.
fn tell_no_shape<E: Write>(
    rt: &(impl Files<File = File> + AllocGlobal),
    asked: Asked,
    err: &mut E,
) -> io::Result<()> {
    match asked {
        Asked::Init(making) => {
            let path = making.file.unwrap_or("");
            tell_of_shape(rt, err, path, STORE_FOR_FILE, NO_SHAPE)
        }
        Asked::Serve(serving) => match serving.shape {
            Some(path) => tell_of_shape(rt, err, path, STORE_FOR_SHAPE, NO_SHAPE_OF_STORE),
            None => match shape_beside(rt.alloc(), serving.store.unwrap_or("")) {
                Ok(beside) => tell_of_shape(
                    rt,
                    err,
                    beside.as_str(),
                    STORE_FOR_SHAPE,
                    NO_SHAPE_OF_STORE,
                ),
                Err(_) => tell(err, NO_SHAPE_OF_STORE),
            },
        },
        _ => tell(err, NO_SHAPE),
    }
}

// Tells what to do with what has the path of a shape and is none; of a store it says one text, and of anything else the other.
fn tell_of_shape<E: Write>(
    rt: &(impl Files<File = File> + AllocGlobal),
    err: &mut E,
    path: &str,
    of_store: &str,
    of_other: &str,
) -> io::Result<()> {
    if begins_as_store(rt, path) {
        return tell_path(err, path, of_store);
    }
    match flaw_of_text(rt, path) {
        Some(flaw) => tell(err, format_args!("{path}: {flaw}; {of_other}")),
        None => tell_path(err, path, of_other),
    }
}

// What is wrong with a whole text, where something is.
fn flaw_of_text(rt: &(impl Files<File = File> + AllocGlobal), path: &str) -> Option<&'static str> {
    let text = text_again(rt, path)?;
    if text.is_empty() {
        Some(EMPTY_FILE)
    } else if is_cut_off(rt.alloc(), &text) {
        Some(CUT_OFF)
    } else {
        None
    }
}

// Tells why the file that is read first was not: a script, or a shape.
fn tell_unread<E: Write>(
    rt: &(impl Files<File = File> + AllocGlobal),
    asked: Asked,
    err: &mut E,
) -> io::Result<()> {
    let path = match asked {
        Asked::Run(paths) => paths.script,
        Asked::Check(script) => script,
        Asked::Init(making) => making.file,
        Asked::Serve(serving) if serving.shape.is_some() => serving.shape,
        Asked::Serve(serving) => return tell_unserved(rt, serving.store.unwrap_or(""), err),
        _ => None,
    };
    match path {
        Some(path) => { tell_cause(err, path, cause_of(rt, path, Wanted::Read, 0)) }
        None => tell(err, NO_INPUT),
    }
}

// Tells why a store could not be served whose shape was to stand beside it: what is wrong with its own path, or else with that of the shape.
fn tell_unserved<E: Write>(
    rt: &(impl Files<File = File> + AllocGlobal),
    store: &str,
    err: &mut E,
) -> io::Result<()> {
    let cause = cause_of(rt, store, Wanted::Read, 0);
    if cause != DeviceCause::Call(CallCause::Other) {
        return tell_store_cause(err, store, cause);
    }
    let Ok(beside) = shape_beside(rt.alloc(), store) else {
        return tell(err, FaultHelp(Fault::Memory));
    };
    let cause = cause_of(rt, beside.as_str(), Wanted::Read, 0);
    tell(
        err,
        format_args!("{beside}: {cause}, or name a shape by --shape"),
    )
}

// Tells what a fault means, and what is known of the file of the store.
fn tell_refused<E: Write>(
    rt: &(impl Files<File = File> + AllocGlobal),
    asked: Asked,
    trace: &Trace,
    fault: Fault,
    err: &mut E,
) -> io::Result<()> {
    match fault {
        Fault::Device => {
            if let Some((path, wanted)) = store_of(asked) {
                let wanted = if trace.is_held() {
                    Wanted::Held
                } else {
                    wanted
                };
                return tell_device(rt, asked, path, wanted, size_asked(rt, asked, trace), err);
            }
        }
        Fault::Damaged | Fault::NotFormatted => {
            if let Some((path, _)) = store_of(asked) {
                if let Some(refusal) = refusal_at(rt, path) {
                    return tell_bytes(err, asked, path, refusal);
                }
            }
        }
        Fault::Unknown => match asked {
            Asked::Serve(_) => return tell_of(err, asked, UNSURE),
            Asked::Init(_) => return tell_of(err, asked, PLACED_OR_NOT),
            _ => {}
        },
        Fault::Geometry => return tell_geometry(rt, asked, trace, err),
        Fault::Broken(name) if matches!(asked, Asked::Init(_)) => return tell(
            err,
            format_args!(
                "the invariant {name} is always to hold, and false where every variable is 0; change its bounds, or leave out always"
            ),
        ),
        _ => {}
    }
    tell_of(err, asked, FaultHelp(fault))
}

// Tells why the file of the store could not be used; and where nothing is found there, why that of the shape beside it could not be made.
fn tell_device<E: Write>(
    rt: &(impl Files<File = File> + AllocGlobal),
    asked: Asked,
    path: &str,
    wanted: Wanted,
    size: u64,
    err: &mut E,
) -> io::Result<()> {
    let cause = cause_of(rt, path, wanted, size);
    if cause == DeviceCause::Call(CallCause::Other) && places_shape(asked) {
        if let Ok(beside) = shape_beside(rt.alloc(), path) {
            let of_shape = cause_of(rt, beside.as_str(), wanted, 0);
            if of_shape != cause {
                return tell_cause(err, beside.as_str(), of_shape);
            }
        }
    }
    tell_failing_block(rt, asked, cause, err)?;
    tell_store_cause(err, path, cause)
}

// Whether a shape is put beside the store.
fn places_shape(asked: Asked) -> bool {
    match asked {
        Asked::Init(making) => !making.is_in_place,
        _ => false,
    }
}

// How many bytes a store of the numbers has that were asked for; where they are not known, the longest.
fn size_asked(rt: &(impl Files<File = File> + AllocGlobal), asked: Asked, trace: &Trace) -> u64 {
    let (vars, slots) = numbers_in(rt, asked, trace).unwrap_or((MOST_VARS, MOST_SLOTS));
    match Layout::new(vars, slots) {
        Ok(layout) => layout.end(),
        Err(_) => 0,
    }
}

// Tells which numbers were asked for, and which there are.
fn tell_geometry<E: Write>(
    rt: &(impl Files<File = File> + AllocGlobal),
    asked: Asked,
    trace: &Trace,
    err: &mut E,
) -> io::Result<()> {
    if has_no_bytes(rt, asked) {
        return tell_of(err, asked, DeviceCause::NoBytes);
    }
    if is_store_empty(rt, asked) {
        return tell_of(err, asked, format_args!("{EMPTY_STORE}; {BEFORE_A_COPY}"));
    }
    if matches!(asked, Asked::Init(_)) && is_store(rt, asked) {
        return tell_store(rt, asked, err);
    }
    let Some((vars, slots)) = numbers_in(rt, asked, trace) else {
        return tell_cut_off(rt, asked, err);
    };
    match Layout::new(vars, slots) {
        Ok(layout) => tell_layout(rt, asked, layout, err),
        Err(_) => tell(err, NumbersHelp::Limits { vars, slots }),
    }
}

// Tells why there is no store of this layout, or why no new one is put there.
fn tell_layout<E: Write>(
    rt: &(impl Files<File = File> + AllocGlobal),
    asked: Asked,
    layout: Layout,
    err: &mut E,
) -> io::Result<()> {
    match found_in(rt, asked, layout) {
        Some(help) => {
            match help {
                NumbersHelp::Other { .. } => tell_block(rt, asked, err)?,
                _ => tell_short(rt, asked, err)?,
            }
            tell_of(err, asked, help)
        }
        None => tell_numbers(rt, asked, err),
    }
}

// Tells where a store ends too soon of which no numbers were asked, or none that are known still, and of a new one that it has no room.
fn tell_cut_off<E: Write>(
    rt: &(impl Files<File = File> + AllocGlobal),
    asked: Asked,
    err: &mut E,
) -> io::Result<()> {
    if let Asked::Init(_) = asked {
        tell_short(rt, asked, err)?;
        return tell_of(err, asked, TOO_SHORT);
    }
    if let Some((path, _)) = store_of(asked) {
        if let Some(refusal) = refusal_at(rt, path) {
            match refusal.fault {
                Fault::Geometry => tell_short(rt, asked, err)?,
                _ => tell_block(rt, asked, err)?,
            }
            return tell_bytes(err, asked, path, refusal);
        }
    }
    tell_numbers(rt, asked, err)
}

// Tells that the numbers were refused, where nothing that is there now shows why.
fn tell_numbers<E: Write>(
    rt: &(impl Files<File = File> + AllocGlobal),
    asked: Asked,
    err: &mut E,
) -> io::Result<()> {
    tell_block(rt, asked, err)?;
    tell_of(err, asked, FaultHelp(Fault::Geometry))
}

// The numbers that were asked for, by a script or a shape.
fn numbers_in(
    rt: &(impl Files<File = File> + AllocGlobal),
    asked: Asked,
    trace: &Trace,
) -> Option<(u16, u16)> {
    match asked {
        Asked::Run(_) => match Script::from_slice(rt.alloc(), trace.text()) {
            Ok(script) => Some((script.vars, script.slots)),
            Err(_) => None,
        },
        Asked::Init(making) => numbers_of_shape(rt, making.file.unwrap_or("")),
        Asked::Serve(serving) => match serving.shape {
            Some(path) => numbers_of_shape(rt, path),
            None => match shape_beside(rt.alloc(), serving.store.unwrap_or("")) {
                Ok(beside) => numbers_of_shape(rt, beside.as_str()),
                Err(_) => None,
            },
        },
        _ => None,
    }
}

fn numbers_of_shape(
    rt: &(impl Files<File = File> + AllocGlobal),
    path: &str,
) -> Option<(u16, u16)> {
    let text = text_again(rt, path)?;
    match StoreShape::from_slice(rt.alloc(), &text) {
        Ok(shape) => Some((shape.vars, shape.slots)),
        Err(_) => None,
    }
}

// Why there is no store of this layout, or no new one is put there, where its numbers or its bytes show it.
fn found_in(
    rt: &(impl Files<File = File> + AllocGlobal),
    asked: Asked,
    layout: Layout,
) -> Option<NumbersHelp> {
    let (path, _) = store_of(asked)?;
    let Ok(source) = Source::read(rt, path) else {
        return None;
    };
    if let Asked::Init(_) = asked {
        let is_blank = source.bytes.iter().all(|byte| *byte == 0);
        return NumbersHelp::of_new(layout, is_blank, source.size);
    }
    let had = match block_of(&source.bytes) {
        Ok(block) => Some((block.layout.vars, block.layout.slots)),
        Err(_) => None,
    };
    NumbersHelp::of_store(layout, had, source.size)
}

// Tells of each entry that was refused what its fault means, of a transaction which node breaks a limit, and of a call which cause. Then,
// of a run in a file, that the other entries were played, and what it committed and left that is not durable.
fn explain_entries<E: Write>(
    rt: &(impl Files<File = File> + AllocGlobal),
    asked: Asked,
    trace: &Trace,
    err: &mut E,
) -> io::Result<()> {
    let path = store_of(asked).map(|found| found.0);
    if refuses_bytes_of_any(trace) {
        tell_block(rt, asked, err)?;
    }
    for refused in trace.refused() {
        explain_entry(rt, asked, path, trace.text(), refused, err)?;
    }
    match path {
        Some(path) => tell_left(trace, path, err),
        None => Ok(()),
    }
}

// Whether the fault of an entry may refuse the bytes of a store.
fn refuses_bytes_of_any(trace: &Trace) -> bool {
    trace
        .refused()
        .iter()
        .any(|refused| refuses_bytes(refused.fault))
}

// Tells of a run in a file that the other entries were played, where some were refused, and what it left that is not durable.
fn tell_left<E: Write>(trace: &Trace, path: &str, err: &mut E) -> io::Result<()> {
    if !trace.refused().is_empty() {
        tell_path(err, path, PLAYED)?;
    }
    match trace.lost() {
        Some(lost) => tell_path(err, path, lost),
        None => Ok(()),
    }
}

fn explain_entry<E: Write>(
    rt: &(impl Files<File = File> + AllocGlobal),
    asked: Asked,
    path: Option<&str>,
    text: &[u8],
    refused: &Refused,
    err: &mut E,
) -> io::Result<()> {
    let index = refused.index;
    if let Fault::BadPlan(cause) = &refused.fault {
        return tell_plan(rt.alloc(), text, index, *cause, err);
    }
    if let (Fault::Device, Some(path)) = (&refused.fault, path) {
        return tell_call(rt, asked, path, index, err);
    }
    tell_entry(err, index, refused.fault, FaultHelp(refused.fault))
}

fn tell_entry<E: Write, T: Display + Drop>(
    err: &mut E,
    index: usize,
    fault: Fault,
    text: T,
) -> io::Result<()> {
    tell(err, format_args!("/events/{index}: {fault}: {text}"))
}

// Tells which node of the transaction of an entry breaks a limit.
fn tell_plan<E: Write>(
    alloc: Global,
    text: &[u8],
    index: usize,
    cause: Cause,
    err: &mut E,
) -> io::Result<()> {
    let fault = Fault::BadPlan(cause);
    if let Ok(script) = Script::from_slice(alloc, text) {
        let flaw = plan_flaw(alloc, &script, index, cause);
        if let Expected::Plan { excess, .. } = flaw.expected {
            return tell(
                err,
                format_args!("{}: {fault}: {excess}; change the transaction", flaw.at),
            );
        }
    }
    tell_entry(err, index, fault, FaultHelp(fault))
}

// Tells why a call for an entry failed, as far as the file still shows it.
fn tell_call<E: Write>(
    rt: &(impl Files<File = File> + AllocGlobal),
    asked: Asked,
    path: &str,
    index: usize,
    err: &mut E,
) -> io::Result<()> {
    let cause = cause_of(rt, path, Wanted::Held, 0);
    if cause == DeviceCause::Call(CallCause::Other) {
        return tell_entry(err, index, Fault::Device, FaultHelp(Fault::Device));
    }
    tell_failing_block(rt, asked, cause, err)?;
    tell_entry(err, index, Fault::Device, format_args!("{path}: {cause}"))
}
