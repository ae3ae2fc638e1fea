//! Reads a row from its text.
ghost use Rattle.std.specs.Prelude.{◌<◌, IfOk};
ghost use Rattle.tmem_event.specs.Events.{NamesAttempt};

use crate::draft::Draft;
use crate::failure::PlayFailure;
use crate::row::{Handed, Numbers, Row, RowAct, RowJob, RowPart, RowTask, Touch};
use serde_json::Value;
use std::alloc::Global;
use tmem_disk::{DeviceFault, Fill};
use tmem_event::{ATTEMPTS, Event};
use tmem_fault::Fault;
use tmem_forms::{FormError, byte_of, integer_of, pair_of, short_of, tx_of};

/// Reads a row: an object with the keys `vars`, `slots` and `events`, and no other.
pub(crate) fn row_of(alloc: Global, text: &[u8]) -> Result<Row, PlayFailure> {
    match Value::from_slice(alloc, text) {
        Ok(value) => Ok(row_of_value(alloc, &value)?),
        Err(error) if error.is_memory() => Err(PlayFailure::Refused(Fault::Memory)),
        Err(_) => Err(PlayFailure::NoRow),
    }
}

fn row_of_value(alloc: Global, value: &Value) -> Result<Row, FormError> {
    let (numbers, events) = members_of(value).ok_or(FormError::NoForm)?;
    let mut draft = Draft::new(alloc, numbers);
    for entry in events {
        add_entry(alloc, entry, &mut draft)?;
    }
    draft.finish()
}

// The numbers of a row, and its entries.
fn members_of(value: &Value) -> Option<(Numbers, &Vec<Value>)> {
    if value.as_object()?.len() != 3 {
        return None;
    }
    match (value.get("vars"), value.get("slots"), value.get("events")) {
        (Some(vars), Some(slots), Some(Value::Array(events))) => {
            Some((numbers_of(vars, slots)?, events))
        }
        _ => None,
    }
}

fn items_of(value: &Value) -> Result<&Vec<Value>, FormError> {
    value.as_array().ok_or(FormError::NoForm)
}

// An entry, or several that are repeated.
fn add_entry(alloc: Global, entry: &Value, draft: &mut Draft) -> Result<(), FormError> {
    match entry.get("times") {
        Some(body) => {
            let (count, entries) = pair_of(body)?;
            for _ in 0..short_of(count)? {
                add_all(alloc, entries, draft)?;
            }
            Ok(())
        }
        None => add_one(alloc, entry, draft),
    }
}

fn add_all(alloc: Global, entries: &Value, draft: &mut Draft) -> Result<(), FormError> {
    for entry in items_of(entries)? {
        add_one(alloc, entry, draft)?;
    }
    Ok(())
}

fn add_one(alloc: Global, entry: &Value, draft: &mut Draft) -> Result<(), FormError> {
    if let Some(word) = entry.as_str() {
        return add_word(word, draft);
    }
    let members = entry.as_object().ok_or(FormError::NoForm)?;
    if members.len() != 1 {
        return Err(FormError::NoForm);
    }
    match members.first_key_value() {
        Some((key, body)) => add_member(alloc, key.as_str(), body, draft),
        None => Err(FormError::NoForm),
    }
}

fn add_word(word: &str, draft: &mut Draft) -> Result<(), FormError> {
    match word {
        "show" => draft.add_part(RowPart::Show),
        "registers" => draft.add_part(RowPart::Registers),
        "calls" => draft.add_part(RowPart::Calls),
        "restart" => draft.add_act(RowAct::Touch(Touch::Restart)),
        "flush" => draft.add_event(Event::Flush),
        "checkpoint" => draft.add_event(Event::Checkpoint),
        "look" => draft.add_event(Event::Look),
        "reopen" => draft.add_event(Event::Reopen),
        _ => Err(FormError::NoForm),
    }
}

fn add_member(alloc: Global, key: &str, body: &Value, draft: &mut Draft) -> Result<(), FormError> {
    match key {
        "begin" | "turn" | "settle" => draft.add_event(event_of(alloc, key, body)?),
        "open" => add_opening(body, draft),
        "evaluate" => add_evaluation(alloc, body, draft),
        "blank" => draft.add_act(RowAct::Blank(body.as_u64().ok_or(FormError::NoForm)?)),
        _ => draft.add_act(RowAct::Touch(touch_of(alloc, key, body)?)),
    }
}

// An event that names an attempt.
fn event_of(alloc: Global, key: &str, body: &Value) -> Result<Event, FormError>
    ensures { IfOk result NamesAttempt }
{
    if key == "begin" {
        let (first, second) = pair_of(body)?;
        let attempt = attempt_of(first)?;
        let tx = tx_of(alloc, second)?;
        return Ok(Event::Begin { slot: attempt, tx });
    }
    let attempt = attempt_of(body)?;
    Ok(if key == "turn" {
        Event::Turn { slot: attempt }
    } else {
        Event::Settle { slot: attempt }
    })
}

fn attempt_of(value: &Value) -> Result<u8, FormError>
    ensures { IfOk result (λ attempt. attempt < 16) }
{
    let attempt = byte_of(value)?;
    if attempt as usize >= ATTEMPTS {
        return Err(FormError::NoForm);
    }
    Ok(attempt)
}

fn add_opening(body: &Value, draft: &mut Draft) -> Result<(), FormError> {
    let (handed, numbers) = opening_of(body, draft.numbers).ok_or(FormError::NoForm)?;
    draft.open(handed, numbers)
}

// A table's word for these numbers, or an array of it and of two numbers.
fn opening_of(body: &Value, numbers: Numbers) -> Option<(Handed, Numbers)> {
    match body.as_array() {
        None => Some((handed_of(body)?, numbers)),
        Some(items) => match items.as_slice() {
            [handed, vars, slots] => Some((handed_of(handed)?, numbers_of(vars, slots)?)),
            _ => None,
        },
    }
}

fn handed_of(value: &Value) -> Option<Handed> {
    match value.as_str()? {
        "builtin" => Some(Handed::Builtin),
        "none" => Some(Handed::None),
        "broken" => Some(Handed::Broken),
        _ => None,
    }
}

fn add_evaluation(alloc: Global, body: &Value, draft: &mut Draft) -> Result<(), FormError> {
    let (first, second) = pair_of(body)?;
    let values = values_of(alloc, first)?;
    let job = RowJob::Evaluate(values, tx_of(alloc, second)?);
    draft.add_act(RowAct::Do(RowTask {
        handed: Handed::None,
        numbers: draft.numbers,
        job,
    }))
}

fn values_of(alloc: Global, value: &Value) -> Result<Vec<i64>, FormError> {
    let mut values = Vec::new(alloc);
    for item in items_of(value)? {
        values.push(integer_of(item)?)?;
    }
    Ok(values)
}

// What is done to a device that needs no store.
fn touch_of(alloc: Global, key: &str, body: &Value) -> Result<Touch, FormError> {
    let touch = match items_of(body)?.as_slice() {
        [at, bytes] if key == "write" => return write_of(alloc, at, bytes),
        [first, second] => pair_touch_of(key, first, second),
        [first, second, third] => triple_touch_of(key, first, second, third),
        _ => None,
    };
    touch.ok_or(FormError::NoForm)
}

fn write_of(alloc: Global, at: &Value, bytes: &Value) -> Result<Touch, FormError> {
    match at.as_u64() {
        Some(at) => Ok(Touch::Write(at, bytes_of(alloc, bytes)?)),
        None => Err(FormError::NoForm),
    }
}

fn pair_touch_of(key: &str, first: &Value, second: &Value) -> Option<Touch> {
    match key {
        "format" => Some(Touch::Format(numbers_of(first, second)?)),
        "recover" => Some(Touch::Recover(numbers_of(first, second)?)),
        "fail" => fail_of(first.as_str()?, second.as_u64()?),
        "crash" if first.as_str() == Some("now") => Some(Touch::CrashNow(fill_of(second)?)),
        "bytes" => Some(Touch::Bytes(first.as_u64()?, second.as_u64()?)),
        _ => None,
    }
}

fn triple_touch_of(key: &str, first: &Value, second: &Value, third: &Value) -> Option<Touch> {
    match key {
        "crash" => crash_of(first, second.as_u64()?, fill_of(third)?),
        "copy" => Some(Touch::Copy(first.as_u64()?, second.as_u64()?, third.as_u64()?)),
        _ => None,
    }
}

fn numbers_of(vars: &Value, slots: &Value) -> Option<Numbers> {
    Some(Numbers {
        vars: short_of(vars).ok()?,
        slots: short_of(slots).ok()?,
    })
}

fn crash_of(when: &Value, number: u64, fill: Fill) -> Option<Touch> {
    match when.as_str()? {
        "write" => Some(Touch::CrashAtWrite(number, fill)),
        "place" => Some(Touch::CrashAtPlace(number, fill)),
        _ => None,
    }
}

fn fail_of(call: &str, number: u64) -> Option<Touch> {
    let call = match call {
        "read" => DeviceFault::Read,
        "write" => DeviceFault::Write,
        "sync" => DeviceFault::Sync,
        _ => return None,
    };
    Some(Touch::Fail(call, number))
}

fn fill_of(value: &Value) -> Option<Fill> {
    if value.is_number() {
        return Some(Fill::Byte(byte_of(value).ok()?));
    }
    match value.as_str()? {
        "old" => Some(Fill::Old),
        "new" => Some(Fill::New),
        _ => None,
    }
}

fn bytes_of(alloc: Global, value: &Value) -> Result<Vec<u8>, FormError> {
    let mut bytes = Vec::new(alloc);
    for item in items_of(value)? {
        bytes.push(byte_of(item)?)?;
    }
    Ok(bytes)
}
