//! A row of `serve`.

use crate::failure::CallFailure;
use crate::serving::output::{Output, WriteTurn};
use serde_json::Value;
use std::alloc::Global;
use std::io::ErrorKind;
use tmem_fault::Fault;

/// What is served.
#[derive(Drop)]
pub(crate) struct ServedRow {
    pub(crate) by: ServedBy,
    /// The sync of the device that fails, counted from 0 once the store is open.
    pub(crate) fails: Option<u64>,
    pub(crate) pieces: Vec<Vec<u8>>,
    /// Whether it is told how serving ended, and when the output was flushed.
    pub(crate) tells_end: bool,
}

/// Who serves the pieces.
#[derive(Clone, Copy)]
pub(crate) enum ServedBy {
    /// A desk is handed each.
    Desk,
    /// The same, once another desk of the store has committed a transaction, and has flushed it or met the fault of the device.
    SecondDesk,
    /// `serve_store` reads each by a read of its own, once it has printed the first line.
    Store,
}

/// What a row says, and its output.
pub(crate) fn row_of(alloc: Global, text: &[u8]) -> Result<(ServedRow, Output), CallFailure> {
    match Value::from_slice(alloc, text) {
        Ok(value) => row_of_value(alloc, &value),
        Err(error) if error.is_memory() => Err(CallFailure::Refused(Fault::Memory)),
        Err(_) => Err(CallFailure::NoRow),
    }
}

fn row_of_value(alloc: Global, value: &Value) -> Result<(ServedRow, Output), CallFailure> {
    let Some(by) = value.get("by").and_then(by_of) else {
        return Err(CallFailure::NoRow);
    };
    let Some(pieces) = value.get("pieces").and_then(Value::as_array) else {
        return Err(CallFailure::NoRow);
    };
    let pieces = pieces_of(alloc, pieces)?;
    let writes = match value.get("writes") {
        Some(turns) => writes_of(alloc, turns)?,
        None => Vec::new(alloc),
    };
    let row = ServedRow {
        by,
        fails: value.get("fails").and_then(Value::as_u64),
        pieces,
        tells_end: !writes.is_empty(),
    };
    let flush_fails = match value.get("flushes") {
        Some(_) => Some(ErrorKind::Other),
        None => None,
    };
    Ok((row, Output::new(alloc, writes, flush_fails)))
}

fn by_of(value: &Value) -> Option<ServedBy> {
    match value.as_str() {
        Some("desk") => Some(ServedBy::Desk),
        Some("second desk") => Some(ServedBy::SecondDesk),
        Some("store") => Some(ServedBy::Store),
        _ => None,
    }
}

fn pieces_of(alloc: Global, values: &[Value]) -> Result<Vec<Vec<u8>>, CallFailure> {
    let mut pieces = Vec::new(alloc);
    for value in values {
        pieces.push(piece_of(alloc, value)?)?;
    }
    Ok(pieces)
}

// A piece, which is put together of texts.
fn piece_of(alloc: Global, value: &Value) -> Result<Vec<u8>, CallFailure> {
    let Some(texts) = value.as_array() else {
        return Err(CallFailure::NoRow);
    };
    let mut piece = Vec::new(alloc);
    for text in texts {
        let Some(text) = text.as_str() else {
            return Err(CallFailure::NoRow);
        };
        piece.extend_from_slice(text.as_bytes())?;
    }
    Ok(piece)
}

fn writes_of(alloc: Global, value: &Value) -> Result<Vec<WriteTurn>, CallFailure> {
    let Some(turns) = value.as_array() else {
        return Err(CallFailure::NoRow);
    };
    let mut writes = Vec::new(alloc);
    for turn in turns {
        let Some(turn) = turn_of(turn) else {
            return Err(CallFailure::NoRow);
        };
        writes.push(turn)?;
    }
    Ok(writes)
}

fn turn_of(value: &Value) -> Option<WriteTurn> {
    match value.as_str() {
        None => match value.as_u64() {
            Some(most) => Some(Ok(most as usize)),
            None => None,
        },
        Some("all") => Some(Ok(usize::MAX)),
        Some("signal") => Some(Err(ErrorKind::Interrupted)),
        Some("failure") => Some(Err(ErrorKind::Other)),
        Some(_) => None,
    }
}
