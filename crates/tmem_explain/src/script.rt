//! All that is wrong with a script.
ghost use Rattle.std.specs.Prelude.{◌≡◌, ◌≢◌, ◌⊎◌, [], ℕ, List, All, IsUtf8, Some, IfErr, IfOk, OnOk, codes, map, string_bytes};
ghost use Rattle.serde_json.specs.Data.{Data};
ghost use Rattle.serde_json.specs.Find.{get};
ghost use Rattle.serde_json.specs.Read.{read};
ghost use Rattle.serde_json.specs.View.{view};
ghost use Rattle.tmem_script.specs.Scripts.{IsScriptText};
ghost use Rattle.tmem_script.specs.declared.script.ScriptEntry.{ScriptEntry};
ghost use Rattle.tmem_fault.specs.Name.{has_name};
ghost use Rattle.tmem_requests.specs.Reasons.{IsNoJson};
ghost use Rattle.tmem_explain.specs.Flaws.{HasUnknownScriptKey, IsAmissIn, IsFlawOf, IsTextFlaw};
ghost use Rattle.tmem_explain.specs.Limits.{IsFineText, IsFlawedText, IsNoScript, TellsItsLimits};

use crate::amiss::{Amiss, inside};
use crate::entry::find_in_entry;
use crate::expected::Expected;
use crate::flaw::{Flaw, Spot};
use crate::limits::flaws_of_script;
use serde_json::Value;
use std::alloc::{AllocError, Global};
use tmem_forms::short_of;
use tmem_requests::{PointerStep, has_only};
use tmem_script::{Script, ScriptError};

/// All that is wrong with the text of a script: of each of its numbers, and of each entry, the first thing. Of a script these are numbers
/// that no store has, and each limit that a transaction breaks. There is nothing where the text is a script that keeps them. Refused where
/// memory does not suffice.
pub fn flaws_in(alloc: Global, text: &[u8]) -> Result<Vec<Flaw>, AllocError>
    ensures told { IfOk result (λ flaws. (value : Data) → IsUtf8 text.now → read text.now ≡ Some value → All (IsFlawOf value) flaws.items) }
    ensures no_json { IfOk result (λ flaws. IsNoJson text.now → All IsTextFlaw flaws.items) }
    ensures limits { IfOk result (λ flaws. IsNoScript text.now ⊎ TellsItsLimits text.now flaws.items) }
    ensures some { IfOk result (λ flaws. flaws.items ≢ [] → IsFlawedText text.now) }
    ensures fine { IfOk result (λ flaws. flaws.items ≡ [] → IsFineText text.now) }
{
    let error = match Script::from_slice(alloc, text) {
        Ok(script) => return flaws_of_script(alloc, &script),
        Err(error) => error,
    };
    let ScriptError::NoScript = error else {
        return Err(AllocError);
    };
    flaws_of_text(alloc, text)
}

// The flaws of a text that is no script: at least one.
fn flaws_of_text(alloc: Global, text: &[u8]) -> Result<Vec<Flaw>, AllocError>
    ensures told { IfOk result (λ flaws. (value : Data) → IsUtf8 text.now → read text.now ≡ Some value → All (IsFlawOf value) flaws.items) }
    ensures no_json { IfOk result (λ flaws. IsNoJson text.now → All IsTextFlaw flaws.items) }
    ensures some { IfOk result (λ flaws. flaws.items ≢ []) }
{
    let error = match Value::from_slice(alloc, text) {
        Ok(value) => return flaws_of_value(alloc, &value),
        Err(error) => error,
    };
    if error.is_memory() {
        return Err(AllocError);
    }
    let mut flaws = Vec::new(alloc);
    flaws.push(text_flaw(&error))?;
    Ok(flaws)
}

// Where a text stops to be JSON. An empty one is wrong at its first line and column.
fn text_flaw(error: &serde_json::Error) -> Flaw
    ensures { IsTextFlaw result }
{
    let expected = if error.is_eof() {
        Expected::MoreJson
    } else {
        Expected::Json
    };
    let (line, column) = (error.line().max(1) as u64, error.column().max(1) as u64);
    Flaw {
        expected,
        at: Spot::Text { line, column },
    }
}

// The flaws of a value, or that it is not known why it is no script.
fn flaws_of_value(alloc: Global, value: &Value) -> Result<Vec<Flaw>, AllocError>
    ensures told { IfOk result (λ flaws. All (IsFlawOf (view value.now)) flaws.items) }
    ensures some { IfOk result (λ flaws. flaws.items ≢ []) }
{
    let mut flaws = Vec::new(alloc);
    note_all(alloc, value, &mut flaws)?;
    if flaws.is_empty() {
        flaws.push(Amiss::here(alloc, Expected::Script).into_flaw())?;
    }
    Ok(flaws)
}

// Notes what is wrong with a value.
fn note_all(alloc: Global, value: &Value, flaws: &mut Vec<Flaw>) -> Result<(), AllocError>
    ensures { All (IsFlawOf (view value.now)) flaws.old.items → OnOk result (All (IsFlawOf (view value.now)) flaws.new.items) }
{
    if !value.is_object() {
        return note(flaws, Err(Amiss::here(alloc, Expected::Object)));
    }
    note_keys(alloc, value, flaws)?;
    note(flaws, find_in_number(alloc, value, "vars"))?;
    note(flaws, find_in_number(alloc, value, "slots"))?;
    note_events(alloc, value, flaws)
}

// Notes what is wrong with the entries of an object, or that it has none.
fn note_events(alloc: Global, value: &Value, flaws: &mut Vec<Flaw>) -> Result<(), AllocError>
    ensures { All (IsFlawOf (view value.now)) flaws.old.items → OnOk result (All (IsFlawOf (view value.now)) flaws.new.items) }
{
    match value.get("events") {
        Some(events) => note_entries(alloc, value, events, flaws),
        None => note(flaws, Err(Amiss::here(alloc, Expected::Member("events")))),
    }
}

// Notes one flaw, if one was found.
fn note(flaws: &mut Vec<Flaw>, found: Result<(), Amiss>) -> Result<(), AllocError>
    ensures { (d : Data) → IfErr found (IsAmissIn d) → All (IsFlawOf d) flaws.old.items → OnOk result (All (IsFlawOf d) flaws.new.items) }
{
    let Err(amiss) = found else {
        return Ok(());
    };
    match flaws.push(amiss.into_flaw()) {
        Ok(()) => Ok(()),
        Err(_) => Err(AllocError),
    }
}

// Notes what is wrong with the entries, which stand at `events` of the whole.
fn note_entries(
    alloc: Global,
    whole: &Value,
    events: &Value,
    flaws: &mut Vec<Flaw>,
) -> Result<(), AllocError>
    requires { get (codes "events") (view whole.now) ≡ Some (view events.now) }
    ensures { All (IsFlawOf (view whole.now)) flaws.old.items → OnOk result (All (IsFlawOf (view whole.now)) flaws.new.items) }
{
    let Value::Array(items) = events else {
        let found = find_no_array(alloc, events);
        return note(flaws, inside(PointerStep::Key("events"), found));
    };
    for (i, item) in items.iter().enumerate() {
        let found = inside(PointerStep::Item(i as u64), find_in_entry(alloc, item));
        note(flaws, inside(PointerStep::Key("events"), found))?;
    }
    Ok(())
}

fn find_no_array(alloc: Global, value: &Value) -> Result<(), Amiss>
    ensures { IfErr result (IsAmissIn (view value.now)) }
{
    let Value::Array(_) = value else {
        return Err(Amiss::here(alloc, Expected::Entries));
    };
    Ok(())
}

// Notes a key of an object that a script does not have.
fn note_keys(alloc: Global, value: &Value, flaws: &mut Vec<Flaw>) -> Result<(), AllocError>
    ensures { All (IsFlawOf (view value.now)) flaws.old.items → OnOk result (All (IsFlawOf (view value.now)) flaws.new.items) }
{
    match strange_key(value) {
        Some(key) => note_key(alloc, value, key, flaws),
        None => note(flaws, find_in_keys(alloc, value)),
    }
}

// A key that a script does not have, and that can be printed.
fn strange_key(value: &Value) -> Option<&str> {
    let Value::Object(members) = value else {
        return None;
    };
    for (key, _) in members.iter() {
        if !is_among(&["vars", "slots", "events"], key.as_str()) && is_plain(key.as_str()) {
            return Some(key.as_str());
        }
    }
    None
}

// Notes that an object has this key, if it has, and a script does not.
fn note_key(
    alloc: Global,
    value: &Value,
    key: &str,
    flaws: &mut Vec<Flaw>,
) -> Result<(), AllocError>
    ensures { All (IsFlawOf (view value.now)) flaws.old.items → OnOk result (All (IsFlawOf (view value.now)) flaws.new.items) }
{
    if is_among(&["vars", "slots", "events"], key) {
        return note(flaws, find_in_keys(alloc, value));
    }
    match value.get(key) {
        Some(_) => {
            let name = String::from_str(alloc, key)?;
            note_flaw(flaws, strange_flaw(name))
        }
        None => note(flaws, find_in_keys(alloc, value)),
    }
}

// Whether a key is one of these.
fn is_among(keys: &[&str], key: &str) -> bool
    ensures { result ≡ has_name (map (λ key. key.now) keys.now) key.now }
{
    keys.iter().any(|k| *k == key)
}

// That an object has this key, and a script has not.
fn strange_flaw(key: String) -> Flaw
    ensures { (d : Data) → HasUnknownScriptKey (string_bytes key) d → IsFlawOf d result }
{
    Flaw {
        expected: Expected::ScriptKey,
        at: Spot::Unknown(key),
    }
}

// Notes this flaw.
fn note_flaw(flaws: &mut Vec<Flaw>, flaw: Flaw) -> Result<(), AllocError>
    ensures { (d : Data) → IsFlawOf d flaw → All (IsFlawOf d) flaws.old.items → OnOk result (All (IsFlawOf d) flaws.new.items) }
{
    flaws.push(flaw)?;
    Ok(())
}

// Whether an object has no key that a script does not have.
fn find_in_keys(alloc: Global, value: &Value) -> Result<(), Amiss>
    ensures { IfErr result (IsAmissIn (view value.now)) }
{
    if !has_only(value, &["vars", "slots", "events"]) {
        return Err(Amiss::here(alloc, Expected::ScriptKeys));
    }
    Ok(())
}

// Whether a key can stand in a pointer as it is, and is printed as one word.
fn is_plain(key: &str) -> bool {
    key.bytes().all(|byte| byte > b' ' && byte < 127 && byte != b'~' && byte != b'/')
}

// Whether a number stands at a key.
fn find_in_number(alloc: Global, value: &Value, key: &'static str) -> Result<(), Amiss>
    ensures { IfErr result (IsAmissIn (view value.now)) }
{
    match value.get(key) {
        Some(number) => inside(PointerStep::Key(key), find_no_number(alloc, number)),
        None => Err(Amiss::here(alloc, Expected::Member(key))),
    }
}

fn find_no_number(alloc: Global, value: &Value) -> Result<(), Amiss>
    ensures { IfErr result (IsAmissIn (view value.now)) }
{
    match short_of(value) {
        Ok(_) => Ok(()),
        Err(error) => Err(Amiss::refused(alloc, error, Expected::Number)),
    }
}
