//! What is wrong with an entry of a script.
ghost use Rattle.std.specs.Prelude.{IfErr};
ghost use Rattle.serde_json.specs.Data.{string};
ghost use Rattle.serde_json.specs.View.{view};
ghost use Rattle.tmem_forms.specs.TxForms.{tagged};
ghost use Rattle.tmem_explain.specs.Flaws.{IsAmissIn};

use crate::amiss::{Amiss, inside};
use crate::expected::Expected;
use serde_json::Value;
use std::alloc::Global;
use tmem_event::ATTEMPTS;
use tmem_forms::{byte_of, pair_of};
use tmem_requests::{PointerStep, find_in_tx};

/// Finds the first thing that is wrong with an entry.
pub(crate) fn find_in_entry(alloc: Global, value: &Value) -> Result<(), Amiss>
    ensures { IfErr result (IsAmissIn (view value.now)) }
{
    match value {
        Value::String(word) => find_in_entry_word(alloc, word.as_str()),
        Value::Object(members) => {
            if members.len() != 1 {
                return Err(Amiss::here(alloc, Expected::Entry));
            }
            match members.iter().next() {
                Some((key, body)) => find_in_event(alloc, key.as_str(), body),
                None => Err(Amiss::here(alloc, Expected::Entry)),
            }
        }
        _ => Err(Amiss::here(alloc, Expected::Entry)),
    }
}

fn find_in_entry_word(alloc: Global, word: &str) -> Result<(), Amiss>
    ensures { IfErr result (IsAmissIn (string word.now)) }
{
    match word {
        "flush" | "checkpoint" | "look" | "reopen" | "show" => Ok(()),
        _ => Err(Amiss::here(alloc, Expected::Entry)),
    }
}

// The same with an object of this key alone.
fn find_in_event(alloc: Global, key: &str, body: &Value) -> Result<(), Amiss>
    ensures { IfErr result (IsAmissIn (tagged key.now (view body.now))) }
{
    match key {
        "begin" => inside(PointerStep::Key("begin"), find_in_begin(alloc, body)),
        "turn" => inside(PointerStep::Key("turn"), find_in_attempt(alloc, body)),
        "settle" => inside(PointerStep::Key("settle"), find_in_attempt(alloc, body)),
        _ => Err(Amiss::here(alloc, Expected::Entry)),
    }
}

fn find_in_begin(alloc: Global, body: &Value) -> Result<(), Amiss>
    ensures { IfErr result (IsAmissIn (view body.now)) }
{
    match pair_of(body) {
        Ok((attempt, tx)) => {
            inside(PointerStep::Item(0), find_in_attempt(alloc, attempt))?;
            inside(PointerStep::Item(1), find_in_transaction(alloc, tx))
        }
        Err(error) => Err(Amiss::refused(alloc, error, Expected::Begin)),
    }
}

fn find_in_transaction(alloc: Global, value: &Value) -> Result<(), Amiss>
    ensures { IfErr result (IsAmissIn (view value.now)) }
{
    match find_in_tx(alloc, value) {
        Ok(()) => Ok(()),
        Err(wrong) => Err(Amiss::of(wrong)),
    }
}

fn find_in_attempt(alloc: Global, value: &Value) -> Result<(), Amiss>
    ensures { IfErr result (IsAmissIn (view value.now)) }
{
    match byte_of(value) {
        Ok(attempt) if (attempt as usize) < ATTEMPTS => Ok(()),
        Ok(_) => Err(Amiss::here(alloc, Expected::Attempt)),
        Err(error) => Err(Amiss::refused(alloc, error, Expected::Attempt)),
    }
}
