//! What is wrong with a value that is no transaction.
ghost use Rattle.std.specs.Prelude.{◌≢◌, codes, IfErr};
ghost use Rattle.serde_json.specs.Data.{string};
ghost use Rattle.serde_json.specs.View.{view};
ghost use Rattle.tmem_forms.specs.TxForms.{tagged};
ghost use Rattle.tmem_requests.specs.Wrong.{IsTrueOf, part};

use crate::explain::body::{
    ItemKind, NumberKind, find_in_items, find_in_register, find_in_two, find_in_word,
};
use crate::explain::wrong::{WrongValue, inside};
use crate::place::PointerStep;
use crate::why::RequestFlaw;
use serde_json::Value;
use std::alloc::Global;
use tmem_builtins::index_of;
use tmem_forms::{pair_of, short_of};

/// Finds the first thing that is wrong with a transaction.
#[cycle(find)]
pub fn find_in_tx(alloc: Global, value: &Value) -> Result<(), WrongValue>
    ensures { IfErr result (λ w. IsTrueOf part (view value.now) w) }
{
    match value {
        Value::String(word) => find_in_leaf_word(alloc, word.as_str()),
        Value::Object(members) => {
            if members.len() != 1 {
                return Err(WrongValue::here(alloc, RequestFlaw::NotTransaction));
            }
            match members.iter().next() {
                Some((key, body)) => find_in_member(alloc, key.as_str(), body),
                None => Err(WrongValue::here(alloc, RequestFlaw::NotTransaction)),
            }
        }
        _ => Err(WrongValue::here(alloc, RequestFlaw::NotTransaction)),
    }
}

fn find_in_leaf_word(alloc: Global, word: &str) -> Result<(), WrongValue>
    ensures { IfErr result (λ w. IsTrueOf part (string word.now) w) }
{
    match word {
        "skip" | "retry" => Ok(()),
        _ => Err(WrongValue::here(alloc, RequestFlaw::NotTransaction)),
    }
}

// The same with an object of this key alone.
#[cycle(find)]
fn find_in_member(alloc: Global, key: &str, body: &Value) -> Result<(), WrongValue>
    ensures { IfErr result (λ w. IsTrueOf part (tagged key.now (view body.now)) w) }
{
    match key {
        "seq" => inside(PointerStep::Key("seq"), find_in_seq(alloc, body)),
        "when" => inside(PointerStep::Key("when"), find_in_when(alloc, body)),
        "orelse" => inside(PointerStep::Key("orelse"), find_in_or_else(alloc, body)),
        _ => find_in_leaf(alloc, key, body),
    }
}

#[cycle(find)]
fn find_in_seq(alloc: Global, body: &Value) -> Result<(), WrongValue>
    ensures { IfErr result (λ w. IsTrueOf part (view body.now) w) }
{
    let Value::Array(items) = body else {
        return Err(WrongValue::here(alloc, RequestFlaw::NotArray));
    };
    for (i, item) in items.iter().enumerate() {
        inside(PointerStep::Item(i as u64), find_in_tx(alloc, item))?;
    }
    Ok(())
}

#[cycle(find)]
fn find_in_when(alloc: Global, body: &Value) -> Result<(), WrongValue>
    ensures { IfErr result (λ w. IsTrueOf part (view body.now) w) }
{
    let Value::Array(items) = body else {
        return Err(WrongValue::here(alloc, RequestFlaw::NotThree));
    };
    let [register, then, other] = items.as_slice() else {
        return Err(WrongValue::here(alloc, RequestFlaw::NotThree));
    };
    inside(PointerStep::Item(0), find_in_register(alloc, register))?;
    inside(PointerStep::Item(1), find_in_tx(alloc, then))?;
    inside(PointerStep::Item(2), find_in_tx(alloc, other))
}

// An array of two transactions: its items are searched as those of a sequence.
#[cycle(find)]
fn find_in_or_else(alloc: Global, body: &Value) -> Result<(), WrongValue>
    ensures { IfErr result (λ w. IsTrueOf part (view body.now) w) }
{
    match pair_of(body) {
        Ok(_) => find_in_seq(alloc, body),
        Err(error) => Err(WrongValue::refused(alloc, error, RequestFlaw::NotTwo)),
    }
}

// The same with an object of this key alone, where it holds no other transaction.
fn find_in_leaf(alloc: Global, key: &str, body: &Value) -> Result<(), WrongValue>
    requires no_seq { key.now ≢ codes "seq" }
    requires no_when { key.now ≢ codes "when" }
    requires no_or_else { key.now ≢ codes "orelse" }
    ensures { IfErr result (λ w. IsTrueOf part (tagged key.now (view body.now)) w) }
{
    match key {
        "put" => inside(
            PointerStep::Key("put"),
            find_in_two(alloc, NumberKind::Register, NumberKind::Integer, body),
        ),
        "read" => inside(PointerStep::Key("read"), find_in_access(alloc, body)),
        "write" => inside(PointerStep::Key("write"), find_in_access(alloc, body)),
        "step" => inside(PointerStep::Key("step"), find_in_step(alloc, body)),
        "abort" => inside(PointerStep::Key("abort"), find_in_code(alloc, body)),
        "check" => inside(PointerStep::Key("check"), find_in_word(alloc, body)),
        "retire" => inside(PointerStep::Key("retire"), find_in_word(alloc, body)),
        _ => Err(WrongValue::here(alloc, RequestFlaw::NotTransaction)),
    }
}

// The same with a variable and a register.
fn find_in_access(alloc: Global, body: &Value) -> Result<(), WrongValue>
    ensures { IfErr result (λ w. IsTrueOf part (view body.now) w) }
{
    find_in_two(alloc, NumberKind::Variable, NumberKind::Register, body)
}

// The same with a call of a step: its name, the registers that it is handed, and the one that takes its answer.
fn find_in_step(alloc: Global, body: &Value) -> Result<(), WrongValue>
    ensures { IfErr result (λ w. IsTrueOf part (view body.now) w) }
{
    let Value::Array(items) = body else {
        return Err(WrongValue::here(alloc, RequestFlaw::NotThree));
    };
    let [name, registers, register] = items.as_slice() else {
        return Err(WrongValue::here(alloc, RequestFlaw::NotThree));
    };
    inside(PointerStep::Item(0), find_in_step_name(alloc, name))?;
    inside(
        PointerStep::Item(1),
        find_in_items(alloc, ItemKind::Number(NumberKind::Register), registers),
    )?;
    inside(PointerStep::Item(2), find_in_register(alloc, register))
}

fn find_in_step_name(alloc: Global, value: &Value) -> Result<(), WrongValue>
    ensures { IfErr result (λ w. IsTrueOf part (view value.now) w) }
{
    let Some(name) = value.as_str() else {
        return Err(WrongValue::here(alloc, RequestFlaw::NotStep));
    };
    match index_of(name) {
        Some(_) => Ok(()),
        None => Err(WrongValue::here(alloc, RequestFlaw::NotStep)),
    }
}

fn find_in_code(alloc: Global, value: &Value) -> Result<(), WrongValue>
    ensures { IfErr result (λ w. IsTrueOf part (view value.now) w) }
{
    match short_of(value) {
        Ok(_) => Ok(()),
        Err(error) => Err(WrongValue::refused(alloc, error, RequestFlaw::NotCode)),
    }
}
