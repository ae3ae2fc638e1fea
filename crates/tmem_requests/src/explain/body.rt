//! What is wrong with what stands at a key of a request.
ghost use Rattle.std.specs.Prelude.{IfErr};
ghost use Rattle.serde_json.specs.View.{view};
ghost use Rattle.tmem_requests.specs.Wrong.{IsTrueOf, part, whole};

use crate::explain::settle::find_in_settle;
use crate::explain::tx::find_in_tx;
use crate::explain::wrong::{WrongValue, inside};
use crate::items::Item;
use crate::place::PointerStep;
use crate::why::RequestFlaw;
use serde_json::Value;
use std::alloc::Global;
use tmem_fault::Name;
use tmem_forms::{byte_of, integer_of, pair_of, short_of};

/// Finds the first thing that is wrong with what stands at this key.
pub(crate) fn find_in_body(alloc: Global, key: &str, body: &Value) -> Result<(), WrongValue>
    ensures { IfErr result (λ w. IsTrueOf part (view body.now) w) }
{
    match key {
        "do" | "try" => find_in_tx(alloc, body),
        "get" => find_in_items(alloc, ItemKind::Number(NumberKind::Variable), body),
        "settle" => find_in_settle(alloc, body),
        "changed" => find_in_items(alloc, ItemKind::Pair, body),
        "cancel" => find_in_integer(alloc, body),
        "keep" => find_in_kept(alloc, body),
        "run" => find_in_word(alloc, body),
        _ => find_in_question(alloc, body),
    }
}

/// The same with the numbers for what is run.
pub(crate) fn find_in_numbers(alloc: Global, value: &Value) -> Result<(), WrongValue>
    ensures { IfErr result (λ w. IsTrueOf whole (view value.now) w) }
{
    match value.get("numbers") {
        Some(numbers) => inside(
            PointerStep::Key("numbers"),
            find_in_items(alloc, ItemKind::Number(NumberKind::Integer), numbers),
        ),
        None => Ok(()),
    }
}

/// What the items of an array are.
#[derive(Clone, Copy)]
pub(crate) enum ItemKind {
    Number(NumberKind),
    Pair,
    Word,
}

/// What a number is.
#[derive(Clone, Copy)]
pub(crate) enum NumberKind {
    Variable,
    Register,
    Integer,
}

/// Finds the first item of an array that is wrong.
pub(crate) fn find_in_items(alloc: Global, kind: ItemKind, value: &Value) -> Result<(), WrongValue>
    ensures { IfErr result (λ w. IsTrueOf part (view value.now) w) }
{
    let Value::Array(items) = value else {
        return Err(WrongValue::here(alloc, RequestFlaw::NotArray));
    };
    for (i, item) in items.iter().enumerate() {
        inside(PointerStep::Item(i as u64), find_in_item(alloc, kind, item))?;
    }
    Ok(())
}

fn find_in_item(alloc: Global, kind: ItemKind, item: &Value) -> Result<(), WrongValue>
    ensures { IfErr result (λ w. IsTrueOf part (view item.now) w) }
{
    match kind {
        ItemKind::Number(kind) => find_in_number(alloc, kind, item),
        ItemKind::Pair => find_in_two(alloc, NumberKind::Variable, NumberKind::Integer, item),
        ItemKind::Word => find_in_word(alloc, item),
    }
}

/// The same with an array of two numbers.
pub(crate) fn find_in_two(
    alloc: Global,
    first: NumberKind,
    second: NumberKind,
    value: &Value,
) -> Result<(), WrongValue>
    ensures { IfErr result (λ w. IsTrueOf part (view value.now) w) }
{
    match pair_of(value) {
        Ok((left, right)) => {
            inside(PointerStep::Item(0), find_in_number(alloc, first, left))?;
            inside(PointerStep::Item(1), find_in_number(alloc, second, right))
        }
        Err(error) => Err(WrongValue::refused(alloc, error, RequestFlaw::NotTwo)),
    }
}

fn find_in_number(alloc: Global, kind: NumberKind, value: &Value) -> Result<(), WrongValue>
    ensures { IfErr result (λ w. IsTrueOf part (view value.now) w) }
{
    match kind {
        NumberKind::Variable => find_in_variable(alloc, value),
        NumberKind::Register => find_in_register(alloc, value),
        NumberKind::Integer => find_in_integer(alloc, value),
    }
}

fn find_in_kept(alloc: Global, body: &Value) -> Result<(), WrongValue>
    ensures { IfErr result (λ w. IsTrueOf part (view body.now) w) }
{
    match pair_of(body) {
        Ok((word, tx)) => {
            inside(PointerStep::Item(0), find_in_word(alloc, word))?;
            inside(PointerStep::Item(1), find_in_tx(alloc, tx))
        }
        Err(error) => Err(WrongValue::refused(alloc, error, RequestFlaw::NotTwo)),
    }
}

fn find_in_question(alloc: Global, body: &Value) -> Result<(), WrongValue>
    ensures { IfErr result (λ w. IsTrueOf part (view body.now) w) }
{
    match body.as_str() {
        Some("look" | "state" | "checkpoint" | "stats") => Ok(()),
        _ => Err(WrongValue::here(alloc, RequestFlaw::NotQuestion)),
    }
}

pub(crate) fn find_in_integer(alloc: Global, value: &Value) -> Result<(), WrongValue>
    ensures { IfErr result (λ w. IsTrueOf part (view value.now) w) }
{
    match integer_of(value) {
        Ok(_) => Ok(()),
        Err(error) => Err(WrongValue::refused(alloc, error, RequestFlaw::NotInteger)),
    }
}

fn find_in_variable(alloc: Global, value: &Value) -> Result<(), WrongValue>
    ensures { IfErr result (λ w. IsTrueOf part (view value.now) w) }
{
    match short_of(value) {
        Ok(_) => Ok(()),
        Err(error) => Err(WrongValue::refused(alloc, error, RequestFlaw::NotVariable)),
    }
}

pub(crate) fn find_in_register(alloc: Global, value: &Value) -> Result<(), WrongValue>
    ensures { IfErr result (λ w. IsTrueOf part (view value.now) w) }
{
    match byte_of(value) {
        Ok(_) => Ok(()),
        Err(error) => Err(WrongValue::refused(alloc, error, RequestFlaw::NotRegister)),
    }
}

pub(crate) fn find_in_word(alloc: Global, value: &Value) -> Result<(), WrongValue>
    ensures { IfErr result (λ w. IsTrueOf part (view value.now) w) }
{
    match Name::read(value) {
        Ok(_) => Ok(()),
        Err(error) => Err(WrongValue::refused(alloc, error, RequestFlaw::NotWord)),
    }
}
