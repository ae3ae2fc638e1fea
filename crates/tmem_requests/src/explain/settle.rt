//! What is wrong with an attempt that was made elsewhere.
ghost use Rattle.std.specs.Prelude.{◌≡◌, false, IfOk, IfErr};
ghost use Rattle.serde_json.specs.Data.{Data};
ghost use Rattle.serde_json.specs.View.{view};
ghost use Rattle.tmem_requests.specs.Forms.{ArePairs, AreWords};
ghost use Rattle.tmem_requests.specs.Wrong.{ChecksAndRetires, IsLonger, IsTrueOf, IsWrong, part};

use crate::explain::body::{ItemKind, find_in_items};
use crate::explain::wrong::{WrongValue, inside};
use crate::items::{list_at, list_of};
use crate::keys::has_only;
use crate::limits::{MAX_READS, are_apart, are_distinct, are_distinct_names};
use crate::place::PointerStep;
use crate::why::RequestFlaw;
use serde_json::Value;
use std::alloc::Global;
use tmem_fault::Name;
use tmem_forms::FormError;
use tmem_tree::{MAX_CHECKS, MAX_RETIRES, MAX_WRITES};

/// Finds the first thing that is wrong with it.
pub(crate) fn find_in_settle(alloc: Global, body: &Value) -> Result<(), WrongValue>
    ensures { IfErr result (λ w. IsTrueOf part (view body.now) w) }
{
    if !body.is_object() {
        return Err(WrongValue::here(alloc, RequestFlaw::NotObject));
    }
    if !has_only(body, &["reads", "writes", "check", "retire"]) {
        return Err(WrongValue::here(alloc, RequestFlaw::UnknownKey));
    }
    find_in_values(alloc, body, "reads", MAX_READS, RequestFlaw::TooManyReads)?;
    find_in_values(
        alloc,
        body,
        "writes",
        MAX_WRITES as usize,
        RequestFlaw::TooManyWrites,
    )?;
    find_in_names(alloc, body, "check", MAX_CHECKS, RequestFlaw::TooManyChecks)?;
    find_in_names(
        alloc,
        body,
        "retire",
        MAX_RETIRES,
        RequestFlaw::TooManyRetires,
    )?;
    find_in_both(alloc, body)
}

// The same with the variables and values at a key, of which there are at most so many.
fn find_in_values(
    alloc: Global,
    body: &Value,
    key: &'static str,
    most: usize,
    too_many: RequestFlaw,
) -> Result<(), WrongValue>
    requires { (d : Data) → IsLonger most d → IsWrong part too_many d }
    ensures { IfErr result (λ w. IsTrueOf part (view body.now) w) }
{
    match body.get(key) {
        Some(list) => inside(
            PointerStep::Key(key),
            find_in_pairs(alloc, list, most, too_many),
        ),
        None => Ok(()),
    }
}

fn find_in_pairs(
    alloc: Global,
    list: &Value,
    most: usize,
    too_many: RequestFlaw,
) -> Result<(), WrongValue>
    requires { (d : Data) → IsLonger most d → IsWrong part too_many d }
    ensures { IfErr result (λ w. IsTrueOf part (view list.now) w) }
{
    find_in_items(alloc, ItemKind::Pair, list)?;
    match list_of::<(u16, i64)>(alloc, list) {
        Ok(pairs) => find_among_pairs(alloc, &pairs, most, too_many),
        Err(_) => Err(WrongValue::here(alloc, RequestFlaw::NotRequest)),
    }
}

fn find_among_pairs(
    alloc: Global,
    pairs: &[(u16, i64)],
    most: usize,
    too_many: RequestFlaw,
) -> Result<(), WrongValue>
    requires { (d : Data) → IsLonger most d → IsWrong part too_many d }
    ensures { (d : Data) → ArePairs pairs.now d → IfErr result (λ w. IsTrueOf part d w) }
{
    if pairs.len() > most {
        return Err(WrongValue::here(alloc, too_many));
    }
    if !are_distinct(pairs) {
        return Err(WrongValue::here(alloc, RequestFlaw::VariableTwice));
    }
    Ok(())
}

// The same with the names at a key, of which there are at most so many.
fn find_in_names(
    alloc: Global,
    body: &Value,
    key: &'static str,
    most: usize,
    too_many: RequestFlaw,
) -> Result<(), WrongValue>
    requires { (d : Data) → IsLonger most d → IsWrong part too_many d }
    ensures { IfErr result (λ w. IsTrueOf part (view body.now) w) }
{
    match body.get(key) {
        Some(list) => inside(
            PointerStep::Key(key),
            find_in_words(alloc, list, most, too_many),
        ),
        None => Ok(()),
    }
}

fn find_in_words(
    alloc: Global,
    list: &Value,
    most: usize,
    too_many: RequestFlaw,
) -> Result<(), WrongValue>
    requires { (d : Data) → IsLonger most d → IsWrong part too_many d }
    ensures { IfErr result (λ w. IsTrueOf part (view list.now) w) }
{
    find_in_items(alloc, ItemKind::Word, list)?;
    match list_of::<Name>(alloc, list) {
        Ok(names) => find_among_names(alloc, &names, most, too_many),
        Err(_) => Err(WrongValue::here(alloc, RequestFlaw::NotRequest)),
    }
}

fn find_among_names(
    alloc: Global,
    names: &[Name],
    most: usize,
    too_many: RequestFlaw,
) -> Result<(), WrongValue>
    requires { (d : Data) → IsLonger most d → IsWrong part too_many d }
    ensures { (d : Data) → AreWords names.now d → IfErr result (λ w. IsTrueOf part d w) }
{
    if names.len() > most {
        return Err(WrongValue::here(alloc, too_many));
    }
    if !are_distinct_names(names) {
        return Err(WrongValue::here(alloc, RequestFlaw::NameTwice));
    }
    Ok(())
}

// Whether a name is both checked and retired. Where memory does not suffice, no reason is found.
fn find_in_both(alloc: Global, body: &Value) -> Result<(), WrongValue>
    ensures { IfErr result (λ w. IsTrueOf part (view body.now) w) }
{
    match is_apart(alloc, body) {
        Ok(true) => Ok(()),
        Ok(false) => Err(WrongValue::here(alloc, RequestFlaw::CheckedAndRetired)),
        Err(_) => Err(WrongValue::here(alloc, RequestFlaw::NotRequest)),
    }
}

fn is_apart(alloc: Global, body: &Value) -> Result<bool, FormError>
    ensures { IfOk result (λ apart. apart ≡ false → ChecksAndRetires (view body.now)) }
{
    let checks: Vec<Name> = list_at(alloc, body, "check")?;
    let retires: Vec<Name> = list_at(alloc, body, "retire")?;
    Ok(are_apart(&checks, &retires))
}
