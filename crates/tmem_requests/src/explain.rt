//! What is wrong with a value that is no request, and where.
//!
//! Nothing here decides whether a line is a request: this looks for a reason once that is known, and says `NotRequest` where it finds none.

ghost use Rattle.std.specs.Prelude.{◌≡◌, ◌≢◌, ℕ, true, false, List, IsTrue, IsSome, IsNone, IfSome, IfErr};
ghost use Rattle.serde_json.specs.Find.{get};
ghost use Rattle.serde_json.specs.View.{view};
ghost use Rattle.tmem_fault.specs.Name.{has_name};
ghost use Rattle.tmem_forms.specs.Members.{HasOnly};
ghost use Rattle.tmem_requests.specs.Requests.{keys_by};
ghost use Rattle.tmem_requests.specs.Wrong.{AsksBeside, IsTrueOf, IsWrong, TellsTruth, ask_keys, whole};

mod body;
mod misfit;
mod settle;
mod tx;
mod wrong;

use crate::keys::{asked_in, has_keys_by};
use crate::place::PointerStep;
use crate::refusal::NoRequest;
use crate::why::RequestFlaw;
use body::{find_in_body, find_in_integer, find_in_numbers};
pub(crate) use misfit::explained_misfit;
use serde_json::Value;
use std::alloc::Global;
pub use tx::find_in_tx;
pub use wrong::WrongValue;
use wrong::inside;

/// Why a value is no request.
#[cold]
pub(crate) fn explained(alloc: Global, value: &Value) -> NoRequest
    ensures { TellsTruth whole (view value.now) result }
{
    match find_wrong(alloc, value) {
        Ok(()) => WrongValue::here(alloc, RequestFlaw::NotRequest).into_refusal(),
        Err(wrong) => wrong.into_refusal(),
    }
}

// Finds the first thing that is wrong.
fn find_wrong(alloc: Global, value: &Value) -> Result<(), WrongValue>
    ensures { IfErr result (λ w. IsTrueOf whole (view value.now) w) }
{
    if !value.is_object() {
        return Err(WrongValue::here(alloc, RequestFlaw::NotObject));
    }
    find_in_id(alloc, value)?;
    find_in_asked(alloc, value)?;
    find_in_numbers(alloc, value)
}

// Finds what is wrong with what is asked for.
fn find_in_asked(alloc: Global, value: &Value) -> Result<(), WrongValue>
    ensures { IfErr result (λ w. IsTrueOf whole (view value.now) w) }
{
    let Some((asked, body)) = asked_in(value) else {
        return Err(WrongValue::here(alloc, RequestFlaw::NoAsk));
    };
    let Some(key) = known_key(asked) else {
        return Err(WrongValue::here(alloc, RequestFlaw::UnknownKey));
    };
    if !has_keys_by(value, key) {
        return Err(WrongValue::here(alloc, why_other_keys(value, key)));
    }
    inside(PointerStep::Key(key), find_in_body(alloc, key, body))
}

fn find_in_id(alloc: Global, value: &Value) -> Result<(), WrongValue>
    ensures { IfErr result (λ w. IsTrueOf whole (view value.now) w) }
{
    match value.get("id") {
        Some(id) => inside(PointerStep::Key("id"), find_in_integer(alloc, id)),
        None => Err(WrongValue::here(alloc, RequestFlaw::NoId)),
    }
}

// This key, if something is asked for by it.
fn known_key(key: &str) -> Option<&'static str>
    ensures same { IfSome result (λ known. known.now ≡ key.now) }
    ensures known { IfSome result (λ known. has_name ask_keys known.now ≡ true) }
    ensures none { IsNone result → has_name ask_keys key.now ≡ false }
{
    match key {
        "do" => Some("do"),
        "try" => Some("try"),
        "get" => Some("get"),
        "settle" => Some("settle"),
        "changed" => Some("changed"),
        "cancel" => Some("cancel"),
        "keep" => Some("keep"),
        "run" => Some("run"),
        "ask" => Some("ask"),
        _ => None,
    }
}

// What is wrong with an object that asks by this key, and has another that it may not have beside it.
fn why_other_keys(value: &Value, key: &str) -> RequestFlaw
    requires asks { has_name ask_keys key.now ≡ true }
    requires stands { IsSome (get key.now (view value.now)) }
    requires others { ¬ HasOnly (keys_by key.now) (view value.now) }
    ensures { IsWrong whole result (view value.now) }
{
    if asks_beside(value, key) {
        RequestFlaw::TwoAsks
    } else {
        RequestFlaw::UnknownKey
    }
}

// The keys by which something is asked for.
const KEYS: [&str; 9] = [
    "do", "try", "get", "settle", "changed", "cancel", "keep", "run", "ask",
];

// Whether an object has another key than this by which something is asked for.
fn asks_beside(value: &Value, key: &str) -> bool
    ensures { IsTrue result → AsksBeside key.now (view value.now) }
{
    for known in &KEYS {
        if let Some(other) = known_key(known) {
            if other != key && value.get(other).is_some() {
                return true;
            }
        }
    }
    false
}
