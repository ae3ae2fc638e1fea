//! What is asked for, from its JSON form.
ghost use Rattle.std.specs.Prelude.{◌≢◌, ℕ, List, codes, IfOk, IfErr};
ghost use Rattle.serde_json.specs.Data.{Data};
ghost use Rattle.serde_json.specs.View.{view};
ghost use Rattle.tmem_forms.specs.Errors.{Refuses};
ghost use Rattle.tmem_tree.specs.declared.tx.Tx.{Tx};
ghost use Rattle.tmem_requests.specs.Forms.{IsKept};
ghost use Rattle.tmem_requests.specs.Requests.{AsksBy, IsSettle};
ghost use Rattle.tmem_requests.specs.declared.proposal.Proposal.{Proposal};
ghost use Rattle.tmem_requests.specs.declared.request.RequestBody.{RequestBody};

use crate::items::{Item, list_at, list_of};
use crate::keys::has_only;
use crate::proposal::Proposal;
use crate::request::RequestBody;
use serde_json::Value;
use std::alloc::Global;
use tmem_fault::Name;
use tmem_forms::{FormError, integer_of, pair_of, tx_of};
use tmem_tree::Tx;

/// What is asked for by the value at this key of an object.
pub(crate) fn ask_of(
    alloc: Global,
    whole: &Value,
    key: &str,
    body: &Value,
) -> Result<RequestBody, FormError>
    ensures ok { IfOk result (λ ask. AsksBy ask key.now (view body.now) (view whole.now)) }
    ensures refused { IfErr result (λ e. Refuses e ((ask : RequestBody) → ¬ AsksBy ask key.now (view body.now) (view whole.now))) }
{
    match key {
        "do" => Ok(RequestBody::Do(tx_of(alloc, body)?)),
        "try" => Ok(RequestBody::Try(tx_of(alloc, body)?)),
        "get" => Ok(RequestBody::Get(list_of(alloc, body)?)),
        "settle" => Ok(RequestBody::Settle(proposal_of(alloc, body)?)),
        "changed" => Ok(RequestBody::Changed(list_of(alloc, body)?)),
        _ => other_ask_of(alloc, whole, key, body),
    }
}

// The same at a key that is none of these.
fn other_ask_of(
    alloc: Global,
    whole: &Value,
    key: &str,
    body: &Value,
) -> Result<RequestBody, FormError>
    requires no_do { key.now ≢ codes "do" }
    requires no_try { key.now ≢ codes "try" }
    requires no_get { key.now ≢ codes "get" }
    requires no_settle { key.now ≢ codes "settle" }
    requires no_changed { key.now ≢ codes "changed" }
    ensures ok { IfOk result (λ ask. AsksBy ask key.now (view body.now) (view whole.now)) }
    ensures refused { IfErr result (λ e. Refuses e ((ask : RequestBody) → ¬ AsksBy ask key.now (view body.now) (view whole.now))) }
{
    match key {
        "cancel" => Ok(RequestBody::Cancel(integer_of(body)?)),
        "keep" => {
            let (word, tx) = kept_of(alloc, body)?;
            Ok(RequestBody::Keep(word, tx))
        }
        "run" => {
            let word = Name::read(body)?;
            let numbers = list_at(alloc, whole, "numbers")?;
            Ok(RequestBody::Run(word, numbers))
        }
        "ask" => question_of(body),
        _ => Err(FormError::NoForm),
    }
}

/// Reads a proposal: an object with at most the keys `reads`, `writes`, `check` and `retire`.
pub(crate) fn proposal_of(alloc: Global, body: &Value) -> Result<Proposal, FormError>
    ensures ok { IfOk result (λ proposal. IsSettle proposal (view body.now)) }
    ensures refused { IfErr result (λ e. Refuses e ((proposal : Proposal) → ¬ IsSettle proposal (view body.now))) }
{
    if !has_only(body, &["reads", "writes", "check", "retire"]) {
        return Err(FormError::NoForm);
    }
    let reads = list_at(alloc, body, "reads")?;
    let writes = list_at(alloc, body, "writes")?;
    let checks = list_at(alloc, body, "check")?;
    let retires = list_at(alloc, body, "retire")?;
    Proposal::new(reads, writes, checks, retires).ok_or(FormError::NoForm)
}

// A word and the transaction that is kept under it.
fn kept_of(alloc: Global, body: &Value) -> Result<(Name, Tx), FormError>
    ensures ok { IfOk result (λ kept. IsKept kept.0 kept.1 (view body.now)) }
    ensures refused { IfErr result (λ e. Refuses e ((word : List ℕ) (tx : Tx) → ¬ IsKept word tx (view body.now))) }
{
    let (first, second) = pair_of(body)?;
    let word = Name::read(first)?;
    let tx = tx_of(alloc, second)?;
    Ok((word, tx))
}

// What is asked for by a word.
fn question_of(body: &Value) -> Result<RequestBody, FormError>
    ensures ok { IfOk result (λ ask. (whole : Data) → AsksBy ask (codes "ask") (view body.now) whole) }
    ensures refused { IfErr result (λ e. Refuses e ((ask : RequestBody) (whole : Data) → ¬ AsksBy ask (codes "ask") (view body.now) whole)) }
{
    let Value::String(word) = body else {
        return Err(FormError::NoForm);
    };
    match word.as_str() {
        "look" => Ok(RequestBody::Look),
        "state" => Ok(RequestBody::State),
        "checkpoint" => Ok(RequestBody::Checkpoint),
        "stats" => Ok(RequestBody::Stats),
        _ => Err(FormError::NoForm),
    }
}
