//! One event of a script, from its JSON form.
ghost use Rattle.std.specs.Prelude.{◌≡◌, ◌<◌, ℕ, codes, IfOk, IfErr};
ghost use Rattle.serde_json.specs.Data.{string};
ghost use Rattle.serde_json.specs.View.{view};
ghost use Rattle.tmem_event.specs.declared.event.Event.{Event};
ghost use Rattle.tmem_forms.specs.Errors.{Refuses};
ghost use Rattle.tmem_script.specs.Scripts.{IsEvent};
ghost use Rattle.tmem_forms.specs.TxForms.{natural, tagged};

use serde_json::Value;
use std::alloc::Global;
use tmem_event::{ATTEMPTS, Event};
use tmem_forms::{FormError, byte_of, pair_of, tx_of};

/// Reads an event: a word such as `"flush"`, or an object with one member such as `{"turn":0}`. It
/// names an attempt that a world has.
pub(crate) fn event_of(alloc: Global, value: &Value) -> Result<Event, FormError>
    ensures ok { IfOk result (λ event. IsEvent event (view value.now)) }
    ensures refused { IfErr result (λ e. Refuses e ((event : Event) → ¬ IsEvent event (view value.now))) }
{
    if let Some(word) = value.as_str() {
        return event_of_word(word);
    }
    let members = value.as_object().ok_or(FormError::NoForm)?;
    if members.len() != 1 {
        return Err(FormError::NoForm);
    }
    match members.first_key_value() {
        Some((key, body)) => event_of_member(alloc, key.as_str(), body),
        None => Err(FormError::NoForm),
    }
}

fn event_of_word(word: &str) -> Result<Event, FormError>
    ensures ok { IfOk result (λ event. IsEvent event (string word.now)) }
    ensures refused { IfErr result (λ e. Refuses e ((event : Event) → ¬ IsEvent event (string word.now))) }
{
    match word {
        "flush" => Ok(Event::Flush),
        "checkpoint" => Ok(Event::Checkpoint),
        "look" => Ok(Event::Look),
        "reopen" => Ok(Event::Reopen),
        _ => Err(FormError::NoForm),
    }
}

fn event_of_member(alloc: Global, key: &str, body: &Value) -> Result<Event, FormError>
    ensures ok { IfOk result (λ event. IsEvent event (tagged key.now (view body.now))) }
    ensures refused { IfErr result (λ e. Refuses e ((event : Event) → ¬ IsEvent event (tagged key.now (view body.now)))) }
{
    match key {
        "begin" => begin_of(alloc, body),
        "turn" => {
            let attempt = attempt_of(body)?;
            Ok(Event::Turn { slot: attempt })
        }
        "settle" => {
            let attempt = attempt_of(body)?;
            Ok(Event::Settle { slot: attempt })
        }
        _ => Err(FormError::NoForm),
    }
}

fn begin_of(alloc: Global, body: &Value) -> Result<Event, FormError>
    ensures ok { IfOk result (λ event. IsEvent event (tagged (codes "begin") (view body.now))) }
    ensures refused { IfErr result (λ e. Refuses e ((event : Event) → ¬ IsEvent event (tagged (codes "begin") (view body.now)))) }
{
    let (first, second) = pair_of(body)?;
    let attempt = attempt_of(first)?;
    let tx = tx_of(alloc, second)?;
    Ok(Event::Begin { slot: attempt, tx })
}

fn attempt_of(value: &Value) -> Result<u8, FormError>
    ensures ok { IfOk result (λ attempt. view value.now ≡ natural attempt) }
    ensures below { IfOk result (λ attempt. attempt < 16) }
    ensures refused { IfErr result (λ e. Refuses e ((attempt : ℕ) → attempt < 16 → ¬ (view value.now ≡ natural attempt))) }
{
    let attempt = byte_of(value)?;
    if attempt as usize >= ATTEMPTS {
        return Err(FormError::NoForm);
    }
    Ok(attempt)
}
