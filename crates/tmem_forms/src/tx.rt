//! Transactions, from their JSON form.
ghost use Rattle.std.specs.Prelude.{◌≡◌, ◌≢◌, ◌<◌, ◌∷◌, [], ℕ, ℤ, List, length, slice_index_or, codes, IfOk, IfErr, FitsSigned};
ghost use Rattle.std.specs.Int.{w64};
ghost use Rattle.serde_json.specs.Data.{string};
ghost use Rattle.serde_json.specs.View.{view};
ghost use Rattle.tmem_forms.specs.Errors.{Refuses};
ghost use Rattle.tmem_forms.specs.TxForms.{IsByte, IsShort, IsTx, array_of, integer, natural, tagged};
ghost use Rattle.tmem_builtins.specs.Steps.{step_names};
ghost use Rattle.tmem_fault.specs.Name.{IsName};
ghost use Rattle.tmem_tree.specs.declared.tx.Tx.{Tx};

use crate::error::FormError;
use crate::pieces::{byte_of, integer_of, pair_of, registers_of, short_of, triple_of};
use serde_json::Value;
use std::alloc::Global;
use tmem_builtins::index_of;
use tmem_fault::Name;
use tmem_tree::Tx;

/// Reads a transaction: the word `"skip"` or `"retry"`, or an object with one member such as
/// `{"seq":[]}`. What is in the ranges of the numbers and yet no plan is refused when its event is
/// played.
#[cycle(tx)]
pub fn tx_of(alloc: Global, value: &Value) -> Result<Tx, FormError>
    ensures ok { IfOk result (λ tx. IsTx tx (view value.now)) }
    ensures refused { IfErr result (λ e. Refuses e ((tx : Tx) → ¬ IsTx tx (view value.now))) }
{
    match value {
        Value::String(word) => tx_of_word(word.as_str()),
        Value::Object(members) => {
            if members.len() != 1 {
                return Err(FormError::NoForm);
            }
            match members.iter().next() {
                Some((key, body)) => tx_of_member(alloc, key.as_str(), body),
                None => Err(FormError::NoForm),
            }
        }
        _ => Err(FormError::NoForm),
    }
}

fn tx_of_word(word: &str) -> Result<Tx, FormError>
    ensures ok { IfOk result (λ tx. IsTx tx (string word.now)) }
    ensures refused { IfErr result (λ e. Refuses e ((tx : Tx) → ¬ IsTx tx (string word.now))) }
{
    match word {
        "skip" => Ok(Tx::Skip),
        "retry" => Ok(Tx::Retry),
        _ => Err(FormError::NoForm),
    }
}

#[cycle(tx)]
fn tx_of_member(alloc: Global, key: &str, body: &Value) -> Result<Tx, FormError>
    ensures ok { IfOk result (λ tx. IsTx tx (tagged key.now (view body.now))) }
    ensures refused { IfErr result (λ e. Refuses e ((tx : Tx) → ¬ IsTx tx (tagged key.now (view body.now)))) }
{
    match key {
        "seq" => seq_of(alloc, body),
        "when" => when_of(alloc, body),
        "orelse" => or_else_of(alloc, body),
        _ => leaf_of(alloc, key, body),
    }
}

#[cycle(tx)]
fn seq_of(alloc: Global, body: &Value) -> Result<Tx, FormError>
    ensures ok { IfOk result (λ tx. IsTx tx (tagged (codes "seq") (view body.now))) }
    ensures refused { IfErr result (λ e. Refuses e ((tx : Tx) → ¬ IsTx tx (tagged (codes "seq") (view body.now)))) }
{
    let Value::Array(items) = body else {
        return Err(FormError::NoForm);
    };
    let mut row = Vec::with_capacity(alloc, items.len())?;
    for item in items {
        row.push(tx_of(alloc, item)?)?;
    }
    Ok(Tx::Seq(row))
}

#[cycle(tx)]
fn when_of(alloc: Global, body: &Value) -> Result<Tx, FormError>
    ensures ok { IfOk result (λ tx. IsTx tx (tagged (codes "when") (view body.now))) }
    ensures refused { IfErr result (λ e. Refuses e ((tx : Tx) → ¬ IsTx tx (tagged (codes "when") (view body.now)))) }
{
    let Value::Array(items) = body else {
        return Err(FormError::NoForm);
    };
    let [reg, then, other] = items.as_slice() else {
        return Err(FormError::NoForm);
    };
    let reg = byte_of(reg)?;
    let first = tx_of(alloc, then)?;
    let second = tx_of(alloc, other)?;
    let then = Box::new(alloc, first)?;
    let other = Box::new(alloc, second)?;
    Ok(Tx::When { reg, then, other })
}

#[cycle(tx)]
fn or_else_of(alloc: Global, body: &Value) -> Result<Tx, FormError>
    ensures ok { IfOk result (λ tx. IsTx tx (tagged (codes "orelse") (view body.now))) }
    ensures refused { IfErr result (λ e. Refuses e ((tx : Tx) → ¬ IsTx tx (tagged (codes "orelse") (view body.now)))) }
{
    let Value::Array(items) = body else {
        return Err(FormError::NoForm);
    };
    let [left, right] = items.as_slice() else {
        return Err(FormError::NoForm);
    };
    let first = tx_of(alloc, left)?;
    let second = tx_of(alloc, right)?;
    let left = Box::new(alloc, first)?;
    let right = Box::new(alloc, second)?;
    Ok(Tx::OrElse(left, right))
}

/// A transaction that holds no other.
fn leaf_of(alloc: Global, key: &str, body: &Value) -> Result<Tx, FormError>
    requires no_seq { key.now ≢ codes "seq" }
    requires no_when { key.now ≢ codes "when" }
    requires no_or_else { key.now ≢ codes "orelse" }
    ensures ok { IfOk result (λ tx. IsTx tx (tagged key.now (view body.now))) }
    ensures refused { IfErr result (λ e. Refuses e ((tx : Tx) → ¬ IsTx tx (tagged key.now (view body.now)))) }
{
    match key {
        "put" => {
            let (reg, number) = register_and_number_of(body)?;
            Ok(Tx::Put { reg, number })
        }
        "read" => {
            let (var, reg) = variable_and_register_of(body)?;
            Ok(Tx::Read { var, reg })
        }
        "write" => {
            let (var, reg) = variable_and_register_of(body)?;
            Ok(Tx::Write { var, reg })
        }
        "step" => step_of(alloc, body),
        "abort" => {
            let code = short_of(body)?;
            Ok(Tx::Abort { code })
        }
        "check" => {
            let name = name_of(body)?;
            Ok(Tx::Check { name })
        }
        "retire" => {
            let name = name_of(body)?;
            Ok(Tx::Retire { name })
        }
        _ => Err(FormError::NoForm),
    }
}

fn register_and_number_of(value: &Value) -> Result<(u8, i64), FormError>
    ensures ok { IfOk result (λ pair. view value.now ≡ array_of (natural pair.0 ∷ integer pair.1 ∷ [])) }
    ensures in_range { IfOk result (λ pair. IsByte pair.0 × FitsSigned w64 pair.1) }
    ensures refused { IfErr result (λ e. Refuses e ((reg : ℕ) (n : ℤ) → IsByte reg → FitsSigned w64 n
        → ¬ (view value.now ≡ array_of (natural reg ∷ integer n ∷ [])))) }
{
    let (first, second) = pair_of(value)?;
    let reg = byte_of(first)?;
    let number = integer_of(second)?;
    Ok((reg, number))
}

fn variable_and_register_of(value: &Value) -> Result<(u16, u8), FormError>
    ensures ok { IfOk result (λ pair. view value.now ≡ array_of (natural pair.0 ∷ natural pair.1 ∷ [])) }
    ensures in_range { IfOk result (λ pair. IsShort pair.0 × IsByte pair.1) }
    ensures refused { IfErr result (λ e. Refuses e ((var reg : ℕ) → IsShort var → IsByte reg
        → ¬ (view value.now ≡ array_of (natural var ∷ natural reg ∷ [])))) }
{
    let (first, second) = pair_of(value)?;
    let var = short_of(first)?;
    let reg = byte_of(second)?;
    Ok((var, reg))
}

/// The name of an invariant, whether or not there is one of that name.
fn name_of(value: &Value) -> Result<Name, FormError>
    ensures ok { IfOk result (λ name. (view value.now ≡ string name) × IsName name) }
    ensures refused { IfErr result (λ e. Refuses e ((name : List ℕ) → IsName name → ¬ (view value.now ≡ string name))) }
{
    let text = value.as_str().ok_or(FormError::NoForm)?;
    Name::new(text).map_err(|_| FormError::NoForm)
}

/// A call of a stored step, by its name.
fn step_of(alloc: Global, value: &Value) -> Result<Tx, FormError>
    ensures ok { IfOk result (λ tx. IsTx tx (tagged (codes "step") (view value.now))) }
    ensures refused { IfErr result (λ e. Refuses e ((tx : Tx) → ¬ IsTx tx (tagged (codes "step") (view value.now)))) }
{
    let (name, registers, register) = triple_of(value)?;
    let index = step_index_of(name)?;
    let args = registers_of(alloc, registers)?;
    let out = byte_of(register)?;
    Ok(Tx::Step { index, args, out })
}

/// Where the step of this name stands.
fn step_index_of(value: &Value) -> Result<u16, FormError>
    ensures ok { IfOk result (λ index. (view value.now ≡ string (slice_index_or step_names index [])) × (index < length step_names)) }
    ensures refused { IfErr result (λ e. Refuses e ((index : ℕ) → index < length step_names
        → ¬ (view value.now ≡ string (slice_index_or step_names index [])))) }
{
    let name = value.as_str().ok_or(FormError::NoForm)?;
    index_of(name).ok_or(FormError::NoForm)
}
