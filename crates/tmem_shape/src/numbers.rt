//! Whole numbers, written without a point or an exponent.
ghost use Rattle.std.specs.Prelude.{◌≡◌, ◌<◌, ◌≤◌, ℕ, ℤ, FitsSigned, IfOk, IfErr, IfSome, IsNone};
ghost use Rattle.std.specs.Int.{w32, w64};
ghost use Rattle.serde_json.specs.View.{view};
ghost use Rattle.tmem_forms.specs.TxForms.{integer, natural};
ghost use Rattle.tmem_shape.specs.Errors.{RefusesText};
ghost use Rattle.tmem_shape.specs.Keys.{key_text};
ghost use Rattle.tmem_shape.specs.Shapes.{HasNumber};

use crate::error::ShapeError;
use crate::key::Key;
use crate::members::member;
use crate::place::ShapePlace;
use crate::why::ShapeFlaw;
use serde_json::Value;

/// The number at a key of the whole, which is within these bounds.
pub(crate) fn number_at(value: &Value, key: Key, least: u16, most: u16) -> Result<u16, ShapeError>
    ensures ok { IfOk result (λ n. HasNumber (key_text key) least most n (view value.now)) }
    ensures refused { IfErr result (λ e. RefusesText e ((n : ℕ) → ¬ HasNumber (key_text key) least most n (view value.now))) }
{
    let found = member(value, key, ShapePlace::Whole)?;
    natural_within(found, least, most).ok_or(ShapeError::NoShape {
        why: ShapeFlaw::NotWithin(least, most),
        at: ShapePlace::Member(key),
    })
}

// A number that is within these bounds.
fn natural_within(value: &Value, least: u16, most: u16) -> Option<u16>
    ensures some { IfSome result (λ n. (view value.now ≡ natural n) × (least ≤ n) × (n ≤ most)) }
    ensures none { IsNone result → (n : ℕ) → least ≤ n → n ≤ most → ¬ (view value.now ≡ natural n) }
{
    match value.as_u64() {
        Some(n) if n >= least as u64 && n <= most as u64 => Some(n as u16),
        _ => None,
    }
}

/// A variable, which is below their number.
pub(crate) fn variable_of(value: &Value, vars: u16) -> Option<u16>
    ensures some { IfSome result (λ var. (view value.now ≡ natural var) × (var < vars)) }
    ensures none { IsNone result → (var : ℕ) → var < vars → ¬ (view value.now ≡ natural var) }
{
    match value.as_u64() {
        Some(n) if n < vars as u64 => Some(n as u16),
        _ => None,
    }
}

/// A number of 64 bits with a sign.
pub(crate) fn integer_of(value: &Value) -> Option<i64>
    ensures some { IfSome result (λ n. (view value.now ≡ integer n) × FitsSigned w64 n) }
    ensures none { IsNone result → (n : ℤ) → FitsSigned w64 n → ¬ (view value.now ≡ integer n) }
{
    let number = value.as_number()?;
    number.as_i64()
}

/// A number of 32 bits with a sign.
pub(crate) fn coefficient_of(value: &Value) -> Option<i32>
    ensures some { IfSome result (λ n. (view value.now ≡ integer n) × FitsSigned w32 n) }
    ensures none { IsNone result → (n : ℤ) → FitsSigned w32 n → ¬ (view value.now ≡ integer n) }
{
    let number = integer_of(value)?;
    if number < i32::MIN as i64 || number > i32::MAX as i64 {
        return None;
    }
    Some(number as i32)
}
