//! The pieces that several JSON forms have.
ghost use Rattle.std.specs.Prelude.{◌≡◌, ◌<◌, ◌∷◌, [], ℕ, ℤ, List, map, All, IfOk, IfErr, FitsSigned};
ghost use Rattle.std.specs.Int.{w64};
ghost use Rattle.serde_json.specs.Data.{Data};
ghost use Rattle.serde_json.specs.View.{view};
ghost use Rattle.tmem_forms.specs.Errors.{Refuses};
ghost use Rattle.tmem_forms.specs.TxForms.{IsByte, IsShort, array_of, natural, integer};

use crate::error::FormError;
use serde_json::Value;
use std::alloc::Global;

/// The two items of an array of two.
pub fn pair_of(value: &Value) -> Result<(&Value, &Value), FormError>
    ensures ok { IfOk result (λ pair. view value.now ≡ array_of (view pair.0.now ∷ view pair.1.now ∷ [])) }
    ensures refused { IfErr result (λ e. Refuses e ((x y : Data) → ¬ (view value.now ≡ array_of (x ∷ y ∷ [])))) }
{
    let items = value.as_array().ok_or(FormError::NoForm)?;
    if items.len() != 2 {
        return Err(FormError::NoForm);
    }
    Ok((&items[0], &items[1]))
}

/// The three items of an array of three.
pub(crate) fn triple_of(value: &Value) -> Result<(&Value, &Value, &Value), FormError>
    ensures ok { IfOk result (λ triple.
        view value.now ≡ array_of (view triple.0.now ∷ view triple.1.now ∷ view triple.2.now ∷ [])) }
    ensures refused { IfErr result (λ e. Refuses e ((x y z : Data) → ¬ (view value.now ≡ array_of (x ∷ y ∷ z ∷ [])))) }
{
    let items = value.as_array().ok_or(FormError::NoForm)?;
    if items.len() != 3 {
        return Err(FormError::NoForm);
    }
    Ok((&items[0], &items[1], &items[2]))
}

/// A whole number from 0 to 65535, written without a point or an exponent.
pub fn short_of(value: &Value) -> Result<u16, FormError>
    ensures ok { IfOk result (λ n. view value.now ≡ natural n) }
    ensures in_range { IfOk result IsShort }
    ensures refused { IfErr result (λ e. Refuses e ((n : ℕ) → IsShort n → ¬ (view value.now ≡ natural n))) }
{
    match value.as_u64() {
        Some(number) if number < 65536 => Ok(number as u16),
        _ => Err(FormError::NoForm),
    }
}

/// A whole number from 0 to 255, written without a point or an exponent.
pub fn byte_of(value: &Value) -> Result<u8, FormError>
    ensures ok { IfOk result (λ n. view value.now ≡ natural n) }
    ensures in_range { IfOk result IsByte }
    ensures refused { IfErr result (λ e. Refuses e ((n : ℕ) → IsByte n → ¬ (view value.now ≡ natural n))) }
{
    let number = value.as_u64().ok_or(FormError::NoForm)?;
    u8::try_from(number).map_err(|_| FormError::NoForm)
}

/// A whole number of 64 bits with a sign, written without a point or an exponent.
pub fn integer_of(value: &Value) -> Result<i64, FormError>
    ensures ok { IfOk result (λ n. view value.now ≡ integer n) }
    ensures in_range { IfOk result (λ n. FitsSigned w64 n) }
    ensures refused { IfErr result (λ e. Refuses e ((n : ℤ) → FitsSigned w64 n → ¬ (view value.now ≡ integer n))) }
{
    let number = value.as_number().ok_or(FormError::NoForm)?;
    number.as_i64().ok_or(FormError::NoForm)
}

/// An array of registers, in their order.
pub(crate) fn registers_of(alloc: Global, value: &Value) -> Result<Vec<u8>, FormError>
    ensures ok { IfOk result (λ registers. view value.now ≡ array_of (map natural registers.items)) }
    ensures in_range { IfOk result (λ registers. All IsByte registers.items) }
    ensures refused { IfErr result (λ e. Refuses e ((registers : List ℕ) → All IsByte registers
        → ¬ (view value.now ≡ array_of (map natural registers)))) }
{
    let items = value.as_array().ok_or(FormError::NoForm)?;
    let mut registers = Vec::with_capacity(alloc, items.len())?;
    for item in items {
        registers.push(byte_of(item)?)?;
    }
    Ok(registers)
}
