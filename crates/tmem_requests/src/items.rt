//! Arrays of one kind of items.
ghost use Rattle.std.specs.Prelude.{◌≡◌, ◌∷◌, ◌++◌, [], ℕ, ℤ, List, map, All, FitsSigned, IfOk, IfErr};
ghost use Rattle.std.specs.Int.{w64};
ghost use Rattle.serde_json.specs.Data.{Data, string};
ghost use Rattle.serde_json.specs.View.{view};
ghost use Rattle.tmem_fault.specs.Name.{IsName};
ghost use Rattle.tmem_forms.specs.Errors.{Refuses};
ghost use Rattle.tmem_forms.specs.TxForms.{IsShort, array_of, integer, natural};
ghost use Rattle.tmem_requests.specs.Forms.{PairFits, list_at, pair_form};

use serde_json::Value;
use std::alloc::Global;
use tmem_fault::Name;
use tmem_forms::{FormError, integer_of, pair_of, short_of};

/// What an array may have as its items.
pub(crate) trait Item: Drop {
    /// The JSON form of an item.
    ghost form: { Self → Data };

    /// Its numbers are in their ranges.
    ghost fits: { Self → Type 0 };

    /// Reads an item.
    fn read(value: &Value) -> Result<Self, FormError>
        ensures ok { IfOk result (λ item. view value.now ≡ form item) }
        ensures in_range { IfOk result (λ item. fits item) }
        ensures refused { IfErr result (λ e. Refuses e ((item : Self) → fits item → ¬ (view value.now ≡ form item))) };
}

impl Item for u16 {
    ghost form = { natural };

    ghost fits = { IsShort };

    fn read(value: &Value) -> Result<u16, FormError> {
        short_of(value)
    }
}

impl Item for i64 {
    ghost form = { integer };

    ghost fits = { λ n. FitsSigned w64 n };

    fn read(value: &Value) -> Result<i64, FormError> {
        integer_of(value)
    }
}

impl Item for (u16, i64) {
    ghost form = { pair_form };

    ghost fits = { PairFits };

    fn read(value: &Value) -> Result<(u16, i64), FormError> {
        let (first, second) = pair_of(value)?;
        let var = short_of(first)?;
        let number = integer_of(second)?;
        Ok((var, number))
    }
}

impl Item for Name {
    ghost form = { string };

    ghost fits = { IsName };

    fn read(value: &Value) -> Result<Name, FormError> {
        let text = value.as_str().ok_or(FormError::NoForm)?;
        Name::new(text).map_err(|_| FormError::NoForm)
    }
}

/// Reads an array of items.
pub(crate) fn list_of<T: Item>(alloc: Global, value: &Value) -> Result<Vec<T>, FormError>
    ensures ok { IfOk result (λ items. view value.now ≡ array_of (map T.form items.items)) }
    ensures in_range { IfOk result (λ items. All T.fits items.items) }
    ensures refused { IfErr result (λ e. Refuses e ((items : List T) → All T.fits items → ¬ (view value.now ≡ array_of (map T.form items)))) }
{
    let Value::Array(values) = value else {
        return Err(FormError::NoForm);
    };
    let mut items = Vec::with_capacity(alloc, values.len())?;
    for item in values {
        push_read(&mut items, item)?;
    }
    Ok(items)
}

// Reads an item, and puts it behind others.
fn push_read<T: Item>(items: &mut Vec<T>, value: &Value) -> Result<(), FormError>
    ensures ok { IfOk result (λ _. map T.form items.new.items ≡ map T.form items.old.items ++ view value.now ∷ []) }
    ensures in_range { IfOk result (λ _. All T.fits items.old.items → All T.fits items.new.items) }
    ensures refused { IfErr result (λ e. Refuses e ((item : T) → T.fits item → ¬ (view value.now ≡ T.form item))) }
{
    items.push(T::read(value)?)?;
    Ok(())
}

/// Reads the array of items that stands at a key. Where the key is left out, there are none.
pub(crate) fn list_at<T: Item>(alloc: Global, value: &Value, key: &str) -> Result<Vec<T>, FormError>
    ensures ok { IfOk result (λ items. list_at key.now (view value.now) ≡ array_of (map T.form items.items)) }
    ensures in_range { IfOk result (λ items. All T.fits items.items) }
    ensures refused { IfErr result (λ e. Refuses e ((items : List T) → All T.fits items → ¬ (list_at key.now (view value.now) ≡ array_of (map T.form items)))) }
{
    match value.get(key) {
        Some(list) => list_of(alloc, list),
        None => Ok(Vec::new(alloc)),
    }
}
