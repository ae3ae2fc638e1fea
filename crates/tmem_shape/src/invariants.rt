//! Invariants.
ghost use Rattle.std.specs.Prelude.{◌≡◌, ◌↔◌, ℕ, ℤ, List, All, Bool, IsTrue, Option, map, IsNone, IfSome, IfOk, IfErr, MatchOption};
ghost use Rattle.std.specs.List.{AllZip};
ghost use Rattle.serde_json.specs.Data.{string};
ghost use Rattle.serde_json.specs.View.{view};
ghost use Rattle.tmem_fault.specs.Name.{IsName};
ghost use Rattle.tmem_invariants.specs.TableNames.{AreDistinct, has_name};
ghost use Rattle.tmem_tables.specs.declared.linear.Linear.{Linear};
ghost use Rattle.tmem_shape.specs.Errors.{RefusesText};
ghost use Rattle.tmem_shape.specs.Keys.{key_text};
ghost use Rattle.tmem_shape.specs.Shapes.{BreaksFirst, CanHold, HasAlways, HasBound, HasInvariants, HasName, IsInvariant};

use crate::error::ShapeError;
use crate::key::Key;
use crate::members::{check_keys, member};
use crate::numbers::integer_of;
use crate::place::ShapePlace;
use crate::terms::sum_of;
use crate::why::ShapeFlaw;
use serde_json::Value;
use std::alloc::Global;
use tmem_builtins::names;
use tmem_fault::Name;
use tmem_invariants::MAX_INVARIANTS;
use tmem_tables::Linear;

/// The invariants of a shape with so many variables.
pub(crate) fn invariants_of(
    alloc: Global,
    value: &Value,
    vars: u16,
) -> Result<Vec<Linear>, ShapeError>
    ensures ok { IfOk result (λ invariants. HasInvariants vars invariants.items (view value.now)) }
    ensures refused { IfErr result (λ e. RefusesText e ((invariants : List Linear) → ¬ HasInvariants vars invariants (view value.now))) }
{
    let found = member(value, Key::Invariants, ShapePlace::Whole)?;
    let items = found.as_array().ok_or(ShapeError::NoShape {
        why: ShapeFlaw::NotArray,
        at: ShapePlace::Member(Key::Invariants),
    })?;
    if items.len() > MAX_INVARIANTS {
        return Err(ShapeError::NoShape {
            why: ShapeFlaw::TooManyInvariants,
            at: ShapePlace::Member(Key::Invariants),
        });
    }
    let invariants = linears_of(alloc, items, vars)?;
    if let Some(i) = name_repeated(&invariants) {
        return Err(ShapeError::NoShape {
            why: ShapeFlaw::NameTwice,
            at: ShapePlace::InvariantMember(i, Key::Name),
        });
    }
    Ok(invariants)
}

// The invariants, in order.
fn linears_of(alloc: Global, items: &[Value], vars: u16) -> Result<Vec<Linear>, ShapeError>
    ensures ok { IfOk result (λ invariants. AllZip (IsInvariant vars) invariants.items (map view items.now)) }
    ensures refused { IfErr result (λ e. RefusesText e ((invariants : List Linear) → ¬ AllZip (IsInvariant vars) invariants (map view items.now))) }
{
    let mut invariants = Vec::with_capacity(alloc, items.len())?;
    for (i, item) in items.iter().enumerate() {
        invariants.push(linear_of(alloc, item, i, vars)?)?;
    }
    Ok(invariants)
}

// The index of the first invariant whose name an earlier one has, if there is one.
fn name_repeated(invariants: &[Linear]) -> Option<usize>
    ensures repeated { MatchOption result (AreDistinct (map (λ linear. linear.name) invariants.now)) (λ index. ¬ AreDistinct (map (λ linear. linear.name) invariants.now)) }
    ensures first { IfSome result (BreaksFirst AreDistinct (map (λ linear. linear.name) invariants.now)) }
{
    for (i, linear) in invariants.iter().enumerate() {
        if is_named(&invariants[..i], &linear.name) {
            return Some(i);
        }
    }
    None
}

/// The index of the first invariant whose least is above its most, if there is one.
pub(crate) fn first_crossed(invariants: &[Linear]) -> Option<usize>
    ensures crossed { MatchOption result (All CanHold invariants.now) (λ index. ¬ All CanHold invariants.now) }
    ensures first { IfSome result (BreaksFirst (All CanHold) invariants.now) }
{
    for (i, linear) in invariants.iter().enumerate() {
        if !can_hold(linear) {
            return Some(i);
        }
    }
    None
}

// Whether the bounds of an invariant leave room for a sum.
fn can_hold(linear: &Linear) -> bool
    ensures { IsTrue result ↔ CanHold linear.now }
{
    match (linear.least, linear.most) {
        (Some(least), Some(most)) => least <= most,
        _ => true,
    }
}

// Whether one of these has a name.
fn is_named(invariants: &[Linear], name: &Name) -> bool
    ensures { result ≡ has_name (map (λ linear. linear.name) invariants.now) name.now }
{
    invariants.iter().any(|linear| linear.name == *name)
}

// One invariant.
fn linear_of(
    alloc: Global,
    value: &Value,
    invariant: usize,
    vars: u16,
) -> Result<Linear, ShapeError>
    ensures ok { IfOk result (λ linear. IsInvariant vars linear (view value.now)) }
    ensures refused { IfErr result (λ e. RefusesText e ((linear : Linear) → ¬ IsInvariant vars linear (view value.now))) }
{
    check_keys(
        alloc,
        value,
        &[Key::Name, Key::Sum, Key::Least, Key::Most, Key::Always],
        Some(invariant),
    )?;
    let name = name_of(value, invariant)?;
    let (footprint, weights) = sum_of(alloc, value, invariant, vars)?;
    let least = bound_of(value, Key::Least, invariant)?;
    let most = bound_of(value, Key::Most, invariant)?;
    if least.is_none() && most.is_none() {
        return Err(ShapeError::NoShape {
            why: ShapeFlaw::NoBound,
            at: ShapePlace::Invariant(invariant),
        });
    }
    let always = always_of(value, invariant)?;
    Ok(Linear::new(name, footprint, weights, least, most, always))
}

// The name of an invariant.
fn name_of(value: &Value, invariant: usize) -> Result<Name, ShapeError>
    ensures ok { IfOk result (λ name. HasName name (view value.now)) }
    ensures refused { IfErr result (λ e. RefusesText e ((name : List ℕ) → ¬ HasName name (view value.now))) }
{
    let found = member(value, Key::Name, ShapePlace::Invariant(invariant))?;
    let name = word_of(found).ok_or(ShapeError::NoShape {
        why: ShapeFlaw::NotWord,
        at: ShapePlace::InvariantMember(invariant, Key::Name),
    })?;
    if names().contains(&name) {
        return Err(ShapeError::NoShape {
            why: ShapeFlaw::Taken,
            at: ShapePlace::InvariantMember(invariant, Key::Name),
        });
    }
    Ok(name)
}

// One to sixteen letters.
fn word_of(value: &Value) -> Option<Name>
    ensures some { IfSome result (λ name. (view value.now ≡ string name) × IsName name) }
    ensures none { IsNone result → (name : List ℕ) → IsName name → ¬ (view value.now ≡ string name) }
{
    let text = value.as_str()?;
    Name::new(text).ok()
}

// The bound at a key, if there is one.
fn bound_of(value: &Value, key: Key, invariant: usize) -> Result<Option<i64>, ShapeError>
    ensures ok { IfOk result (λ bound. HasBound (key_text key) bound (view value.now)) }
    ensures refused { IfErr result (λ e. RefusesText e ((bound : Option ℤ) → ¬ HasBound (key_text key) bound (view value.now))) }
{
    let Some(found) = value.get(key.as_str()) else {
        return Ok(None);
    };
    let number = integer_of(found).ok_or(ShapeError::NoShape {
        why: ShapeFlaw::NotBound,
        at: ShapePlace::InvariantMember(invariant, key),
    })?;
    Ok(Some(number))
}

// Whether it is registered as the store is made.
fn always_of(value: &Value, invariant: usize) -> Result<bool, ShapeError>
    ensures ok { IfOk result (λ always. HasAlways always (view value.now)) }
    ensures refused { IfErr result (λ e. RefusesText e ((always : Bool) → ¬ HasAlways always (view value.now))) }
{
    match value.get("always") {
        None => Ok(false),
        Some(Value::Bool(true)) => Ok(true),
        Some(_) => Err(ShapeError::NoShape {
            why: ShapeFlaw::NotTrue,
            at: ShapePlace::InvariantMember(invariant, Key::Always),
        }),
    }
}
