//! The sum of an invariant.
ghost use Rattle.std.specs.Prelude.{◌≡◌, ◌↔◌, ◌<◌, ◌∷◌, [], ℕ, List, map, codes, if◌then◌else◌, IsTrue, IsNone, IfSome, IfOk, IfErr};
ghost use Rattle.serde_json.specs.Data.{string};
ghost use Rattle.serde_json.specs.View.{view};
ghost use Rattle.tmem_forms.specs.TxForms.{array_of};
ghost use Rattle.tmem_tables.specs.declared.weight.Weight.{Weight};
ghost use Rattle.tmem_shape.specs.Errors.{RefusesText};
ghost use Rattle.tmem_shape.specs.Shapes.{AreTerms, HasSum, WeightFits, term_form, terms_form};

use crate::error::ShapeError;
use crate::key::Key;
use crate::members::member;
use crate::numbers::{coefficient_of, variable_of};
use crate::place::ShapePlace;
use crate::why::ShapeFlaw;
use serde_json::Value;
use std::alloc::Global;
use tmem_invariants::MAX_FOOTPRINT;
use tmem_tables::{Weight, first_repeated};

/// The variables of an invariant's sum, and how each counts.
pub(crate) fn sum_of(
    alloc: Global,
    value: &Value,
    invariant: usize,
    vars: u16,
) -> Result<(Vec<u16>, Vec<Weight>), ShapeError>
    ensures ok { IfOk result (λ terms. HasSum vars terms.0.items terms.1.items (view value.now)) }
    ensures refused { IfErr result (λ e. RefusesText e ((footprint : List ℕ) (weights : List Weight) → ¬ HasSum vars footprint weights (view value.now))) }
{
    let found = member(value, Key::Sum, ShapePlace::Invariant(invariant))?;
    let items = found.as_array().ok_or(ShapeError::NoShape {
        why: ShapeFlaw::NotArray,
        at: ShapePlace::InvariantMember(invariant, Key::Sum),
    })?;
    if items.is_empty() {
        return Err(ShapeError::NoShape {
            why: ShapeFlaw::NoTerm,
            at: ShapePlace::InvariantMember(invariant, Key::Sum),
        });
    }
    if items.len() > MAX_FOOTPRINT {
        return Err(ShapeError::NoShape {
            why: ShapeFlaw::TooManyTerms,
            at: ShapePlace::InvariantMember(invariant, Key::Sum),
        });
    }
    let (footprint, weights) = terms_of(alloc, items, invariant, vars)?;
    if let Some(term) = first_repeated(&footprint) {
        return Err(ShapeError::NoShape {
            why: ShapeFlaw::VariableTwice,
            at: ShapePlace::TermItem(invariant, term, 1),
        });
    }
    Ok((footprint, weights))
}

// The terms, in order.
fn terms_of(
    alloc: Global,
    items: &[Value],
    invariant: usize,
    vars: u16,
) -> Result<(Vec<u16>, Vec<Weight>), ShapeError>
    ensures ok { IfOk result (λ terms. map view items.now ≡ terms_form terms.0.items terms.1.items) }
    ensures fits { IfOk result (λ terms. AreTerms vars terms.0.items terms.1.items) }
    ensures refused { IfErr result (λ e. RefusesText e ((footprint : List ℕ) (weights : List Weight) → AreTerms vars footprint weights
        → ¬ (map view items.now ≡ terms_form footprint weights))) }
{
    let mut footprint = Vec::with_capacity(alloc, items.len())?;
    let mut weights = Vec::with_capacity(alloc, items.len())?;
    for (i, item) in items.iter().enumerate() {
        let (var, weight) = term_of(item, invariant, i, vars)?;
        footprint.push(var)?;
        weights.push(weight)?;
    }
    Ok((footprint, weights))
}

// One term.
fn term_of(
    value: &Value,
    invariant: usize,
    term: usize,
    vars: u16,
) -> Result<(u16, Weight), ShapeError>
    ensures ok { IfOk result (λ read. view value.now ≡ term_form read.0 read.1) }
    ensures fits { IfOk result (λ read. (read.0 < vars) × WeightFits read.1) }
    ensures refused { IfErr result (λ e. RefusesText e ((var : ℕ) (weight : Weight) → var < vars → WeightFits weight
        → ¬ (view value.now ≡ term_form var weight))) }
{
    let (number, var, is_nonzero) = term_items(value).ok_or(ShapeError::NoShape {
        why: ShapeFlaw::NotTerm,
        at: ShapePlace::Term(invariant, term),
    })?;
    let number = coefficient_of(number).ok_or(ShapeError::NoShape {
        why: ShapeFlaw::NotCoefficient,
        at: ShapePlace::TermItem(invariant, term, 0),
    })?;
    let var = variable_of(var, vars).ok_or(ShapeError::NoShape {
        why: ShapeFlaw::NotVariable,
        at: ShapePlace::TermItem(invariant, term, 1),
    })?;
    let weight = if is_nonzero {
        Weight::Nonzero(number)
    } else {
        Weight::Value(number)
    };
    Ok((var, weight))
}

// The number and the variable of a term, and whether it has the word "nonzero".
fn term_items(value: &Value) -> Option<(&Value, &Value, bool)>
    ensures some { IfSome result (λ items. view value.now ≡ array_of (view items.0.now ∷ view items.1.now ∷ (if items.2 then string (codes "nonzero") ∷ [] else []))) }
    ensures none { IsNone result → (var : ℕ) (weight : Weight) → ¬ (view value.now ≡ term_form var weight) }
{
    let items = value.as_array()?;
    if items.len() == 2 {
        return Some((&items[0], &items[1], false));
    }
    if items.len() == 3 && says_nonzero(&items[2]) {
        return Some((&items[0], &items[1], true));
    }
    None
}

// Whether it is the word "nonzero".
fn says_nonzero(value: &Value) -> bool
    ensures { IsTrue result ↔ (view value.now ≡ string (codes "nonzero")) }
{
    value.as_str() == Some("nonzero")
}
