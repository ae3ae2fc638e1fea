//! The shape of a store.
ghost use Rattle.std.specs.Prelude.{◌≡◌, None, Some, IsUtf8, IfOk, IfErr};
ghost use Rattle.serde_json.specs.Read.{read};
ghost use Rattle.serde_json.specs.View.{view};
ghost use Rattle.tmem_shape.specs.Errors.{RefusesText, TellsFirstCrossed};

use crate::error::ShapeError;
use crate::invariants::{first_crossed, invariants_of};
use crate::key::Key;
use crate::members::check_keys;
use crate::names::names_of;
use crate::numbers::number_at;
use crate::place::ShapePlace;
use crate::why::ShapeFlaw;
use serde_json::Value;
use std::alloc::{AllocError, Global};
use tmem_fault::Name;
use tmem_record::{LEAST_SLOTS, MOST_SLOTS, MOST_VARS};
use tmem_tables::Linear;

/// What a store is: its variables, its log, its invariants, and names of variables.
#[derive(Drop)]
pub struct StoreShape {
    /// How many variables there are, from 1 to 1024.
    pub vars: u16,
    /// How many slots the log has, from 2 to 64.
    pub slots: u16,
    /// The invariants, in order: at most 64, over these variables, and no name twice.
    pub invariants: Vec<Linear>,
    /// Variables that have names, in the order of the names' bytes. None has two.
    pub names: Vec<(String, u16)>,
}

impl StoreShape {
    ghost use Rattle.std.specs.Prelude.{All, OnOk, map, filter, true};
    ghost use Rattle.tmem_shape.specs.Shapes.{CanHold, IsShape, IsShapeText};
    ghost use Rattle.tmem_shape.specs.declared.shape.StoreShape.{StoreShape};

    /// Reads a shape from its text, and refuses a text that is none, with why and where.
    pub fn from_slice(alloc: Global, text: &[u8]) -> Result<StoreShape, ShapeError>
        ensures ok { IfOk result (λ shape. IsShapeText shape text.now) }
        ensures refused { IfErr result (λ e. RefusesText e ((shape : StoreShape) → ¬ IsShapeText shape text.now)) }
    {
        let value = value_of(alloc, text)?;
        StoreShape::from_value(alloc, &value)
    }

    fn from_value(alloc: Global, value: &Value) -> Result<StoreShape, ShapeError>
        ensures ok { IfOk result (λ shape. IsShape shape (view value.now)) }
        ensures refused { IfErr result (λ e. RefusesText e ((shape : StoreShape) → ¬ IsShape shape (view value.now))) }
    {
        check_keys(
            alloc,
            value,
            &[Key::Vars, Key::Slots, Key::Invariants, Key::Names],
            None,
        )?;
        let vars = number_at(value, Key::Vars, 1, MOST_VARS)?;
        let slots = number_at(value, Key::Slots, LEAST_SLOTS, MOST_SLOTS)?;
        let invariants = invariants_of(alloc, value, vars)?;
        let names = names_of(alloc, value, vars)?;
        Ok(StoreShape {
            vars,
            slots,
            invariants,
            names,
        })
    }

    /// Refuses a shape with an invariant that no values keep, since its least is above its most, with the place of the first. A store that
    /// was made so before can be served: such an invariant refuses what checks it.
    pub fn check_bounds(&self) -> Result<(), ShapeError>
        ensures ok { OnOk result (All CanHold self.now.invariants.items) }
        ensures refused { IfErr result (λ e. RefusesText e (¬ All CanHold self.now.invariants.items)) }
        ensures first { IfErr result (TellsFirstCrossed self.now.invariants.items) }
    {
        match first_crossed(&self.invariants) {
            None => Ok(()),
            Some(i) => Err(ShapeError::NoShape {
                why: ShapeFlaw::Crossed,
                at: ShapePlace::InvariantMember(i, Key::Least),
            }),
        }
    }

    /// The names of the invariants, in order.
    pub fn invariant_names(&self, alloc: Global) -> Result<Vec<Name>, AllocError>
        ensures { IfOk result (λ names. names.items ≡ map (λ linear. linear.name) self.now.invariants.items) }
    {
        let mut names = Vec::with_capacity(alloc, self.invariants.len())?;
        for linear in &self.invariants {
            names.push(linear.name)?;
        }
        Ok(names)
    }

    /// The names of those that are registered as the store is made, in order.
    pub fn always_names(&self, alloc: Global) -> Result<Vec<Name>, AllocError>
        ensures { IfOk result (λ names. names.items ≡ map (λ linear. linear.name) (filter (λ linear. linear.always) self.now.invariants.items)) }
    {
        let mut names = Vec::with_capacity(alloc, self.invariants.len())?;
        for linear in &self.invariants {
            if linear.always {
                names.push(linear.name)?;
            }
        }
        Ok(names)
    }
}

// The value of a text.
fn value_of(alloc: Global, text: &[u8]) -> Result<Value, ShapeError>
    ensures utf8 { IfOk result (λ value. IsUtf8 text.now) }
    ensures ok { IfOk result (λ value. read text.now ≡ Some (view value)) }
    ensures refused { IfErr result (λ e. RefusesText e (IsUtf8 text.now → read text.now ≡ None)) }
{
    let error = match Value::from_slice(alloc, text) {
        Ok(value) => return Ok(value),
        Err(error) => error,
    };
    if error.is_memory() {
        return Err(ShapeError::Memory(AllocError));
    }
    Err(ShapeError::NoShape {
        why: ShapeFlaw::NotJson,
        at: ShapePlace::Text {
            line: error.line(),
            column: error.column(),
        },
    })
}
