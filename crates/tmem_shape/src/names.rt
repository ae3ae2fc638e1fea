//! The names of variables.
ghost use Rattle.std.specs.Prelude.{◌≡◌, ◌↔◌, ◌<◌, ℕ, List, map, All, IsTrue, IfOk, IfErr, String, string_bytes};
ghost use Rattle.std.specs.declared.alloc.Global.{Global};
ghost use Rattle.serde_json.specs.View.{view, members_view};
ghost use Rattle.tmem_forms.specs.TxForms.{natural};
ghost use Rattle.tmem_shape.specs.Errors.{RefusesText};
ghost use Rattle.tmem_shape.specs.Shapes.{HasNames, IsNameByte, IsVariableNamed, IsVariableName, names_form};

use crate::error::ShapeError;
use crate::key::Key;
use crate::numbers::variable_of;
use crate::place::ShapePlace;
use crate::why::ShapeFlaw;
use serde_json::{Map, Value};
use std::alloc::{AllocError, Global};
use tmem_tables::first_repeated;

const MAX_VARIABLE_NAME_BYTES: usize = 32;

/// The names of variables of a shape with so many.
pub(crate) fn names_of(
    alloc: Global,
    value: &Value,
    vars: u16,
) -> Result<Vec<(String, u16)>, ShapeError>
    ensures ok { IfOk result (λ names. HasNames vars names.items (view value.now)) }
    ensures refused { IfErr result (λ e. RefusesText e ((names : List (String Global × ℕ)) → ¬ HasNames vars names (view value.now))) }
{
    let Some(found) = value.get("names") else {
        return Ok(Vec::new(alloc));
    };
    let members = found.as_object().ok_or(ShapeError::NoShape {
        why: ShapeFlaw::NotObject,
        at: ShapePlace::Member(Key::Names),
    })?;
    let names = named_of(alloc, members, vars)?;
    let variables = variables_of(alloc, &names)?;
    if let Some(i) = first_repeated(&variables) {
        let name = names[i].0.clone()?;
        return Err(ShapeError::NoShape {
            why: ShapeFlaw::NamedTwice,
            at: ShapePlace::Name(name),
        });
    }
    Ok(names)
}

// The names in an object, in the order of their bytes.
fn named_of(
    alloc: Global,
    members: &Map<String, Value>,
    vars: u16,
) -> Result<Vec<(String, u16)>, ShapeError>
    ensures ok { IfOk result (λ names. members_view members.now.entries ≡ names_form names.items) }
    ensures named { IfOk result (λ names. All (IsVariableNamed vars) names.items) }
    ensures refused { IfErr result (λ e. RefusesText e ((names : List (String Global × ℕ)) → All (IsVariableNamed vars) names
        → ¬ (members_view members.now.entries ≡ names_form names))) }
{
    let mut names = Vec::with_capacity(alloc, members.len())?;
    for (key, value) in members.iter() {
        let var = named_variable(alloc, key.as_str(), value, vars)?;
        names.push((key.clone()?, var))?;
    }
    Ok(names)
}

// The variable of this name.
fn named_variable(alloc: Global, name: &str, value: &Value, vars: u16) -> Result<u16, ShapeError>
    ensures ok { IfOk result (λ var. view value.now ≡ natural var) }
    ensures fits { IfOk result (λ var. IsVariableName name.now × (var < vars)) }
    ensures refused { IfErr result (λ e. RefusesText e ((var : ℕ) → IsVariableName name.now → var < vars → ¬ (view value.now ≡ natural var))) }
{
    if !is_variable_name(name) {
        let name = String::from_str(alloc, name)?;
        return Err(ShapeError::NoShape {
            why: ShapeFlaw::NotName,
            at: ShapePlace::Name(name),
        });
    }
    let Some(var) = variable_of(value, vars) else {
        let name = String::from_str(alloc, name)?;
        return Err(ShapeError::NoShape {
            why: ShapeFlaw::NotVariable,
            at: ShapePlace::Name(name),
        });
    };
    Ok(var)
}

// Whether a text is the name of a variable: 1 to 32 of a to z, 0 to 9 and `_`, a letter first.
fn is_variable_name(text: &str) -> bool
    ensures { IsTrue result ↔ IsVariableName text.now }
{
    let bytes = text.as_bytes();
    if bytes.is_empty() || bytes.len() > MAX_VARIABLE_NAME_BYTES {
        return false;
    }
    bytes[0].is_ascii_lowercase() && bytes.iter().all(|b| is_name_byte(*b))
}

fn is_name_byte(b: u8) -> bool
    ensures { IsTrue result ↔ IsNameByte b }
{
    b.is_ascii_lowercase() || b.is_ascii_digit() || b == b'_'
}

// The variables that have names, in the order of the names.
fn variables_of(alloc: Global, names: &[(String, u16)]) -> Result<Vec<u16>, AllocError>
    ensures { IfOk result (λ variables. variables.items ≡ map (λ named. named.1) names.now) }
{
    let mut variables = Vec::with_capacity(alloc, names.len())?;
    for named in names {
        variables.push(named.1)?;
    }
    Ok(variables)
}
