//! Objects: what stands at a key, and which keys there are.
ghost use Rattle.std.specs.Prelude.{◌≡◌, true, false, map, Some, None, OnOk, IfOk, IfErr, MatchOption};
ghost use Rattle.serde_json.specs.Find.{get};
ghost use Rattle.serde_json.specs.View.{view, members_view};
ghost use Rattle.tmem_fault.specs.Name.{has_name};
ghost use Rattle.tmem_shape.specs.Errors.{RefusesText};
ghost use Rattle.tmem_forms.specs.Members.{AreAmong, HasOnly, member_keys};
ghost use Rattle.tmem_shape.specs.Keys.{key_text};

use crate::error::ShapeError;
use crate::key::Key;
use crate::place::ShapePlace;
use crate::why::ShapeFlaw;
use serde_json::{Map, Value};
use std::alloc::Global;

/// What stands at a key of an object, which is at this place.
pub(crate) fn member(value: &Value, key: Key, at: ShapePlace) -> Result<&Value, ShapeError>
    ensures ok { IfOk result (λ found. get (key_text key) (view value.now) ≡ Some (view found.now)) }
    ensures refused { IfErr result (λ e. RefusesText e (get (key_text key) (view value.now) ≡ None)) }
{
    value.get(key.as_str()).ok_or(ShapeError::NoShape {
        why: ShapeFlaw::Missing(key),
        at,
    })
}

/// Refuses a value that is no object, or has a key that is none of these. It is an invariant, or the whole.
pub(crate) fn check_keys(
    alloc: Global,
    value: &Value,
    keys: &[Key],
    invariant: Option<usize>,
) -> Result<(), ShapeError>
    ensures ok { OnOk result (HasOnly (map key_text keys.now) (view value.now)) }
    ensures refused { IfErr result (λ e. RefusesText e (¬ HasOnly (map key_text keys.now) (view value.now))) }
{
    let members = value.as_object().ok_or(ShapeError::NoShape {
        why: ShapeFlaw::NotObject,
        at: ShapePlace::of(invariant),
    })?;
    let Some(key) = unknown_key(members, keys) else {
        return Ok(());
    };
    let key = String::from_str(alloc, key)?;
    Err(ShapeError::NoShape {
        why: ShapeFlaw::UnknownKey,
        at: ShapePlace::unknown_in(invariant, key),
    })
}

// The first key of an object that is none of these.
fn unknown_key<'v>(members: &'v Map<String, Value>, keys: &[Key]) -> Option<&'v str>
    ensures { MatchOption result
        (AreAmong (map key_text keys.now) (member_keys (members_view members.now.entries)))
        (λ key. (has_name (member_keys (members_view members.now.entries)) key.now ≡ true) × (has_name (map key_text keys.now) key.now ≡ false)) }
{
    for (key, _) in members.iter() {
        if !is_among(keys, key.as_str()) {
            return Some(key.as_str());
        }
    }
    None
}

// Whether a text is one of these keys.
fn is_among(keys: &[Key], text: &str) -> bool
    ensures { result ≡ has_name (map key_text keys.now) text.now }
{
    keys.iter().any(|key| key.as_str() == text)
}
