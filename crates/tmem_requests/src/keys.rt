//! The keys of an object.
ghost use Rattle.std.specs.Prelude.{◌≡◌, ◌↔◌, ◌∷◌, [], true, false, ℕ, List, map, codes, IsTrue, IsSome, IsNone, IfSome, Some};
ghost use Rattle.serde_json.specs.Find.{get};
ghost use Rattle.serde_json.specs.View.{view};
ghost use Rattle.tmem_fault.specs.Name.{has_name};
ghost use Rattle.tmem_forms.specs.Members.{HasOnly};
ghost use Rattle.tmem_requests.specs.Requests.{keys_by};

use serde_json::Value;

/// Whether a value is an object, each of whose keys is one of these.
pub fn has_only(value: &Value, keys: &[&str]) -> bool
    ensures { IsTrue result ↔ HasOnly (map (λ key. key.now) keys.now) (view value.now) }
{
    let Value::Object(members) = value else {
        return false;
    };
    for (key, _) in members.iter() {
        if !is_among(keys, key.as_str()) {
            return false;
        }
    }
    true
}

// Whether a key is one of these.
fn is_among(keys: &[&str], key: &str) -> bool
    ensures { result ≡ has_name (map (λ key. key.now) keys.now) key.now }
{
    keys.iter().any(|k| *k == key)
}

/// The first member of an object that is neither its id nor numbers.
pub(crate) fn asked_in(value: &Value) -> Option<(&str, &Value)>
    ensures found { IfSome result (λ asked. get asked.0.now (view value.now) ≡ Some (view asked.1.now)) }
    ensures beside { IfSome result (λ asked. has_name (codes "id" ∷ codes "numbers" ∷ []) asked.0.now ≡ false) }
    ensures none { IsNone result → (key : List ℕ) → IsSome (get key (view value.now)) → has_name (codes "id" ∷ codes "numbers" ∷ []) key ≡ true }
{
    let Value::Object(members) = value else {
        return None;
    };
    for (key, body) in members.iter() {
        if !is_among(&["id", "numbers"], key.as_str()) {
            return Some((key.as_str(), body));
        }
    }
    None
}

/// Whether an object has no key but those that it may have where it asks by this one.
pub(crate) fn has_keys_by(value: &Value, key: &str) -> bool
    ensures { IsTrue result ↔ HasOnly (keys_by key.now) (view value.now) }
{
    if key == "run" {
        has_only(value, &["id", "run", "numbers"])
    } else {
        has_only(value, &["id", key])
    }
}
