//! The entries of a script, from their JSON form.
ghost use Rattle.std.specs.Prelude.{◌≡◌, List, map, All, IfOk, IfErr};
ghost use Rattle.serde_json.specs.View.{view};
ghost use Rattle.tmem_forms.specs.Errors.{Refuses};
ghost use Rattle.tmem_script.specs.Scripts.{IsEntry, EntryInRange, entry_form};
ghost use Rattle.tmem_forms.specs.TxForms.{array_of};
ghost use Rattle.tmem_script.specs.declared.script.ScriptEntry.{ScriptEntry};

use crate::event::event_of;
use crate::script::{Playable, ScriptEntry};
use serde_json::Value;
use std::alloc::Global;
use tmem_forms::FormError;

/// Reads an array of entries.
pub(crate) fn entries_of(alloc: Global, value: &Value) -> Result<Vec<ScriptEntry>, FormError>
    ensures ok { IfOk result (λ entries. view value.now ≡ array_of (map entry_form entries.items)) }
    ensures in_range { IfOk result (λ entries. All EntryInRange entries.items) }
    ensures refused { IfErr result (λ e. Refuses e ((entries : List ScriptEntry) → All EntryInRange entries
        → ¬ (view value.now ≡ array_of (map entry_form entries)))) }
{
    let Value::Array(items) = value else {
        return Err(FormError::NoForm);
    };
    let mut entries = Vec::with_capacity(alloc, items.len())?;
    for item in items {
        entries.push(entry_of(alloc, item)?)?;
    }
    Ok(entries)
}

fn entry_of(alloc: Global, value: &Value) -> Result<ScriptEntry, FormError>
    ensures ok { IfOk result (λ entry. IsEntry entry (view value.now)) }
    ensures refused { IfErr result (λ e. Refuses e ((entry : ScriptEntry) → ¬ IsEntry entry (view value.now))) }
{
    if value.as_str() == Some("show") {
        return Ok(ScriptEntry::Show);
    }
    let event = event_of(alloc, value)?;
    Ok(ScriptEntry::Event(Playable { event }))
}
