//! Scripts: the numbers of a device, and what is to be done on it.
ghost use Rattle.std.specs.Prelude.{◌≡◌, IfOk, IfErr, codes};
ghost use Rattle.serde_json.specs.Data.{Data, Members, member, no_members, object};
ghost use Rattle.serde_json.specs.View.{view, members_view};
ghost use Rattle.tmem_event.specs.Events.{NamesAttempt};
ghost use Rattle.tmem_forms.specs.Errors.{Refuses};

use crate::entry::entries_of;
use serde_json::{Map, Value};
use std::alloc::{AllocError, Global};
use std::fmt::{self, Display};
use std::io;
use thiserror::Error;
use tmem_event::Event;
use tmem_fault::Fault;
use tmem_forms::{FormError, short_of};

/// A script that was read and checked whole.
#[derive(Drop)]
pub struct Script {
    pub vars: u16,
    pub slots: u16,
    pub entries: Vec<ScriptEntry>,
}

/// What one entry of a script's events asks for.
#[derive(Drop)]
pub enum ScriptEntry {
    Event(Playable),
    /// To print the state.
    Show,
}

/// An event that names an attempt that a world has, where it names one.
#[derive(Drop)]
pub struct Playable {
    pub event: Event,
    ghost fits: { NamesAttempt event },
}

/// Why a script was not read.
#[derive(Debug, Drop, Error)]
pub enum ScriptError {
    Memory(AllocError),
    Unreadable,
    NoScript,
}

impl fmt::Display for ScriptError {
    ghost use Rattle.std.specs.Prelude.{Some};
    ghost use Rattle.tmem_script.specs.Statuses.{script_error_text};

    ghost output = { λ error. Some (script_error_text error) };

    fn fmt<W: fmt::Write>(&self, f: &mut fmt::Formatter<W>) -> fmt::Result {
        match self {
            ScriptError::Memory(_) => Fault::Memory.fmt(f),
            ScriptError::Unreadable => f.write_str("cannot read script"),
            ScriptError::NoScript => f.write_str("bad script"),
        }
    }
}

impl From<FormError> for ScriptError {
    ghost use Rattle.std.specs.Prelude.{◌≡◌};
    ghost use Rattle.tmem_script.specs.Errors.{refusal_of};

    ghost from_gives = { λ error e. e ≡ refusal_of error };

    fn from(error: FormError) -> ScriptError {
        match error {
            FormError::Memory(error) => ScriptError::Memory(error),
            FormError::NoForm => ScriptError::NoScript,
        }
    }
}

impl From<io::Error> for ScriptError {
    ghost use Rattle.std.specs.Prelude.{◌≡◌};
    ghost use Rattle.std.specs.IoError.{error_kind};
    ghost use Rattle.std.specs.declared.io.ErrorKind.TheVariants.{OutOfMemory};
    ghost use Rattle.tmem_script.specs.declared.script.ScriptError.TheVariants.{Unreadable};
    ghost use Rattle.tmem_script.specs.Errors.{IsWanting, IsUnread};

    ghost from_gives = { λ error e. (error_kind error ≡ OutOfMemory → IsWanting e)
        × (¬ (error_kind error ≡ OutOfMemory) → e ≡ Unreadable) × IsUnread e };

    fn from(error: io::Error) -> ScriptError {
        if error.kind() == io::ErrorKind::OutOfMemory {
            ScriptError::Memory(AllocError)
        } else {
            ScriptError::Unreadable
        }
    }
}

impl From<serde_json::Error> for ScriptError {
    ghost use Rattle.std.specs.Prelude.{◌≡◌};
    ghost use Rattle.serde_json.specs.Errors.{IsMemory};
    ghost use Rattle.tmem_script.specs.declared.script.ScriptError.TheVariants.{NoScript};
    ghost use Rattle.tmem_script.specs.Errors.{IsWanting};

    ghost from_gives = { λ error e. (IsMemory error → IsWanting e) × (¬ IsMemory error → e ≡ NoScript) };

    fn from(error: serde_json::Error) -> ScriptError {
        if error.is_memory() {
            ScriptError::Memory(AllocError)
        } else {
            ScriptError::NoScript
        }
    }
}

impl Script {
    ghost use Rattle.std.specs.Prelude.{◌⊎◌, ℕ, List, Err, IfErr};
    ghost use Rattle.serde_json.specs.View.{view};
    ghost use Rattle.tmem_forms.specs.Errors.{Refuses};
    ghost use Rattle.tmem_script.specs.Errors.{IsWanting};
    ghost use Rattle.tmem_script.specs.Scripts.{IsScript, IsScriptText};
    ghost use Rattle.tmem_script.specs.declared.script.ScriptEntry.{ScriptEntry};
    ghost use Rattle.tmem_script.specs.declared.script.ScriptError.TheVariants.{NoScript};

    /// Reads a script from its text: an object with the keys `vars`, `slots` and `events`, and no
    /// other. Of a key that stands twice the last value counts. Refused with `NoScript` where the
    /// text is none, and with `Memory`.
    pub fn from_slice(alloc: Global, text: &[u8]) -> Result<Script, ScriptError>
        ensures script { IfOk result (λ script. IsScriptText script.vars script.slots script.entries.items text.now) }
        ensures no_script { IfErr result (λ e. e ≡ NoScript → (vars slots : ℕ) (entries : List ScriptEntry)
            → ¬ IsScriptText vars slots entries text.now) }
        ensures refused { IfErr result (λ e. (e ≡ NoScript) ⊎ IsWanting e) }
    {
        let value = Value::from_slice(alloc, text)?;
        let script = Script::from_value(alloc, value)?;
        Ok(script)
    }

    fn from_value(alloc: Global, value: Value) -> Result<Script, FormError>
        ensures ok { IfOk result (λ script. IsScript script.vars script.slots script.entries.items (view value)) }
        ensures refused { IfErr result (λ e. Refuses e ((vars slots : ℕ) (entries : List ScriptEntry)
            → ¬ IsScript vars slots entries (view value))) }
    {
        let Value::Object(members) = value else {
            return Err(FormError::NoForm);
        };
        let (vars, slots, events) = three_of(members)?;
        Script::of_three(alloc, &vars, &slots, &events)
    }

    // The script that the values of its three members are.
    fn of_three(
        alloc: Global,
        vars: &Value,
        slots: &Value,
        events: &Value,
    ) -> Result<Script, FormError>
        ensures ok { IfOk result (λ script. IsScript script.vars script.slots script.entries.items
            (object (member (codes "events") (view events.now) (member (codes "slots") (view slots.now) (member (codes "vars") (view vars.now) no_members))))) }
        ensures refused { IfErr result (λ e. Refuses e ((n k : ℕ) (entries : List ScriptEntry) → ¬ IsScript n k entries
            (object (member (codes "events") (view events.now) (member (codes "slots") (view slots.now) (member (codes "vars") (view vars.now) no_members)))))) }
    {
        let vars = short_of(vars)?;
        let slots = short_of(slots)?;
        let entries = entries_of(alloc, events)?;
        Ok(Script {
            vars,
            slots,
            entries,
        })
    }
}

// The values of an object's members, which have to be these three.
fn three_of(mut members: Map<String, Value>) -> Result<(Value, Value, Value), FormError>
    ensures ok { IfOk result (λ three. members_view members.entries
        ≡ member (codes "events") (view three.2) (member (codes "slots") (view three.1) (member (codes "vars") (view three.0) no_members))) }
    ensures refused { IfErr result (λ e. Refuses e ((events slots vars : Data) → ¬ (members_view members.entries
        ≡ member (codes "events") events (member (codes "slots") slots (member (codes "vars") vars no_members))))) }
{
    let events = next_of(&mut members, "events")?;
    let slots = next_of(&mut members, "slots")?;
    let vars = next_of(&mut members, "vars")?;
    if members.len() != 0 {
        return Err(FormError::NoForm);
    }
    Ok((vars, slots, events))
}

// Takes the first of an object's members, which stand in the order of their keys, out of it. It has to have this key.
fn next_of(members: &mut Map<String, Value>, key: &str) -> Result<Value, FormError>
    ensures ok { IfOk result (λ value.
        members_view members.old.entries ≡ member key.now (view value) (members_view members.new.entries)) }
    ensures refused { IfErr result (λ e. Refuses e ((d : Data) (ms : Members)
        → ¬ (members_view members.old.entries ≡ member key.now d ms))) }
{
    let Some((name, value)) = members.pop_first() else {
        return Err(FormError::NoForm);
    };
    if name.as_str() != key {
        return Err(FormError::NoForm);
    }
    Ok(value)
}
