// What all committed transactions made.
ghost use Rattle.std.specs.Prelude.{◌≡◌, ◌≤◌, ◌<◌, ◌+◌, ◌^◌, ◌↔◌, length, All, IsTrue, IfOk, Some, slice_get};
ghost use Rattle.tmem_effect.specs.Names.{has_name, with_names, without_names, AreRegistered};
ghost use Rattle.tmem_effect.specs.State.{apply, overwrite, written};

use crate::name_set::{MAX_NAMES, NameSet};
use std::alloc::{AllocError, Global};
use std::marker::Model;
use tmem_effect::{Effect, count_new, count_others};
use tmem_fault::Name;

/// How many transactions were committed, the registered names, and the value of each variable.
pub struct State {
    count: u64,
    names: NameSet,
    values: Vec<i64>,
}

// By hand, so that a function that drops one makes one call.
impl Drop for State {
    fn drop(self) {
        let State {
            count: _count,
            names: _names,
            values: _values,
        } = self;
    }
}

impl Model for State {
    ghost use Rattle.tmem_effect.specs.State.{State as StateOf};

    ghost Value = { StateOf };

    ghost view = { λ s. record { count = s.count; names = s.names; values = s.values.items } };
}

impl State {
    /// The state of these parts.
    pub fn of(count: u64, names: NameSet, values: Vec<i64>) -> State
        ensures count { result.count ≡ count }
        ensures names { result.names ≡ names }
        ensures values { result.values ≡ values.items }
    {
        State {
            count,
            names,
            values,
        }
    }

    /// How many transactions were committed.
    pub fn count(&self) -> u64
        ensures { result ≡ self.now.count }
    {
        self.count
    }

    /// The registered names, in ascending order of their bytes.
    pub fn names(&self) -> &[Name]
        ensures names { result.now ≡ self.now.names }
        ensures are_registered { AreRegistered self.now.names }
    {
        self.names.as_slice()
    }

    /// The value of each variable.
    pub fn values(&self) -> &[i64]
        ensures { result.now ≡ self.now.values }
    {
        &self.values
    }

    /// The value of one variable.
    pub fn value(&self, var: u16) -> i64
        requires { var < length self.now.values }
        ensures { slice_get self.now.values var ≡ Some result }
    {
        self.values[var as usize]
    }

    /// Whether a name is registered.
    pub fn has(&self, name: &Name) -> bool
        ensures { result ≡ has_name self.now.names name.now }
    {
        self.names.has(name)
    }

    /// Whether the names that are registered after this effect are not too many.
    pub fn has_room_for(&self, effect: &Effect) -> bool
        ensures { IsTrue result ↔ length (apply self.now effect.now).names ≤ MAX_NAMES }
    {
        let held = self.names();
        let retired = effect.retired.as_slice();
        let kept = count_others(retired, held);
        count_new(held, retired, effect.names.as_slice()) <= MAX_NAMES - kept
    }

    /// The same state in memory of its own.
    pub fn copy(&self, alloc: Global) -> Result<State, AllocError>
        ensures { IfOk result (λ s. s ≡ self.now) }
    {
        let names = self.names.copy(alloc)?;
        let values = Vec::from_slice(alloc, &self.values)?;
        Ok(State {
            count: self.count,
            names,
            values,
        })
    }

    /// Sets variables, one after another. The count and the names stay.
    pub fn overwrite(&mut self, writes: &[(u16, i64)])
        requires { All (λ w. w.0 < length self.old.values) writes.now }
        ensures { self.new ≡ overwrite self.old writes.now }
    {
        set_all(&mut self.values, writes);
    }

    /// Commits a transaction: its variables are set, the names that it retires are removed, those that it checks are added,
    /// and the count grows by 1.
    #[inline(always)]
    pub fn commit(&mut self, effect: &Effect)
        requires within { All (λ w. w.0 < length self.old.values) effect.now.writes }
        requires countable { self.old.count + 1 < 2 ^ 64 }
        requires room { length (apply self.old effect.now).names ≤ MAX_NAMES }
        ensures { self.new ≡ apply self.old effect.now }
    {
        set_all(&mut self.values, effect.writes.as_slice());
        remove_all(&mut self.names, effect.retired.as_slice());
        insert_all(&mut self.names, effect.names.as_slice());
        self.count += 1;
    }
}

fn set_all(values: &mut Vec<i64>, writes: &[(u16, i64)])
    requires { All (λ w. w.0 < length values.old.items) writes.now }
    ensures { values.new.items ≡ written values.old.items writes.now }
{
    for write in writes {
        values[write.0 as usize] = write.1;
    }
}

// Removes names from a set. Few transactions retire one, and the others are spared the call.
#[inline(always)]
fn remove_all(names: &mut NameSet, fewer: &[Name])
    ensures { names.new ≡ without_names names.old fewer.now }
{
    if !fewer.is_empty() {
        remove_each(names, fewer);
    }
}

#[inline(never)]
fn remove_each(names: &mut NameSet, fewer: &[Name])
    ensures { names.new ≡ without_names names.old fewer.now }
{
    for name in fewer {
        names.remove(name);
    }
}

// Adds names to a set. Few transactions check one, too.
#[inline(always)]
fn insert_all(names: &mut NameSet, more: &[Name])
    requires { length (with_names names.old more.now) ≤ MAX_NAMES }
    ensures { names.new ≡ with_names names.old more.now }
{
    if !more.is_empty() {
        insert_each(names, more);
    }
}

#[inline(never)]
fn insert_each(names: &mut NameSet, more: &[Name])
    requires { length (with_names names.old more.now) ≤ MAX_NAMES }
    ensures { names.new ≡ with_names names.old more.now }
{
    for name in more {
        names.insert(name);
    }
}
