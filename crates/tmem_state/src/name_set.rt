// The names that are registered.
ghost use Rattle.std.specs.Prelude.{◌≡◌, ◌≤◌, ◌<◌, ◌↔◌, [], ◌∷◌, ◌++◌, length, true, false, All, IsTrue, IfOk};
ghost use Rattle.std.specs.Bool.{OnTrue, OnFalse};
ghost use Rattle.std.specs.List.{prefix_len};
ghost use Rattle.tmem_effect.specs.Names.{has_name, insert_name, without_name, is_before, AreRegistered};

use std::alloc::{AllocError, Global};
use std::marker::Model;
use tmem_effect::holds;
use tmem_fault::Name;

/// How many names may be registered.
pub const MAX_NAMES: usize = 64;

/// The registered names, each once, in ascending order of their bytes. There is room for all of them from the start.
#[derive(Drop)]
pub struct NameSet {
    items: Vec<Name>,
}

impl Model for NameSet {
    ghost use Rattle.std.specs.Prelude.{ℕ, List, ◌≤◌, vec_capacity};
    ghost use Rattle.tmem_effect.specs.Names.{AreRegistered};

    ghost Value = { List (List ℕ) };

    ghost view = { λ n. n.items.items };

    ghost invariant = { λ n. AreRegistered n.items.items × (64 ≤ vec_capacity n.items) };
}

impl NameSet {
    /// No names, with room for 64.
    pub fn new(alloc: Global) -> Result<NameSet, AllocError>
        ensures { IfOk result (λ names. names ≡ []) }
    {
        let items = Vec::with_capacity(alloc, MAX_NAMES)?;
        Ok(NameSet { items })
    }

    /// The names in ascending order.
    pub fn as_slice(&self) -> &[Name]
        ensures names { result.now ≡ self.now }
        ensures are_registered { AreRegistered self.now }
    {
        &self.items
    }

    /// Whether a name is registered.
    pub(crate) fn has(&self, name: &Name) -> bool
        ensures { result ≡ has_name self.now name.now }
    {
        holds(&self.items, name)
    }

    /// Registers a name, unless it is registered.
    pub(crate) fn insert(&mut self, name: &Name)
        requires { has_name self.old name.now ≡ false → length self.old < MAX_NAMES }
        ensures { self.new ≡ insert_name self.old name.now }
    {
        if !holds(&self.items, name) {
            let index = count_below(&self.items, name);
            self.items.insert(index, *name).unwrap();
        }
    }

    /// Removes a name, if it is registered.
    pub(crate) fn remove(&mut self, name: &Name)
        ensures { self.new ≡ without_name self.old name.now }
    {
        self.items.retain(|n| n != name);
    }

    /// Registers a name that is above all others. Where 64 are registered already, or one of them is not below it,
    /// nothing changes and the result is false.
    pub fn push(&mut self, name: &Name) -> bool
        ensures fits { IsTrue result
            ↔ ((length self.old < MAX_NAMES) × All (λ n. is_before n name.now ≡ true) self.old) }
        ensures pushed { OnTrue result (self.new ≡ self.old ++ name.now ∷ []) }
        ensures kept { OnFalse result (self.new ≡ self.old) }
    {
        // brings in that the letters are those of a name
        let _ = name.as_bytes();
        if self.items.len() == MAX_NAMES || !are_below(&self.items, name) {
            return false;
        }
        self.items.push(*name).unwrap();
        true
    }

    /// The same names in memory of their own.
    pub(crate) fn copy(&self, alloc: Global) -> Result<NameSet, AllocError>
        ensures { IfOk result (λ names. names ≡ self.now) }
    {
        let mut names = NameSet::new(alloc)?;
        names.items.extend_from_slice(&self.items).unwrap();
        Ok(names)
    }
}

// How many names at the front are below this one.
fn count_below(names: &[Name], name: &Name) -> usize
    ensures { result ≡ prefix_len (λ n. is_before n name.now) names.now }
{
    names.iter().take_while(|n| *n < name).count()
}

// Whether each of the names is below this one.
fn are_below(names: &[Name], name: &Name) -> bool
    ensures { IsTrue result ↔ All (λ n. is_before n name.now ≡ true) names.now }
{
    names.iter().all(|n| n < name)
}
