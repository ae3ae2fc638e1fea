// The names that a transaction checks, and those that it retires.
ghost use Rattle.std.specs.Prelude.{◌≡◌, ◌≤◌, ◌<◌, [], length, take, false, not, count_by};
ghost use Rattle.tmem_fault.specs.Name.{IsName};
ghost use Rattle.tmem_effect.specs.Names.{has_name, with_name, without_name, without_names, AreChecks};

use std::marker::Model;
use tmem_fault::Name;

/// How many names one transaction may check.
pub const MAX_CHECKS: usize = 8;

/// How many names one transaction may retire.
pub const MAX_RETIRES: usize = MAX_CHECKS;

/// The names that a transaction checks, or those that it retires: each once, in the order in which they came. They are
/// held in place.
#[derive(Drop)]
pub struct Names {
    // those from `len` on are not among them
    items: [Name; MAX_CHECKS],
    len: usize,
}

impl Model for Names {
    ghost use Rattle.std.specs.Prelude.{ℕ, List, ◌≤◌, take};
    ghost use Rattle.tmem_effect.specs.Names.{AreChecks};

    ghost Value = { List (List ℕ) };

    ghost view = { λ n. take n.len n.items };

    ghost invariant = { λ n. AreChecks (take n.len n.items) × (n.len ≤ 8) };
}

impl Names {
    // No names.
    pub(crate) fn new() -> Names
        ensures { result ≡ [] }
    {
        Names {
            items: [placeholder(); MAX_CHECKS],
            len: 0,
        }
    }

    /// The names in order.
    pub fn as_slice(&self) -> &[Name]
        ensures names { result.now ≡ self.now }
        ensures are_checks { AreChecks self.now }
    {
        &self.items[..self.len]
    }

    /// Whether a name is among them.
    pub fn has(&self, name: &Name) -> bool
        ensures { result ≡ has_name self.now name.now }
    {
        holds(self.as_slice(), name)
    }

    /// Adds a name at the end, unless it is there.
    pub fn put(&mut self, name: &Name)
        requires { has_name self.old name.now ≡ false → length self.old < MAX_CHECKS }
        ensures { self.new ≡ with_name self.old name.now }
    {
        if !holds(&self.items[..self.len], name) {
            self.items[self.len] = *name;
            self.len += 1;
        }
    }

    /// Removes a name, if it is there. The others stay in their order.
    pub fn remove(&mut self, name: &Name)
        ensures { self.new ≡ without_name self.old name.now }
    {
        self.len = keep_others(&mut self.items, self.len, name);
    }

    // Takes over the names of another.
    pub(crate) fn copy_from(&mut self, other: &Names)
        ensures { self.new ≡ other.now }
    {
        let items = other.as_slice();
        // most effects have none
        if !items.is_empty() {
            self.items[..items.len()].copy_from_slice(items);
        }
        self.len = items.len();
    }

    // Forgets all names.
    pub(crate) fn clear(&mut self)
        ensures { self.new ≡ [] }
    {
        self.len = 0;
    }
}

// A name for the places that hold none.
fn placeholder() -> Name {
    Name::new("a").unwrap()
}

/// Whether a name is among these.
pub fn holds(names: &[Name], name: &Name) -> bool
    ensures held { result ≡ has_name names.now name.now }
    ensures is_name { IsName name.now }
{
    let bytes = name.as_bytes();
    names.iter().any(|n| n.as_bytes() == bytes)
}

// Moves so many names at the front together, without this one, and answers how many are left.
fn keep_others(items: &mut [Name], len: usize, name: &Name) -> usize
    requires { len ≤ length items.old }
    ensures kept { take result items.new ≡ without_name (take len items.old) name.now }
    ensures fewer { result ≤ len }
    ensures long { length items.new ≡ length items.old }
{
    let mut kept = 0;
    for at in 0..len {
        let item = items[at];
        if item != *name {
            items[kept] = item;
            kept += 1;
        }
    }
    kept
}

/// How many of the names are not among those.
pub fn count_others(those: &[Name], names: &[Name]) -> usize
    ensures { result ≡ count_by (λ name. not (has_name those.now name)) names.now }
{
    // most effects retire none
    if those.is_empty() {
        return names.len();
    }
    let mut count = 0;
    for name in names {
        if !holds(those, name) {
            count += 1;
        }
    }
    count
}

/// How many of the names are not among those that are held, or among those that are retired of them.
pub fn count_new(held: &[Name], retired: &[Name], names: &[Name]) -> usize
    ensures { result ≡ count_by (λ name. not (has_name (without_names held.now retired.now) name)) names.now }
{
    let mut count = 0;
    for name in names {
        if is_new(held, retired, name) {
            count += 1;
        }
    }
    count
}

fn is_new(held: &[Name], retired: &[Name], name: &Name) -> bool
    ensures { result ≡ not (has_name (without_names held.now retired.now) name.now) }
{
    !holds(held, name) || holds(retired, name)
}
