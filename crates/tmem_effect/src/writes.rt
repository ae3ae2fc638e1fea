// The writes of a transaction.
ghost use Rattle.std.specs.Prelude.{◌≡◌, ◌≤◌, ◌<◌, ◌==◌, [], length, IsNone, is_some, position, find, option_map};
ghost use Rattle.std.specs.List.{list_any};
ghost use Rattle.tmem_effect.specs.Writes.{value_in, with_write, AreWrites};

use std::marker::Model;

/// How many variables one transaction may write.
pub const MAX_WRITES: usize = 64;

/// The writes of a transaction: each variable once, in order of its first write, with its last value. They are held in
/// place.
#[derive(Drop)]
pub struct Writes {
    // those from `len` on are no writes
    items: [(u16, i64); MAX_WRITES],
    len: usize,
}

impl Model for Writes {
    ghost use Rattle.std.specs.Prelude.{ℕ, ℤ, List, ◌≤◌, take};
    ghost use Rattle.tmem_effect.specs.Writes.{AreWrites};

    ghost Value = { List (ℕ × ℤ) };

    ghost view = { λ w. take w.len w.items };

    ghost invariant = { λ w. AreWrites (take w.len w.items) × (w.len ≤ 64) };
}

impl Writes {
    // No writes.
    pub(crate) fn new() -> Writes
        ensures { result ≡ [] }
    {
        Writes {
            items: [(0, 0); MAX_WRITES],
            len: 0,
        }
    }

    /// The writes in order.
    pub fn as_slice(&self) -> &[(u16, i64)]
        ensures writes { result.now ≡ self.now }
        ensures are_writes { AreWrites self.now }
    {
        &self.items[..self.len]
    }

    /// The value that a variable takes, if it is written.
    pub fn get(&self, var: u16) -> Option<i64>
        ensures { result ≡ value_in self.now var }
    {
        value(self.as_slice(), var)
    }

    /// Whether a variable is written.
    pub fn has(&self, var: u16) -> bool
        ensures { result ≡ is_some (value_in self.now var) }
    {
        is_written(self.as_slice(), var)
    }

    /// Writes a variable: it keeps the place of its first write.
    pub fn put(&mut self, var: u16, value: i64)
        requires { IsNone (value_in self.old var) → length self.old < MAX_WRITES }
        ensures { self.new ≡ with_write self.old var value }
    {
        match index_of(&self.items[..self.len], var) {
            Some(index) => self.items[index] = (var, value),
            None => {
                self.items[self.len] = (var, value);
                self.len += 1;
            }
        }
    }

    // Takes over the writes of another.
    pub(crate) fn copy_from(&mut self, other: &Writes)
        ensures { self.new ≡ other.now }
    {
        let items = other.as_slice();
        self.items[..items.len()].copy_from_slice(items);
        self.len = items.len();
    }

    // Forgets all writes.
    pub(crate) fn clear(&mut self)
        ensures { self.new ≡ [] }
    {
        self.len = 0;
    }
}

// The index of the first write of a variable.
fn index_of(writes: &[(u16, i64)], var: u16) -> Option<usize>
    ensures { result ≡ position (λ w. var == w.0) writes.now }
{
    writes.iter().position(|w| var == w.0)
}

// The value of the first write of a variable.
fn value(writes: &[(u16, i64)], var: u16) -> Option<i64>
    ensures { result ≡ option_map (λ w. w.1) (find (λ w. var == w.0) writes.now) }
{
    writes.iter().find(|w| var == w.0).map(|w| w.1)
}

// Whether a variable is written.
fn is_written(writes: &[(u16, i64)], var: u16) -> bool
    ensures { result ≡ list_any (λ w. var == w.0) writes.now }
{
    writes.iter().any(|w| var == w.0)
}
