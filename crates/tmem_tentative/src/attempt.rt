// What an evaluation finds.

ghost use Rattle.std.specs.Prelude.{◌≡◌, ◌<◌, ◌≤◌, [], ◌∷◌, ◌++◌, length};

use indexmap::IndexMap;
use std::marker::Model;
use tmem_effect::Effect;
use tmem_fault::Name;
use tmem_invariants::MAX_FOOTPRINT;
use tmem_tree::REGISTERS;

/// The variables that were read, in order of first read, each with its value.
pub type Reads = IndexMap<u16, i64>;

/// How a run ended.
#[derive(Clone, Copy, Debug, PartialEq, Eq)]
pub enum Ending {
    /// To its end.
    Normal,
    /// It asks to be run again once some value that it read has changed.
    Retry,
    /// It gave up, with this code.
    Abort(u16),
    /// It checked the invariant of this name where that was false.
    Broken(Name),
}

/// A run that has ended. Unless it ended normally, its registers are 0 and it has no effect.
#[derive(Drop)]
pub struct Attempt {
    /// What it read of the map.
    pub reads: Reads,
    /// How it ended.
    pub ending: Ending,
    /// The registers at its end.
    pub registers: [i64; REGISTERS],
    /// What it changes.
    pub effect: Effect,
}

/// The values that an invariant is handed, in the order of its footprint: at most `MAX_FOOTPRINT`. They are held in place.
#[derive(Drop)]
pub struct Values {
    // those from `len` on are none of it
    items: [i64; MAX_FOOTPRINT],
    len: usize,
}

impl Model for Values {
    ghost use Rattle.std.specs.Prelude.{ℤ, List, ◌≤◌, take};

    ghost Value = { List ℤ };

    ghost view = { λ v. take v.len v.items };

    ghost invariant = { λ v. v.len ≤ 16 };
}

impl Values {
    /// No values.
    pub fn new() -> Values
        ensures { result ≡ [] }
    {
        Values {
            items: [0; MAX_FOOTPRINT],
            len: 0,
        }
    }

    // Forgets all values.
    pub(crate) fn clear(&mut self)
        ensures { self.new ≡ [] }
    {
        self.len = 0;
    }

    /// Puts a value at the end.
    pub fn push(&mut self, value: i64)
        requires { length self.old < MAX_FOOTPRINT }
        ensures { self.new ≡ self.old ++ value ∷ [] }
    {
        self.items[self.len] = value;
        self.len += 1;
    }

    /// The same values once more.
    pub fn copy(&self) -> Values
        ensures { result ≡ self.now }
    {
        Values {
            items: self.items,
            len: self.len,
        }
    }

    /// The values, in order.
    pub fn as_slice(&self) -> &[i64]
        ensures values { result.now ≡ self.now }
        ensures short { length self.now ≤ 16 }
    {
        &self.items[..self.len]
    }
}

/// A test that an evaluation asks for: whether an invariant holds on these values.
#[derive(Drop)]
pub struct Probe {
    /// The name of the invariant.
    pub name: Name,
    /// What the transaction sees, at this point, of each variable of its footprint.
    pub values: Values,
}

impl Probe {
    // A probe for a place that holds none.
    pub(crate) fn placeholder() -> Probe {
        Probe {
            name: Name::new("a").unwrap(),
            values: Values::new(),
        }
    }

    /// The same test once more.
    pub fn copy(&self) -> Probe
        ensures { result ≡ self.now }
    {
        Probe {
            name: self.name,
            values: self.values.copy(),
        }
    }
}

/// What an evaluation finds: what it asks for next, or that it asks for nothing more.
#[derive(Drop)]
pub enum Outcome {
    /// The value of a variable that it visits, and that its reads lack.
    Need(u16),
    /// A test that was not answered yet.
    Probe(Probe),
    /// It needs none of these.
    Ended(Attempt),
}

/// How far an evaluation has come.
#[derive(Clone, Copy, Debug, PartialEq, Eq)]
pub enum Progress {
    /// It needs the value of this variable.
    Need(u16),
    /// It needs the answer to a test, which it lends.
    Probe,
    /// It has ended.
    Ended,
}
