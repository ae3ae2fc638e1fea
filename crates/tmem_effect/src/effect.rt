// What one transaction changes.
ghost use Rattle.std.specs.Prelude.{◌≡◌, ◌<◌, ℕ, false, length, All};
ghost use Rattle.tmem_effect.specs.Names.{has_name, with_name, without_name, AreApart};
ghost use Rattle.tmem_effect.specs.State.{IsEffect, is_empty, no_effect};

use crate::names::{MAX_CHECKS, MAX_RETIRES, Names};
use crate::writes::Writes;
use tmem_fault::Name;

/// What a transaction changes: the variables that it writes, the names that it checks and those that it retires.
#[derive(Drop)]
pub struct Effect {
    /// The variables that it writes, each with its value.
    pub writes: Writes,
    /// The names that it checks.
    pub names: Names,
    /// The names that it retires.
    pub retired: Names,
}

impl Effect {
    /// An effect that changes nothing.
    pub fn new() -> Effect
        ensures { result ≡ no_effect }
    {
        Effect {
            writes: Writes::new(),
            names: Names::new(),
            retired: Names::new(),
        }
    }

    /// Whether it changes nothing: it has no write, checks no name and retires none.
    pub fn is_empty(&self) -> bool
        ensures empty { result ≡ is_empty self.now }
        ensures is_effect { (vars : ℕ) → All (λ w. w.0 < vars) self.now.writes → AreApart self.now.names self.now.retired → IsEffect vars self.now }
    {
        let writes = self.writes.as_slice();
        let names = self.names.as_slice();
        let retired = self.retired.as_slice();
        writes.is_empty() && (names.is_empty() && retired.is_empty())
    }

    /// Checks a name: it is added at the end, unless it is there, and no longer retired.
    pub fn check(&mut self, name: &Name)
        requires { has_name self.old.names name.now ≡ false → length self.old.names < MAX_CHECKS }
        ensures writes { self.new.writes ≡ self.old.writes }
        ensures names { self.new.names ≡ with_name self.old.names name.now }
        ensures retired { self.new.retired ≡ without_name self.old.retired name.now }
        ensures apart { AreApart self.old.names self.old.retired → AreApart self.new.names self.new.retired }
    {
        self.names.put(name);
        self.retired.remove(name);
    }

    /// Retires a name: it is added at the end of those that are retired, unless it is there, and no longer checked. (In a frame of
    /// its own, as few runs retire one.)
    #[inline(never)]
    pub fn retire(&mut self, name: &Name)
        requires { has_name self.old.retired name.now ≡ false → length self.old.retired < MAX_RETIRES }
        ensures writes { self.new.writes ≡ self.old.writes }
        ensures names { self.new.names ≡ without_name self.old.names name.now }
        ensures retired { self.new.retired ≡ with_name self.old.retired name.now }
        ensures apart { AreApart self.old.names self.old.retired → AreApart self.new.names self.new.retired }
    {
        self.retired.put(name);
        self.names.remove(name);
    }

    /// Copies the writes and the names of another effect.
    #[inline(always)]
    pub fn copy_from(&mut self, other: &Effect)
        ensures { self.new ≡ other.now }
    {
        self.writes.copy_from(&other.writes);
        self.names.copy_from(&other.names);
        self.retired.copy_from(&other.retired);
    }

    /// The same effect once more.
    pub fn copy(&self) -> Effect
        ensures { result ≡ self.now }
    {
        let mut effect = Effect::new();
        effect.copy_from(self);
        effect
    }

    /// Removes all writes and names.
    pub fn clear(&mut self)
        ensures { self.new ≡ no_effect }
    {
        self.writes.clear();
        self.names.clear();
        self.retired.clear();
    }
}
