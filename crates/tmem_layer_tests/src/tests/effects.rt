//! Effects and names, of plain data.
ghost use Rattle.tmem_effect.specs.State.{AreApart};

use tmem_effect::Effect;
use tmem_fault::{Fault, Name};

/// An effect that checks no name which it retires.
#[derive(Drop)]
pub(super) struct Made {
    pub(super) effect: Effect,
    ghost apart: { AreApart effect.names effect.retired },
}

impl Made {
    pub(super) fn new() -> Made {
        Made {
            effect: Effect::new(),
        }
    }

    fn has_put(&mut self, var: u16, value: i64) -> bool {
        if self.effect.writes.as_slice().len() >= 64 {
            return false;
        }
        self.effect.writes.put(var, value);
        true
    }

    /// Checks a name, if it is one and there is room.
    pub(super) fn is_checked(&mut self, name: Result<Name, Fault>) -> bool {
        match name {
            Ok(name) if self.effect.names.as_slice().len() < 8 => {
                self.effect.check(&name);
                true
            }
            _ => false,
        }
    }

    /// Retires a name, if it is one and there is room.
    pub(super) fn is_retired(&mut self, name: Result<Name, Fault>) -> bool {
        match name {
            Ok(name) if self.effect.retired.as_slice().len() < 8 => {
                self.effect.retire(&name);
                true
            }
            _ => false,
        }
    }
}

/// The effect of these writes and checks, and then of these retirements, if it may have as many.
pub(super) fn effect_of(writes: &[(u16, i64)], checks: &[&str], retires: &[&str]) -> Option<Made> {
    let mut made = Made::new();
    let mut is_so = true;
    for (var, value) in writes {
        is_so = made.has_put(*var, *value) && is_so;
    }
    for letters in checks {
        is_so = made.is_checked(Name::new(letters)) && is_so;
    }
    for letters in retires {
        is_so = made.is_retired(Name::new(letters)) && is_so;
    }
    if is_so { Some(made) } else { None }
}

/// Whether names have these letters, in this order.
pub(super) fn are_spelled(names: &[Name], all: &[&str]) -> bool {
    if names.len() != all.len() {
        return false;
    }
    for (index, name) in names.iter().enumerate() {
        if name.as_str() != all[index] {
            return false;
        }
    }
    true
}

/// A name for each number, above those of lesser numbers.
pub(super) fn numbered(n: u8) -> Result<Name, Fault> {
    let letters = [b'a' + n / 26, b'a' + n % 26];
    Name::new(std::str::from_utf8(&letters).unwrap_or(""))
}
