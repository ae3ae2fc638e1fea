//! The keys of the text of a shape.

/// A key that the text of a shape may have.
#[derive(Clone, Copy, Debug, PartialEq, Eq)]
pub enum Key {
    Vars,
    Slots,
    Invariants,
    Names,
    Name,
    Sum,
    Least,
    Most,
    Always,
}

impl Key {
    ghost use Rattle.std.specs.Prelude.{◌≡◌};
    ghost use Rattle.tmem_shape.specs.Keys.{key_text};

    /// Its letters.
    pub fn as_str(self) -> &'static str
        ensures { result.now ≡ key_text self }
    {
        match self {
            Key::Vars => "vars",
            Key::Slots => "slots",
            Key::Invariants => "invariants",
            Key::Names => "names",
            Key::Name => "name",
            Key::Sum => "sum",
            Key::Least => "least",
            Key::Most => "most",
            Key::Always => "always",
        }
    }
}
