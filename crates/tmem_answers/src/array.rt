//! What stands in an array, as it is printed.
ghost use Rattle.std.specs.Prelude.{◌≡◌, ◌++◌, ℕ, List, Some, codes, flat_map, string_bytes};
ghost use Rattle.std.specs.Fmt.{DisplaysOnOk, signed_decimal};
ghost use Rattle.tmem_answers.specs.Answers.{name_text, pair_text, texts_joined, word_text};

use std::fmt;
use tmem_fault::Name;

/// What is printed with a comma between any two.
pub(crate) trait Listed: Drop {
    /// Its text.
    ghost text: { Self → List ℕ };

    fn write<W: fmt::Write>(&self, f: &mut fmt::Formatter<W>) -> fmt::Result
        ensures { DisplaysOnOk W.write_str_gives f.old result (Some (text self.now)) f.new };
}

impl Listed for i64 {
    ghost text = { signed_decimal };

    fn write<W: fmt::Write>(&self, f: &mut fmt::Formatter<W>) -> fmt::Result {
        write!(f, "{self}")
    }
}

// A variable and its value.
impl Listed for (u16, i64) {
    ghost text = { pair_text };

    fn write<W: fmt::Write>(&self, f: &mut fmt::Formatter<W>) -> fmt::Result {
        write!(f, "[{},{}]", self.0, self.1)
    }
}

impl Listed for Name {
    ghost text = { word_text };

    fn write<W: fmt::Write>(&self, f: &mut fmt::Formatter<W>) -> fmt::Result {
        write!(f, "\"{self}\"")
    }
}

// A variable's name and its number.
impl Listed for (String, u16) {
    ghost text = { λ n. name_text (string_bytes n.0, n.1) };

    fn write<W: fmt::Write>(&self, f: &mut fmt::Formatter<W>) -> fmt::Result {
        write!(f, "\"{}\":{}", self.0.as_str(), self.1)
    }
}

/// These, with a comma between any two.
#[derive(Clone, Copy)]
pub(crate) struct Joined<'a, T: Listed>(pub(crate) &'a [T]);

impl<'a, T: Listed> fmt::Display for Joined<'a, T> {
    ghost output = { λ joined. Some (texts_joined T.text joined.0.now) };

    fn fmt<W: fmt::Write>(&self, f: &mut fmt::Formatter<W>) -> fmt::Result {
        match self.0.split_first() {
            Some((first, others)) => {
                first.write(f)?;
                write_others(f, others)
            }
            None => Ok(()),
        }
    }
}

// More of them, with a comma before each.
fn write_others<T: Listed, W: fmt::Write>(f: &mut fmt::Formatter<W>, items: &[T]) -> fmt::Result
    ensures { DisplaysOnOk W.write_str_gives f.old result (Some (flat_map (λ item. codes "," ++ T.text item) items.now)) f.new }
{
    for item in items {
        f.write_str(",")?;
        item.write(f)?;
    }
    Ok(())
}
