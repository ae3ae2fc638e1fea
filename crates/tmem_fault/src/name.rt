// The name of an invariant.
ghost use Rattle.std.specs.Prelude.{◌≡◌, ◌↔◌, Some, refl, bytes_eq, IsTrue, IsOk, IfOk, IfErr, All};
ghost use Rattle.std.specs.Ordering.{nat_cmp};
ghost use Rattle.std.specs.Cmp.{partial_equiv_from_equiv};
ghost use Rattle.std.specs.Cmp.Lexicographic.{slice_cmp, nat_list_eq_equiv, nat_list_cmp_total, texts_ties, texts_po};
ghost use Rattle.tmem_fault.specs.Name.{IsLetter, IsName};

use crate::Fault;
use std::cmp::Ordering;
use std::fmt;
use std::marker::Model;

const LONGEST: usize = 16;

/// A name of one to sixteen letters from a to z, held in place. Names are ordered by their bytes.
#[derive(Clone, Copy)]
pub struct Name {
    // zeros behind the letters
    bytes: [u8; LONGEST],
    len: u8,
}

impl Model for Name {
    ghost use Rattle.std.specs.Prelude.{◌-◌, ◌++◌, ℕ, List, length, take, replicate};
    ghost use Rattle.tmem_fault.specs.Name.{HoldsName};

    ghost Value = { List ℕ };

    ghost view = { λ n. take n.len n.bytes };

    ghost invariant = { λ n. HoldsName n.bytes n.len };

    ghost inverse = { λ letters. record { bytes = letters ++ replicate (16 - length letters) 0; len = length letters } };

    ghost use Rattle.std.proofs.Common.{refl, sym};

    ghost inverse_ok = { λ n held. Prim.rw (held.long, sym held.padded) refl };
}

impl Name {
    /// The name of these letters. Anything but one to sixteen letters from a to z is refused as `BadName`.
    pub fn new(text: &str) -> Result<Name, Fault>
        ensures valid { IsOk result ↔ IsName text.now }
        ensures ok { IfOk result (λ name. name ≡ text.now) }
        ensures refused { IfErr result (λ fault. fault ≡ Fault.BadName) }
    {
        let letters = text.as_bytes();
        if letters.is_empty() || letters.len() > LONGEST || !all_letters(letters) {
            return Err(Fault::BadName);
        }
        let mut bytes = [0; LONGEST];
        bytes[..letters.len()].copy_from_slice(letters);
        Ok(Name {
            bytes,
            len: letters.len() as u8,
        })
    }

    /// Its letters.
    pub fn as_bytes(&self) -> &[u8]
        ensures bytes { result.now ≡ self.now }
        ensures is_name { IsName self.now }
    {
        &self.bytes[..self.len as usize]
    }

    /// Its letters as a text.
    pub fn as_str(&self) -> &str
        ensures { result.now ≡ self.now }
    {
        std::str::from_utf8(self.as_bytes()).unwrap()
    }
}

// Whether each byte is a letter from a to z.
fn all_letters(bytes: &[u8]) -> bool
    ensures { IsTrue result ↔ All IsLetter bytes.now }
{
    bytes.iter().all(|b| b.is_ascii_lowercase())
}

impl fmt::Display for Name {
    ghost use Rattle.std.specs.Fmt.{padded};

    ghost output = { λ name. Some name };

    ghost styled_output = { λ name spec. Some (padded spec name) };

    fn fmt<W: fmt::Write>(&self, f: &mut fmt::Formatter<W>) -> fmt::Result {
        f.pad(self.as_str())
    }
}

impl fmt::Debug for Name {
    ghost use Rattle.std.specs.Prelude.{◌++◌, codes};

    ghost debug_output = { λ name. Some (codes "Name(" ++ name ++ codes ")") };

    fn fmt<W: fmt::Write>(&self, f: &mut fmt::Formatter<W>) -> fmt::Result {
        write!(f, "Name({})", self.as_str())
    }
}

impl PartialEq for Name {
    ghost eq = { λ a b. bytes_eq a b };

    ghost laws = { partial_equiv_from_equiv nat_list_eq_equiv };

    fn eq(&self, other: &Name) -> bool {
        self.as_bytes() == other.as_bytes()
    }
}

impl Eq for Name {
    ghost laws = { nat_list_eq_equiv };
}

impl PartialOrd for Name {
    ghost partial_cmp = { λ a b. Some (slice_cmp nat_cmp a b) };

    ghost laws = { texts_po };

    fn partial_cmp(&self, other: &Name) -> Option<Ordering> {
        Some(self.cmp(other))
    }
}

impl Ord for Name {
    ghost cmp = { λ a b. slice_cmp nat_cmp a b };

    ghost total = { nat_list_cmp_total };

    ghost matches_partial_cmp = { λ a b. refl };

    ghost matches_eq = { λ a b. texts_ties a b };

    fn cmp(&self, other: &Name) -> Ordering {
        self.as_bytes().cmp(other.as_bytes())
    }
}
