// The signatures of the invariants that a transaction checks.

ghost use Rattle.std.specs.Prelude.{◌≡◌, ℕ, ◌+◌, ◌<◌, ◌≤◌, List, [], ◌∷◌, ◌++◌, length, true, All, bytes_eq};
ghost use Rattle.std.specs.List.{Contains};
ghost use Rattle.tmem_fault.specs.Distinct.{AreDistinct};
ghost use Rattle.tmem_fault.specs.Name.{has_name};
ghost use Rattle.tmem_tree.specs.Limits.{one_if, count, is_check, checks_name, Checks};
ghost use Rattle.tmem_tree.specs.Plans.{HasSignatures};
ghost use Rattle.tmem_tree.specs.Signatures.{names_of};

use crate::signature::{Footprint, Signature, find};
use crate::tx::Tx;
use std::marker::Model;
use tmem_effect::MAX_CHECKS;
use tmem_fault::Name;

/// Signatures, no more than a transaction has checks. They are held in place.
#[derive(Drop)]
pub(crate) struct Signatures {
    // those from `len` on are none of them
    items: [Signature; MAX_CHECKS],
    len: usize,
}

impl Model for Signatures {
    ghost use Rattle.std.specs.Prelude.{List, ◌≤◌, take};
    ghost use Rattle.tmem_tree.specs.declared.signature.Signature.{Signature};

    ghost Value = { List Signature };

    ghost view = { λ s. take s.len s.items };

    ghost invariant = { λ s. s.len ≤ 8 };
}

impl Signatures {
    // No signatures.
    pub(crate) fn new() -> Signatures
        ensures { result ≡ [] }
    {
        Signatures {
            items: [placeholder(); MAX_CHECKS],
            len: 0,
        }
    }

    // The signatures, in order.
    pub(crate) fn as_slice(&self) -> &[Signature]
        ensures { result.now ≡ self.now }
    {
        &self.items[..self.len]
    }

    // Adds a signature at the end.
    fn push(&mut self, signature: &Signature)
        requires { length self.old < MAX_CHECKS }
        ensures { self.new ≡ self.old ++ signature.now ∷ [] }
    {
        self.items[self.len] = *signature;
        self.len += 1;
    }
}

// A signature for the places that hold none.
fn placeholder() -> Signature {
    Signature {
        name: Name::new("a").unwrap(),
        footprint: Footprint::of(&[]),
    }
}

/// Puts the signatures of the invariants that a tree of so many checks checks, where there are none. One that has none is not
/// looked at.
pub(crate) fn fill(tx: &Tx, signatures: &[Signature], checks: u32, into: &mut Signatures)
    requires empty { into.old ≡ [] }
    requires known { HasSignatures (names_of signatures.now) tx.now }
    requires checks { checks ≡ count is_check tx.now }
    requires few { checks ≤ MAX_CHECKS }
    ensures known { HasSignatures (names_of into.new) tx.now }
    ensures among { All (Contains signatures.now) into.new }
    ensures checked { All (Checks tx.now) (names_of into.new) }
    ensures once { AreDistinct (names_of into.new) }
{
    if checks > 0 {
        collect(tx, signatures, into);
    }
}

// Adds the signatures of the invariants that a tree checks, unless their names are there.
fn collect(tx: &Tx, signatures: &[Signature], into: &mut Signatures)
    requires known { HasSignatures (names_of signatures.now) tx.now }
    requires room { length into.old + count is_check tx.now ≤ MAX_CHECKS }
    ensures room { length into.new ≤ length into.old + count is_check tx.now }
    ensures known { HasSignatures (names_of into.new) tx.now }
    ensures kept { (name : List ℕ) → has_name (names_of into.old) name ≡ true → has_name (names_of into.new) name ≡ true }
    ensures among { All (Contains signatures.now) into.old → All (Contains signatures.now) into.new }
    ensures checked { (name : List ℕ) → one_if (has_name (names_of into.new) name) ≤ one_if (has_name (names_of into.old) name) + count (checks_name name) tx.now }
    ensures once { AreDistinct (names_of into.old) → AreDistinct (names_of into.new) }
{
    match tx {
        Tx::Seq(txs) => {
            for t in txs {
                collect(t, signatures, into);
            }
        }
        Tx::When { then, other, .. } => {
            collect(then, signatures, into);
            collect(other, signatures, into);
        }
        Tx::OrElse(first, second) => {
            collect(first, signatures, into);
            collect(second, signatures, into);
        }
        Tx::Check { name } => add(name, signatures, into),
        _ => {}
    }
}

// Adds the signature of a name, unless the name is there.
fn add(name: &Name, signatures: &[Signature], into: &mut Signatures)
    requires known { has_name (names_of signatures.now) name.now ≡ true }
    requires room { length into.old < MAX_CHECKS }
    ensures room { length into.new ≤ length into.old + 1 }
    ensures known { has_name (names_of into.new) name.now ≡ true }
    ensures kept { (other : List ℕ) → has_name (names_of into.old) other ≡ true → has_name (names_of into.new) other ≡ true }
    ensures among { All (Contains signatures.now) into.old → All (Contains signatures.now) into.new }
    ensures checked { (other : List ℕ) → one_if (has_name (names_of into.new) other) ≤ one_if (has_name (names_of into.old) other) + one_if (bytes_eq name.now other) }
    ensures once { AreDistinct (names_of into.old) → AreDistinct (names_of into.new) }
{
    if find(into.as_slice(), name).is_none() {
        into.push(find(signatures, name).unwrap());
    }
}
