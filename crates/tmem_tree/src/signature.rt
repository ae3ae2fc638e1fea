// What a transaction has to know of an invariant.

ghost use Rattle.std.specs.Prelude.{◌≡◌, ℕ, ◌<◌, ◌≤◌, true, Some, length, map, bytes_eq, find, option_map, slice_get, IfOk};
ghost use Rattle.tmem_fault.specs.Name.{has_name};
ghost use Rattle.tmem_invariants.specs.Meanings.{Meanings};
ghost use Rattle.tmem_invariants.specs.TableNames.{AreBelow};
ghost use Rattle.tmem_tree.specs.Signatures.{AreMeant, AreWithin, names_of, signature_in, footprint_in};

use std::alloc::{AllocError, Global};
use std::marker::Model;
use tmem_fault::Name;
use tmem_invariants::{Invariants, MAX_FOOTPRINT};

/// The variables whose values an invariant is handed, in this order: at most `MAX_FOOTPRINT`. They are held in place.
#[derive(Clone, Copy)]
pub struct Footprint {
    // zeros behind the variables
    entries: [u16; MAX_FOOTPRINT],
    len: u8,
}

impl Model for Footprint {
    ghost use Rattle.std.specs.Prelude.{◌-◌, ◌++◌, ℕ, List, length, take, replicate};
    ghost use Rattle.tmem_tree.specs.Footprints.{HoldsFootprint};

    ghost Value = { List ℕ };

    ghost view = { λ f. take f.len f.entries };

    ghost invariant = { λ f. HoldsFootprint f.entries f.len };

    ghost inverse = { λ vars. record { entries = vars ++ replicate (16 - length vars) 0; len = length vars } };

    ghost use Rattle.std.proofs.Common.{refl, sym};

    ghost inverse_ok = { λ f held. Prim.rw (held.long, sym held.padded) refl };
}

impl Footprint {
    /// The footprint of these variables.
    pub fn of(vars: &[u16]) -> Footprint
        requires { length vars.now ≤ 16 }
        ensures { result ≡ vars.now }
    {
        let mut entries = [0; MAX_FOOTPRINT];
        entries[..vars.len()].copy_from_slice(vars);
        Footprint {
            entries,
            len: vars.len() as u8,
        }
    }

    /// The variables, in order.
    pub fn as_slice(&self) -> &[u16]
        ensures vars { result.now ≡ self.now }
        ensures short { length self.now ≤ 16 }
    {
        &self.entries[..self.len as usize]
    }
}

/// The name of an invariant, and its footprint.
#[derive(Clone, Copy)]
pub struct Signature {
    /// What it is known by.
    pub name: Name,
    /// The variables whose values it is handed.
    pub footprint: Footprint,
}

/// The signatures of the invariants of a table, in its order. Its only fault is want of memory.
pub fn signatures_of<T: Invariants>(alloc: Global, table: &T) -> Result<Vec<Signature>, AllocError>
    ensures names { IfOk result (λ signatures. names_of signatures.items ≡ T.names table.now) }
    ensures footprints { IfOk result (λ signatures. map (λ signature. signature.footprint) signatures.items ≡ T.footprints table.now) }
    ensures meant { (tests : Meanings) → T.is_stated table.now tests → IfOk result (λ signatures. AreMeant tests signatures.items) }
    ensures within { IfOk result (λ signatures. AreWithin (T.vars table.now) signatures.items) }
{
    let mut signatures = Vec::with_capacity(alloc, table.len())?;
    for index in 0..table.len() {
        signatures.push(signature_at(table, index))?;
    }
    Ok(signatures)
}

// The signature of the invariant at an index of a table.
fn signature_at<T: Invariants>(table: &T, index: usize) -> Signature
    requires { index < length (T.names table.now) }
    ensures name { slice_get (T.names table.now) index ≡ Some result.name }
    ensures footprint { slice_get (T.footprints table.now) index ≡ Some result.footprint }
    ensures meant { (tests : Meanings) → T.is_stated table.now tests → result.footprint ≡ tests.footprint result.name }
    ensures within { AreBelow (T.vars table.now) result.footprint }
{
    Signature {
        name: table.name(index),
        footprint: Footprint::of(table.footprint(index)),
    }
}

/// The footprint that these signatures give to a name.
pub fn footprint_of<'a>(signatures: &'a [Signature], name: &Name) -> &'a [u16]
    requires { has_name (names_of signatures.now) name.now ≡ true }
    ensures footprint { result.now ≡ footprint_in signatures.now name.now }
    ensures short { length result.now ≤ 16 }
    ensures meant { (tests : Meanings) → AreMeant tests signatures.now → result.now ≡ tests.footprint name.now }
    ensures within { (vars : ℕ) → AreWithin vars signatures.now → AreBelow vars result.now }
{
    find(signatures, name).unwrap().footprint.as_slice()
}

/// The first signature of a name.
pub(crate) fn find<'a>(signatures: &'a [Signature], name: &Name) -> Option<&'a Signature>
    ensures { option_map (λ signature. signature.now) result ≡ signature_in signatures.now name.now }
{
    signatures.iter().find(|signature| signature.name == *name)
}
