// What a store has at one moment, as a desk tells it.
ghost use Rattle.std.specs.Prelude.{◌≡◌, ◌++◌, ◌∷◌, [], ℕ, List, Bool, length, map, filter, IfOk, OnOk, if◌then◌else◌};
ghost use Rattle.std.specs.Map.{keys_of};
ghost use Rattle.tmem_desk.specs.Held.{first_numbers};

use std::alloc::{AllocError, Global};
use tmem_fault::Name;

/// Each variable with its value.
pub(crate) fn paired(
    alloc: Global,
    vars: &[u16],
    values: &[i64],
) -> Result<Vec<(u16, i64)>, AllocError>
    requires { length values.now ≡ length vars.now }
    ensures vars { IfOk result (λ pairs. keys_of pairs.items ≡ vars.now) }
    ensures values { IfOk result (λ pairs. map (λ pair. pair.1) pairs.items ≡ values.now) }
{
    let mut pairs = Vec::with_capacity(alloc, vars.len())?;
    for at in 0..vars.len() {
        pairs.push((vars[at], values[at]))?;
    }
    Ok(pairs)
}

/// The variables of these.
pub(crate) fn vars_of(alloc: Global, reads: &[(u16, i64)]) -> Result<Vec<u16>, AllocError>
    ensures { IfOk result (λ vars. vars.items ≡ keys_of reads.now) }
{
    let mut vars = Vec::with_capacity(alloc, reads.len())?;
    for read in reads {
        vars.push(read.0)?;
    }
    Ok(vars)
}

/// The first so many variables.
pub(crate) fn first_vars(alloc: Global, most: u16) -> Result<Vec<u16>, AllocError>
    ensures { IfOk result (λ vars. vars.items ≡ first_numbers most) }
{
    let mut vars = Vec::with_capacity(alloc, usize::from(most))?;
    for var in 0..most {
        vars.push(var)?;
    }
    Ok(vars)
}

/// The names that are told to be registered.
pub(crate) fn registered(
    alloc: Global,
    names: &[Name],
    has: &[bool],
) -> Result<Vec<Name>, AllocError>
    requires { length has.now ≡ length names.now }
    ensures { (p : List ℕ → Bool) → has.now ≡ map p names.now → IfOk result (λ all. all.items ≡ filter p names.now) }
{
    let mut all = Vec::new(alloc);
    for at in 0..names.len() {
        push_if(&mut all, names[at], has[at])?;
    }
    Ok(all)
}

// Pushes a name where it is to be among these.
fn push_if(all: &mut Vec<Name>, name: Name, is_there: bool) -> Result<(), AllocError>
    ensures { OnOk result (all.new.items ≡ (if is_there then all.old.items ++ name ∷ [] else all.old.items)) }
{
    if is_there {
        all.push(name)?;
    }
    Ok(())
}
