//! Invariants by number: their names, which stand in its order, and worlds that register all 64, and retire them.
ghost use Rattle.std.specs.Prelude.{◌≡◌, ◌<◌, length, IfOk};
ghost use Rattle.tmem_invariants.specs.Answers.{MayCall, HasMeaning};

use super::worlds::{Played, commit, committed};
use std::alloc::Global;
use std::process::Abort;
use tmem_fault::{Fault, Name};
use tmem_tables::{Invariant, Test};
use tmem_tree::Tx;

/// A name for each number, ascending.
pub(super) fn numbered(n: u8) -> Result<Name, Fault> {
    let letters = [b'a' + n / 26, b'a' + n % 26];
    Name::new(std::str::from_utf8(&letters).unwrap_or(""))
}

/// The footprint of the invariant of a number: the sixteen variables behind those of lesser numbers.
pub(super) fn variables_of(alloc: Global, number: u8) -> Result<Vec<u16>, Fault>
    ensures { IfOk result (λ vars. length vars.items ≡ 16) }
{
    let first = 16 * u16::from(number);
    let mut vars = Vec::new(alloc);
    for k in 0..16u16 {
        vars.push(first + k)?;
    }
    Ok(vars)
}

/// Puts the invariant of a number behind others.
pub(super) fn add(
    entries: &mut Vec<Invariant>,
    number: u8,
    footprint: Vec<u16>,
    test: Test,
) -> Result<(), Fault>
    requires callable { MayCall (Test.pre test) (length footprint.items) }
    requires stated { HasMeaning (Test.post test) (length footprint.items) }
{
    entries.push(Invariant::new(numbered(number)?, footprint, test)?)?;
    Ok(())
}

/// What a transaction does with each of its names.
#[derive(Clone, Copy)]
pub(super) enum Use {
    /// Registers it, by a check.
    Registers,
    Retires,
}

impl Use {
    fn of(self, name: Name) -> Tx {
        match self {
            Use::Registers => Tx::Check { name },
            Use::Retires => Tx::Retire { name },
        }
    }
}

/// Registers, or retires, the 8 names from this number on.
fn eight(alloc: Global, from: u8, each: Use) -> Result<Tx, Fault>
    requires { from < 64 }
{
    let mut all = Vec::new(alloc);
    for n in from..from + 8 {
        all.push(each.of(numbered(n)?))?;
    }
    Ok(Tx::Seq(all))
}

/// Whether the transaction for the names from 8 times this number on commits, that many behind the first.
fn commits_eight<W: Played>(
    alloc: Global,
    world: &mut W,
    first: u64,
    number: u8,
    each: Use,
) -> Result<bool, Fault>
    requires { number < 8 }
{
    let tx = eight(alloc, 8 * number, each)?;
    let wanted = committed(first.wrapping_add(u64::from(number)), 0);
    Ok(commit(world, tx) == wanted)
}

/// Whether there is a core, with 64 names.
pub(super) fn has_all<W: Played>(world: &W) -> Result<bool, Fault> {
    are_registered(world, true)
}

/// Whether there is a core, and each of the 64 names is registered, or else none.
fn are_registered<W: Played>(world: &W, wanted: bool) -> Result<bool, Fault> {
    for n in 0..64 {
        if world.knows(&numbered(n)?) != Some(wanted) {
            return Ok(false);
        }
    }
    Ok(true)
}

/// Whether there is a core, with no name.
pub(super) fn has_none<W: Played>(world: &W) -> Result<bool, Fault> {
    are_registered(world, false)
}

/// Registers, or retires, 64 names, 8 in a transaction. The first transaction gets this number.
pub(super) fn commit_all<W: Played>(
    rt: &impl Abort,
    alloc: Global,
    world: &mut W,
    first: u64,
    each: Use,
) -> Result<(), Fault> {
    for number in 0..8u8 {
        assert!(rt; commits_eight(alloc, world, first, number, each)?);
    }
    assert!(rt; are_registered(world, matches!(each, Use::Registers))?);
    Ok(())
}
