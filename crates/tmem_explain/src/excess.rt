//! What of a transaction is past a limit.
ghost use Rattle.std.specs.Prelude.{◌≡◌, IfSome, true};
ghost use Rattle.std.specs.List.{Contains};
ghost use Rattle.tmem_tree.specs.Limits.{is_no_register};
ghost use Rattle.tmem_explain.specs.Excesses.{arguments_in, registers_in, step_in, variable_in};

use std::fmt;
use tmem_tree::{REGISTERS, Tx};

/// What of a transaction is past a limit: how deep it is, or how many of something it has; or what a node of it names.
#[derive(Clone, Copy)]
pub enum Excess {
    Depth(u64),
    Nodes(u64),
    Writes(u64),
    Checks(u64),
    Retires(u64),
    Register(u8),
    Variable { var: u16, vars: u16 },
    Step(u16),
    /// A step is handed so many registers.
    Arguments(u64),
    /// A store of so many variables has no invariant of a name.
    Name { vars: u16 },
}

impl fmt::Display for Excess {
    ghost use Rattle.std.specs.Prelude.{Some};
    ghost use Rattle.tmem_explain.specs.Excesses.{excess_text};

    ghost output = { λ excess. Some (excess_text excess) };

    fn fmt<W: fmt::Write>(&self, f: &mut fmt::Formatter<W>) -> fmt::Result {
        let (before, n, behind) = match *self {
            Excess::Depth(n) => ("it is ", n, " deep, and may be 32 deep"),
            Excess::Nodes(n) => ("it has ", n, " nodes, and may have 512"),
            Excess::Writes(n) => ("it has ", n, " writes, and may have 64"),
            Excess::Checks(n) => ("it has ", n, " checks, and may have 8"),
            Excess::Retires(n) => ("it retires ", n, " names, and may retire 8"),
            Excess::Register(reg) => ("there is no register ", reg as u64, ": they are 0 to 15"),
            Excess::Variable { var, vars } => return write!(
                f,
                "there is no variable {var}: the store has {vars}, from 0 on"
            ),
            Excess::Step(index) => ("there is no step ", index as u64, ": they are 0 to 2"),
            Excess::Arguments(n) => ("this step takes 2 registers, and is given ", n, ""),
            Excess::Name { vars } => (
                "there is no such invariant in a store of ",
                vars as u64,
                " variables: from 1 on it has nonneg, from 2 on sum, from 4 on ordered",
            ),
        };
        write!(f, "{before}{n}{behind}")
    }
}

/// The variable that a node reads or writes.
pub(crate) fn variable_in(tx: &Tx) -> Option<u16>
    ensures { result ≡ variable_in tx.now }
{
    match tx {
        Tx::Read { var, .. } | Tx::Write { var, .. } => Some(*var),
        _ => None,
    }
}

/// The index of the step that a node calls.
pub(crate) fn step_in(tx: &Tx) -> Option<u16>
    ensures { result ≡ step_in tx.now }
{
    match tx {
        Tx::Step { index, .. } => Some(*index),
        _ => None,
    }
}

/// How many registers a node hands to a step.
pub(crate) fn arguments_in(tx: &Tx) -> Option<u64>
    ensures { result ≡ arguments_in tx.now }
{
    match tx {
        Tx::Step { args, .. } => Some(args.len() as u64),
        _ => None,
    }
}

/// A register that a node names and that is none.
pub(crate) fn bad_register_in(tx: &Tx) -> Option<u8>
    ensures { IfSome result (λ reg. Contains (registers_in tx.now) reg × (is_no_register reg ≡ true)) }
{
    match tx {
        Tx::Put { reg, .. } | Tx::Read { reg, .. } | Tx::Write { reg, .. } | Tx::When { reg, .. } =>
            none_of_register(*reg),
        Tx::Step { args, out, .. } => match bad_among(args) {
            Some(reg) => Some(reg),
            None => none_of_register(*out),
        },
        _ => None,
    }
}

// This one, if it is none.
fn none_of_register(reg: u8) -> Option<u8>
    ensures { IfSome result (λ found. (found ≡ reg) × (is_no_register reg ≡ true)) }
{
    if reg as usize >= REGISTERS {
        Some(reg)
    } else {
        None
    }
}

// The first of these that is none.
fn bad_among(regs: &[u8]) -> Option<u8>
    ensures { IfSome result (λ reg. Contains regs.now reg × (is_no_register reg ≡ true)) }
{
    for reg in regs {
        if *reg as usize >= REGISTERS {
            return Some(*reg);
        }
    }
    None
}
