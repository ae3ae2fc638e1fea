//! Transactions as rows of plain nodes, all of which one function builds.
use std::alloc::{AllocError, Global};
use tmem_fault::Name;
use tmem_tree::Tx;

/// A node, or several alike.
#[derive(Clone, Copy)]
pub(super) enum Node {
    /// The register takes the number.
    PutNumber(u8, i64),
    /// The register takes the variable's value.
    ReadValue(u16, u8),
    /// The variable takes the register's value.
    WriteValue(u16, u8),
    /// Reads each variable from the first one on, and below the second one, into a register.
    ReadEach(u16, u16, u8),
    /// Writes register 0 to each of so many variables.
    WriteEachOf(u16),
    /// Calls the step of this index on two registers. The value goes to the third one.
    CallStep(u16, [u8; 2], u8),
    CheckName(Name),
    RetireName(Name),
    /// Does nothing so often.
    DoNothing(u32),
}

/// One after another.
pub(super) fn seq(alloc: Global, nodes: &[Node]) -> Result<Tx, AllocError> {
    let mut txs = Vec::new(alloc);
    push_all(alloc, &mut txs, nodes)?;
    Ok(Tx::Seq(txs))
}

/// The same behind a transaction.
pub(super) fn behind(
    alloc: Global,
    tx: Result<Tx, AllocError>,
    nodes: &[Node],
) -> Result<Tx, AllocError> {
    let mut txs = Vec::new(alloc);
    txs.push(tx?)?;
    push_all(alloc, &mut txs, nodes)?;
    Ok(Tx::Seq(txs))
}

/// The same before a transaction.
pub(super) fn before(
    alloc: Global,
    nodes: &[Node],
    tx: Result<Tx, AllocError>,
) -> Result<Tx, AllocError> {
    let mut txs = Vec::new(alloc);
    push_all(alloc, &mut txs, nodes)?;
    txs.push(tx?)?;
    Ok(Tx::Seq(txs))
}

/// Puts them behind others.
pub(super) fn push_all(alloc: Global, txs: &mut Vec<Tx>, nodes: &[Node]) -> Result<(), AllocError> {
    for node in nodes {
        push(alloc, txs, *node)?;
    }
    Ok(())
}

fn push(alloc: Global, txs: &mut Vec<Tx>, node: Node) -> Result<(), AllocError> {
    let tx = match node {
        Node::PutNumber(reg, number) => Tx::Put { reg, number },
        Node::ReadValue(var, reg) => Tx::Read { var, reg },
        Node::WriteValue(var, reg) => Tx::Write { var, reg },
        Node::CheckName(name) => Tx::Check { name },
        Node::RetireName(name) => Tx::Retire { name },
        Node::CallStep(index, args, out) => step_of(index, Vec::from_array(alloc, args)?, out),
        Node::ReadEach(first, end, reg) => return read_each(txs, first, end, reg),
        Node::WriteEachOf(vars) => return write_each(txs, vars),
        Node::DoNothing(times) => return do_nothing(txs, times),
    };
    txs.push(tx)?;
    Ok(())
}

fn step_of(index: u16, args: Vec<u8>, out: u8) -> Tx {
    Tx::Step { index, args, out }
}

fn read_each(txs: &mut Vec<Tx>, first: u16, end: u16, reg: u8) -> Result<(), AllocError> {
    for var in first..end {
        txs.push(Tx::Read { var, reg })?;
    }
    Ok(())
}

fn write_each(txs: &mut Vec<Tx>, vars: u16) -> Result<(), AllocError> {
    for var in 0..vars {
        txs.push(Tx::Write { var, reg: 0 })?;
    }
    Ok(())
}

fn do_nothing(txs: &mut Vec<Tx>, times: u32) -> Result<(), AllocError> {
    for _ in 0..times {
        txs.push(Tx::Skip)?;
    }
    Ok(())
}

/// The second where the first retries.
pub(super) fn or_else(alloc: Global, first: Tx, second: Tx) -> Result<Tx, AllocError> {
    Ok(Tx::OrElse(Box::new(alloc, first)?, Box::new(alloc, second)?))
}

/// The first where the register is not 0, and the second where it is.
pub(super) fn when(alloc: Global, reg: u8, then: Tx, other: Tx) -> Result<Tx, AllocError> {
    let then = Box::new(alloc, then)?;
    let other = Box::new(alloc, other)?;
    Ok(Tx::When { reg, then, other })
}
