// A transaction.

use tmem_fault::Name;

/// A transaction: a tree of reads, writes and stored steps over 16 registers (Harris et al. 2005, section 3, with
/// registers in place of bound variables).
#[derive(Debug, Drop)]
pub enum Tx {
    /// Does nothing.
    Skip,
    /// One after another. The first that does not end normally ends the whole.
    Seq(Vec<Tx>),
    /// The register takes the number.
    Put {
        reg: u8,
        number: i64,
    },
    /// The register takes the variable's value.
    Read {
        var: u16,
        reg: u8,
    },
    /// The variable takes the register's value.
    Write {
        var: u16,
        reg: u8,
    },
    /// Calls the stored step of this index on the registers `args`. A value that it answers goes to `out`.
    Step {
        index: u16,
        args: Vec<u8>,
        out: u8,
    },
    /// `then` where the register is not 0, else `other`.
    When {
        reg: u8,
        then: Box<Tx>,
        other: Box<Tx>,
    },
    /// The first, or where that retries, the second in its place.
    OrElse(Box<Tx>, Box<Tx>),
    /// Gives up, until some variable that was read has another value.
    Retry,
    /// Gives up for good.
    Abort {
        code: u16,
    },
    /// Tests an invariant on the values so far: where it is false, the transaction ends as broken. Else proposes it: it must
    /// hold at the end of this transaction, and of every later one.
    Check {
        name: Name,
    },
    /// Retires the invariant of this name: if the transaction commits, it is not registered any more, and neither the end of this
    /// transaction nor a later one tests it. A name that is not registered may be retired too.
    Retire {
        name: Name,
    },
}
