// What a transaction is answered.

use crate::limits::REGISTERS;
use tmem_fault::Name;

/// What a transaction is answered once it has run and is settled.
#[derive(Clone, Copy, Debug, PartialEq, Eq)]
pub enum Settled {
    /// It was committed, as the one of this number, and ended with these registers.
    Committed {
        number: u64,
        registers: [i64; REGISTERS],
    },
    /// It changes nothing. It ended with these registers, after so many committed ones.
    Seen {
        at: u64,
        registers: [i64; REGISTERS],
    },
    /// It asks to be run again once some value that it read has changed.
    Retry,
    /// It gave up, with this code.
    Aborted(u16),
    /// This invariant was false where it was checked; or it would be: the first in the table's order of those that are registered or
    /// checked.
    Refused(Name),
}
