// What an attempt is answered, without its registers.
ghost use Rattle.std.specs.Prelude.{◌≡◌};
ghost use Rattle.tmem_core.specs.Decisions.{settled_of};

use tmem_fault::Name;
use tmem_tree::{REGISTERS, Settled};

/// What an attempt is answered. The registers that go with it are those of the attempt: they are not copied, so this is small.
#[derive(Clone, Copy, Debug, PartialEq, Eq)]
pub enum Decision {
    /// It was committed, as the one of this number.
    Committed(u64),
    /// It changes nothing. It was settled after so many committed ones.
    Seen(u64),
    /// It asks to be run again once some value that it read has changed. So many were committed by then.
    Retry(u64),
    /// It gave up, with this code.
    Aborted(u16),
    /// This invariant was false where it was checked; or it would be: the first in the table's order of those that are checked, or that
    /// are registered and not retired by it.
    Refused(Name),
}

impl Decision {
    /// The whole answer, for an attempt with these registers.
    pub fn settled(&self, registers: &[i64; REGISTERS]) -> Settled
        ensures { result ≡ settled_of self.now registers.now }
    {
        match *self {
            Decision::Committed(number) => Settled::Committed {
                number,
                registers: *registers,
            },
            Decision::Seen(at) => Settled::Seen {
                at,
                registers: *registers,
            },
            Decision::Retry(_) => Settled::Retry,
            Decision::Aborted(code) => Settled::Aborted(code),
            Decision::Refused(name) => Settled::Refused(name),
        }
    }
}
