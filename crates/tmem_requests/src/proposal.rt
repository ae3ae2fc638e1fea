//! Attempts that were made elsewhere.
ghost use Rattle.tmem_requests.specs.Proposals.{IsProposal};

use crate::limits::is_proposal;
use tmem_fault::Name;

/// What a transaction read and what it changes, made elsewhere: each variable with its value, and the names that it checks and
/// retires. None stands twice in a list, no name is in both lists, and there are at most 500 reads, 64 writes, 8 checks and 8
/// retires.
#[derive(Drop)]
pub struct Proposal {
    pub reads: Vec<(u16, i64)>,
    pub writes: Vec<(u16, i64)>,
    pub checks: Vec<Name>,
    pub retires: Vec<Name>,
    pub ghost fine: { IsProposal reads.items writes.items checks.items retires.items },
}

impl Proposal {
    ghost use Rattle.std.specs.Prelude.{◌≡◌, IfSome, IsNone};

    /// A proposal of these, or none where they break what one has to keep.
    pub fn new(
        reads: Vec<(u16, i64)>,
        writes: Vec<(u16, i64)>,
        checks: Vec<Name>,
        retires: Vec<Name>,
    ) -> Option<Proposal>
        ensures made { IfSome result (λ p. (p.reads ≡ reads) × (p.writes ≡ writes) × (p.checks ≡ checks) × (p.retires ≡ retires)) }
        ensures none { IsNone result → ¬ IsProposal reads.items writes.items checks.items retires.items }
    {
        if !is_proposal(&reads, &writes, &checks, &retires) {
            return None;
        }
        Some(Proposal {
            reads,
            writes,
            checks,
            retires,
        })
    }
}
