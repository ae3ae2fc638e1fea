//! The attempt that a proposal is.
ghost use Rattle.std.specs.Prelude.{◌≡◌, ◌≤◌, [], length, IfOk};
ghost use Rattle.std.specs.Map.{keys_of};
ghost use Rattle.tmem_fault.specs.Distinct.{AreDistinct};
ghost use Rattle.tmem_requests.specs.Attempts.{IsAttemptOf};

use crate::proposal::Proposal;
use std::alloc::{AllocError, Global};
use tmem_effect::{Effect, Names, Writes};
use tmem_fault::Name;
use tmem_tentative::{Attempt, Ending, Reads};
use tmem_tree::REGISTERS;

/// The attempt that a proposal is, to be settled as one that was made here: it ended normally, with registers that are 0.
pub fn proposed_attempt(alloc: Global, proposal: &Proposal) -> Result<Attempt, AllocError>
    ensures { IfOk result (IsAttemptOf proposal.now) }
{
    let reads = reads_of(alloc, &proposal.reads)?;
    let mut effect = Effect::new();
    put_writes(&proposal.writes, &mut effect.writes);
    put_names(&proposal.checks, &mut effect.names);
    put_names(&proposal.retires, &mut effect.retired);
    Ok(Attempt {
        reads,
        ending: Ending::Normal,
        registers: [0; REGISTERS],
        effect,
    })
}

// Variables and values as what was read.
fn reads_of(alloc: Global, pairs: &[(u16, i64)]) -> Result<Reads, AllocError>
    requires { AreDistinct (keys_of pairs.now) }
    ensures { IfOk result (λ reads. reads.entries ≡ pairs.now) }
{
    let mut reads = Reads::new(alloc);
    for pair in pairs {
        reads.insert(pair.0, pair.1)?;
    }
    Ok(reads)
}

// Puts these into writes that are empty.
fn put_writes(pairs: &[(u16, i64)], into: &mut Writes)
    requires empty { into.old ≡ [] }
    requires once { AreDistinct (keys_of pairs.now) }
    requires few { length pairs.now ≤ 64 }
    ensures { into.new ≡ pairs.now }
{
    for pair in pairs {
        into.put(pair.0, pair.1);
    }
}

// Puts these into names that are none.
fn put_names(names: &[Name], into: &mut Names)
    requires empty { into.old ≡ [] }
    requires once { AreDistinct names.now }
    requires few { length names.now ≤ 8 }
    ensures { into.new ≡ names.now }
{
    for name in names {
        into.put(name);
    }
}
