// Laws of chains of sessions.
ghost use Rattle.tmem_world.specs.Chain.{FormattedIsStore, CrashLeavesStore, FollowingKeepsStore};

use tmem_disk::Disk;

/// A device that was formatted is a store without a history yet. It does nothing: a caller's proof takes the law from its
/// contract.
pub fn formatted_is_store<D: Disk>()
    ensures { FormattedIsStore D.view }
{}

/// A store is one for the next release of a program too: where its steps mean the same, and what is registered comes again with
/// the footprint and the answers that it had. So has what a committed transaction tested, also in a branch that then retried. What was
/// retired need not come again; where it does, the table had it before too, with the same meaning. The table may have another order,
/// and more invariants. It does nothing either.
pub fn following_keeps_store<D: Disk>()
    ensures { FollowingKeepsStore D.view }
{}

/// A crash of a store leaves a store: with the history from before the call that it met, or, inside a list of events, with the
/// history after an initial part of them. It does nothing either.
pub fn crash_leaves_store<D: Disk>()
    ensures { CrashLeavesStore D.view }
{}
