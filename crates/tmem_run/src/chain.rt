// A law of runs of the program.
ghost use Rattle.tmem_run.specs.Chains.{CrashLeavesRun};

use tmem_disk::Disk;

/// A crash of a run on a store that has a history leaves a store: with that history, or with the one after an initial part of
/// the entries. It does nothing: a caller's proof takes the law from its contract.
pub fn crash_leaves_run<D: Disk>()
    ensures { CrashLeavesRun D.view }
{}
