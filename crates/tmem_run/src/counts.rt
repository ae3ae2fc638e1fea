//! What a run leaves that is not durable.
ghost use Rattle.std.specs.Prelude.{◌≡◌};
ghost use Rattle.tmem_run.specs.Counted.{commit_counts_after, first_lost_of, found_counts, is_flush_event, lost_of, reopened_counts};

use std::fmt;
use tmem_fault::Fault;
use tmem_world::{Event, Reply, Settled};

/// How many transactions are committed, how many of them are known durable, and how many are gone.
#[derive(Clone, Copy)]
pub(crate) struct CommitCounts {
    pub(crate) committed: u64,
    pub(crate) durable: u64,
    /// A sync of a flush failed, so that one more batch may be durable.
    pub(crate) in_doubt: bool,
    /// So many were committed, and an opening in the run did not find them.
    pub(crate) gone: u64,
    /// The number of the first of these.
    pub(crate) first_gone: u64,
}

impl CommitCounts {
    /// Those of a store in which the first opening found so many.
    pub(crate) fn found(count: u64) -> CommitCounts
        ensures { result ≡ found_counts count }
    {
        CommitCounts {
            committed: count,
            durable: count,
            in_doubt: false,
            gone: 0,
            first_gone: 0,
        }
    }

    /// Those behind an event, which was a flush or not, that was answered so.
    pub(crate) fn after(self, is_flush: bool, reply: &Reply) -> CommitCounts
        ensures { result ≡ commit_counts_after self is_flush reply.now }
    {
        let CommitCounts {
            committed,
            durable,
            in_doubt,
            gone,
            first_gone,
        } = self;
        match reply {
            Reply::Opened(found) => self.reopened(*found),
            Reply::Durable(durable) | Reply::Looked(durable) => CommitCounts {
                committed,
                durable: *durable,
                in_doubt,
                gone,
                first_gone,
            },
            Reply::Settled(Settled::Committed { number, .. }) => CommitCounts {
                committed: number.saturating_add(1),
                durable,
                in_doubt,
                gone,
                first_gone,
            },
            Reply::Fault(Fault::Unknown) => CommitCounts {
                committed,
                durable,
                in_doubt: in_doubt || is_flush,
                gone,
                first_gone,
            },
            _ => self,
        }
    }

    // Those behind a further opening, which found so many.
    fn reopened(self, found: u64) -> CommitCounts
        ensures { result ≡ reopened_counts self found }
    {
        let first_gone = if self.gone == 0 {
            found
        } else {
            self.first_gone
        };
        if found < self.committed {
            CommitCounts {
                committed: found,
                durable: found,
                in_doubt: false,
                gone: self.gone.saturating_add(self.committed - found),
                first_gone,
            }
        } else {
            CommitCounts {
                committed: found,
                durable: found,
                in_doubt: false,
                gone: self.gone,
                first_gone: self.first_gone,
            }
        }
    }

    // The number of the first one that is lost, where one is. (Each opening finds at least those that were durable.)
    fn first_lost(self) -> u64
        ensures { result ≡ first_lost_of self }
    {
        if self.gone == 0 {
            self.durable
        } else {
            self.first_gone
        }
    }

    /// What is lost where the run ends so.
    pub(crate) fn lost(self) -> Option<Lost>
        ensures { result ≡ lost_of self }
    {
        let first = self.first_lost();
        if self.durable < self.committed {
            Some(Lost {
                first,
                count: self.gone.saturating_add(self.committed - self.durable),
                in_doubt: self.in_doubt,
            })
        } else if self.gone == 0 {
            None
        } else {
            Some(Lost {
                first,
                count: self.gone,
                in_doubt: false,
            })
        }
    }
}

/// Whether a failed sync of this event leaves a batch in doubt.
pub(crate) fn is_flush(event: &Event) -> bool
    ensures { result ≡ is_flush_event event.now }
{
    matches!(event, Event::Flush)
}

/// So many transactions, from this number on, that a run committed, and that are not known durable at its end or were gone at an opening.
#[derive(Clone, Copy, Debug, PartialEq, Eq)]
pub struct Lost {
    pub first: u64,
    pub count: u64,
    /// A sync of a flush failed, so that those of one batch may be durable.
    pub in_doubt: bool,
}

impl fmt::Display for Lost {
    ghost use Rattle.std.specs.Prelude.{Some};
    ghost use Rattle.tmem_run.specs.Counted.{lost_text};

    ghost output = { λ lost. Some (lost_text lost) };

    fn fmt<W: fmt::Write>(&self, f: &mut fmt::Formatter<W>) -> fmt::Result {
        let Lost {
            first,
            count,
            in_doubt,
        } = *self;
        if in_doubt {
            write!(
                f,
                "not known durable: {count} of the committed transactions, from number {first} on; those of a flush that met fault 4 (64 at most) are all there or none, and the others are gone; open the store again, after an error of the disk once the machine was started anew, and it says how many there are (behind a reopen of the script the numbers from its `opened N` on are given again: tell those apart by what they write)"
            )
        } else {
            write!(
                f,
                "not durable, and so gone: {count} of the committed transactions, from number {first} on: each that is not among the first N of the next `opened N`, or, if none follows, of the last `durable N` or `opened N`; to have them, play them alone, in their order, and flush until `durable N` has all; if later ones are kept, see first what this undoes"
            )
        }
    }
}
