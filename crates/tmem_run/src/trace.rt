//! What is kept of a run, so that more can be told of what fails.
ghost use Rattle.std.specs.Prelude.{◌≡◌, ◌+◌, ◌<◌, ◌^◌, [], true, false, if◌then◌else◌};
ghost use Rattle.tmem_run.specs.Counted.{commit_counts_after, found_counts, lost_of};
ghost use Rattle.tmem_run.specs.Kept.{IsKeptOf, KeepsEntries, KeepsOthers};

use crate::counts::{CommitCounts, Lost};
use std::alloc::Global;
use tmem_fault::Fault;
use tmem_world::Reply;

/// What is kept of a run of a script: nothing, unless more is to be told. Where memory does not suffice to keep something, less is told.
#[derive(Drop)]
pub struct Trace {
    explains: bool,
    // the text of the script
    text: Vec<u8>,
    // whether the device is held at the end
    is_held: bool,
    // how many entries were played
    played: usize,
    refused: Vec<Refused>,
    // what is committed, durable and gone
    counts: CommitCounts,
}

/// An entry that was refused.
#[derive(Clone, Copy)]
pub struct Refused {
    pub index: usize,
    pub fault: Fault,
}

impl Trace {
    /// An empty one.
    pub fn new(alloc: Global, explains: bool) -> Trace
        ensures explains { result.explains ≡ explains }
        ensures text { result.text.items ≡ [] }
        ensures device { result.is_held ≡ false }
        ensures played { result.played ≡ 0 }
        ensures refused { result.refused.items ≡ [] }
        ensures counts { result.counts ≡ found_counts 0 }
    {
        Trace {
            explains,
            text: Vec::new(alloc),
            is_held: false,
            played: 0,
            refused: Vec::new(alloc),
            counts: CommitCounts::found(0),
        }
    }

    /// Keeps the text of the script, if more is to be told.
    pub fn keep_text(&mut self, text: Vec<u8>)
        ensures text { self.new.text ≡ (if self.old.explains then text else self.old.text) }
        ensures device { self.new.is_held ≡ self.old.is_held }
        ensures entries { KeepsEntries self.old self.new }
    {
        if self.explains {
            self.text = text;
        }
    }

    /// Takes how many transactions the first opening found.
    pub(crate) fn keep_found(&mut self, count: u64)
        ensures counts { self.new.counts ≡ found_counts count }
        ensures played { self.new.played ≡ self.old.played }
        ensures refused { self.new.refused ≡ self.old.refused }
        ensures others { KeepsOthers self.old self.new }
    {
        self.counts = CommitCounts::found(count);
    }

    /// Takes what the next entry, which is a flush or not, is answered.
    pub(crate) fn keep_reply(&mut self, is_flush: bool, reply: &Reply)
        ensures refused { IsKeptOf self.old.explains self.old.played reply.now self.old.refused.items self.new.refused.items }
        ensures played { self.old.played + 1 < 2 ^ 64 → self.new.played ≡ self.old.played + 1 }
        ensures counts { self.new.counts ≡ commit_counts_after self.old.counts is_flush reply.now }
        ensures others { KeepsOthers self.old self.new }
    {
        if let Reply::Fault(fault) = reply {
            self.keep_fault(*fault);
        }
        self.counts = self.counts.after(is_flush, reply);
        self.played = self.played.saturating_add(1);
    }

    /// Takes that the state is to be shown next, which is refused where there is no core.
    pub(crate) fn keep_shown(&mut self, has_core: bool)
        ensures shown { has_core ≡ true → self.new.refused ≡ self.old.refused }
        ensures refused { has_core ≡ false → IsKeptOf self.old.explains self.old.played (Reply.Fault Fault.Closed) self.old.refused.items self.new.refused.items }
        ensures played { self.old.played + 1 < 2 ^ 64 → self.new.played ≡ self.old.played + 1 }
        ensures counts { self.new.counts ≡ self.old.counts }
        ensures others { KeepsOthers self.old self.new }
    {
        if has_core {
            self.played = self.played.saturating_add(1);
        } else {
            self.keep_reply(false, &Reply::Fault(Fault::Closed));
        }
    }

    // Keeps that the next entry is refused by this fault.
    fn keep_fault(&mut self, fault: Fault)
        ensures refused { IsKeptOf self.old.explains self.old.played (Reply.Fault fault) self.old.refused.items self.new.refused.items }
        ensures played { self.new.played ≡ self.old.played }
        ensures counts { self.new.counts ≡ self.old.counts }
        ensures others { KeepsOthers self.old self.new }
    {
        if self.explains {
            let index = self.played;
            // Where memory does not suffice, it is not told.
            let _ = self.refused.push(Refused { index, fault });
        }
    }

    /// Takes whether the device is held as the run ends.
    pub fn keep_device(&mut self, is_held: bool)
        ensures device { self.new.is_held ≡ is_held }
        ensures text { self.new.text ≡ self.old.text }
        ensures entries { KeepsEntries self.old self.new }
    {
        self.is_held = is_held;
    }

    /// Whether the device is held as the run ends.
    pub fn is_held(&self) -> bool
        ensures { result ≡ self.now.is_held }
    {
        self.is_held
    }

    /// The entries that were refused, in order.
    pub fn refused(&self) -> &[Refused]
        ensures { result.now ≡ self.now.refused.items }
    {
        self.refused.as_slice()
    }

    /// What was committed, and is not known durable as the run ends or was gone at an opening.
    pub fn lost(&self) -> Option<Lost>
        ensures { result ≡ lost_of self.now.counts }
    {
        self.counts.lost()
    }

    /// The text of the script, as far as it was kept.
    pub fn text(&self) -> &[u8]
        ensures { result.now ≡ self.now.text.items }
    {
        self.text.as_slice()
    }
}
