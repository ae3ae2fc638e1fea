// The calls of a file, with what came of each. It takes no memory: its values are seen by clauses alone.
ghost use Rattle.std.specs.Prelude.{◌≡◌, [], ◌∷◌};
ghost use Rattle.tmem_file.specs.Record.{is_loss};
ghost use Rattle.tmem_file.specs.Recorded.{event_of, first_range, call_events};

use crate::calls::{Range, Synced};
use std::snapshot::Snapshot;

/// What came of a call.
#[derive(Drop)]
pub(crate) enum FileCall {
    /// A read gave these bytes.
    Gave(Range),
    /// These bytes stand there, after a write.
    Holds(Range),
    /// A write of so many bytes from an offset on failed, and what stands there could not be read.
    Tore(u64, u64),
    /// A sync succeeded.
    Synced(Synced),
    /// A sync failed.
    Lost,
}

impl FileCall {
    /// Is it not known for sure what the file holds after it?
    pub(crate) fn is_loss(&self) -> bool
        ensures { result ≡ is_loss (event_of self.now) }
    {
        matches!(self, FileCall::Tore(_, _) | FileCall::Lost)
    }
}

/// What a file gave when it was opened, or was given when it was made, and what came of its calls since.
#[derive(Drop)]
pub(crate) enum Calls {
    Start(Snapshot<Range>),
    After(Snapshot<FileCall>, Snapshot<Calls>),
}

impl Calls {
    /// No call yet.
    pub(crate) fn start(first: &Range) -> Calls
        ensures start { first_range result ≡ first.now }
        ensures events { call_events result ≡ [] }
    {
        Calls::Start(Snapshot::of(first))
    }

    /// One call more.
    pub(crate) fn with(&self, call: &FileCall) -> Calls
        ensures start { first_range result ≡ first_range self.now }
        ensures events { call_events result ≡ event_of call.now ∷ call_events self.now }
    {
        Calls::After(Snapshot::of(call), Snapshot::of(self))
    }
}
