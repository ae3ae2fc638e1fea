// What a desk counts.
ghost use Rattle.std.specs.Prelude.{◌≡◌};
ghost use Rattle.tmem_desk.specs.Counts.{no_counts, counts_with, one_committed, one_refused, one_conflict};

use tmem_answers::Answer;
use tmem_core::Settled;
use tmem_fault::Fault;

/// How many answers told of a commit, of a refusal by an invariant, and of a conflict. Each is a number of 64 bits, which begins anew.
#[derive(Clone, Copy)]
pub(crate) struct AnswerCounts {
    pub(crate) committed: u64,
    pub(crate) refused: u64,
    pub(crate) conflicts: u64,
}

impl AnswerCounts {
    /// Nothing was told yet.
    pub(crate) fn new() -> AnswerCounts
        ensures { result ≡ no_counts }
    {
        AnswerCounts {
            committed: 0,
            refused: 0,
            conflicts: 0,
        }
    }

    /// Counts an answer.
    pub(crate) fn note(&mut self, answer: &Answer)
        ensures { self.new ≡ counts_with self.old answer.now }
    {
        match answer {
            Answer::Settled(settled) => self.note_settled(settled),
            Answer::Refused { .. } => self.note_refused(),
            Answer::Fault(Fault::Conflict) => self.note_conflict(),
            _ => {}
        }
    }

    // Counts how a transaction ended.
    fn note_settled(&mut self, settled: &Settled)
        ensures { self.new ≡ counts_with self.old (Answer.Settled settled.now) }
    {
        match settled {
            Settled::Committed { .. } => self.note_committed(),
            Settled::Refused(_) => self.note_refused(),
            _ => {}
        }
    }

    fn note_committed(&mut self)
        ensures { self.new ≡ one_committed self.old }
    {
        self.committed = self.committed.wrapping_add(1);
    }

    fn note_refused(&mut self)
        ensures { self.new ≡ one_refused self.old }
    {
        self.refused = self.refused.wrapping_add(1);
    }

    fn note_conflict(&mut self)
        ensures { self.new ≡ one_conflict self.old }
    {
        self.conflicts = self.conflicts.wrapping_add(1);
    }
}
