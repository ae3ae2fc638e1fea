// What a cursor was answered. It takes no memory: its values are seen by clauses alone.
ghost use Rattle.std.specs.Prelude.{◌≡◌, [], ◌∷◌, ◌++◌};

use std::mem;
use std::snapshot::Snapshot;

/// The answers to its tests, each as it was given.
#[derive(Drop)]
pub(crate) enum Answers {
    Start,
    After(Snapshot<bool>, Snapshot<Answers>),
}

impl Answers {
    ghost use Rattle.tmem_tentative.specs.Answers.{answers_of};

    // None.
    pub(crate) fn none() -> Snapshot<Answers>
        ensures { answers_of result.value ≡ [] }
    {
        Snapshot::of(&Answers::Start)
    }

    // One answer more.
    pub(crate) fn add(to: &mut Snapshot<Answers>, held: bool)
        ensures { answers_of to.new.value ≡ answers_of to.old.value ++ held ∷ [] }
    {
        let before = mem::replace(to, Answers::none());
        *to = Snapshot::of(&Answers::After(Snapshot::of(&held), before));
    }
}
