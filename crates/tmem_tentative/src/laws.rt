// What holds of every transaction.

ghost use Rattle.tmem_invariants.specs.Meanings.{Meanings};
ghost use Rattle.tmem_tree.specs.StepAnswers.{StepMeanings};
ghost use Rattle.tmem_tentative.specs.Laws.{Associates, RetryIsUnit, AnswersAlike};

/// The laws of a choice, whatever the steps and the names mean, and that they carry over to what `evaluate` answers. It does nothing.
pub fn or_else_laws()
    ensures associates { (steps : StepMeanings) (tests : Meanings) → Associates steps tests }
    ensures unit { (steps : StepMeanings) (tests : Meanings) → RetryIsUnit steps tests }
    ensures answers { (steps : StepMeanings) (tests : Meanings) → AnswersAlike steps tests }
{}
