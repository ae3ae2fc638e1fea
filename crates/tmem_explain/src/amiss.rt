//! What was found wrong with a value, and the way there.
ghost use Rattle.std.specs.Prelude.{◌≡◌, ℕ, Some, Err, IfErr};
ghost use Rattle.serde_json.specs.Data.{Data};
ghost use Rattle.tmem_fault.specs.declared.fault.Cause.{Cause};
ghost use Rattle.tmem_forms.specs.Errors.{Refuses};
ghost use Rattle.tmem_requests.specs.Wrong.{IsTrueOf as IsWrongOf, part, step_value};
ghost use Rattle.tmem_explain.specs.Flaws.{IsAmiss, IsAmissIn, IsBehind, IsFlawOf, IsPlanTold, TellsCause};

use crate::expected::Expected;
use crate::flaw::{Flaw, Spot};
use std::alloc::Global;
use tmem_forms::FormError;
use tmem_requests::{PointerStep, RequestFlaw, WrongValue};

/// What is wrong with a value or with one that it holds, and the steps that lead there. Where that is not known, or memory does not
/// suffice for a step, no more is told than that the whole is no script.
#[derive(Drop)]
pub(crate) struct Amiss {
    expected: Expected,
    steps: Vec<PointerStep>,
}

impl Amiss {
    /// That the value itself is wrong.
    pub(crate) fn here(alloc: Global, expected: Expected) -> Amiss
        ensures amiss { (d : Data) → IsAmiss expected d → IsAmissIn d result }
        ensures expected { result.expected ≡ expected }
    {
        Amiss {
            expected,
            steps: Vec::new(alloc),
        }
    }

    /// The same of a value whose form was not read. Where memory did not suffice to read it, nothing is known to be wrong with it.
    pub(crate) fn refused(alloc: Global, error: FormError, expected: Expected) -> Amiss
        ensures { (d : Data) → Refuses error (IsAmiss expected d) → IsAmissIn d result }
    {
        match error {
            FormError::Memory(_) => Amiss::here(alloc, Expected::Script),
            FormError::NoForm => Amiss::here(alloc, expected),
        }
    }

    /// What was found wrong with a transaction.
    pub(crate) fn of(wrong: WrongValue) -> Amiss
        ensures { (d : Data) → IsWrongOf part d wrong → IsAmissIn d result }
    {
        let WrongValue { why, steps } = wrong;
        match why {
            RequestFlaw::NotRequest => Amiss::unknown(steps),
            _ => Amiss {
                expected: Expected::Transaction(why),
                steps,
            },
        }
    }

    /// The same of the value that this step begins at.
    pub(crate) fn behind(self, step: PointerStep) -> Amiss
        ensures amiss { (d e : Data) → step_value step d ≡ Some e → IsAmissIn e self → IsAmissIn d result }
        ensures cause { (cause : Cause) (vars total : ℕ) → TellsCause cause vars total self.expected → TellsCause cause vars total result.expected }
        ensures told { IsPlanTold result.expected → IsBehind step self result }
    {
        let Amiss {
            expected,
            mut steps,
        } = self;
        match expected {
            Expected::Script => Amiss::unknown(steps),
            _ => match steps.insert(0, step) {
                Ok(()) => Amiss { expected, steps },
                Err(_) => Amiss::unknown(steps),
            },
        }
    }

    // That it is not known what is wrong.
    fn unknown(mut steps: Vec<PointerStep>) -> Amiss
        ensures amiss { (d : Data) → IsAmissIn d result }
        ensures expected { result.expected ≡ Expected.Script }
    {
        steps.clear();
        Amiss {
            expected: Expected::Script,
            steps,
        }
    }

    /// What is told of it.
    pub(crate) fn into_flaw(self) -> Flaw
        ensures flaw { (d : Data) → IsAmissIn d self → IsFlawOf d result }
        ensures expected { result.expected ≡ self.expected }
        ensures at { result.at ≡ Spot.Pointer self.steps }
    {
        Flaw {
            expected: self.expected,
            at: Spot::Pointer(self.steps),
        }
    }
}

/// Hands on what was found in the value that a step leads to.
pub(crate) fn inside<T: Drop>(step: PointerStep, found: Result<T, Amiss>) -> Result<T, Amiss>
    ensures amiss { (d e : Data) → step_value step d ≡ Some e → IfErr found (IsAmissIn e) → IfErr result (IsAmissIn d) }
    ensures cause { (cause : Cause) (vars total : ℕ) → IfErr found (λ amiss. TellsCause cause vars total amiss.expected) → IfErr result (λ amiss. TellsCause cause vars total amiss.expected) }
    ensures told { IfErr result (λ outer. IsPlanTold outer.expected → (inner : Amiss) × (found ≡ Err inner) × IsBehind step inner outer) }
{
    match found {
        Ok(value) => Ok(value),
        Err(amiss) => Err(amiss.behind(step)),
    }
}
