//! What was found wrong with a value, and the way there.
ghost use Rattle.std.specs.Prelude.{◌≡◌, Some, IsOk, IfErr};
ghost use Rattle.serde_json.specs.Data.{Data};
ghost use Rattle.tmem_forms.specs.Errors.{Refuses};
ghost use Rattle.tmem_requests.specs.Wrong.{IsTrueOf, IsWrong, Scope, TellsTruth, inner, step_value};

use crate::place::{PointerStep, RequestPlace};
use crate::refusal::NoRequest;
use crate::why::RequestFlaw;
use std::alloc::Global;
use tmem_forms::FormError;

/// What is wrong with a value or with one that it holds, and the steps that lead there. Where that is not known, or memory does not
/// suffice for a step, no more is told than that the whole is no request.
#[derive(Drop)]
pub struct WrongValue {
    pub why: RequestFlaw,
    pub steps: Vec<PointerStep>,
}

impl WrongValue {
    /// That the value itself is wrong.
    pub(crate) fn here(alloc: Global, why: RequestFlaw) -> WrongValue
        ensures { (scope : Scope) (d : Data) → IsWrong scope why d → IsTrueOf scope d result }
    {
        WrongValue {
            why,
            steps: Vec::new(alloc),
        }
    }

    /// The same of a value whose form was not read. Where memory did not suffice to read it, nothing is known to be wrong with it.
    pub(crate) fn refused(alloc: Global, error: FormError, why: RequestFlaw) -> WrongValue
        ensures { (scope : Scope) (d : Data) → Refuses error (IsWrong scope why d) → IsTrueOf scope d result }
    {
        match error {
            FormError::Memory(_) => WrongValue::here(alloc, RequestFlaw::NotRequest),
            FormError::NoForm => WrongValue::here(alloc, why),
        }
    }

    // The same of the value that this step begins at.
    fn behind(self, step: PointerStep) -> WrongValue
        ensures { (scope : Scope) (d e : Data) → step_value step d ≡ Some e → IsTrueOf (inner scope) e self → IsTrueOf scope d result }
    {
        let WrongValue { why, mut steps } = self;
        match why {
            RequestFlaw::NotRequest => WrongValue::unknown(steps),
            _ => match steps.insert(0, step) {
                Ok(()) => WrongValue { why, steps },
                Err(_) => WrongValue::unknown(steps),
            },
        }
    }

    // That it is not known what is wrong.
    fn unknown(mut steps: Vec<PointerStep>) -> WrongValue
        ensures { (scope : Scope) (d : Data) → IsTrueOf scope d result }
    {
        steps.clear();
        WrongValue {
            why: RequestFlaw::NotRequest,
            steps,
        }
    }

    /// What is told of it.
    pub(crate) fn into_refusal(self) -> NoRequest
        ensures { (scope : Scope) (d : Data) → IsTrueOf scope d self → TellsTruth scope d result }
    {
        NoRequest {
            why: self.why,
            at: RequestPlace::Pointer(self.steps),
        }
    }
}

/// Hands on what was found in the value that a step leads to.
pub(crate) fn inside(step: PointerStep, found: Result<(), WrongValue>) -> Result<(), WrongValue>
    ensures fine { IsOk found → IsOk result }
    ensures told { (scope : Scope) (d e : Data) → step_value step d ≡ Some e → IfErr found (λ w. IsTrueOf (inner scope) e w) → IfErr result (λ w. IsTrueOf scope d w) }
{
    match found {
        Ok(()) => Ok(()),
        Err(wrong) => Err(wrong.behind(step)),
    }
}
