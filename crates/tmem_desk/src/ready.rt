// Plans of the store that is served.
ghost use Rattle.std.specs.Prelude.{◌≡◌, length};
ghost use Rattle.tmem_tree.specs.Plans.{FitsSteps, FitsVariables, FitsNames, FitsSignatures};
ghost use Rattle.tmem_desk.specs.Numbering.{with_numbers};

use crate::naming::ServedNaming;
use crate::numbering::set_numbers;
use std::marker::PhantomData;
use tmem_tree::Plan;

/// A plan of the store that is served: that it is one is a fact of its type, so that it may be kept.
#[derive(Drop)]
pub struct Ready<N: ServedNaming> {
    /// The plan.
    pub plan: Plan,
    /// The store, in the type alone.
    pub of: PhantomData<N>,

    pub ghost steps: { FitsSteps N.arities plan.tree },
    pub ghost variables: { FitsVariables (length N.opening.values) plan },
    pub ghost names: { FitsNames N.program.names plan.tree },
    pub ghost signatures: { FitsSignatures N.program.tests plan },
}

impl<N: ServedNaming> Ready<N> {
    /// Sets the numbers of its first `Put`s.
    pub(crate) fn set_numbers(&mut self, numbers: &[i64])
        ensures { self.new.plan.tree ≡ with_numbers numbers.now self.old.plan.tree }
    {
        set_numbers(&mut self.plan, numbers);
    }
}
