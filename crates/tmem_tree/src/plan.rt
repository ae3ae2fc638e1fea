// A transaction within the limits.

ghost use Rattle.std.specs.Prelude.{◌≡◌, ℕ, ◌<◌, List, ◌+◌, ◌↔◌, IsTrue, IsFalse, IsSome, IfSome, IfOk, IfErr, slice_set, All};
ghost use Rattle.std.specs.List.{Contains};
ghost use Rattle.tmem_fault.specs.Distinct.{AreDistinct};
ghost use Rattle.tmem_invariants.specs.Meanings.{Meanings};
ghost use Rattle.tmem_tree.specs.Limits.{choices, count, is_node, is_check, is_step, is_put, Checks};
ghost use Rattle.tmem_tree.specs.Plans.{BreaksNone, IsLeastBroken, IsWithinLimits, FitsSteps, FitsVariables, FitsNames, FitsSignatures, HasSignatures, IsShortTx};
ghost use Rattle.tmem_tree.specs.Signatures.{AreMeant, AreWithin, names_of};
ghost use Rattle.tmem_tree.specs.Numbers.{numbers, with_number};

use crate::budget::{Budget, WHOLE, pay};
use crate::choices::count_choices;
use crate::limits::{MAX_DEPTH, MAX_NODES, MAX_WRITES, is_within_depth, spend};
use crate::numbers::change_number;
use crate::signature::Signature;
use crate::signatures::{Signatures, fill};
use crate::steps::StoredSteps;
use crate::tx::Tx;
use std::marker::Model;
use tmem_effect::MAX_CHECKS;
use tmem_fault::{Cause, Fault};

/// The most nodes of a short plan.
pub const MAX_SHORT: u32 = 64;

/// The most stored steps that a short plan calls.
pub const MAX_SHORT_STEPS: u32 = 8;

/// A transaction that breaks no limit. Contracts see it as its tree, and the footprints of the invariants that it checks.
pub struct Plan {
    tx: Tx,
    signatures: Signatures,
    // how many of its choices may stand in their first branch at once
    open_choices: usize,
    // whether it has few nodes and calls few stored steps
    is_short: bool,
}

// By hand, so that a function that drops one makes one call.
impl Drop for Plan {
    fn drop(self) {
        let Plan {
            tx: _tx,
            signatures: _signatures,
            open_choices: _open_choices,
            is_short: _is_short,
        } = self;
    }
}

impl Model for Plan {
    ghost use Rattle.tmem_tree.specs.contracts.tx.Tx as tree;
    ghost use Rattle.tmem_tree.specs.Plans.{PlanView, IsPlan};
    ghost use Rattle.std.specs.Coded.{codes};

    ghost Value = { PlanView };

    ghost coded = { Prim.hlevel (codes, tree.the_row.coded) };

    ghost view = { λ plan. record { tree = plan.tx; signatures = plan.signatures } };

    ghost invariant = { λ plan. IsPlan plan.tx plan.signatures plan.open_choices plan.is_short };
}

impl Plan {
    /// The plan, for these steps, so many variables and the invariants of these signatures. Refused with the least cause by
    /// number whose limit is broken. It takes no memory.
    pub fn new<S: StoredSteps>(
        tx: Tx,
        steps: &S,
        vars: u16,
        signatures: &[Signature],
    ) -> Result<Plan, Fault>
        ensures plan { IfOk result (λ plan. plan.tree ≡ tx) }
        ensures fine { IfOk result (λ _. BreaksNone (S.arities steps.now) vars (names_of signatures.now) tx) }
        ensures steps { IfOk result (λ _. FitsSteps (S.arities steps.now) tx) }
        ensures variables { AreWithin vars signatures.now → IfOk result (FitsVariables vars) }
        ensures names { IfOk result (λ _. FitsNames (names_of signatures.now) tx) }
        ensures covered { IfOk result (λ plan. HasSignatures (names_of plan.signatures) tx) }
        ensures among { IfOk result (λ plan. All (Contains signatures.now) plan.signatures) }
        ensures checked { IfOk result (λ plan. All (Checks tx) (names_of plan.signatures)) }
        ensures once { IfOk result (λ plan. AreDistinct (names_of plan.signatures)) }
        ensures signatures { (tests : Meanings) → AreMeant tests signatures.now → IfOk result (FitsSignatures tests) }
        ensures least { IfErr result (λ fault. (cause : Cause) × (fault ≡ Fault.BadPlan cause) × IsLeastBroken (S.arities steps.now) vars (names_of signatures.now) tx cause) }
    {
        match pay_for_all(&tx, steps, vars, signatures) {
            Some(left) => Ok(Plan::of(tx, signatures, left)),
            None => Err(Fault::BadPlan(least_broken(&tx, steps, vars, signatures))),
        }
    }

    // The plan of a transaction that breaks no limit, which left so much of a whole budget.
    fn of(tx: Tx, signatures: &[Signature], left: Budget) -> Plan
        requires limits { IsWithinLimits tx }
        requires covered { HasSignatures (names_of signatures.now) tx }
        requires nodes { left.nodes + count is_node tx ≡ 512 }
        requires checks { left.checks + count is_check tx ≡ 8 }
        requires steps { left.steps + count is_step tx ≡ 512 }
        ensures plan { result.tree ≡ tx }
        ensures covered { HasSignatures (names_of result.signatures) tx }
        ensures among { All (Contains signatures.now) result.signatures }
        ensures checked { All (Checks tx) (names_of result.signatures) }
        ensures once { AreDistinct (names_of result.signatures) }
    {
        let open_choices = count_choices(&tx);
        let is_short = left.nodes >= MAX_NODES - MAX_SHORT
            && left.steps >= MAX_NODES - MAX_SHORT_STEPS;
        let mut checked = Signatures::new();
        fill(&tx, signatures, WHOLE.checks - left.checks, &mut checked);
        Plan {
            tx,
            signatures: checked,
            open_choices,
            is_short,
        }
    }

    /// The transaction.
    pub fn tree(&self) -> &Tx
        ensures tree { result.now ≡ self.now.tree }
        ensures limits { IsWithinLimits self.now.tree }
        ensures covered { HasSignatures (names_of self.now.signatures) self.now.tree }
    {
        &self.tx
    }

    /// The footprints of the invariants that it checks.
    pub fn signatures(&self) -> &[Signature]
        ensures signatures { result.now ≡ self.now.signatures }
        ensures covered { HasSignatures (names_of self.now.signatures) self.now.tree }
    {
        self.signatures.as_slice()
    }

    /// How many of its choices may stand in their first branch at once.
    pub fn choices(&self) -> usize
        ensures choices { result ≡ choices self.now.tree }
        ensures limits { IsWithinLimits self.now.tree }
    {
        self.open_choices
    }

    /// Whether it has at most `MAX_SHORT` nodes, of which at most `MAX_SHORT_STEPS` call a stored step.
    pub fn is_short(&self) -> bool
        ensures { IsTrue result ↔ IsShortTx self.now.tree }
    {
        self.is_short
    }

    /// Changes the number of the `Put` at this index. The `Put`s are counted from 0, in the order in which they stand in
    /// the tree: `then` before `other`, and the first branch before the second. Answers false, and changes nothing, where
    /// there is no such index. Allocates nothing.
    #[tactic(auto, using(crate::proofs::Numbered::numbers_changed, crate::proofs::Alike::unchanged_past))]
    pub fn set_number(&mut self, index: usize, number: i64) -> bool
        ensures tree { self.new.tree ≡ with_number index number self.old.tree }
        ensures signatures { self.new.signatures ≡ self.old.signatures }
        ensures numbers { numbers self.new.tree ≡ slice_set (numbers self.old.tree) index number }
        ensures found { IsTrue result ↔ (index < count is_put self.old.tree) }
        ensures unchanged { IsFalse result → self.new ≡ self.old }
        ensures steps { (arities : List ℕ) → FitsSteps arities self.old.tree → FitsSteps arities self.new.tree }
        ensures variables { (vars : ℕ) → FitsVariables vars self.old → FitsVariables vars self.new }
        ensures names { (names : List (List ℕ)) → FitsNames names self.old.tree → FitsNames names self.new.tree }
        ensures short { IsShortTx self.new.tree ↔ IsShortTx self.old.tree }
        ensures choices { choices self.new.tree ≡ choices self.old.tree }
    {
        change_number(&mut self.tx, index, number).is_none()
    }
}

// What is left of a whole budget, or none where a limit is broken.
fn pay_for_all<S: StoredSteps>(
    tx: &Tx,
    steps: &S,
    vars: u16,
    signatures: &[Signature],
) -> Option<Budget>
    ensures fine { IsSome result ↔ BreaksNone (S.arities steps.now) vars (names_of signatures.now) tx.now }
    ensures nodes { IfSome result (λ left. left.nodes + count is_node tx.now ≡ 512) }
    ensures checks { IfSome result (λ left. left.checks + count is_check tx.now ≡ 8) }
    ensures steps { IfSome result (λ left. left.steps + count is_step tx.now ≡ 512) }
{
    pay(tx, steps, vars, signatures, MAX_DEPTH, WHOLE)
}

// The least limit that is broken, where one is.
fn least_broken<S: StoredSteps>(tx: &Tx, steps: &S, vars: u16, signatures: &[Signature]) -> Cause
    requires { ¬ BreaksNone (S.arities steps.now) vars (names_of signatures.now) tx.now }
    ensures { IsLeastBroken (S.arities steps.now) vars (names_of signatures.now) tx.now result }
{
    let checks = MAX_CHECKS as u32;
    if !is_within_depth(tx, MAX_DEPTH) {
        return Cause::TooDeep;
    }
    if spend(tx, Cause::TooManyNodes, steps, vars, signatures, MAX_NODES).is_none() {
        return Cause::TooManyNodes;
    }
    if spend(
        tx,
        Cause::TooManyWrites,
        steps,
        vars,
        signatures,
        MAX_WRITES,
    )
    .is_none()
    {
        return Cause::TooManyWrites;
    }
    if spend(tx, Cause::TooManyChecks, steps, vars, signatures, checks).is_none() {
        return Cause::TooManyChecks;
    }
    if spend(tx, Cause::BadRegister, steps, vars, signatures, 0).is_none() {
        return Cause::BadRegister;
    }
    if spend(tx, Cause::BadVariable, steps, vars, signatures, 0).is_none() {
        return Cause::BadVariable;
    }
    if spend(tx, Cause::BadStep, steps, vars, signatures, 0).is_none() {
        return Cause::BadStep;
    }
    if spend(tx, Cause::BadArguments, steps, vars, signatures, 0).is_none() {
        return Cause::BadArguments;
    }
    if spend(tx, Cause::UnknownName, steps, vars, signatures, 0).is_none() {
        return Cause::UnknownName;
    }
    Cause::TooManyRetires
}
