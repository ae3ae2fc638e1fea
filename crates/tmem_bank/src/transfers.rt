// What the bank asks of its store, as transactions.
ghost use Rattle.std.specs.Prelude.{ℕ, List};
ghost use Rattle.tmem_invariants.specs.Meanings.{Meanings};
ghost use Rattle.tmem_tree.specs.Plans.{FitsSteps, FitsVariables, FitsNames, FitsSignatures};

use crate::service::ACCOUNTS;
use std::alloc::{AllocError, Global};
use tmem_builtins::{add_to, all_of, put};
use tmem_fault::{Fault, Name};
use tmem_tree::{Plan, Tx};

/// Money that goes from one account to another.
#[derive(Clone, Copy)]
pub struct Transfer {
    from: u16,
    to: u16,
    amount: i64,
}

impl Transfer {
    /// So much from the one account to the other.
    pub fn new(from: u16, to: u16, amount: i64) -> Transfer {
        Transfer { from, to, amount }
    }

    /// One from account 0 to 1, two from 1 to 2, three from 2 to 3, four from 3 to 0, and so on.
    pub fn of(index: usize) -> Transfer {
        let from = (index % 4) as u16;
        Transfer::new(from, (from + 1) % 4, from as i64 + 1)
    }

    /// The transaction that makes it.
    pub fn tx(self, alloc: Global) -> Result<Tx, AllocError> {
        let paid = add_to(alloc, self.from, self.amount.saturating_neg())?;
        let received = add_to(alloc, self.to, self.amount)?;
        Ok(all_of(vec![in alloc; paid, received]?))
    }

    /// Changes a plan of it in place: it moves 1 more, or as much as at first.
    pub fn pays_more(self, plan: &mut Plan, more: bool)
        ensures steps { (arities : List ℕ) → FitsSteps arities plan.old.tree → FitsSteps arities plan.new.tree }
        ensures variables { (vars : ℕ) → FitsVariables vars plan.old → FitsVariables vars plan.new }
        ensures names { (names : List (List ℕ)) → FitsNames names plan.old.tree → FitsNames names plan.new.tree }
        ensures signatures { (tests : Meanings) → FitsSignatures tests plan.old → FitsSignatures tests plan.new }
    {
        let amount = self.amount.saturating_add(i64::from(more));
        let _ = plan.set_number(0, amount.saturating_neg());
        let _ = plan.set_number(1, amount);
    }
}

/// Puts 10000 into each account, and registers the invariant.
pub fn deposits(alloc: Global) -> Result<Tx, Fault> {
    let mut all = Vec::new(alloc);
    for account in 0..ACCOUNTS {
        all.push(put(alloc, account, 10_000)?)?;
    }
    let name = Name::new("solvent")?;
    all.push(Tx::Check { name })?;
    Ok(all_of(all))
}
