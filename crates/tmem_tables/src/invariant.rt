// One invariant that is a closure.

ghost use Rattle.std.specs.Prelude.{◌≡◌, ◌↔◌, ℕ, ◌≤◌, length, IsOk, IfOk, IfErr};
ghost use Rattle.tmem_invariants.specs.Answers.{MayCall, HasMeaning};
ghost use Rattle.tmem_invariants.specs.TableNames.{AreDistinct, IsFootprint};

use crate::entry::TableEntry;
use crate::footprint::is_distinct;
use tmem_fault::{Fault, Name};
use tmem_invariants::MAX_FOOTPRINT;

/// The closure of an invariant. It is handed the values of the footprint, in its order.
pub type Test = Box<dyn Fn(&[i64]) -> bool + Send>;

/// A closure over the variables of a footprint, with the name that it is known by in every session. It may be called on
/// each list of the footprint's length, and there is a meaning that it then answers.
#[derive(Drop)]
pub struct Invariant {
    /// What it is known by.
    pub name: Name,
    /// The variables whose values the closure is handed, in this order.
    pub footprint: Vec<u16>,
    /// The closure.
    pub test: Test,
    ghost not_empty: { 1 ≤ length footprint.items },
    ghost short: { length footprint.items ≤ 16 },
    ghost distinct: { AreDistinct footprint.items },
    ghost callable: { MayCall (Test.pre test) (length footprint.items) },
    ghost stated: { HasMeaning (Test.post test) (length footprint.items) },
}

impl Invariant {
    /// The invariant. Refused with `BadFootprint` where the footprint is empty, has more than `MAX_FOOTPRINT` variables,
    /// or has one twice. Whoever makes the closure states what it means, by its `ensures`.
    pub fn new(name: Name, footprint: Vec<u16>, test: Test) -> Result<Invariant, Fault>
        requires callable { MayCall (Test.pre test) (length footprint.items) }
        requires stated { HasMeaning (Test.post test) (length footprint.items) }
        ensures ok { IsOk result ↔ IsFootprint footprint.items }
        ensures name { IfOk result (λ invariant. invariant.name ≡ name) }
        ensures footprint { IfOk result (λ invariant. invariant.footprint ≡ footprint) }
        ensures test { IfOk result (λ invariant. invariant.test ≡ test) }
        ensures fault { IfErr result (λ fault. fault ≡ Fault.BadFootprint) }
    {
        let count = footprint.len();
        if count == 0 || count > MAX_FOOTPRINT || !is_distinct(&footprint) {
            return Err(Fault::BadFootprint);
        }
        Ok(Invariant {
            name,
            footprint,
            test,
        })
    }
}

impl TableEntry for Invariant {
    ghost name = { λ invariant. invariant.name };

    ghost footprint = { λ invariant. invariant.footprint.items };

    ghost answers = { λ invariant. Test.post invariant.test };

    fn name(&self) -> Name {
        self.name
    }

    fn footprint(&self) -> &[u16] {
        &self.footprint
    }

    fn answer(&self, values: &[i64]) -> bool {
        (self.test)(values)
    }

    ghost is_footprint = { λ invariant. record { not_empty = invariant.not_empty; short = invariant.short; distinct = invariant.distinct } };

    ghost has_meaning = { λ invariant. invariant.stated };
}
