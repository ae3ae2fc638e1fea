// One invariant: a sum within bounds.

ghost use Rattle.std.specs.Prelude.{◌≡◌, ◌≤◌, length};
ghost use Rattle.tmem_invariants.specs.TableNames.{AreDistinct, IsFootprint};
ghost use Rattle.tmem_tables.specs.Bounds.{is_from as from, is_to as to};

use crate::entry::TableEntry;
use crate::sum::sum;
use crate::table_of::TableOf;
use crate::weight::Weight;
use tmem_fault::Name;

/// Invariants that are sums within bounds, in order, over some number of variables.
pub type LinearTable = TableOf<Linear>;

/// A sum of some variables, each as its weight says, is within bounds.
#[derive(Drop)]
pub struct Linear {
    /// What it is known by.
    pub name: Name,
    /// The variables: 1 to 16, and none twice.
    pub footprint: Vec<u16>,
    /// How each of them counts, in the same order.
    pub weights: Vec<Weight>,
    /// The least that the sum may be, where it is bounded so.
    pub least: Option<i64>,
    /// The most that the sum may be, where it is bounded so.
    pub most: Option<i64>,
    /// Whether it is registered as the store is made, and never retired.
    pub always: bool,
    pub ghost not_empty: { 1 ≤ length footprint.items },
    pub ghost short: { length footprint.items ≤ 16 },
    pub ghost distinct: { AreDistinct footprint.items },
    pub ghost paired: { length weights.items ≡ length footprint.items },
}

impl Linear {
    /// The invariant. Its variables are 1 to `MAX_FOOTPRINT`, none twice (`first_repeated` says), with
    /// a weight for each.
    pub fn new(
        name: Name,
        footprint: Vec<u16>,
        weights: Vec<Weight>,
        least: Option<i64>,
        most: Option<i64>,
        always: bool,
    ) -> Linear
        requires footprint { IsFootprint footprint.items }
        requires paired { length weights.items ≡ length footprint.items }
        ensures name { result.name ≡ name }
        ensures footprint { result.footprint ≡ footprint }
        ensures weights { result.weights ≡ weights }
        ensures bounds { (result.least ≡ least) × (result.most ≡ most) }
        ensures always { result.always ≡ always }
    {
        Linear {
            name,
            footprint,
            weights,
            least,
            most,
            always,
        }
    }
}

// Whether a sum is not below the least.
fn is_from(least: Option<i64>, total: i128) -> bool
    ensures { result ≡ from least total }
{
    match least {
        Some(least) => least as i128 <= total,
        None => true,
    }
}

// Whether it is not above the most.
fn is_to(most: Option<i64>, total: i128) -> bool
    ensures { result ≡ to most total }
{
    match most {
        Some(most) => total <= most as i128,
        None => true,
    }
}

impl TableEntry for Linear {
    ghost use Rattle.tmem_tables.specs.Sums.{IsAnswerOfSum, is_sum_within};

    ghost name = { λ linear. linear.name };

    ghost footprint = { λ linear. linear.footprint.items };

    ghost answers = { λ linear. IsAnswerOfSum linear.weights.items linear.least linear.most };

    fn name(&self) -> Name {
        self.name
    }

    fn footprint(&self) -> &[u16] {
        &self.footprint
    }

    fn answer(&self, values: &[i64]) -> bool {
        let total = sum(&self.weights, values);
        is_from(self.least, total) && is_to(self.most, total)
    }

    ghost is_footprint = { λ linear. record { not_empty = linear.not_empty; short = linear.short; distinct = linear.distinct } };

    ghost has_meaning = { λ linear. ∣ (is_sum_within linear.weights.items linear.least linear.most, λ values answer long is. is) ∣₁ };
}
