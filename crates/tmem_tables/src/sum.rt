// Sums of at most 16 terms, exact in 128 bits.

ghost use Rattle.std.specs.Prelude.{◌≡◌, ◌≤◌, ◌+◌, ◌^◌, ◌+ℤ◌, unsigned_abs, length};
ghost use Rattle.tmem_tables.specs.Sums.{weighted_sum};

use crate::weight::Weight;

// The sum of some values, each as its weight says.
pub(crate) fn sum(weights: &[Weight], values: &[i64]) -> i128
    requires short { length weights.now ≤ 16 }
    requires paired { length values.now ≡ length weights.now }
    ensures { result ≡ weighted_sum weights.now values.now }
{
    let mut total = 0i128;
    for (i, weight) in weights.iter().enumerate() {
        total = plus(total, weight.counts(values[i]));
    }
    total
}

// One more term.
fn plus(total: i128, term: i128) -> i128
    requires total { unsigned_abs total ≤ 2 ^ 100 }
    requires term { unsigned_abs term ≤ 2 ^ 94 }
    ensures value { result ≡ total +ℤ term }
    ensures size { unsigned_abs result ≤ unsigned_abs total + 2 ^ 94 }
{
    total + term
}
