// How a variable counts in a sum.

ghost use Rattle.std.specs.Prelude.{◌≡◌, ◌≤◌, ◌^◌, ◌*ℤ◌, pos, if◌then◌else◌, unsigned_abs};
ghost use Rattle.std.specs.Ordering.{int_eq};

/// How a variable counts in a sum.
#[derive(Clone, Copy, Debug, PartialEq, Eq)]
pub enum Weight {
    /// This number times the value.
    Value(i32),
    /// This number where the value is not 0, and else 0.
    Nonzero(i32),
}

impl Weight {
    ghost use Rattle.tmem_tables.specs.Sums.{weighted};

    // What a value adds to the sum: at most 2^94 in size.
    pub(crate) fn counts(self, value: i64) -> i128
        ensures value { result ≡ weighted self value }
        ensures size { unsigned_abs result ≤ 2 ^ 94 }
    {
        match self {
            Weight::Value(number) => product(number, value),
            Weight::Nonzero(number) => number_unless_zero(number, value),
        }
    }
}

// A number times a value.
fn product(number: i32, value: i64) -> i128
    ensures value { result ≡ number *ℤ value }
    ensures size { unsigned_abs result ≤ 2 ^ 94 }
{
    number as i128 * value as i128
}

// A number where the value is not 0.
#[tactic(auto, using(crate::proofs::Sizes::number_size))]
fn number_unless_zero(number: i32, value: i64) -> i128
    ensures value { result ≡ (if int_eq value (pos 0) then pos 0 else number) }
    ensures size { unsigned_abs result ≤ 2 ^ 94 }
{
    if value == 0 { 0 } else { number as i128 }
}
