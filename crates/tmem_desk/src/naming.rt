// The name of a store that is served.
use std::marker::Brand;
use tmem_seats::StoreNaming;

/// Which store is served, in the types of all that belongs to it: beside what `StoreNaming` has, how many arguments its stored steps take,
/// and the names of the invariants that always hold.
pub trait ServedNaming: StoreNaming {
    ghost use Rattle.std.specs.Prelude.{ℕ, List};

    ghost arities: { List ℕ };

    ghost always: { List (List ℕ) };
}

impl ServedNaming for Brand {
    ghost use Rattle.std.specs.Prelude.{[]};

    ghost arities = { [] };

    ghost always = { [] };
}
