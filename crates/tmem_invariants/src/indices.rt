// Sets of at most 64 indices, as the bits of a number.

ghost use Rattle.std.specs.Prelude.{◌≡◌, ℕ, ◌<◌, ◌==◌, ◌||◌};
ghost use Rattle.tmem_invariants.specs.Indices.{has_index};

/// The set with an index more.
pub fn with_index(indices: u64, index: usize) -> u64
    requires { index < 64 }
    ensures { (other : ℕ) → has_index result other ≡ (has_index indices other || other == index) }
{
    indices | 1 << index
}
