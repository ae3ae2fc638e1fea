// Sets of at most 64 indices, as the bits of a number.

ghost use Rattle.std.specs.Prelude.{◌≡◌, ◌≢◌, ℕ, ◌<◌, ◌==◌, ◌&&◌, not, true, false};
ghost use Rattle.tmem_invariants.specs.Indices.{has_index};

// The set without an index. It is a lesser number, where it had that index.
pub(crate) fn without_index(indices: u64, index: usize) -> u64
    requires { index < 64 }
    ensures others { (other : ℕ) → has_index result other ≡ (has_index indices other && not (other == index)) }
    ensures less { has_index indices index ≡ true → result < indices }
{
    indices & !(1 << index)
}

// The lowest index of a set that is not empty.
pub(crate) fn lowest_index(indices: u64) -> usize
    requires { indices ≢ 0 }
    ensures within { result < 64 }
    ensures there { has_index indices result ≡ true }
    ensures lowest { (other : ℕ) → other < result → has_index indices other ≡ false }
{
    indices.trailing_zeros() as usize
}
