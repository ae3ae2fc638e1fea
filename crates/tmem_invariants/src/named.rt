// What the layers above ask of a table of invariants.

ghost use Rattle.std.specs.Prelude.{◌≡◌, ◌↔◌, ◌||◌, ℕ, ℤ, ◌<◌, ◌≤◌, Some, List, [], ◌∷◌, length, map, slice_get, slice_index_or, All, IsTrue, IsSome, IfSome};
ghost use Rattle.std.specs.List.{list_any};
ghost use Rattle.tmem_invariants.specs.Meanings.{Meanings, AllHold, DifferInWritten, first_false, touched};
ghost use Rattle.tmem_invariants.specs.Indices.{AreIndicesOf, has_index, stands_at};
ghost use Rattle.tmem_invariants.specs.TableNames.{AreBelow, AreDistinct, first_missing, has_name, name_at};

use crate::indices::with_index;
use tmem_fault::Name;

/// The most invariants of a table.
pub const MAX_INVARIANTS: usize = 64;

/// The most variables of a footprint.
pub const MAX_FOOTPRINT: usize = 16;

/// Invariants in order, known by their names. A map of values is a slice with an entry for each variable. No call takes
/// memory.
pub trait Invariants {
    /// The names, in the table's order.
    ghost names: { Self → List (List ℕ) };

    /// The footprints, in the table's order.
    ghost footprints: { Self → List (List ℕ) };

    /// The number of variables.
    ghost vars: { Self → ℕ };

    /// Each answers what these meanings say of its name, over the footprint that they give it.
    ghost is_stated: { Self → Meanings → Type 0 };

    /// How many there are.
    fn len(&self) -> usize
        ensures { result ≡ length (names self.now) };

    /// The number of variables.
    fn vars(&self) -> u16
        ensures { result ≡ vars self.now };

    /// The name at an index of the table's order.
    fn name(&self, index: usize) -> Name
        requires { index < length (names self.now) }
        ensures { slice_get (names self.now) index ≡ Some result };

    /// The footprint of the invariant at an index.
    fn footprint(&self, index: usize) -> &[u16]
        requires { index < length (names self.now) }
        ensures { slice_get (footprints self.now) index ≡ Some result.now };

    /// What the invariant at an index answers on values of its footprint, in the footprint's order.
    fn answer(&self, index: usize, values: &[i64]) -> bool
        requires there { index < length (names self.now) }
        requires given { length values.now ≡ length (slice_index_or (footprints self.now) index []) }
        ensures { (m : Meanings) (name : List ℕ) → is_stated self.now m → slice_get (names self.now) index ≡ Some name → result ≡ m.test name values.now };

    /// The index of a name, if it is there.
    fn index_of(&self, name: &Name) -> Option<usize>
        ensures there { IsSome result ↔ IsTrue (has_name (names self.now) name.now) }
        ensures index { IfSome result (λ index. slice_get (names self.now) index ≡ Some name.now) };

    /// The first of the registered names that is not there: the first by bytes, where they ascend.
    fn missing(&self, registered: &[Name]) -> Option<Name>
        ensures { result ≡ first_missing (names self.now) registered.now };

    /// Whether a registered one is over a written variable. Where none is, all that held before those writes hold after
    /// them.
    fn is_touched(&self, registered: u64, written: &[(u16, i64)]) -> bool
        ensures { (m : Meanings) (held : List (List ℕ)) → is_stated self.now m → AreIndicesOf held (names self.now) registered
            → result ≡ list_any (has_name (touched m written.now held)) (names self.now) };

    /// The index of the first false one of all that are registered or proposed. Both are sets of indices, as `indices_of`
    /// finds them.
    fn test_all(&self, values: &[i64], registered: u64, proposed: u64) -> Option<usize>
        requires { length values.now ≡ vars self.now }
        ensures within { IfSome result (λ index. index < length (names self.now)) }
        ensures first { (m : Meanings) (held asked : List (List ℕ)) → is_stated self.now m
            → AreIndicesOf held (names self.now) registered → AreIndicesOf asked (names self.now) proposed
            → name_at (names self.now) result ≡ first_false m (names self.now) held asked values.now };

    /// The index of the first false one of the proposed ones and of those registered ones whose footprint has a written
    /// variable. Where the registered ones held before those writes, that is the first false one of all.
    fn test_touched(
        &self,
        values: &[i64],
        registered: u64,
        proposed: u64,
        written: &[(u16, i64)],
    ) -> Option<usize>
        requires { length values.now ≡ vars self.now }
        ensures within { IfSome result (λ index. index < length (names self.now)) }
        ensures first { (m : Meanings) (held asked : List (List ℕ)) → is_stated self.now m
            → AreIndicesOf held (names self.now) registered → AreIndicesOf asked (names self.now) proposed
            → name_at (names self.now) result ≡ first_false m (names self.now) (touched m written.now held) asked values.now }

        // as if all had been tested
        ensures all { (m : Meanings) (held asked : List (List ℕ)) (before : List ℤ) → is_stated self.now m
            → AreIndicesOf held (names self.now) registered → AreIndicesOf asked (names self.now) proposed
            → DifferInWritten written.now before values.now → AllHold m held before
            → name_at (names self.now) result ≡ first_false m (names self.now) held asked values.now };

    /// There are at most `MAX_INVARIANTS`.
    ghost few: { (tests : Self) → length (names tests) ≤ 64 };

    /// What they are stated to mean is over these footprints.
    ghost over: { (tests : Self) (m : Meanings) → is_stated tests m → map m.footprint (names tests) ≡ footprints tests };

    /// Each variable of a footprint is below the number of variables.
    ghost within: { (tests : Self) → All (AreBelow (vars tests)) (footprints tests) };

    /// No footprint has more than `MAX_FOOTPRINT` variables.
    ghost short: { (tests : Self) → All (λ footprint. length footprint ≤ 16) (footprints tests) };

    /// No name stands twice.
    ghost distinct: { (tests : Self) → AreDistinct (names tests) };

    /// There are meanings that they answer.
    ghost has_meanings: { (tests : Self) → ∥ ((m : Meanings) × is_stated tests m) ∥₁ };
}

/// The set of the indices of these names in a table. A name that is not there counts for nothing.
pub fn indices_of<T: Invariants>(table: &T, names: &[Name]) -> u64
    ensures { AreIndicesOf names.now (T.names table.now) result }
{
    let mut indices = 0;
    for name in names {
        indices = with_name(table, indices, name);
    }
    indices
}

// The set with the index of a name, if it is there.
fn with_name<T: Invariants>(table: &T, indices: u64, name: &Name) -> u64
    ensures { (index : ℕ) → has_index result index ≡ (has_index indices index || stands_at (name.now ∷ []) (T.names table.now) index) }
{
    match table.index_of(name) {
        Some(index) => with_index(indices, index),
        None => indices,
    }
}
