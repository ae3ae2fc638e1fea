// What a table asks of each of its invariants.

ghost use Rattle.std.specs.Prelude.{◌≡◌, ◌≤◌, ℕ, ℤ, Bool, List, length, take};
ghost use Rattle.std.specs.Borrow.{Bor};
ghost use Rattle.tmem_invariants.specs.Answers.{HasMeaning, IsMeant};
ghost use Rattle.tmem_invariants.specs.Meanings.{Meanings, holds, values_at};
ghost use Rattle.tmem_invariants.specs.TableNames.{AreBelow, IsFootprint};

use crate::footprint::gather;
use tmem_fault::Name;
use tmem_invariants::MAX_FOOTPRINT;

/// A yes or no for the values of a few variables, with the name that it is known by in every session. It is a closure or
/// data: a table asks no more of it than this.
pub trait TableEntry: Drop {
    /// What it is known by.
    ghost name: { Self → List ℕ };

    /// The variables whose values it is handed, in this order.
    ghost footprint: { Self → List ℕ };

    /// What it may answer on a list of values.
    ghost answers: { Self → Bor (List ℤ) → Bool → Type 0 };

    /// What it is known by.
    fn name(&self) -> Name
        ensures { result ≡ name self.now };

    /// The variables whose values it is handed, in this order.
    fn footprint(&self) -> &[u16]
        ensures { result.now ≡ footprint self.now };

    /// What it answers on values of its footprint.
    fn answer(&self, values: &[i64]) -> bool
        requires { length values.now ≡ length (footprint self.now) }
        ensures { (m : Meanings) → IsMeant m (name self.now) (footprint self.now) (answers self.now) → result ≡ m.test (name self.now) values.now };

    /// Its variables are 1 to `MAX_FOOTPRINT`, and none stands twice.
    ghost is_footprint: { (entry : Self) → IsFootprint (footprint entry) };

    /// There is a meaning that it answers.
    ghost has_meaning: { (entry : Self) → HasMeaning (answers entry) (length (footprint entry)) };
}

// Whether an entry is true of a map. It is handed the values of its footprint, and nothing else.
pub(crate) fn is_true<E: TableEntry>(entry: &E, values: &[i64]) -> bool
    requires { AreBelow (length values.now) (E.footprint entry.now) }
    ensures { (m : Meanings) → IsMeant m (E.name entry.now) (E.footprint entry.now) (E.answers entry.now)
        → result ≡ holds m values.now (E.name entry.now) }
{
    let footprint = entry.footprint();
    let count = footprint.len();
    let mut handed = [0i64; MAX_FOOTPRINT];
    gather(footprint, values, &mut handed);
    entry.answer(&handed[..count])
}
