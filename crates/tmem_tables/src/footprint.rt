// The variables of an invariant.

ghost use Rattle.std.specs.Prelude.{◌≡◌, ◌↔◌, ℕ, ◌+◌, ◌<◌, ◌≤◌, length, take, IsTrue, IfSome, MatchOption};
ghost use Rattle.tmem_invariants.specs.Meanings.{values_at};
ghost use Rattle.tmem_invariants.specs.TableNames.{AreBelow, AreDistinct};

/// The index of the first variable that an earlier one equals, if there is one.
pub fn first_repeated(variables: &[u16]) -> Option<usize>
    ensures distinct { MatchOption result (AreDistinct variables.now) (λ index. ¬ AreDistinct variables.now) }
    ensures first { IfSome result (λ index. (index < length variables.now) × AreDistinct (take index variables.now) × (¬ AreDistinct (take (index + 1) variables.now))) }
{
    for (i, var) in variables.iter().enumerate() {
        if variables[..i].contains(var) {
            return Some(i);
        }
    }
    None
}

// Whether no variable stands twice.
pub(crate) fn is_distinct(variables: &[u16]) -> bool
    ensures { IsTrue result ↔ AreDistinct variables.now }
{
    first_repeated(variables).is_none()
}

// Puts the values of a footprint at the front of a buffer.
pub(crate) fn gather(footprint: &[u16], values: &[i64], into: &mut [i64])
    requires room { length footprint.now ≤ length into.old }
    requires within { AreBelow (length values.now) footprint.now }
    ensures { take (length footprint.now) into.new ≡ values_at values.now footprint.now }
{
    for (i, var) in footprint.iter().enumerate() {
        into[i] = values[*var as usize];
    }
}
