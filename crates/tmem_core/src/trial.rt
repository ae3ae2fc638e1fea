// What an effect would break, found on the present values themselves.
ghost use Rattle.std.specs.Prelude.{◌≡◌, ◌≤◌, ◌<◌, pos, List, ℤ, length, take, map, slice_index_or, All, IfSome};
ghost use Rattle.tmem_effect.specs.Names.{without_names};
ghost use Rattle.tmem_effect.specs.State.{written};
ghost use Rattle.tmem_invariants.specs.Meanings.{Meanings, AllHold, first_false, value_of};
ghost use Rattle.tmem_invariants.specs.Indices.{AreIndicesOf};
ghost use Rattle.tmem_invariants.specs.TableNames.{name_at};

use tmem_effect::{Effect, MAX_WRITES};
use tmem_invariants::Invariants;
use tmem_state::State;

/// The index, in the table's order, of the first name that is false of the map that an effect would make, of the registered
/// names that it does not retire and of those that it proposes: both are given as the sets of their indices. Where it proposes
/// none, and none of the others is over a variable that it writes, nothing is tested. Otherwise the effect is written into the
/// state, and the old values, which stand in a buffer meanwhile, are put back after the test.
pub(crate) fn first_false<T: Invariants>(
    table: &T,
    kept: u64,
    proposed: u64,
    state: &mut State,
    olds: &mut [(u16, i64); MAX_WRITES],
    effect: &Effect,
) -> Option<usize>
    requires vars { T.vars table.now ≡ length state.old.values }
    requires variables { All (λ w. w.0 < length state.old.values) effect.now.writes }
    requires kept { AreIndicesOf (without_names state.old.names effect.now.retired) (T.names table.now) kept }
    requires proposed { AreIndicesOf effect.now.names (T.names table.now) proposed }
    ensures within { IfSome result (λ index. index < length (T.names table.now)) }
    ensures first { (m : Meanings) → T.is_stated table.now m → AllHold m state.old.names state.old.values
        → name_at (T.names table.now) result ≡ first_false m (T.names table.now) (without_names state.old.names effect.now.retired) effect.now.names (written state.old.values effect.now.writes) }
    ensures state { state.new ≡ state.old }
{
    let writes = effect.writes.as_slice();
    if proposed == 0 && !table.is_touched(kept, writes) {
        return None;
    }
    save(state.values(), writes, olds);
    state.overwrite(writes);
    let index = table.test_touched(state.values(), kept, proposed, writes);
    state.overwrite(&olds[..writes.len()]);
    index
}

// Puts each variable that is to be written at the front of a buffer, with its present value.
fn save(values: &[i64], writes: &[(u16, i64)], into: &mut [(u16, i64)])
    requires room { length writes.now ≤ length into.old }
    requires variables { All (λ w. w.0 < length values.now) writes.now }
    ensures { take (length writes.now) into.new ≡ map (λ w. (w.0, value_of values.now w.0)) writes.now }
{
    for (i, write) in writes.iter().enumerate() {
        into[i] = (write.0, values[write.0 as usize]);
    }
}
