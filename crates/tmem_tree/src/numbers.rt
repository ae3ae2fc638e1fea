// The numbers of a tree.

ghost use Rattle.std.specs.Prelude.{◌≡◌, ◌+◌, ◌<◌, IfSome, IsNone};
ghost use Rattle.tmem_tree.specs.Limits.{count, is_put};
ghost use Rattle.tmem_tree.specs.Numbers.{with_number};

use crate::tx::Tx;

/// Changes the number of the `Put` at this index in a tree. Answers none then; or where the tree has too few of them, the
/// index less as many as it has.
pub(crate) fn change_number(tx: &mut Tx, index: usize, number: i64) -> Option<usize>
    ensures tree { tx.new ≡ with_number index number tx.old }
    ensures left { IfSome result (λ left. left + count is_put tx.old ≡ index) }
    ensures found { IsNone result → index < count is_put tx.old }
{
    match tx {
        Tx::Put { number: there, .. } => {
            if index > 0 {
                return Some(index - 1);
            }
            *there = number;
            None
        }
        Tx::Seq(txs) => {
            let mut left = index;
            for t in txs.iter_mut() {
                left = change_number(t, left, number)?;
            }
            Some(left)
        }
        Tx::When { then, other, .. } => {
            let left = change_number(then, index, number)?;
            change_number(other, left, number)
        }
        Tx::OrElse(first, second) => {
            let left = change_number(first, index, number)?;
            change_number(second, left, number)
        }
        _ => Some(index),
    }
}
