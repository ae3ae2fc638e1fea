// How many choices of a tree are open at once.

ghost use Rattle.std.specs.Prelude.{◌≡◌, ◌<◌, ◌≤◌};
ghost use Rattle.tmem_tree.specs.Limits.{depth, choices};

use crate::tx::Tx;

/// How many choices of a tree may stand in their first branch at once.
pub(crate) fn count_choices(tx: &Tx) -> usize
    requires { depth tx.now ≤ 32 }
    ensures choices { result ≡ choices tx.now }
    ensures few { result < depth tx.now }
{
    match tx {
        Tx::Seq(txs) => {
            let mut most = 0;
            for t in txs {
                most = count_choices(t).max(most);
            }
            most
        }
        Tx::When { then, other, .. } => count_choices(then).max(count_choices(other)),
        Tx::OrElse(first, second) => (count_choices(first) + 1).max(count_choices(second)),
        _ => 0,
    }
}
