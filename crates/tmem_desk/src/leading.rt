// The `Put`s that a transaction begins with.
ghost use Rattle.std.specs.Prelude.{◌≡◌, ◌-◌, ◌≤◌, ◌↔◌, IsTrue};
ghost use Rattle.tmem_desk.specs.Leading.{first_puts, is_puts};

use tmem_tree::Tx;

/// Whether a transaction begins with at least so many `Put`s.
pub(crate) fn begins_with_puts(tx: &Tx, many: usize) -> bool
    ensures { IsTrue result ↔ (many ≤ first_puts tx.now) }
{
    puts_left(tx, many).0 == 0
}

// How many of so many `Put`s are left behind those that a transaction begins with, and whether it has nothing else.
fn puts_left(tx: &Tx, many: usize) -> (usize, bool)
    ensures left { result.0 ≡ many - first_puts tx.now }
    ensures puts { result.1 ≡ is_puts tx.now }
{
    match tx {
        Tx::Put { .. } => (many.saturating_sub(1), true),
        Tx::Seq(txs) => {
            let mut left = many;
            for t in txs {
                let (rest, is_puts) = puts_left(t, left);
                left = rest;
                if !is_puts {
                    return (left, false);
                }
            }
            (left, true)
        }
        _ => (many, false),
    }
}
