// Copies of transactions.
ghost use Rattle.std.specs.Prelude.{◌≡◌, ◌∷◌, [], codes, map, slice_index_or, IfOk};
ghost use Rattle.serde_json.specs.Data.{string};
ghost use Rattle.tmem_builtins.specs.Steps.{step_names};
ghost use Rattle.tmem_forms.specs.TxForms.{array_of, natural, tagged, tx_form};

use std::alloc::{AllocError, Global};
use tmem_tree::Tx;

/// The same transaction once more. Its only fault is want of memory.
pub(crate) fn copy_of(alloc: Global, tx: &Tx) -> Result<Tx, AllocError>
    ensures { IfOk result (λ copy. tx_form copy ≡ tx_form tx.now) }
{
    match tx {
        Tx::Seq(txs) => {
            let mut all = Vec::with_capacity(alloc, txs.len())?;
            for t in txs {
                all.push(copy_of(alloc, t)?)?;
            }
            Ok(Tx::Seq(all))
        }
        Tx::When { reg, then, other } => {
            let then = copy_of(alloc, then)?;
            let other = copy_of(alloc, other)?;
            when(alloc, *reg, then, other)
        }
        Tx::OrElse(left, right) => {
            let left = copy_of(alloc, left)?;
            let right = copy_of(alloc, right)?;
            or_else(alloc, left, right)
        }
        Tx::Step { index, args, out } => step(alloc, *index, args, *out),
        Tx::Skip => Ok(Tx::Skip),
        Tx::Put { reg, number } => Ok(Tx::Put {
            reg: *reg,
            number: *number,
        }),
        Tx::Read { var, reg } => Ok(Tx::Read {
            var: *var,
            reg: *reg,
        }),
        Tx::Write { var, reg } => Ok(Tx::Write {
            var: *var,
            reg: *reg,
        }),
        Tx::Retry => Ok(Tx::Retry),
        Tx::Abort { code } => Ok(Tx::Abort { code: *code }),
        Tx::Check { name } => Ok(Tx::Check { name: *name }),
        Tx::Retire { name } => Ok(Tx::Retire { name: *name }),
    }
}

// The first of these where the register is not 0, else the second.
fn when(alloc: Global, reg: u8, first: Tx, second: Tx) -> Result<Tx, AllocError>
    ensures { IfOk result (λ tx. tx_form tx ≡ tagged (codes "when") (array_of (natural reg ∷ tx_form first ∷ tx_form second ∷ []))) }
{
    let then = Box::new(alloc, first)?;
    let other = Box::new(alloc, second)?;
    Ok(Tx::When { reg, then, other })
}

// The first of these, or where that retries, the second.
fn or_else(alloc: Global, first: Tx, second: Tx) -> Result<Tx, AllocError>
    ensures { IfOk result (λ tx. tx_form tx ≡ tagged (codes "orelse") (array_of (tx_form first ∷ tx_form second ∷ []))) }
{
    let left = Box::new(alloc, first)?;
    let right = Box::new(alloc, second)?;
    Ok(Tx::OrElse(left, right))
}

// A call of the stored step of this index on these registers.
fn step(alloc: Global, index: u16, args: &[u8], out: u8) -> Result<Tx, AllocError>
    ensures { IfOk result (λ tx. tx_form tx ≡ tagged (codes "step")
        (array_of (string (slice_index_or step_names index []) ∷ array_of (map natural args.now) ∷ natural out ∷ []))) }
{
    let args = Vec::from_slice(alloc, args)?;
    Ok(Tx::Step { index, args, out })
}
