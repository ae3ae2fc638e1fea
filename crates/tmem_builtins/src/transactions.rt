//! Transactions that read as what they do.
//!
//! `read(var).is(..)` and `read(var).is_at_least(..)` wait for a variable, and `put`, `add_to` and `take` change one. `all_of`
//! does one after another, and `first_of` chooses. So this moves 50 from variable 0 to variable 1, once variable 0 has them:
//!
//!     all_of(vec![in alloc; take(alloc, 0, 50)?, add_to(alloc, 1, 50)?]?)
//!
//! They call the steps of `steps_of`, and a plan of them is for a store with that table. They use the registers 14 and 15, for
//! the variable's value and for the number, and leave 0 to 13 alone: only `into_register` sets the register that it is given.
//!
//! Each that waits for a variable or changes one has exactly one number, that is, one `Tx::Put` node. `into_register` has none,
//! and the others have the numbers of their parts, in order. So the number of the k-th one that has one is in the k-th
//! `Tx::Put` of the whole tree.
ghost use Rattle.std.specs.Prelude.{◌≡◌, ◌+◌, ◌++◌, ◌+ℤ◌, ◌-ℤ◌, if◌then◌else◌, int_lt, sum_by, IfOk};
ghost use Rattle.std.specs.Ordering.{int_eq};
ghost use Rattle.tmem_tree.specs.declared.tx.Tx.TheVariants.{Put, Read, Seq, Write};
ghost use Rattle.tmem_tree.specs.Limits.{count};
ghost use Rattle.tmem_tree.specs.Run.{View, Normal, Retried, or_else, put as with_register, run, write};
ghost use Rattle.tmem_tree.specs.StepAnswers.{StepMeanings};
ghost use Rattle.tmem_tree.specs.Visited.{asks, else_ask};
ghost use Rattle.tmem_invariants.specs.Meanings.{Meanings};
ghost use Rattle.tmem_builtins.specs.Transactions.{IsStepCall, IsSized, ReadsNone, ReadsOnly, RunsAs, changed, first_asks, is_put, run_first, run_in_turn, scratched};

use std::alloc::{AllocError, Global};
use tmem_tree::Tx;

// Where the steps stand in the table of `steps_of`.
const ADD: u16 = 0;

const SUB: u16 = 1;

const NEED: u16 = 2;

// The registers of the variable's value and of the number.
const VALUE: u8 = 14;

const NUMBER: u8 = 15;

/// A variable that is to be read.
#[derive(Clone, Copy, Debug, PartialEq, Eq)]
pub struct Reading {
    /// The variable.
    pub var: u16,
}

/// Reads a variable, to wait for a value or to have it in a register.
pub fn read(var: u16) -> Reading
    ensures { result.var ≡ var }
{
    Reading { var }
}

impl Reading {
    /// Goes on where the variable has this value, and retries otherwise.
    pub fn is(self, alloc: Global, value: i64) -> Result<Tx, AllocError>
        ensures runs { IfOk result (λ tx. RunsAs tx (λ view.
            (if int_eq (view.values self.var) value then Normal (scratched view value value) else Retried))) }
        ensures reads { IfOk result (ReadsOnly self.var) }
        ensures number { IfOk result (λ tx. count is_put tx ≡ 1) }
        ensures limits { IfOk result (IsSized 5 0 self.var) }
    {
        let not_less = call(alloc, NEED, VALUE, NUMBER)?;
        let not_more = call(alloc, NEED, NUMBER, VALUE)?;
        Ok(Tx::Seq(vec![in alloc; load(self.var), number(value), not_less, not_more]?))
    }

    /// Goes on where the variable has at least this value, and retries otherwise.
    pub fn is_at_least(self, alloc: Global, value: i64) -> Result<Tx, AllocError>
        ensures runs { IfOk result (λ tx. RunsAs tx (λ view.
            (if int_lt (view.values self.var) value then Retried else Normal (scratched view (view.values self.var) value)))) }
        ensures reads { IfOk result (ReadsOnly self.var) }
        ensures number { IfOk result (λ tx. count is_put tx ≡ 1) }
        ensures limits { IfOk result (IsSized 4 0 self.var) }
    {
        let reached = call(alloc, NEED, VALUE, NUMBER)?;
        Ok(Tx::Seq(vec![in alloc; load(self.var), number(value), reached]?))
    }

    /// The register takes the variable's value.
    pub fn into_register(self, reg: u8) -> Tx
        ensures { result ≡ Read self.var reg }
    {
        Tx::Read { var: self.var, reg }
    }
}

/// The variable takes the value.
pub fn put(alloc: Global, var: u16, value: i64) -> Result<Tx, AllocError>
    ensures runs { IfOk result (λ tx. RunsAs tx (λ view. Normal (write (with_register view 15 value) var value))) }
    ensures reads { IfOk result ReadsNone }
    ensures number { IfOk result (λ tx. count is_put tx ≡ 1) }
    ensures limits { IfOk result (IsSized 3 1 var) }
{
    Ok(Tx::Seq(vec![in alloc; number(value), store(var, NUMBER)]?))
}

/// The variable gets so much more. Aborts with 65535 where that is no i64.
pub fn add_to(alloc: Global, var: u16, amount: i64) -> Result<Tx, AllocError>
    ensures runs { IfOk result (λ tx. RunsAs tx (λ view. changed view var (view.values var +ℤ amount) amount)) }
    ensures reads { IfOk result (ReadsOnly var) }
    ensures number { IfOk result (λ tx. count is_put tx ≡ 1) }
    ensures limits { IfOk result (IsSized 5 1 var) }
{
    let sum = call(alloc, ADD, VALUE, NUMBER)?;
    Ok(Tx::Seq(vec![in alloc; load(var), number(amount), sum, store(var, VALUE)]?))
}

/// Waits until the variable has at least so much, and takes so much away: retries where it has less, and aborts with 65535
/// where the difference is no i64.
pub fn take(alloc: Global, var: u16, amount: i64) -> Result<Tx, AllocError>
    ensures runs { IfOk result (λ tx. RunsAs tx (λ view.
        (if int_lt (view.values var) amount then Retried else changed view var (view.values var -ℤ amount) amount))) }
    ensures reads { IfOk result (ReadsOnly var) }
    ensures number { IfOk result (λ tx. count is_put tx ≡ 1) }
    ensures limits { IfOk result (IsSized 6 1 var) }
{
    let enough = call(alloc, NEED, VALUE, NUMBER)?;
    let rest = call(alloc, SUB, VALUE, NUMBER)?;
    Ok(Tx::Seq(vec![in alloc; load(var), number(amount), enough, rest, store(var, VALUE)]?))
}

/// One after another, up to the first that does not end normally: their `Tx::Seq`. Their steps may be of any table.
pub fn all_of(parts: Vec<Tx>) -> Tx
    ensures is { result ≡ Seq parts }
    ensures runs { (steps : StepMeanings) (tests : Meanings) (view : View)
        → run steps tests result view ≡ run_in_turn steps tests parts.items view }
    ensures numbers { count is_put result ≡ sum_by (count is_put) parts.items }
{
    Tx::Seq(parts)
}

/// The first, or where that retries, the second in its place. Their steps may be of any table.
pub fn first_of(alloc: Global, first: Tx, second: Tx) -> Result<Tx, AllocError>
    ensures runs { IfOk result (λ tx. (steps : StepMeanings) (tests : Meanings) (view : View)
        → run steps tests tx view ≡ or_else (run steps tests first view) (run steps tests second view)) }
    ensures reads { IfOk result (λ tx. (steps : StepMeanings) (tests : Meanings) (view : View)
        → asks steps tests tx view ≡ asks steps tests first view ++ else_ask (run steps tests first view) (asks steps tests second view)) }
    ensures numbers { IfOk result (λ tx. count is_put tx ≡ count is_put first + count is_put second) }
{
    let first = Box::new(alloc, first)?;
    let second = Box::new(alloc, second)?;
    Ok(Tx::OrElse(first, second))
}

/// The first of these that does not retry: each is taken where all before it retry. With none of them it retries.
pub fn first_of_several(alloc: Global, mut alternatives: Vec<Tx>) -> Result<Tx, AllocError>
    ensures runs { IfOk result (λ tx. (steps : StepMeanings) (tests : Meanings) (view : View)
        → run steps tests tx view ≡ run_first steps tests alternatives.items view) }
    ensures reads { IfOk result (λ tx. (steps : StepMeanings) (tests : Meanings) (view : View)
        → asks steps tests tx view ≡ first_asks steps tests alternatives.items view) }
    ensures numbers { IfOk result (λ tx. count is_put tx ≡ sum_by (count is_put) alternatives.items) }
{
    let Some(mut chosen) = alternatives.pop() else {
        return Ok(Tx::Retry);
    };
    while let Some(tx) = alternatives.pop() {
        chosen = first_of(alloc, tx, chosen)?;
    }
    Ok(chosen)
}

// The variable's value, in its register.
fn load(var: u16) -> Tx
    ensures { result ≡ Read var 14 }
{
    Tx::Read { var, reg: VALUE }
}

// The number, in its register.
fn number(number: i64) -> Tx
    ensures { result ≡ Put 15 number }
{
    Tx::Put {
        reg: NUMBER,
        number,
    }
}

// The variable takes the register's value.
fn store(var: u16, reg: u8) -> Tx
    ensures { result ≡ Write var reg }
{
    Tx::Write { var, reg }
}

// Calls a step on two registers. The answer goes to the first of them.
fn call(alloc: Global, index: u16, first: u8, second: u8) -> Result<Tx, AllocError>
    ensures { IfOk result (IsStepCall index first second) }
{
    let args = vec![in alloc; first, second]?;
    Ok(Tx::Step {
        index,
        args,
        out: first,
    })
}
