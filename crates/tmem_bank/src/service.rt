// What the bank does with its store.
ghost use Rattle.std.specs.Prelude.{◌≡◌};
ghost use Rattle.tmem_front.specs.Held.{front_found, spine_of, front_steps, front_table};
ghost use Rattle.tmem_tree.specs.Plans.{FitsSteps, FitsVariables, FitsNames, FitsSignatures};
ghost use Rattle.tmem_bank.specs.Accounts.{bank};

use crate::device::SLOTS;
use crate::transfers::{Transfer, deposits};
use std::alloc::Global;
use std::marker::Brand;
use std::rt::Clock;
use std::sync::Wait;
use std::thread::{self, Threads, map_indices};
use tmem_core::Settled;
use tmem_disk::Disk;
use tmem_fault::Fault;
use tmem_front::{Front, Gathering, OpenedFront, Pass, StoreNaming};
use tmem_invariants::Invariants;
use tmem_tree::{Plan, StoredSteps};

/// How many accounts there are.
pub const ACCOUNTS: u16 = 4;

// How many threads move money, and how often each does. There are more of them than passes, so each borrows one for a transfer.
const THREADS: usize = 40;

const TRANSFERS: u64 = 25;

/// Opens the store, and serves there.
pub fn open<
    R: Clock + Print + Threads + Wait + Sync,
    D: Disk + Drop + Send,
    T: Invariants + Drop + Send,
    S: StoredSteps + Drop + Send + Sync,
>(rt: &R, alloc: Global, disk: D, table: T, steps: S) -> Result<(), Fault>
    requires vars { T.vars table ≡ 4 }
    requires names { T.names table ≡ bank.names }
    requires tests { T.is_stated table bank.tests }
    requires steps { S.is_stated steps bank.steps }
{
    match OpenedFront::open(alloc, disk, ACCOUNTS, SLOTS, table, steps) {
        Ok(opened) => with_front::<Brand, D, T, S, R>(rt, alloc, opened),
        Err((fault, _disk)) => Err(fault),
    }
}

// Gives the store its name in the types, and serves there.
fn with_front<
    N: StoreNaming + Send + Sync,
    D: Disk + Drop + Send,
    T: Invariants + Drop + Send,
    S: StoredSteps + Drop + Send + Sync,
    R: Clock + Print + Threads + Wait + Sync,
>(rt: &R, alloc: Global, opened: OpenedFront<D, T, S>) -> Result<(), Fault>
    requires spine { spine_of opened ≡ N.name }
    requires opening { front_found opened ≡ N.opening }
    requires program { N.program ≡ bank }
    requires names { T.names (front_table opened) ≡ bank.names }
    requires stated { T.is_stated (front_table opened) bank.tests }
    requires steps { S.is_stated (front_steps opened) bank.steps }
{
    let front = opened.named::<N>();
    run_bank(rt, alloc, &front)
}

// Lets one pass move money, and then many threads.
fn run_bank<
    N: StoreNaming + Send + Sync,
    D: Disk + Drop + Send,
    T: Invariants + Drop + Send,
    S: StoredSteps + Drop + Send + Sync,
    R: Clock + Print + Threads + Wait + Sync,
>(rt: &R, alloc: Global, front: &Front<D, N, T, S>) -> Result<(), Fault> {
    let mut clerk = front.pass(rt)?;
    open_accounts(rt, alloc, front, &mut clerk)?;
    move_alone(rt, alloc, front, &mut clerk)?;
    serve(rt, alloc, front)?;
    say_number(rt, "durable", front.look(&mut clerk));
    Ok(())
}

// Puts money into new accounts.
fn open_accounts<
    N: StoreNaming,
    D: Disk + Drop,
    T: Invariants + Drop,
    S: StoredSteps + Drop,
    R: Print + Wait,
>(rt: &R, alloc: Global, front: &Front<D, N, T, S>, pass: &mut Pass<N>) -> Result<(), Fault> {
    let found = front.look(pass);
    say_number(rt, "found", found);
    if found == 0 {
        let opening = front.plan(deposits(alloc)?)?;
        settle_and_say(rt, front, pass, &opening)?;
    }
    say_balances(rt, &front.audit(rt)?);
    Ok(())
}

// Moves money by one pass: again and again, once more after a conflict, and more than there is.
fn move_alone<
    N: StoreNaming,
    D: Disk + Drop,
    T: Invariants + Drop,
    S: StoredSteps + Drop,
    R: Print + Wait,
>(rt: &R, alloc: Global, front: &Front<D, N, T, S>, pass: &mut Pass<N>) -> Result<(), Fault> {
    let transfer = front.plan(Transfer::new(0, 1, 1).tx(alloc)?)?;
    let overdraft = front.plan(Transfer::new(0, 1, 50_000).tx(alloc)?)?;
    settle_again(rt, front, pass, &transfer)?;
    settle_and_say(rt, front, pass, &overdraft)
}

// Settles a plan several times, and an attempt of it too late.
fn settle_again<
    N: StoreNaming,
    D: Disk + Drop,
    T: Invariants + Drop,
    S: StoredSteps + Drop,
    R: Print + Wait,
>(rt: &R, front: &Front<D, N, T, S>, pass: &mut Pass<N>, plan: &Plan) -> Result<(), Fault>
    requires steps { FitsSteps (S.arities front.now.steps) plan.now.tree }
    requires variables { FitsVariables front.now.vars plan.now }
    requires names { FitsNames N.program.names plan.now.tree }
    requires signatures { FitsSignatures N.program.tests plan.now }
{
    settle_and_say(rt, front, pass, plan)?;
    settle_and_say(rt, front, pass, plan)?;
    let late = front.attempt(rt, plan)?;
    let _ = rt.println("attempted");
    settle_and_say(rt, front, pass, plan)?;
    if let Err(fault) = front.settle(rt, pass, &late) {
        let _ = rt.println(fault);
    }
    settle_and_say(rt, front, pass, plan)
}

// Lets many threads move money, and frees the log.
fn serve<
    N: StoreNaming + Send + Sync,
    D: Disk + Drop + Send,
    T: Invariants + Drop + Send,
    S: StoredSteps + Drop + Send + Sync,
    R: Clock + Print + Threads + Wait + Sync,
>(rt: &R, alloc: Global, front: &Front<D, N, T, S>) -> Result<(), Fault> {
    let (moved, last) = move_and_flush(rt, alloc, front)?;
    front.checkpoint(rt)?;
    let _ = println!(rt; "moved {moved} times by {THREADS} threads");
    say_balances(rt, &last);
    Ok(())
}

// Settles a plan, and prints how that ended.
fn settle_and_say<
    N: StoreNaming,
    D: Disk + Drop,
    T: Invariants + Drop,
    S: StoredSteps + Drop,
    R: Print + Wait,
>(rt: &R, front: &Front<D, N, T, S>, pass: &mut Pass<N>, plan: &Plan) -> Result<(), Fault>
    requires steps { FitsSteps (S.arities front.now.steps) plan.now.tree }
    requires variables { FitsVariables front.now.vars plan.now }
    requires names { FitsNames N.program.names plan.now.tree }
    requires signatures { FitsSignatures N.program.tests plan.now }
{
    say(rt, &front.atomically(rt, pass, plan)?);
    Ok(())
}

// Prints how a transaction ended.
fn say<R: Print>(rt: &R, settled: &Settled) {
    match settled {
        Settled::Committed { number, .. } => say_number(rt, "committed", *number),
        Settled::Seen { at, .. } => say_number(rt, "seen", *at),
        Settled::Aborted(code) => say_number(rt, "aborted", u64::from(*code)),
        Settled::Retry => {
            let _ = rt.println("retry");
        }
        Settled::Refused(name) => {
            let _ = println!(rt; "refused {name}");
        }
    }
}

// Prints a word, and a number behind it.
fn say_number<R: Print>(rt: &R, word: &str, number: u64) {
    let _ = println!(rt; "{word} {number}");
}

// Prints what is in the accounts.
fn say_balances<R: Print>(rt: &R, accounts: &[i64]) {
    if let [a, b, c, d] = accounts {
        let together = a.saturating_add(*b).saturating_add(*c).saturating_add(*d);
        let _ = println!(rt; "balances {a} {b} {c} {d}, together {together}");
    }
}

// What threads do with the store that they share. The functions that start threads know no more of it.
trait Moving {
    // Makes a transfer many times, and waits each time until it is durable. Answers how many of them are durable.
    fn send<R: Wait>(&self, rt: &R, alloc: Global, transfer: Transfer) -> Result<u64, Fault>;

    // Makes durable what is committed, until the store is shut.
    fn flush<R: Clock + Wait>(&self, rt: &R) -> Result<(), Fault>;

    // Reads all accounts, as they stand at one moment.
    fn audit<R: Wait>(&self, rt: &R) -> Result<Vec<i64>, Fault>;

    // Closes the store in good order.
    fn end<R: Wait>(&self, rt: &R) -> Result<(), Fault>;
}

impl<D: Disk + Drop, N: StoreNaming, T: Invariants + Drop, S: StoredSteps + Drop> Moving
    for Front<D, N, T, S> {
    fn send<R: Wait>(&self, rt: &R, alloc: Global, transfer: Transfer) -> Result<u64, Fault> {
        let mut plan = self.plan(transfer.tx(alloc)?)?;
        let mut sent = 0u64;
        for turn in 0..TRANSFERS {
            transfer.pays_more(&mut plan, turn % 2 == 1);
            let mut pass = self.acquire_pass(rt)?;
            let settled = self.commit_durable(rt, &mut pass, &plan);
            self.release_pass(rt, pass)?;
            if let Settled::Committed { .. } = settled? {
                sent = sent.saturating_add(1);
            }
        }
        Ok(sent)
    }

    fn flush<R: Clock + Wait>(&self, rt: &R) -> Result<(), Fault> {
        let flushed = self.run_flusher(rt, &mut Gathering::new(rt, true));
        self.shut(rt);
        flushed
    }

    fn audit<R: Wait>(&self, rt: &R) -> Result<Vec<i64>, Fault> {
        let mut pass = self.acquire_pass(rt)?;
        let accounts = self.values(rt, &mut pass, &[0, 1, 2, 3]);
        self.release_pass(rt, pass)?;
        accounts
    }

    fn end<R: Wait>(&self, rt: &R) -> Result<(), Fault> {
        self.close(rt)
    }
}

// The threads move money beside a flusher in a thread of its own, which ends once they have ended and all is durable. Answers how many
// transfers are durable, and what the accounts have then.
fn move_and_flush<F: Moving + Sync, R: Clock + Threads + Wait + Sync>(
    rt: &R,
    alloc: Global,
    store: &F,
) -> Result<(u64, Vec<i64>), Fault> {
    thread::scope(thread::scope_env(), rt, |scope| {
        let Ok(flusher) = scope.spawn(move || store.flush(rt)) else {
            return Err(Fault::Memory);
        };
        let moved = move_all(rt, alloc, store);
        let last = store.audit(rt);
        let closed = store.end(rt);
        let flushed = flusher.join(rt);
        closed?;
        flushed?;
        Ok((moved?, last?))
    })
}

// Each of the threads pays from one account to the next one.
fn move_all<F: Moving + Sync, R: Threads + Wait + Sync>(
    rt: &R,
    alloc: Global,
    store: &F,
) -> Result<u64, Fault> {
    let all = map_indices(
        rt,
        alloc,
        THREADS,
        &|index| store.send(rt, alloc, Transfer::of(index)),
    )?;
    let mut moved = 0u64;
    for sent in all {
        moved = moved.saturating_add(sent?);
    }
    Ok(moved)
}
