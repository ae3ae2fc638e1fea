// What the callers of a store do.
ghost use Rattle.tmem_bench.specs.Accounts.{callers_in, stride_of, variables_of};
ghost use Rattle.std.specs.Prelude.{◌≡◌, IfOk};
ghost use Rattle.tmem_bench.specs.Transactions.{Deposits, Does, MovesOne, ReadsAccounts};

use std::alloc::{AllocError, Global};
use std::time::Duration;
use tmem_builtins::{add_to, all_of, put, read};
use tmem_fault::{Fault, Name};
use tmem_tree::Tx;

/// How many variables the store of a job has: a counter, two accounts, and others that nothing changes.
pub const VARS: u16 = 16;

/// How many variables the store has that is opened again and again.
pub const MANY: u16 = 1024;

/// How many batches a log takes.
pub const SLOTS: u16 = 64;

const COUNTER: u16 = 0;

/// The account that pays, and the one that is paid. Neither may go below 0.
const PAYER: u16 = 1;

const PAYEE: u16 = 2;

// What that invariant is over: the accounts alone, or every variable of the store.
const ACCOUNTS: [u16; 2] = [PAYER, PAYEE];

const EACH: [u16; 16] = [0, 1, 2, 3, 4, 5, 6, 7, 8, 9, 10, 11, 12, 13, 14, 15];

/// The name of that invariant.
pub const SOLVENT: &str = "solvent";

/// What is in an account at the start.
pub const DEPOSIT: i64 = 1_000_000_000_000;

/// What a caller does again and again.
#[derive(Clone, Copy, PartialEq, Eq)]
pub enum Act {
    /// Adds 1 to the counter, and waits until that is durable.
    Add,
    /// Adds 1 to the counter, and waits at each 64th time.
    AddMany,
    /// Moves 1 between the accounts, and waits until that is durable.
    Transfer,
    /// Moves 1 between the accounts, and waits at each 64th time.
    TransferMany,
    /// The same under an invariant over all variables.
    WideMany,
    /// Reads the accounts.
    TwoReads,
}

impl Act {
    /// What a line of the table calls it.
    pub fn name(self) -> &'static str {
        match self {
            Act::Add => "add, each awaited",
            Act::AddMany => "add, each 64th awaited",
            Act::Transfer => "transfer, each awaited",
            Act::TransferMany => "transfer, each 64th",
            Act::WideMany => "wide transfer, each 64th",
            Act::TwoReads => "two reads",
        }
    }

    /// What a line of the core calls it, where nothing is awaited.
    pub fn name_on_core(self) -> &'static str {
        match self {
            Act::Add | Act::AddMany => "add",
            Act::Transfer | Act::TransferMany => "transfer",
            Act::WideMany => "wide transfer",
            Act::TwoReads => "two reads",
        }
    }

    /// After so many a caller waits until the last of them is durable, and looks at the clock.
    pub fn stride(self) -> u64
        ensures { result ≡ stride_of self }
    {
        match self {
            Act::Add | Act::Transfer => 1,
            Act::AddMany | Act::TransferMany | Act::WideMany | Act::TwoReads => 64,
        }
    }

    /// What the invariant is over.
    pub fn footprint(self) -> &'static [u16]
        ensures { result.now ≡ variables_of self }
    {
        match self {
            Act::WideMany => &EACH,
            Act::Add | Act::AddMany | Act::Transfer | Act::TransferMany | Act::TwoReads =>
                &ACCOUNTS,
        }
    }

    /// Its transaction.
    pub fn transaction(self, alloc: Global) -> Result<Tx, AllocError>
        ensures { IfOk result (Does self) }
    {
        match self {
            Act::Add | Act::AddMany => add_to(alloc, COUNTER, 1),
            Act::Transfer | Act::TransferMany | Act::WideMany => transfer(alloc),
            Act::TwoReads => two_reads(alloc),
        }
    }
}

/// Who does it.
#[derive(Clone, Copy)]
pub enum Callers {
    /// One that flushes itself, with no flusher beside it.
    Alone,
    /// So many threads, beside a flusher.
    Beside(usize),
}

impl Callers {
    /// How many there are.
    pub fn count(self) -> usize
        ensures { result ≡ callers_in self }
    {
        match self {
            Callers::Alone => 1,
            Callers::Beside(callers) => callers,
        }
    }

    /// How many flushers are beside them, as a word.
    pub fn flusher(self) -> &'static str {
        match self {
            Callers::Alone => "none",
            Callers::Beside(_) => "one",
        }
    }
}

/// What so many callers do, and for how long.
#[derive(Clone, Copy)]
pub struct Job {
    pub act: Act,
    pub callers: Callers,
    pub time: Duration,
}

const ACTS: [Act; 4] = [Act::Add, Act::AddMany, Act::Transfer, Act::TwoReads];

const CALLERS: [Callers; 5] = [
    Callers::Alone,
    Callers::Beside(1),
    Callers::Beside(2),
    Callers::Beside(4),
    Callers::Beside(16),
];

/// How many jobs there are.
pub const JOBS: usize = 20;

// Those in memory alone, to be compared with what awaits nothing.
const LOOSE_ACTS: [Act; 2] = [Act::TransferMany, Act::WideMany];

const LOOSE_CALLERS: [Callers; 2] = [Callers::Alone, Callers::Beside(4)];

/// How many of those there are.
pub const LOOSE_JOBS: usize = 4;

impl Job {
    /// The jobs, in the order of the table.
    pub fn at(index: usize, time: Duration) -> Job
        ensures { result.time ≡ time }
    {
        Job {
            act: ACTS[index / 5 % 4],
            callers: CALLERS[index % 5],
            time,
        }
    }

    /// The jobs in memory alone.
    pub fn loose_at(index: usize, time: Duration) -> Job
        ensures { result.time ≡ time }
    {
        Job {
            act: LOOSE_ACTS[index / 2 % 2],
            callers: LOOSE_CALLERS[index % 2],
            time,
        }
    }
}

/// Puts something into both accounts, and registers the invariant.
pub fn deposits(alloc: Global) -> Result<Tx, Fault>
    ensures { IfOk result Deposits }
{
    let name = Name::new(SOLVENT)?;
    let (payer, payee) = (put(alloc, PAYER, DEPOSIT)?, put(alloc, PAYEE, DEPOSIT)?);
    Ok(all_of(vec![in alloc; payer, payee, Tx::Check { name }]?))
}

// Moves 1 between the accounts.
fn transfer(alloc: Global) -> Result<Tx, AllocError>
    ensures { IfOk result MovesOne }
{
    let (paid, received) = (add_to(alloc, PAYER, -1)?, add_to(alloc, PAYEE, 1)?);
    Ok(all_of(vec![in alloc; paid, received]?))
}

fn two_reads(alloc: Global) -> Result<Tx, AllocError>
    ensures { IfOk result ReadsAccounts }
{
    let (payer, payee) = (read(PAYER), read(PAYEE));
    Ok(all_of(vec![in alloc; payer.into_register(0), payee.into_register(1)]?))
}
