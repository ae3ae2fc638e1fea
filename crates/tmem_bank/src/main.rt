//! A bank: forty threads move money between the accounts of a store that they share. A transfer is done once it is durable, and
//! one that would leave an account below zero is refused. The store is kept in a file where a path is given, and in memory
//! otherwise.
#![tactic(auto)]

ghost use Rattle.std.specs.Prelude.{◌≡◌};
ghost use Rattle.std.specs.List.{list_any};
ghost use Rattle.tmem_builtins.specs.Invariants.{has_no_negative, is_negative};
ghost use Rattle.tmem_bank.specs.Accounts.{bank};

mod device;
mod service;
mod transfers;

use anyhow::Result;
use device::{device_in_file, device_in_memory};
use service::{ACCOUNTS, open};
use std::alloc::{AllocGlobal, Global};
use std::env;
use std::fs::{File, Files};
use std::rt::Clock;
use std::sync::Wait;
use std::thread::Threads;
use tmem_builtins::stored_steps;
use tmem_fault::{Fault, Name};
use tmem_invariants::Invariants;
use tmem_tables::{Invariant, Table};
use tmem_tree::StoredSteps;

fn main(rt: HostRuntime) -> Result<()> {
    let alloc = rt.alloc();
    let path = env::args(&rt)?.nth(1);
    let solvent = Box::new(
        alloc,
        |accounts: &[i64]| -> bool
            ensures { result ≡ has_no_negative accounts.now }
        { !has_negative(accounts) },
    )?;
    let solvent = Invariant::new(Name::new("solvent")?, vec![in alloc; 0, 1, 2, 3]?, solvent)?;
    let table = Table::of(alloc, vec![in alloc; solvent]?, ACCOUNTS)?;
    with_device(&rt, alloc, path.as_deref(), table, stored_steps())?;
    Ok(())
}

// Whether an account is below zero.
fn has_negative(accounts: &[i64]) -> bool
    ensures { result ≡ list_any is_negative accounts.now }
{
    accounts.iter().any(|account| *account < 0)
}

// Chooses the device.
fn with_device<
    R: AllocGlobal + Clock + Files<File = File> + Print + Threads + Wait + Sync,
    T: Invariants + Drop + Send,
    S: StoredSteps + Drop + Send + Sync,
>(rt: &R, alloc: Global, path: Option<&str>, table: T, steps: S) -> Result<(), Fault>
    requires vars { T.vars table ≡ 4 }
    requires names { T.names table ≡ bank.names }
    requires tests { T.is_stated table bank.tests }
    requires steps { S.is_stated steps bank.steps }
{
    match path {
        Some(path) => open(rt, alloc, device_in_file(rt, path)?, table, steps),
        None => open(rt, alloc, device_in_memory(alloc)?, table, steps),
    }
}
