//! Calls that ask for no memory.
ghost use Rattle.std.specs.Prelude.{◌≡◌, ◌∷◌, [], length};
ghost use Rattle.tmem_builtins.specs.Invariants.{is_not_negative};
ghost use Rattle.tmem_invariants.specs.Answers.{HasMeaning, MayCall};

use crate::refusals::printing::{say_line, say_name, say_number};
use crate::refusals::store::{SLOTS, VARS, device};
use std::alloc::Global;
use tmem_builtins::nonneg;
use tmem_disk::{Disk, SimDisk};
use tmem_effect::Effect;
use tmem_fault::{Fault, Name};
use tmem_gate::{close_gate, is_open, reads_open};
use tmem_invariants::Invariants;
use tmem_record::encode_batch;
use tmem_state::Batch;
use tmem_tables::{Invariant, Table, Test};
use tmem_world::format;

/// Makes each of them, with a line before the first and one behind each. What they are given is made before.
pub(crate) fn call_each<R: Print>(rt: &R, alloc: Global) -> Result<(), Fault> {
    let mut disk = device(alloc)?;
    let mut batch = Batch::new(alloc)?;
    let mut bytes = vec![in alloc; 0u8; 4096]?;
    call_over(rt, alloc, &mut disk, &mut batch, &mut bytes)
}

// The same, with these.
fn call_over<R: Print>(
    rt: &R,
    alloc: Global,
    disk: &mut SimDisk,
    batch: &mut Batch,
    bytes: &mut [u8],
) -> Result<(), Fault>
    requires { length bytes.old ≡ 4096 }
{
    let footprint = vec![in alloc; 0]?;
    let test = Box::new(
        alloc,
        |values: &[i64]| -> bool
            requires { length values.now ≡ 1 }
            ensures { result ≡ is_not_negative values.now }
        { nonneg(values) },
    )?;
    say_line(rt, "device, batch, bytes, footprint and closure");
    call_on_device(rt, disk, batch, bytes)?;
    call_on_test(rt, alloc, footprint, test)
}

// The calls that are given the footprint of an invariant, and its test.
fn call_on_test<R: Print>(
    rt: &R,
    alloc: Global,
    footprint: Vec<u16>,
    test: Test,
) -> Result<(), Fault>
    requires footprint { footprint.items ≡ 0 ∷ [] }
    requires callable { MayCall (Test.pre test) 1 }
    requires stated { HasMeaning (Test.post test) 1 }
{
    let name = Name::new("nonneg")?;
    say_name(rt, "name", &name);
    let invariant = Invariant::new(name, footprint, test)?;
    say_name(rt, "invariant", &invariant.name);
    let table = Table::of(alloc, vec![in alloc; invariant]?, VARS)?;
    say_line(rt, "table");
    call_tests(rt, &table);
    Ok(())
}

// The calls that are given a device, or a batch.
fn call_on_device<R: Print>(
    rt: &R,
    disk: &mut SimDisk,
    batch: &mut Batch,
    bytes: &mut [u8],
) -> Result<(), Fault>
    requires { length bytes.old ≡ 4096 }
{
    format(disk, VARS, SLOTS)?;
    say_line(rt, "formatted");
    call_gates(rt, disk);
    fill(rt, batch, bytes);
    Ok(())
}

// The calls of a gate, which block 0 has at its start: it is open, and then closed.
fn call_gates<R: Print>(rt: &R, disk: &mut SimDisk) {
    if disk.size() == 0 {
        return;
    }
    let is_first = matches!(is_open(disk, 0), Ok(true));
    let is_closed = close_gate(disk, 0).is_ok();
    let is_second = matches!(is_open(disk, 0), Ok(true));
    say_gates(rt, is_first, is_closed, is_second, reads_open(&[0xA5], 0));
}

fn say_gates<R: Print>(rt: &R, is_first: bool, is_closed: bool, is_second: bool, reads: bool) {
    let _ = println!(rt;
        "open {is_first}, closed {is_closed}, open {is_second}, reads open {reads}"
    );
}

// Puts an effect into a batch, spells it, and forgets it.
fn fill<R: Print>(rt: &R, batch: &mut Batch, bytes: &mut [u8])
    requires { length bytes.old ≡ 4096 }
{
    let mut effect = Effect::new();
    effect.writes.put(2, -1);
    if effect.is_empty() {
        return;
    }
    let is_put = batch.push(&effect);
    let _ = println!(rt; "put {is_put}");
    if batch.len() > 0 {
        let count = encode_batch(batch, 1, 0, bytes);
        say_number(rt, "spelt", count as u64);
    }
    batch.clear();
    say_number(rt, "cleared", batch.len() as u64);
}

// The two tests of a table, where variable 0 is below 0.
fn call_tests<T: Invariants, R: Print>(rt: &R, table: &T)
    requires { T.vars table.now ≡ 4 }
{
    let values = [-1, 0, 0, 0];
    let all = table.test_all(&values, 1, 0).is_some();
    let _ = println!(rt; "tested {all}");
    let touched = table.test_touched(&values, 1, 0, &[(0, -1)]).is_some();
    let other = table.test_touched(&values, 1, 0, &[(1, 0)]).is_some();
    let _ = println!(rt; "tested {touched}, and {other} where another was written");
}
