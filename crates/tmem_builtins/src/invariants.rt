//! The invariants that scripts can check: `nonneg`, `sum` and `ordered`.
ghost use Rattle.std.specs.Prelude.{◌≡◌, ◌∷◌, [], All, codes, filter, length, map, IfErr, IfOk};
ghost use Rattle.tmem_invariants.specs.Answers.{MayCall, Gives, HasMeaning};
ghost use Rattle.tmem_invariants.specs.TableNames.{AreBelow, AreTableNames, IsFootprint};
ghost use Rattle.tmem_builtins.specs.Builtins.{builtin_names, builtin_tests};
ghost use Rattle.tmem_builtins.specs.Invariants.{is_not_negative, add_to_hundred, are_ordered, is_footprint_within, fitting};

use std::alloc::{AllocError, Global};
use tmem_fault::{Fault, Name};
use tmem_invariants::Invariants;
use tmem_tables::{Invariant, Table, Test};

/// The names of the three, ascending.
pub fn names() -> [Name; 3]
    ensures { result ≡ codes "nonneg" ∷ codes "ordered" ∷ codes "sum" ∷ [] }
{
    [nonneg_name(), ordered_name(), sum_name()]
}

// The name of `nonneg`.
fn nonneg_name() -> Name
    ensures { result ≡ codes "nonneg" }
{
    Name::new("nonneg").unwrap()
}

// The name of `sum`.
fn sum_name() -> Name
    ensures { result ≡ codes "sum" }
{
    Name::new("sum").unwrap()
}

// The name of `ordered`.
fn ordered_name() -> Name
    ensures { result ≡ codes "ordered" }
{
    Name::new("ordered").unwrap()
}

/// The invariant `nonneg`: its variable is at least 0.
pub fn nonneg(values: &[i64]) -> bool
    requires { length values.now ≡ 1 }
    ensures { result ≡ is_not_negative values.now }
{
    values[0] >= 0
}

/// The invariant `sum`: its two variables add up to 100, as whole numbers.
pub fn sum(values: &[i64]) -> bool
    requires { length values.now ≡ 2 }
    ensures { result ≡ add_to_hundred values.now }
{
    values[0] as i128 + values[1] as i128 == 100
}

/// The invariant `ordered`: the first of its two variables is at most the second.
pub fn ordered(values: &[i64]) -> bool
    requires { length values.now ≡ 2 }
    ensures { result ≡ are_ordered values.now }
{
    values[0] <= values[1]
}

/// The table of those of the three whose variables are below `vars`, in this order: `nonneg` over variable 0, `sum` over
/// 0 and 1, `ordered` over 2 and 3. Refused by `Memory`.
pub fn table_of(
    alloc: Global,
    vars: u16,
    nonneg: Test,
    sum: Test,
    ordered: Test,
) -> Result<Table, Fault>
    requires nonneg_callable { MayCall (Test.pre nonneg) 1 }
    requires nonneg_stated { Gives (Test.post nonneg) 1 is_not_negative }
    requires sum_callable { MayCall (Test.pre sum) 2 }
    requires sum_stated { Gives (Test.post sum) 2 add_to_hundred }
    requires ordered_callable { MayCall (Test.pre ordered) 2 }
    requires ordered_stated { Gives (Test.post ordered) 2 are_ordered }
    ensures vars { IfOk result (λ table. table.vars ≡ vars) }
    ensures entries { IfOk result (λ table. map (λ entry. (entry.name, entry.footprint.items, entry.test)) table.entries.items
        ≡ fitting vars ((codes "nonneg", 0 ∷ [], nonneg) ∷ (codes "sum", 0 ∷ 1 ∷ [], sum) ∷ (codes "ordered", 2 ∷ 3 ∷ [], ordered) ∷ [])) }
    ensures names { IfOk result (λ table. ⟦<Table as Invariants>⟧.names table ≡ builtin_names vars) }
    ensures stated { IfOk result (λ table. ⟦<Table as Invariants>⟧.is_stated table builtin_tests) }
    ensures refused { IfErr result (λ fault. fault ≡ Fault.Memory) }
{
    let floor = entry(alloc, nonneg_name(), [0], nonneg)?;
    let pair = entry(alloc, sum_name(), [0, 1], sum)?;
    let order = entry(alloc, ordered_name(), [2, 3], ordered)?;
    Table::of(alloc, those_below(alloc, vars, floor, pair, order)?, vars)
}

// The invariant over these variables.
fn entry<const N: usize>(
    alloc: Global,
    name: Name,
    over: [u16; N],
    test: Test,
) -> Result<Invariant, Fault>
    requires footprint { IsFootprint over }
    requires callable { MayCall (Test.pre test) (length over) }
    requires stated { HasMeaning (Test.post test) (length over) }
    ensures name { IfOk result (λ invariant. invariant.name ≡ name) }
    ensures footprint { IfOk result (λ invariant. invariant.footprint.items ≡ over.entry) }
    ensures test { IfOk result (λ invariant. invariant.test ≡ test) }
    ensures refused { IfErr result (λ fault. fault ≡ Fault.Memory) }
{
    Invariant::new(name, Vec::from_array(alloc, over)?, test)
}

// Those of the three invariants whose variables are below `vars`, in this order.
fn those_below(
    alloc: Global,
    vars: u16,
    floor: Invariant,
    pair: Invariant,
    order: Invariant,
) -> Result<Vec<Invariant>, AllocError>
    requires floor_name { floor.name ≡ codes "nonneg" }
    requires pair_name { pair.name ≡ codes "sum" }
    requires order_name { order.name ≡ codes "ordered" }
    requires floor_over { floor.footprint.items ≡ 0 ∷ [] }
    requires pair_over { pair.footprint.items ≡ 0 ∷ 1 ∷ [] }
    requires order_over { order.footprint.items ≡ 2 ∷ 3 ∷ [] }
    ensures entries { IfOk result (λ entries. entries.items ≡ filter (λ entry. is_footprint_within vars entry.footprint.items) (floor ∷ pair ∷ order ∷ [])) }
    ensures fit { IfOk result (λ entries. AreTableNames (map (λ entry. entry.name) entries.items) × All (λ entry. AreBelow vars entry.footprint.items) entries.items) }
{
    match vars {
        0 => Ok(Vec::new(alloc)),
        1 => Ok(vec![in alloc; floor]?),
        2 | 3 => Ok(vec![in alloc; floor, pair]?),
        _ => Ok(vec![in alloc; floor, pair, order]?),
    }
}
