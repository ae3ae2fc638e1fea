//! A table over an invariant that is data: a sum of variables.
use super::names::numbered;
use std::alloc::Global;
use std::test::Fail;
use tmem_fault::Fault;
use tmem_invariants::Invariants;
use tmem_tables::{Linear, TableOf, Weight};

const VARS: u16 = 1024;

/// The last variable less twice the first one is at least -3.
fn less_twice_the_first(alloc: Global) -> Result<Linear, Fault> {
    let footprint = vec![in alloc; 1023, 0]?;
    let weights = vec![in alloc; Weight::Value(1), Weight::Value(-2)]?;
    let name = numbered(0)?;
    Ok(Linear::new(name, footprint, weights, Some(-3), None, false))
}

// at: 1024 variables
#[test]
fn a_table_tests_an_invariant_that_is_a_sum(rt: HostRuntime) -> Result<(), Fail> {
    let alloc = rt.alloc();
    let sums = vec![in alloc; less_twice_the_first(alloc)?]?;
    let table = TableOf::of(alloc, sums, VARS)?;
    let mut values = [0; 1024];
    // 0 - 4, 0 - 2, 1 - 2 and 1 - 4
    for (last, first, is_false) in [(0, 2, true), (0, 1, false), (1, 1, false), (1, 2, false)] {
        values[0] = first;
        values[1023] = last;
        assert!(rt; table.test_all(&values, 1, 0) == is_false.then_some(0));
    }
    Ok(())
}
