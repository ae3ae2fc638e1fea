// Invariants that are closures, in order.

ghost use Rattle.std.specs.Prelude.{◌≡◌, ◌↔◌, ◌⊎◌, ℕ, ◌<◌, ◌≤◌, length, map, All, slice_index_or, IsOk, IfOk, IfErr, Err};
ghost use Rattle.tmem_invariants.specs.Answers.{IsMeant};
ghost use Rattle.tmem_invariants.specs.Indices.{IsTouching};
ghost use Rattle.tmem_invariants.specs.TableNames.{AreBelow, AreTableNames, AreDistinct};

use crate::by_variable::{indices_by_variable, indices_touched};
use crate::entries::{fault_of, index_among, test_indices};
use crate::entry::TableEntry;
use crate::invariant::{Invariant, Test};
use std::alloc::Global;
use tmem_fault::{Fault, Name};
use tmem_invariants::Invariants;

/// Invariants in order, over some number of variables.
#[derive(Drop)]
pub struct Table {
    /// The invariants, in order.
    pub entries: Vec<Invariant>,
    /// How many variables there are.
    pub vars: u16,
    // for each variable, the indices of the entries over it
    by_variable: Vec<u64>,
    ghost few: { length entries.items ≤ 64 },
    ghost distinct: { AreDistinct (map (λ entry. entry.name) entries.items) },
    ghost within: { All (λ entry. AreBelow vars entry.footprint.items) entries.items },
    ghost long: { length by_variable.items ≡ vars },
    ghost touching: { (var : ℕ) → IsTouching (map (λ entry. entry.footprint.items) entries.items) var (slice_index_or by_variable.items var 0) },
}

impl Table {
    /// The table. Refused with `BadName` where there are more than `MAX_INVARIANTS` or a name stands twice, else with
    /// `BadFootprint` where a footprint has a variable that is not below `vars`, else for want of memory.
    pub fn of(alloc: Global, entries: Vec<Invariant>, vars: u16) -> Result<Table, Fault>
        ensures ok { (IsOk result ⊎ (result ≡ Err Fault.Memory)) ↔ (AreTableNames (map (λ entry. entry.name) entries.items) × All (λ entry. AreBelow vars entry.footprint.items) entries.items) }

        // names come before footprints
        ensures bad_name { (result ≡ Err Fault.BadName) ↔ (¬ AreTableNames (map (λ entry. entry.name) entries.items)) }
        ensures bad_footprint { (result ≡ Err Fault.BadFootprint) ↔ (AreTableNames (map (λ entry. entry.name) entries.items) × ¬ All (λ entry. AreBelow vars entry.footprint.items) entries.items) }

        ensures entries { IfOk result (λ table. table.entries ≡ entries) }
        ensures vars { IfOk result (λ table. table.vars ≡ vars) }
    {
        match fault_of(&entries, vars) {
            Some(fault) => Err(fault),
            None => Table::indexed(alloc, entries, vars),
        }
    }

    // The table of entries that may make one.
    fn indexed(alloc: Global, entries: Vec<Invariant>, vars: u16) -> Result<Table, Fault>
        requires few { length entries.items ≤ 64 }
        requires distinct { AreDistinct (map (λ entry. entry.name) entries.items) }
        requires within { All (λ entry. AreBelow vars entry.footprint.items) entries.items }
        ensures entries { IfOk result (λ table. table.entries ≡ entries) }
        ensures vars { IfOk result (λ table. table.vars ≡ vars) }
        ensures fault { IfErr result (λ fault. fault ≡ Fault.Memory) }
    {
        let by_variable = indices_by_variable(alloc, &entries, vars)?;
        Ok(Table {
            entries,
            vars,
            by_variable,
        })
    }

    /// The set of the indices of the entries over a variable: bit `i` is set exactly where the footprint of entry `i` holds
    /// the variable.
    pub fn touching(&self, var: u16) -> u64
        requires { var < self.now.vars }
        ensures { IsTouching (map (λ entry. entry.footprint.items) self.now.entries.items) var result }
    {
        self.by_variable[usize::from(var)]
    }
}

impl Invariants for Table {
    ghost names = { λ table. map (λ entry. entry.name) table.entries.items };

    ghost footprints = { λ table. map (λ entry. entry.footprint.items) table.entries.items };

    ghost vars = { λ table. table.vars };

    ghost is_stated = { λ table m. All (λ entry. IsMeant m entry.name entry.footprint.items (Test.post entry.test)) table.entries.items };

    fn len(&self) -> usize {
        self.entries.len()
    }

    fn vars(&self) -> u16 {
        self.vars
    }

    fn name(&self, index: usize) -> Name {
        self.entries[index].name
    }

    fn footprint(&self, index: usize) -> &[u16] {
        &self.entries[index].footprint
    }

    fn answer(&self, index: usize, values: &[i64]) -> bool {
        self.entries[index].answer(values)
    }

    fn index_of(&self, name: &Name) -> Option<usize> {
        index_among(&self.entries, name)
    }

    fn missing(&self, registered: &[Name]) -> Option<Name> {
        for name in registered {
            if self.index_of(name).is_none() {
                return Some(*name);
            }
        }
        None
    }

    fn is_touched(&self, registered: u64, written: &[(u16, i64)]) -> bool {
        indices_touched(&self.by_variable, written) & registered != 0
    }

    fn test_all(&self, values: &[i64], registered: u64, proposed: u64) -> Option<usize> {
        test_indices(&self.entries, values, registered | proposed)
    }

    fn test_touched(
        &self,
        values: &[i64],
        registered: u64,
        proposed: u64,
        written: &[(u16, i64)],
    ) -> Option<usize> {
        let touched = indices_touched(&self.by_variable, written);
        test_indices(&self.entries, values, touched & registered | proposed)
    }

    ghost use Rattle.std.proofs.lemmas.List.{length-map};

    ghost few = { λ table. Prim.simp length-map table.few };

    ghost use Rattle.std.proofs.lemmas.List.Elements.{All-map};
    ghost use Rattle.tmem_invariants.specs.Shown.{map_by_name};

    ghost over = { λ table m stated. map_by_name (λ entry. entry.name) (λ entry. entry.footprint.items) m.footprint table.entries.items (λ k d within. (stated k d within).over) };

    ghost within = { λ table. All-map (AreBelow table.vars) (λ entry. entry.footprint.items) table.entries.items table.within };

    ghost short = { λ table. All-map (λ footprint. length footprint ≤ 16) (λ entry. entry.footprint.items) table.entries.items (λ k d _. (slice_index_or table.entries.items k d).short) };

    ghost distinct = { λ table. table.distinct };

    ghost use Rattle.tmem_invariants.specs.Joined.{joined_meanings};

    ghost has_meanings = { λ table. joined_meanings _ _ _ (λ entry. entry.stated) table.entries.items table.distinct };
}
