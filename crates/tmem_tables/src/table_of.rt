// Invariants in order, whatever they are.

ghost use Rattle.std.specs.Prelude.{◌≡◌, ◌↔◌, ◌⊎◌, ℕ, ◌<◌, ◌≤◌, length, map, All, slice_index_or, IsOk, IfOk, IfErr, Err};
ghost use Rattle.tmem_invariants.specs.Answers.{IsMeant};
ghost use Rattle.tmem_invariants.specs.Indices.{IsTouching};
ghost use Rattle.tmem_invariants.specs.TableNames.{AreBelow, AreTableNames, AreDistinct};

use crate::by_variable::{indices_by_variable, indices_touched};
use crate::entries::{fault_of, index_among, test_indices};
use crate::entry::TableEntry;
use std::alloc::Global;
use tmem_fault::{Fault, Name};
use tmem_invariants::Invariants;

/// Invariants in order, over some number of variables: of any kind that is data. Those that are closures have `Table`, which
/// contracts of other crates can name.
#[derive(Drop)]
pub struct TableOf<E: TableEntry> {
    /// The invariants, in order.
    pub entries: Vec<E>,
    /// How many variables there are.
    pub vars: u16,
    // for each variable, the indices of the entries over it
    by_variable: Vec<u64>,
    ghost few: { length entries.items ≤ 64 },
    ghost distinct: { AreDistinct (map E.name entries.items) },
    ghost within: { All (λ entry. AreBelow vars (E.footprint entry)) entries.items },
    ghost long: { length by_variable.items ≡ vars },
    ghost touching: { (var : ℕ) → IsTouching (map E.footprint entries.items) var (slice_index_or by_variable.items var 0) },
}

impl<E: TableEntry> TableOf<E> {
    /// The table. Refused with `BadName` where there are more than `MAX_INVARIANTS` or a name stands twice, else with
    /// `BadFootprint` where a footprint has a variable that is not below `vars`, else for want of memory.
    pub fn of(alloc: Global, entries: Vec<E>, vars: u16) -> Result<TableOf<E>, Fault>
        ensures ok { (IsOk result ⊎ (result ≡ Err Fault.Memory)) ↔ (AreTableNames (map E.name entries.items) × All (λ entry. AreBelow vars (E.footprint entry)) entries.items) }

        // names come before footprints
        ensures bad_name { (result ≡ Err Fault.BadName) ↔ (¬ AreTableNames (map E.name entries.items)) }
        ensures bad_footprint { (result ≡ Err Fault.BadFootprint) ↔ (AreTableNames (map E.name entries.items) × ¬ All (λ entry. AreBelow vars (E.footprint entry)) entries.items) }

        ensures entries { IfOk result (λ table. table.entries ≡ entries) }
        ensures vars { IfOk result (λ table. table.vars ≡ vars) }
    {
        match fault_of(&entries, vars) {
            Some(fault) => Err(fault),
            None => TableOf::indexed(alloc, entries, vars),
        }
    }

    // The table of entries that may make one.
    fn indexed(alloc: Global, entries: Vec<E>, vars: u16) -> Result<TableOf<E>, Fault>
        requires few { length entries.items ≤ 64 }
        requires distinct { AreDistinct (map E.name entries.items) }
        requires within { All (λ entry. AreBelow vars (E.footprint entry)) entries.items }
        ensures entries { IfOk result (λ table. table.entries ≡ entries) }
        ensures vars { IfOk result (λ table. table.vars ≡ vars) }
        ensures fault { IfErr result (λ fault. fault ≡ Fault.Memory) }
    {
        let by_variable = indices_by_variable(alloc, &entries, vars)?;
        Ok(TableOf {
            entries,
            vars,
            by_variable,
        })
    }

    /// The set of the indices of the entries over a variable: bit `i` is set exactly where the footprint of entry `i` holds
    /// the variable.
    pub fn touching(&self, var: u16) -> u64
        requires { var < self.now.vars }
        ensures { IsTouching (map E.footprint self.now.entries.items) var result }
    {
        self.by_variable[usize::from(var)]
    }
}

impl<E: TableEntry> Invariants for TableOf<E> {
    ghost names = { λ table. map E.name table.entries.items };

    ghost footprints = { λ table. map E.footprint table.entries.items };

    ghost vars = { λ table. table.vars };

    ghost is_stated = { λ table m. All (λ entry. IsMeant m (E.name entry) (E.footprint entry) (E.answers entry)) table.entries.items };

    fn len(&self) -> usize {
        self.entries.len()
    }

    fn vars(&self) -> u16 {
        self.vars
    }

    fn name(&self, index: usize) -> Name {
        self.entries[index].name()
    }

    fn footprint(&self, index: usize) -> &[u16] {
        self.entries[index].footprint()
    }

    fn answer(&self, index: usize, values: &[i64]) -> bool {
        self.entries[index].answer(values)
    }

    fn index_of(&self, name: &Name) -> Option<usize> {
        index_among(&self.entries, name)
    }

    fn missing(&self, registered: &[Name]) -> Option<Name> {
        for name in registered {
            if self.index_of(name).is_none() {
                return Some(*name);
            }
        }
        None
    }

    fn is_touched(&self, registered: u64, written: &[(u16, i64)]) -> bool {
        indices_touched(&self.by_variable, written) & registered != 0
    }

    fn test_all(&self, values: &[i64], registered: u64, proposed: u64) -> Option<usize> {
        test_indices(&self.entries, values, registered | proposed)
    }

    fn test_touched(
        &self,
        values: &[i64],
        registered: u64,
        proposed: u64,
        written: &[(u16, i64)],
    ) -> Option<usize> {
        let touched = indices_touched(&self.by_variable, written);
        test_indices(&self.entries, values, touched & registered | proposed)
    }

    ghost use Rattle.std.proofs.lemmas.List.{length-map};

    ghost few = { λ table. Prim.simp length-map table.few };

    ghost use Rattle.std.proofs.lemmas.List.Elements.{All-map};
    ghost use Rattle.tmem_invariants.specs.Shown.{map_by_name};

    ghost over = { λ table m stated. map_by_name E.name E.footprint m.footprint table.entries.items (λ k d within. (stated k d within).over) };

    ghost within = { λ table. All-map (AreBelow table.vars) E.footprint table.entries.items table.within };

    ghost short = { λ table. All-map (λ footprint. length footprint ≤ 16) E.footprint table.entries.items (λ k d _. (E.is_footprint (slice_index_or table.entries.items k d)).short) };

    ghost distinct = { λ table. table.distinct };

    ghost use Rattle.tmem_invariants.specs.Joined.{joined_meanings};

    ghost has_meanings = { λ table. joined_meanings E.name E.footprint E.answers E.has_meaning table.entries.items table.distinct };
}
