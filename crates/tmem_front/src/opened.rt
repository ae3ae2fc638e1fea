// A store that was opened, before it has a name in the types.
ghost use Rattle.std.specs.Prelude.{◌≡◌, IfOk, IfErr};
ghost use Rattle.tmem_core.specs.Program.{IsProgramOf};
ghost use Rattle.tmem_effect.specs.Names.{has_name};
ghost use Rattle.tmem_journal.specs.Calls.{FitsOn};
ghost use Rattle.tmem_opening.specs.Held.{found_of as opened_at};
ghost use Rattle.tmem_opening.specs.Opening.{IsOpened, OpeningRefused, RecoversEither, without_device};

use crate::brief_lock::BriefLock;
use crate::conditions::Conditions;
use crate::front::Front;
use crate::pool::Pool;
use crate::returned::Returned;
use std::alloc::{AllocError, Global};
use std::sync::Mutex;
use tmem_disk::Disk;
use tmem_fault::{Fault, Name};
use tmem_invariants::Invariants;
use tmem_opening::Opening;
use tmem_seats::{CoreSeat, JournalSeat, StoreNaming};
use tmem_spine::Opened;
use tmem_tree::StoredSteps;

/// A store that was opened. A program hands it to a function that is generic in `StoreNaming`, and calls that at
/// `Brand`: the name is that of the spine, with the state that was found and what its closures mean.
pub struct OpenedFront<D: Disk, T: Invariants, S: StoredSteps> {
    alloc: Global,
    steps: S,
    opening: Opening<D, T>,
    spine: Opened,
    conditions: Conditions,

    /// The history starts at the state that was found.
    pub ghost starts: { spine.start ≡ (opened_at opening).count },
}

// By hand, so that a function that drops one makes one call.
impl<D: Disk + Drop, T: Invariants + Drop, S: StoredSteps + Drop> Drop for OpenedFront<D, T, S> {
    fn drop(self) {
        let OpenedFront {
            alloc: _alloc,
            steps: _steps,
            opening: _opening,
            spine: _spine,
            conditions: _conditions,
        } = self;
    }
}

impl<D: Disk + Drop, T: Invariants + Drop, S: StoredSteps + Drop> OpenedFront<D, T, S> {
    ghost use Rattle.tmem_front.specs.Held.{opening_of, front_found, spine_of, front_table, front_steps, front_device_after, FrontFoundIs};

    /// Opens a device of these numbers: finds what its content represents, with these invariants and stored steps. Refused as
    /// `tmem_opening::Opening::open`, also for want of memory of its own: where the state that was found is sound. The device is
    /// handed back with the refusal.
    pub fn open(
        alloc: Global,
        disk: D,
        vars: u16,
        slots: u16,
        table: T,
        steps: S,
    ) -> Result<OpenedFront<D, T, S>, (Fault, D)>
        requires { T.vars table ≡ vars }

        // It is opened as `Opening::open` says, and refused so.
        ensures opened { IfOk result (λ o. IsOpened vars slots table (D.view disk) (opening_of o)) }
        ensures steps { IfOk result (λ o. front_steps o ≡ steps) }
        ensures refused { IfErr result (λ e. OpeningRefused (IsProgramOf T.Invariants table) vars slots (D.view disk) e.0 (D.view e.1)) }
        ensures recovers { RecoversEither FrontFoundIs (IsProgramOf T.Invariants table) vars slots (D.view disk) (front_device_after result) (without_device result) }

        // Where the numbers do not fit the device, no call of it is made: the one that was handed in is handed back.
        ensures untouched { ¬ FitsOn vars slots (D.view disk).capacity → IfErr result (λ e. e.1 ≡ disk) }
    {
        let opening = match Opening::open(alloc, disk, vars, slots, table) {
            Ok(opening) => opening,
            Err((fault, disk, _)) => return Err((fault, disk)),
        };
        let (spine, conditions) = match parts(alloc, opening.journal.count()) {
            Ok(made) => made,
            Err(_) => return Err((Fault::Memory, opening.into_disk())),
        };
        Ok(OpenedFront {
            alloc,
            steps,
            opening,
            spine,
            conditions,
        })
    }

    /// Whether a name is registered in the state that was found.
    pub fn has(&self, name: &Name) -> bool
        ensures { result ≡ has_name (front_found self.now).names name.now }
    {
        self.opening.core.has(name)
    }

    /// The store under its name, with the steps that it was opened with.
    pub fn named<N: StoreNaming>(self) -> Front<D, N, T, S>
        requires spine { spine_of self ≡ N.name }
        requires opening { front_found self ≡ N.opening }
        requires stated { T.is_stated (front_table self) N.program.tests }
        requires names { T.names (front_table self) ≡ N.program.names }
        requires steps { S.is_stated (front_steps self) N.program.steps }
        ensures { result.steps ≡ front_steps self }
    {
        let OpenedFront {
            alloc,
            steps,
            opening,
            spine,
            conditions,
        } = self;
        let Opening {
            core,
            journal,
            batch,
            signatures,
        } = opening;
        let vars = journal.layout().vars;
        let (spine, core_side, journal_side) = spine.named::<N>();
        Front {
            alloc,
            vars,
            steps,
            signatures,
            spine,
            core: BriefLock::new(CoreSeat::new(core, core_side)),
            conditions,
            journal: Mutex::new(JournalSeat::new(journal, journal_side, batch)),
            pool: Mutex::new(Pool {
                free: Vec::new(alloc),
                owned: 0,
                is_closed: false,
                tries: 0,
            }),
            returned: Returned::new(),
        }
    }
}

// What takes memory beside the opening.
fn parts(alloc: Global, start: u64) -> Result<(Opened, Conditions), AllocError>
    ensures { IfOk result (λ made. made.0.start ≡ start) }
{
    let spine = Opened::new(alloc, start)?;
    let conditions = Conditions::new(alloc)?;
    Ok((spine, conditions))
}
