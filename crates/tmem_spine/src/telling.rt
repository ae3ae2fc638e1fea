// How one seat tells another what it knows: a note is cut off from the first, and read by the other.
ghost use Rattle.std.specs.Prelude.{◌≡◌, []};
ghost use Rattle.tmem_spine.specs.declared.view.Role.TheVariants as role;
ghost use Rattle.tmem_spine.specs.Notes.{note, core_told, journal_told};

use crate::kinds::{CoreHears, CoreTells, JournalHears, JournalTells, PassTells};
use crate::naming::Naming;
use crate::place::Place;
use crate::spine::Spine;
use std::marker::PhantomData;

impl<N: Naming> Spine<N> {
    pub(crate) fn core_tells(&self, core: &mut Place<N>) -> Place<N>
        requires { core.old.role ≡ role.Core }
        ensures same { core.new ≡ core.old }
        ensures note { result ≡ note N.name.start core.old.committed [] core.old.trimmed }
    {
        Place {
            seat: self.table.shared.split_seat::<CoreTells>(&mut core.seat),
            of: PhantomData,
        }
    }

    pub(crate) fn journal_tells(&self, journal: &mut Place<N>) -> Place<N>
        requires { journal.old.role ≡ role.Journal }
        ensures same { journal.new ≡ journal.old }
        ensures note { result ≡ note N.name.start journal.old.durable journal.old.durable 0 }
    {
        Place {
            seat: self
                .table
                .shared
                .split_seat::<JournalTells>(&mut journal.seat),
            of: PhantomData,
        }
    }

    pub(crate) fn pass_tells(&self, pass: &mut Place<N>) -> Place<N>
        requires { pass.old.role ≡ role.Pass }
        ensures same { pass.new ≡ pass.old }
        ensures note { result ≡ note N.name.start pass.old.known pass.old.seen 0 }
    {
        Place {
            seat: self.table.shared.split_seat::<PassTells>(&mut pass.seat),
            of: PhantomData,
        }
    }

    pub(crate) fn core_hears(&self, core: &mut Place<N>, note: Place<N>)
        requires { core.old.role ≡ role.Core }
        ensures { core.new ≡ core_told core.old note }
    {
        let Place { seat, of: _ } = note;
        self.table
            .shared
            .join_seat::<CoreHears>(&mut core.seat, seat);
    }

    pub(crate) fn journal_hears(&self, journal: &mut Place<N>, note: Place<N>)
        requires { journal.old.role ≡ role.Journal }
        ensures { journal.new ≡ journal_told journal.old note }
    {
        let Place { seat, of: _ } = note;
        self.table
            .shared
            .join_seat::<JournalHears>(&mut journal.seat, seat);
    }
}
