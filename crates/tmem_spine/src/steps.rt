// One step on the table each.
ghost use Rattle.std.specs.Prelude.{◌≡◌, ◌+◌, ◌-◌, ◌^◌, ◌<◌, ◌≤◌, [], ◌∷◌, ◌++◌, length, take};
ghost use Rattle.tmem_effect.specs.Prefix.{IsPrefix};
ghost use Rattle.tmem_spine.specs.declared.view.Role.TheVariants as role;
ghost use Rattle.tmem_spine.specs.History.{count, marked_effect, longer, HasAt};
ghost use Rattle.tmem_spine.specs.Notes.{gives, pass_from};
ghost use Rattle.tmem_spine.specs.Rule.{IsPass};

use crate::kinds::{
    Accept, Aim, Choice, Gain, Give, Harden, Look, MeetCore, MeetJournal, Stay, Trim,
};
use crate::naming::Naming;
use crate::place::Place;
use crate::spine::Spine;
use std::marker::PhantomData;
use tmem_effect::Effect;

impl<N: Naming> Spine<N> {
    // The core gives out a pass.
    pub(crate) fn give_step(&self, core: &mut Place<N>) -> Place<N>
        requires role { core.old.role ≡ role.Core }
        requires few { core.old.given < 32 }
        ensures core { core.new ≡ gives core.old }
        ensures pass { result ≡ pass_from core.old }
    {
        Place {
            seat: self.table.shared.split_seat::<Give>(&mut core.seat),
            of: PhantomData,
        }
    }

    // The committed word rises by one, for an effect under the mark of a pass. Answers what it was.
    pub(crate) fn accept_step<C: Choice>(
        &self,
        core: &mut Place<N>,
        pass: &Place<N>,
        effect: &Effect,
    ) -> u64
        requires role { core.old.role ≡ role.Core }
        requires choice { C.picked ≡ marked_effect pass.now.mark effect.now }
        requires room { count N.name.start core.old.committed + 1 < 2 ^ 64 }
        ensures core { core.new ≡ record core.old { committed = core.old.committed ++ C.picked ∷ [] } }
        ensures number { result ≡ count N.name.start core.old.committed }
    {
        self.table
            .shared
            .fetch_add::<Accept<C>>(&mut core.seat, 0, 1)
    }

    // The core loads the durable word.
    pub(crate) fn trim_step(&self, core: &mut Place<N>) -> u64
        requires { core.old.role ≡ role.Core }
        ensures core { core.new ≡ record core.old { trimmed = result } }
        ensures least { (core.old.trimmed ≤ result) × (count N.name.start core.old.seen ≤ result) }
        ensures most { result ≤ count N.name.start core.old.committed }
        ensures begins { IsPrefix core.old.known core.old.committed × IsPrefix core.old.seen core.old.committed }
    {
        self.table.shared.load::<Trim>(&mut core.seat, 1)
    }

    // The journal loads the committed word, and aims at what it was told is committed, up to a number.
    pub(crate) fn aim_step<C: Choice>(&self, journal: &mut Place<N>, upto: u64)
        requires role { journal.old.role ≡ role.Journal }
        requires choice { C.number ≡ upto }
        requires least { count N.name.start journal.old.durable ≤ upto }
        requires most { upto ≤ count N.name.start journal.old.known }
        ensures journal { journal.new ≡ record journal.old { aimed = take (upto - N.name.start) journal.old.known } }
        ensures begins { IsPrefix journal.old.durable journal.new.aimed }
    {
        self.table.shared.load::<Aim<C>>(&mut journal.seat, 0);
    }

    // The journal loads the committed word, and stays with what it aims at.
    pub(crate) fn stay_step(&self, journal: &mut Place<N>)
        requires { journal.old.role ≡ role.Journal }
        ensures same { journal.new ≡ journal.old }
        ensures seen { IsPrefix journal.old.seen journal.old.durable }
        ensures trimmed { journal.old.trimmed ≤ count N.name.start journal.old.durable }
        ensures known { IsPrefix journal.old.known (longer journal.old.known journal.old.durable) }
        ensures durable { IsPrefix journal.old.durable (longer journal.old.known journal.old.durable) }
    {
        self.table.shared.load::<Stay>(&mut journal.seat, 0);
    }

    // The durable word rises by what the journal aims at beyond it.
    pub(crate) fn harden_step(&self, journal: &mut Place<N>, more: u64)
        requires role { journal.old.role ≡ role.Journal }
        requires more { length journal.old.durable + more ≡ length journal.old.aimed }
        ensures { journal.new ≡ record journal.old { durable = journal.old.aimed } }
    {
        self.table
            .shared
            .fetch_add::<Harden>(&mut journal.seat, 1, more);
    }

    // A pass loads the durable word.
    pub(crate) fn look_step(&self, pass: &mut Place<N>) -> u64
        requires { pass.old.role ≡ role.Pass }
        ensures pass { pass.new ≡ record pass.old { seen = pass.new.seen; known = longer pass.old.known pass.new.seen } }
        ensures answer { result ≡ count N.name.start pass.new.seen }
        ensures later { IsPrefix pass.old.seen pass.new.seen × IsPrefix pass.old.known pass.new.known }
        ensures is_pass { IsPass N.name.start pass.new }
    {
        self.table.shared.load::<Look>(&mut pass.seat, 1)
    }

    // A pass reads the core's note.
    pub(crate) fn meet_core_step(&self, pass: &mut Place<N>, note: Place<N>)
        requires role { pass.old.role ≡ role.Pass }
        requires is_pass { IsPass N.name.start pass.old }
        requires begins { IsPrefix pass.old.known note.known }
        ensures pass { pass.new ≡ record pass.old { known = note.known } }
        ensures is_pass { IsPass N.name.start pass.new }
    {
        let Place { seat, of: _ } = note;
        self.table
            .shared
            .join_seat::<MeetCore>(&mut pass.seat, seat);
    }

    // A pass reads the core's note, in which an effect of its own stands at a number.
    pub(crate) fn gain_step<C: Choice>(
        &self,
        pass: &mut Place<N>,
        note: Place<N>,
        number: u64,
        effect: &Effect,
    )
        requires role { pass.old.role ≡ role.Pass }
        requires choice { (C.picked.mark ≡ pass.old.mark) × (C.picked.effect ≡ effect.now) × (C.number ≡ number) }
        requires is_pass { IsPass N.name.start pass.old }
        requires begins { IsPrefix pass.old.known note.known }
        requires behind { count N.name.start pass.old.known ≤ number }
        requires stands { HasAt N.name.start note.known number C.picked }
        ensures pass { pass.new ≡ record pass.old { known = note.known; own = pass.old.own ++ (number, effect.now) ∷ [] } }
        ensures is_pass { IsPass N.name.start pass.new }
    {
        let Place { seat, of: _ } = note;
        self.table.shared.join_seat::<Gain<C>>(&mut pass.seat, seat);
    }

    // A pass reads the journal's note.
    pub(crate) fn meet_journal_step(&self, pass: &mut Place<N>, note: Place<N>)
        requires role { pass.old.role ≡ role.Pass }
        requires is_pass { IsPass N.name.start pass.old }
        requires begins { IsPrefix pass.old.known (longer pass.old.known note.known) }
        ensures pass { pass.new ≡ record pass.old { known = longer pass.old.known note.known } }
        ensures is_pass { IsPass N.name.start pass.new }
    {
        let Place { seat, of: _ } = note;
        self.table
            .shared
            .join_seat::<MeetJournal>(&mut pass.seat, seat);
    }
}
