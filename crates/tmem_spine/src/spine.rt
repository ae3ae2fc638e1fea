// The two words, and the calls by which the core, the journal and the passes step on them.
ghost use Rattle.std.specs.Prelude.{◌≡◌, ℕ, ◌+◌, ◌-◌, ◌^◌, ◌<◌, ◌≤◌, [], ◌∷◌, ◌++◌, length, take, IfSome, IfNone};
ghost use Rattle.tmem_effect.specs.Prefix.{IsPrefix};
ghost use Rattle.tmem_effect.specs.declared.effect.Effect.{Effect as EffectOf};
ghost use Rattle.tmem_spine.specs.History.{count, marked_effect, longer, Has, HasAt};
ghost use Rattle.tmem_spine.specs.Views.{new_pass};

use crate::naming::Naming;
use crate::seats::{CoreSide, JournalSide, PassSide};
use crate::view::{Law, SeatView};
use atomic_table::Table;
use std::alloc::Global;
use std::marker::{Brand, PhantomData};
use tmem_effect::Effect;

/// How many passes a spine gives out over its life. A pass that was dropped is not given out again.
pub const MOST_PASSES: u64 = 32;

/// The two words: how many transactions were committed, and how many of them are durable.
#[derive(Drop)]
pub struct Spine<N: Naming> {
    pub(crate) table: Table<u8, SeatView, u64, Law, Global>,
    pub(crate) start: u64,
    pub(crate) of: PhantomData<N>,

    /// It is the spine of this name, and has two words.
    ghost named: { (table.shared.table_id ≡ N.name.table) × (table.shared.key ≡ N.name.start) × (table.shared.table_id.words ≡ 2) },

    ghost started: { start ≡ N.name.start },
}

impl<N: Naming> Spine<N> {
    /// Gives out a pass with a mark of its own, unless `MOST_PASSES` were given out.
    pub fn pass(&self, core: &mut CoreSide<N>) -> Option<PassSide<N>>
        ensures some { IfSome result (λ p. (p ≡ new_pass core.old.given) × (core.new ≡ record core.old { given = core.old.given + 1 })) }
        ensures few { IfSome result (λ _. core.old.given < MOST_PASSES) }
        ensures none { IfNone result ((core.old.given ≡ MOST_PASSES) × (core.new ≡ core.old)) }
    {
        if core.given == MOST_PASSES {
            return None;
        }
        let place = self.give_step(&mut core.place);
        core.given += 1;
        Some(PassSide {
            place,
            answered: self.start,
        })
    }

    /// The core learns how many are durable, for a pass beside it: at least as many as it knew of, and as the pass saw. What
    /// the pass knows is a prefix of what is committed.
    pub fn trim(&self, core: &mut CoreSide<N>, pass: &mut PassSide<N>) -> u64
        ensures core { core.new ≡ record core.old { trimmed = result } }
        ensures pass { pass.new ≡ pass.old }
        ensures least { (core.old.trimmed ≤ result) × (count N.name.start pass.old.seen ≤ result) }
        ensures most { result ≤ count N.name.start core.old.committed }
        ensures begins { IsPrefix pass.old.known core.old.committed }
    {
        let note = self.pass_tells(&mut pass.place);
        self.core_hears(&mut core.place, note);
        self.trim_step(&mut core.place)
    }

    /// The core commits an effect for a pass, which then knows all that is committed and has the effect as its own. Answers
    /// the effect's number.
    pub fn accept(&self, core: &mut CoreSide<N>, pass: &mut PassSide<N>, effect: &Effect) -> u64
        requires room { count N.name.start core.old.committed + 1 < 2 ^ 64 }
        requires begins { IsPrefix pass.old.known core.old.committed }
        ensures number { result ≡ count N.name.start core.old.committed }
        ensures core { core.new ≡ record core.old { committed = core.old.committed ++ marked_effect pass.old.mark effect.now ∷ [] } }
        ensures pass { pass.new ≡ record pass.old { known = core.new.committed; own = pass.old.own ++ (result, effect.now) ∷ [] } }
    {
        let number = self.accept_step::<Brand>(&mut core.place, &pass.place, effect);
        let note = self.core_tells(&mut core.place);
        self.gain_step::<Brand>(&mut pass.place, note, number, effect);
        number
    }

    /// A pass meets the core: it knows all that is committed.
    pub fn meet_core(&self, core: &mut CoreSide<N>, pass: &mut PassSide<N>)
        requires begins { IsPrefix pass.old.known core.old.committed }
        ensures core { core.new ≡ core.old }
        ensures pass { pass.new ≡ record pass.old { known = core.old.committed } }
    {
        let note = self.core_tells(&mut core.place);
        self.meet_core_step(&mut pass.place, note);
    }

    /// The core learns how many are durable, with the journal beside it, so it is exactly as many as the journal has. These
    /// are a prefix of what is committed.
    pub fn trim_beside(&self, core: &mut CoreSide<N>, journal: &mut JournalSide<N>) -> u64
        ensures core { core.new ≡ record core.old { trimmed = result } }
        ensures journal { journal.new ≡ journal.old }
        ensures exact { result ≡ count N.name.start journal.old.durable }
        ensures least { core.old.trimmed ≤ result }
        ensures most { result ≤ count N.name.start core.old.committed }
        ensures begins { IsPrefix journal.old.durable core.old.committed }
    {
        let note = self.journal_tells(&mut journal.place);
        self.core_hears(&mut core.place, note);
        let durable = self.trim_step(&mut core.place);
        let note = self.core_tells(&mut core.place);
        self.journal_hears(&mut journal.place, note);
        self.stay_step(&mut journal.place);
        durable
    }

    /// The journal aims at what the core beside it has committed, up to a number: it is about to make that durable.
    pub fn aim(&self, core: &mut CoreSide<N>, journal: &mut JournalSide<N>, upto: u64)
        requires least { count N.name.start journal.old.durable ≤ upto }
        requires most { upto ≤ count N.name.start core.old.committed }
        ensures core { core.new ≡ core.old }
        ensures journal { journal.new ≡ record journal.old { aimed = take (upto - N.name.start) core.old.committed } }
        ensures number { count N.name.start journal.new.aimed ≡ upto }
        ensures begins { IsPrefix journal.old.durable journal.new.aimed }
        ensures ahead { IsPrefix journal.new.aimed core.old.committed }
    {
        let note = self.core_tells(&mut core.place);
        self.journal_hears(&mut journal.place, note);
        self.aim_step::<Brand>(&mut journal.place, upto);
    }

    /// What the journal aims at is durable: so many more than before.
    pub fn harden(&self, journal: &mut JournalSide<N>, more: u64)
        requires { length journal.old.durable + more ≡ length journal.old.aimed }
        ensures { journal.new ≡ record journal.old { durable = journal.old.aimed } }
    {
        self.harden_step(&mut journal.place, more);
    }

    /// A pass meets the journal: it knows at least what is durable. What it saw is a prefix of that, so its own effects below
    /// the number that it saw are durable, at their numbers.
    pub fn meet_journal(&self, journal: &mut JournalSide<N>, pass: &mut PassSide<N>)
        ensures journal { journal.new ≡ journal.old }
        ensures pass { pass.new ≡ record pass.old { known = longer pass.old.known journal.old.durable } }
        ensures begins { IsPrefix pass.old.known pass.new.known }
        ensures covers { IsPrefix journal.old.durable pass.new.known }
        ensures saw { IsPrefix pass.old.seen journal.old.durable }
        ensures least { count N.name.start pass.old.seen ≤ count N.name.start journal.old.durable }
        ensures most { count N.name.start journal.old.durable ≤ count N.name.start pass.new.known }
        ensures stands { (number : ℕ) (effect : EffectOf) → number < count N.name.start pass.old.seen → Has pass.old.own number effect
            → HasAt N.name.start journal.old.durable number (marked_effect pass.old.mark effect) }
    {
        let note = self.pass_tells(&mut pass.place);
        self.journal_hears(&mut journal.place, note);
        self.stay_step(&mut journal.place);
        let note = self.journal_tells(&mut journal.place);
        self.meet_journal_step(&mut pass.place, note);
    }

    /// How many are durable, which the pass then saw. It takes no lock, and never answers less than before.
    pub fn look(&self, pass: &mut PassSide<N>) -> u64
        ensures pass { pass.new ≡ record pass.old { seen = pass.new.seen; known = longer pass.old.known pass.new.seen } }
        ensures answer { result ≡ count N.name.start pass.new.seen }
        ensures later { IsPrefix pass.old.seen pass.new.seen }
        ensures least { count N.name.start pass.old.seen ≤ result }
        ensures begins { IsPrefix pass.old.known pass.new.known }
    {
        let found = self.look_step(&mut pass.place);
        pass.answered = found;
        found
    }
}
