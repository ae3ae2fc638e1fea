// The seats of the core, of the journal and of a pass.
ghost use Rattle.std.specs.Prelude.{◌≡◌};
ghost use Rattle.tmem_effect.specs.Prefix.{IsPrefix};
ghost use Rattle.tmem_spine.specs.History.{count};
ghost use Rattle.tmem_spine.specs.Rule.{Owns};

use crate::naming::Naming;
use crate::place::Place;
use std::marker::Model;

/// The core's seat. Contracts see what is committed, the number that it was trimmed to, and how many passes it gave out.
#[derive(Drop)]
pub struct CoreSide<N: Naming> {
    pub(crate) place: Place<N>,
    pub(crate) given: u64,
}

impl<N: Naming> Model for CoreSide<N> {
    ghost use Rattle.std.specs.Prelude.{◌≡◌, ◌≤◌};
    ghost use Rattle.tmem_spine.specs.declared.view.Role.TheVariants.{Core};
    ghost use Rattle.tmem_spine.specs.Views.{CoreRoleView, core_role_view};

    ghost Value = { CoreRoleView };

    ghost view = { λ c. core_role_view c.place };

    ghost invariant = { λ c. (c.place.role ≡ Core) × (c.given ≡ c.place.given) × (c.given ≤ 32) };
}

/// The journal's seat. Contracts see what it aims at and what is durable.
#[derive(Drop)]
pub struct JournalSide<N: Naming> {
    pub(crate) place: Place<N>,
}

impl<N: Naming> Model for JournalSide<N> {
    ghost use Rattle.std.specs.Prelude.{◌≡◌};
    ghost use Rattle.tmem_spine.specs.declared.view.Role.TheVariants.{Journal};
    ghost use Rattle.tmem_spine.specs.Views.{JournalRoleView, journal_role_view};

    ghost Value = { JournalRoleView };

    ghost view = { λ j. journal_role_view j.place };

    ghost invariant = { λ j. j.place.role ≡ Journal };
}

/// A caller's seat. Contracts see its mark, what it knows to be committed, what it saw to be durable, and its own effects.
/// It may go to another thread, and is used with the spine that gave it.
#[derive(Drop)]
pub struct PassSide<N: Naming> {
    pub(crate) place: Place<N>,
    pub(crate) answered: u64,
}

impl<N: Naming> Model for PassSide<N> {
    ghost use Rattle.tmem_spine.specs.Seats.{IsPassOf};
    ghost use Rattle.tmem_spine.specs.Views.{PassRoleView, pass_role_view};

    ghost Value = { PassRoleView };

    ghost view = { λ p. pass_role_view p.place };

    ghost invariant = { λ p. IsPassOf N.name p.answered p.place };
}

impl<N: Naming> CoreSide<N> {
    /// How many passes were given out.
    pub fn given(&self) -> u64
        ensures { result ≡ self.now.given }
    {
        self.given
    }
}

impl<N: Naming> PassSide<N> {
    /// The greatest answer that a look of this pass gave, and the opening count before any. What a pass saw is a prefix of
    /// what it knows, and its own effects stand there, at their numbers and under its mark.
    pub fn seen(&self) -> u64
        ensures seen { result ≡ count N.name.start self.now.seen }
        ensures begins { IsPrefix self.now.seen self.now.known }
        ensures owns { Owns N.name.start self.now.mark self.now.known self.now.own }
    {
        self.answered
    }
}
