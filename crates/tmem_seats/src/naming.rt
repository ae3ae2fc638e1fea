// The name of a store.
use std::marker::Brand;
use tmem_spine::Naming;

/// What a program brings to its store: what its steps and its invariants mean. A program knows that from the start.
pub trait ProgramNaming {
    ghost use Rattle.tmem_core.specs.Program.{Program};

    ghost program: { Program };
}

/// Which store it is, in the types of all that belongs to it: its spine, the state that it was opened on, and what its
/// program brought. That is known once the store is opened.
pub trait StoreNaming: Naming + ProgramNaming {
    ghost use Rattle.tmem_effect.specs.State.{State};

    ghost opening: { State };
}

impl ProgramNaming for Brand {
    ghost use Rattle.tmem_seats.specs.Histories.{no_program};

    ghost program = { no_program };
}

impl StoreNaming for Brand {
    ghost use Rattle.tmem_seats.specs.Histories.{no_state};

    ghost opening = { no_state };
}
