// A seat of the spine's table. Contracts see what it knows.
use crate::naming::Naming;
use crate::view::SeatView;
use atomic_table::Seat;
use std::marker::{Model, PhantomData};

/// A seat, whoever has it.
#[derive(Drop)]
pub(crate) struct Place<N: Naming> {
    pub(crate) seat: Seat<u8, SeatView>,
    pub(crate) of: PhantomData<N>,
}

impl<N: Naming> Model for Place<N> {
    ghost use Rattle.tmem_spine.specs.declared.view.SeatView.{SeatView};
    ghost use Rattle.tmem_spine.specs.Seats.{IsOf};

    ghost Value = { SeatView };

    ghost view = { λ p. p.seat.me.0 };

    ghost invariant = { λ p. IsOf N.name p.seat };
}
