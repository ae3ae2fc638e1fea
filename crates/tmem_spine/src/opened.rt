// A spine before it has a name in the types.
ghost use Rattle.std.specs.Prelude.{◌≡◌, IfOk};
ghost use Rattle.tmem_spine.specs.Views.{new_core, new_journal};

use crate::kinds::Begin;
use crate::naming::Naming;
use crate::place::Place;
use crate::seats::{CoreSide, JournalSide};
use crate::spine::Spine;
use crate::view::{Law, SeatView};
use atomic_table::{Seat, Table};
use std::alloc::{AllocError, Global};
use std::marker::{Model, PhantomData};

/// A spine that was just made. Contracts see its name, which a call can pick only once the spine is there: so a program
/// hands it to a function that is generic in `Naming`, and calls that at `Brand`.
#[derive(Drop)]
pub struct Opened {
    table: Table<u8, SeatView, u64, Law, Global>,
    seat: Seat<u8, SeatView>,
    start: u64,
}

impl Model for Opened {
    ghost use Rattle.std.specs.Prelude.{◌≡◌};
    ghost use Rattle.tmem_spine.specs.Notes.{first_view};
    ghost use Rattle.tmem_spine.specs.Seats.{IsOf};
    ghost use Rattle.tmem_spine.specs.Views.{SpineName};

    ghost Value = { SpineName };

    ghost view = { λ o. record { table = o.table.shared.table_id; start = o.table.shared.key } };

    ghost invariant = { λ o. (o.start ≡ o.table.shared.key) × (o.table.shared.table_id.words ≡ 2)
        × IsOf (record { table = o.table.shared.table_id; start = o.table.shared.key }) o.seat × (o.seat.me.0 ≡ first_view o.table.shared.key) };
}

impl Opened {
    /// A spine on which nothing happened, where so many transactions were committed before and are durable.
    pub fn new(alloc: Global, start: u64) -> Result<Opened, AllocError>
        ensures { IfOk result (λ o. o.start ≡ start) }
    {
        let (table, seat) = Table::of_words(alloc, &[start, start], &start)?;
        Ok(Opened { table, seat, start })
    }

    /// The spine under its name, with the seats of the core and of the journal.
    pub fn named<N: Naming>(self) -> (Spine<N>, CoreSide<N>, JournalSide<N>)
        requires { self ≡ N.name }
        ensures core { result.1 ≡ new_core N.name.start }
        ensures journal { result.2 ≡ new_journal }
    {
        let Opened {
            table,
            mut seat,
            start,
        } = self;
        let journal = table.shared.split_seat::<Begin>(&mut seat);
        let spine = Spine {
            table,
            start,
            of: PhantomData,
        };
        let core = CoreSide {
            place: Place {
                seat,
                of: PhantomData,
            },
            given: 0,
        };
        let journal = JournalSide {
            place: Place {
                seat: journal,
                of: PhantomData,
            },
        };
        (spine, core, journal)
    }
}
