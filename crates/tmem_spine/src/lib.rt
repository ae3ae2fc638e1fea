//! One history for all threads: what the core committed, what the journal aims at, and what is durable.
//!
//! Two words count it, the committed one and the durable one. The history itself exists in the proofs alone. The core, the
//! journal and each pass of a caller have a seat, which knows a part of it. `Rule` in `specs/` says how the parts fit
//! together, and it holds between any two steps of any threads. `Steps` has the six kinds of step. Each of them changes
//! what one seat knows: accept, aim, durable, trim, look and meet.
//!
//! No call waits and none takes a lock. A look needs nothing but the pass. The other calls take the seats that they
//! concern by `&mut`, so whoever makes one holds the locks under which these lie.
#![tactic(auto)]

mod kinds;
mod laws;
mod naming;
mod opened;
mod place;
mod seats;
mod spine;
mod steps;
mod telling;
mod view;

pub use laws::no_number_twice;
pub use naming::Naming;
pub use opened::Opened;
pub use seats::{CoreSide, JournalSide, PassSide};
pub use spine::{MOST_PASSES, Spine};
pub use view::{Law, MarkedEffect, Role, SeatView};
