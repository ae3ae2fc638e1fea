//! A store for many threads: the core and the journal under a lock each, and a pass for each caller.
//!
//! What lies under the two locks is of `tmem_seats`, and what a call does to a seat in hand is its contract there. So a call of the
//! front has one history to speak of, though nothing is known of a seat before its lock is taken.
//!
//! `OpenedFront::open` says what opening finds, why it refuses, and what a crash inside it leaves. Of a call that takes a
//! lock and no pass the clauses say which answers it can have: what it did to a seat is said by the seat's own calls. Of a
//! call that may wait they speak of where it returns.
#![tactic(auto)]

mod brief_lock;
mod closing;
mod conditions;
mod deciding;
mod durably;
mod front;
mod opened;
mod pace;
mod patience;
mod pool;
mod refusing;
mod returned;
mod values;
mod waiting;
mod within;
mod writing;

pub use front::Front;
pub use opened::OpenedFront;
pub use pace::{Gathering, Pace};
pub use tmem_seats::{CoreSeat, Failure, JournalSeat, LogCounts, Pass, ProgramNaming, StoreNaming};
pub use values::Moment;
pub use within::Awaited;
