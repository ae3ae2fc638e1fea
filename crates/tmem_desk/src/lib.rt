//! Answers the requests of a served store, in the order of their lines, by one pass.
//!
//! `Desk::serve` takes a piece of input: it runs every whole line, tries again those that wait, makes durable all that is committed, and
//! only then prints the answers, by one write. So nothing that a client was told is lost, whatever crashes: neither what it was told to be
//! committed, nor what a read, a retry, an abort or a refusal rests on. `specs/Serving` says what each line is answered, and `specs/Failing`
//! what is told where the store cannot go on. The store is a `ServedStore`: what its passes saw durable is not lost if the store keeps that
//! through a crash, as that of `tmem_serve` does.
//!
//! A transaction that is kept is run many times, each time by a copy and maybe with other numbers. `copying` makes one of the same form,
//! `leading` says whether it begins with `Put`s for so many numbers, and `numbering` puts them there.
#![tactic(auto)]

mod copying;
mod counts;
mod desk;
mod failure;
mod held;
mod keeping;
mod leading;
mod naming;
mod numbering;
mod promises;
mod ready;
mod served;
mod serving;
mod told;
mod waiting;

pub use desk::Desk;
pub use failure::DeskFailure;
pub use held::WaitCondition;
pub use naming::ServedNaming;
pub use promises::{each_is_answered_once, nothing_told_is_lost};
pub use ready::Ready;
pub use served::ServedStore;
