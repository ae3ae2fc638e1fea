//! Tables of invariants.
//!
//! A `TableEntry` is one invariant, data or a closure: `Invariant` keeps a closure with the meaning that its maker stated. A table tests
//! all its entries, or those alone that a change can have broken, to the same answer: for each variable it knows the entries over it.
//! `Table` has closures, and `TableOf` data of one kind. `Linear` is such data: a sum of a few variables stays within bounds. What one
//! means is the definition `is_sum_within` of `specs/Sums`: the least that is allowed <= the sum <= the most, as whole numbers.
#![tactic(auto)]

mod by_variable;
mod entries;
mod entry;
mod footprint;
mod indices;
mod invariant;
mod linear;
mod sum;
mod table;
mod table_of;
mod weight;

pub use entry::TableEntry;
pub use footprint::first_repeated;
pub use invariant::{Invariant, Test};
pub use linear::{Linear, LinearTable};
pub use table::Table;
pub use table_of::TableOf;
pub use weight::Weight;
