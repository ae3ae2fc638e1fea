//! The stored steps and the invariants that scripts can name, each with what it means, and transactions made of the steps.
//!
//! `Steps` in `specs/` says what each step answers, and `Invariants` which values each invariant takes. The functions
//! answer these definitions. `stored_steps` are the steps. A caller makes closures of the invariants, and `table_of` puts them in
//! order.
//! `transactions` builds transactions that call these steps, so that a program names neither a step nor a register.
#![tactic(auto)]

mod invariants;
mod steps;
mod transactions;

pub use invariants::{names, nonneg, ordered, sum, table_of};
pub use steps::{BuiltinSteps, add, index_of, need, stored_steps, sub};
pub use transactions::{Reading, add_to, all_of, first_of, first_of_several, put, read, take};
