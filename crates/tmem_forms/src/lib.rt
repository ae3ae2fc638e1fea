//! Transactions, from their JSON form.
//!
//! `tx_of` reads a transaction from a JSON value, and refuses each value that is the form of none. `pieces` has what
//! several forms share: pairs and numbers.
#![tactic(auto)]

mod error;
mod pieces;
mod tx;

pub use error::FormError;
pub use pieces::{byte_of, integer_of, pair_of, short_of};
pub use tx::tx_of;
