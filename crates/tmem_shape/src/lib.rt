//! The shape of a store, from its text: how many variables and log slots it has, its invariants, and names of variables.
//!
//! `StoreShape::from_slice` reads the JSON text of a shape. It reads each text that is one, by `IsShapeText` of `specs/`, and
//! refuses each other one, with why and where.
#![tactic(auto)]

mod error;
mod invariants;
mod key;
mod members;
mod names;
mod numbers;
mod place;
mod shape;
mod terms;
mod why;

pub use error::ShapeError;
pub use key::Key;
pub use place::ShapePlace;
pub use shape::StoreShape;
pub use why::ShapeFlaw;
