//! The layers below a front, by calls: devices in memory and in files, records, images and journals, the spine, tables and names.
//!
//! A crate of tests alone, above the crates that it tests. Of what lies on a device its tests are tables of acts with what they are
//! answered, which `tests/acts.rt` plays.
#![tactic(auto)]

#[cfg(test)]
mod tests;
