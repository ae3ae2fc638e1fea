//! A store for one thread, by calls, and its tables of invariants.
mod built;
mod crashes;
mod names;
mod otherwise;
mod releases;
mod store_limits;
mod sums;
mod tables;
mod world_turns;
mod worlds;
