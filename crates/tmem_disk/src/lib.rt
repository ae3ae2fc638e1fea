//! The device that everything stands on: what a read of it gives, what a crash (a power cut or a kill) at any
//! moment may leave of it, and when its calls fail. `SimDisk` is such a device in memory, which can crash, and
//! whose calls can be made to fail, at chosen ones.
#![tactic(auto)]

mod buffer;
mod disk;
mod failures;
mod platter;
mod power;
mod sim;

pub use disk::{DeviceFault, Disk};
pub use power::Fill;
pub use sim::SimDisk;
