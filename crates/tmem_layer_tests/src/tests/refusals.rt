//! The refusals that tables of tests speak of.
use tmem_fault::Fault;

/// A fault, as tables name it.
#[derive(Clone, Copy)]
pub(super) enum Refusal {
    Device,
    Closed,
    Unknown,
    LogFull,
    NotFormatted,
    Damaged,
    BadName,
    BadFootprint,
    Spent,
    Geometry,
}

impl Refusal {
    /// The fault that is meant.
    pub(super) fn fault(self) -> Fault {
        match self {
            Refusal::Device => Fault::Device,
            Refusal::Closed => Fault::Closed,
            Refusal::Unknown => Fault::Unknown,
            Refusal::LogFull => Fault::LogFull,
            Refusal::NotFormatted => Fault::NotFormatted,
            Refusal::Damaged => Fault::Damaged,
            Refusal::BadName => Fault::BadName,
            Refusal::BadFootprint => Fault::BadFootprint,
            Refusal::Spent => Fault::Spent,
            Refusal::Geometry => Fault::Geometry,
        }
    }
}
