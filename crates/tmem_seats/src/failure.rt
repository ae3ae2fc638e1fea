// How a device failed.
ghost use Rattle.std.specs.Prelude.{◌≡◌, Some, None};
ghost use Rattle.tmem_seats.specs.Flushing.{failure_in, told_of};

use tmem_fault::Fault;

/// How the device of a store failed: what the call was answered that closed the journal.
#[derive(Clone, Copy, Debug, PartialEq, Eq)]
pub enum Failure {
    /// It has not failed.
    None,
    /// `Device`: nothing of the batch in hand is durable.
    Device,
    /// `Unknown`: a batch in hand is durable as a whole, or nothing of it.
    Unknown,
}

impl Failure {
    /// The failure that a flush or a checkpoint met, which had this answer.
    pub fn of<A>(answer: &Result<A, Fault>) -> Failure
        ensures { result ≡ failure_in answer.now }
    {
        match answer {
            Err(Fault::Device) => Failure::Device,
            Err(Fault::Unknown) => Failure::Unknown,
            _ => Failure::None,
        }
    }

    /// The fault that tells of it.
    pub fn fault(&self) -> Option<Fault>
        ensures { result ≡ told_of self.now }
    {
        match self {
            Failure::None => None,
            Failure::Device => Some(Fault::Device),
            Failure::Unknown => Some(Fault::Unknown),
        }
    }
}
