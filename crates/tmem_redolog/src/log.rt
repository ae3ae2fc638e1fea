// Where the next batch of a log goes.

/// The generation of a log's batches, and how many slots they take.
#[derive(Clone, Copy, Debug, PartialEq, Eq)]
pub struct Log {
    pub generation: u64,
    pub used: u16,
}
