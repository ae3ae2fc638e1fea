// Requests that may have to wait.
use crate::naming::ServedNaming;
use crate::ready::Ready;

/// What a request may wait for.
#[derive(Drop)]
pub enum WaitCondition<N: ServedNaming> {
    /// That its transaction does not retry.
    Plan(Ready<N>),
    /// That one of these variables, all of the store, has another value than the one beside it.
    Change(Vec<(u16, i64)>),
}

/// A request that waits, with its id.
#[derive(Drop)]
pub(crate) struct WaitingRequest<N: ServedNaming> {
    pub(crate) id: i64,
    pub(crate) held: WaitCondition<N>,
}
