// Where a run stands.

/// How a run has come out so far.
#[derive(Clone, Copy, Debug, PartialEq, Eq)]
pub(crate) enum Flow {
    /// It goes on.
    Normal,
    /// It needs the value of this variable.
    Need(u16),
    /// It needs the answer to a test, which stands beside its log.
    Test,
    /// It retries.
    Retry,
    /// It is left for good, with the ending that its log has.
    Leave,
}
