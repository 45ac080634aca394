//! What a worker does after a turn or an activity.

/// The next act of a worker.
pub(crate) enum Next {
    /// Another round, at once.
    Goes,
    /// Sleep, until the peer wakes it.
    Rests,
    /// The worker's end.
    Ends,
}
