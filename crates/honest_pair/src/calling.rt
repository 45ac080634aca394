//! What the back does for its host.

/// A call of the back's host, between turns or in its sleep.
#[derive(Clone, Copy, Debug, PartialEq, Eq)]
pub enum Calling {
    Nothing,
    /// A packet of the host's own is being delivered.
    Delivery,
    /// `pages` rx slots are awaited.
    Wait { pages: u32 },
}
