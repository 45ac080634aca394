//! The answer to what is to be begun.

/// The answer to a packet that is to be delivered, or to a wait that is to be begun.
#[derive(Clone, Copy, Debug, PartialEq, Eq)]
pub enum Begin {
    /// The next steps do it.
    Begun,
    /// A turn, a delivery or a wait is under way.
    Busy,
    /// The packet has fewer than 14 bytes, or more than 65,535.
    NoFrame,
    /// The packet leaves the frontend what that doesn't accept.
    NotAccepted,
}
