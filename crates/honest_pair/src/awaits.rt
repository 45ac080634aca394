//! What the back has asked of the front.

/// The posted buffers of which the back is to be told: `pages` rx slots from `index` on.
#[derive(Clone, Copy, Debug, PartialEq, Eq)]
pub enum Awaits {
    /// None, or a notice was taken since.
    Nothing,
    /// The event index is stored, and the producer isn't read again yet.
    Asked { index: u32, pages: u32 },
    /// The producer was read after that, and fewer were posted.
    Fewer { index: u32, pages: u32 },
}
