//! Where the packets go that come to a front.

/// Takes the packets that come to a front, in order: those that the program sent back, and the host's answers.
pub trait Inbox {
    /// Takes a packet that came to the front of queue number `queue`. The front goes on once this returns.
    fn take(&self, queue: usize, packet: &[u8]);
}

/// An inbox that keeps no packet.
#[derive(Drop)]
pub struct Discard;

impl Inbox for Discard {
    fn take(&self, _queue: usize, _packet: &[u8]) {}
}
