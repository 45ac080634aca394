//! What the host does.

/// The host's answer to a packet that the program passes on to it.
#[derive(Clone, Copy, Debug, PartialEq, Eq, Drop)]
pub enum OnPass {
    /// It takes the packet.
    Takes,
    /// It takes the packet and answers it with one of its own, which is delivered to the front: the same packet, with the two
    /// addresses of its header exchanged.
    Answers,
}
