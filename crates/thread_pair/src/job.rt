//! What a run of pairs is given.

use crate::shared::Shared;
use bpf_verify::Verified;
use xdp_load::Listed;

/// The work of the threads of a run, and those who hear of it.
#[derive(Drop)]
pub struct Job<'a, G, I> {
    /// The queues, the packets that each front sends, and the lists of the program's maps.
    pub listed: &'a Listed,
    pub program: &'a Verified,
    /// The most turns that a back makes.
    pub turns: u32,
    /// The gate that each back passes before a turn.
    pub gate: &'a G,
    /// The inbox that is given each packet that comes back to a front.
    pub inbox: &'a I,
    /// The bytes of a front thread's stack.
    pub stack: usize,
    pub shared: &'a Shared,
}
