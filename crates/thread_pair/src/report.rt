//! What the queues did.

use bpf_maps::Totals;
use xen_back::Halt;

/// The fate of the host's answers to packets that the program passed on.
#[derive(Clone, Copy, Debug, PartialEq, Eq)]
pub struct Deliveries {
    /// Answers that lie in buffers of the front.
    pub sent: u64,
    /// Answers for which the front had posted too few buffers. They are lost.
    pub few: u64,
    /// Answers for which a posted buffer's grant failed its check. They are lost.
    pub refused: u64,
}

impl Deliveries {
    /// No answer was delivered.
    pub const NONE: Deliveries = Deliveries {
        sent: 0,
        few: 0,
        refused: 0,
    };
}

/// The report of a back: the packets that were copied, on which the program ran, those that were refused, why it has halted, if it
/// has, and what became of the host's answers.
#[derive(Clone, Copy, Debug, PartialEq, Eq)]
pub(crate) struct BackRow {
    pub copied: u64,
    pub refused: u64,
    pub halted: Option<Halt>,
    pub deliveries: Deliveries,
}

/// The report of a front: the packets that it sent, and those that came to it.
#[derive(Clone, Copy, Debug, PartialEq, Eq)]
pub(crate) struct FrontRow {
    pub sent: u64,
    pub received: u64,
}

/// The report of one queue.
#[derive(Clone, Copy, Debug, PartialEq, Eq)]
pub struct PairRow {
    /// Packets that the front sent.
    pub sent: u64,
    /// Packets that the back copied, and on which the program ran.
    pub copied: u64,
    /// Packets that the back refused.
    pub refused: u64,
    /// The reason why the back has halted, if it has.
    pub halted: Option<Halt>,
    /// Packets that came to the front: those that the program sent back, and the host's answers.
    pub received: u64,
    /// The fate of the host's answers.
    pub deliveries: Deliveries,
}

/// The reports of all queues, in their order, and the counters that they leave.
#[derive(Drop)]
pub struct PairReport {
    pub rows: Vec<PairRow>,
    pub totals: Totals,
}
