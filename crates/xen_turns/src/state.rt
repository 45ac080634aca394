//! What a queue is between turns.

use crate::turn::Halt;

/// A queue between turns.
#[derive(Clone, Copy, Debug, PartialEq, Eq)]
pub struct State {
    /// The index up to which tx requests are answered.
    pub tx_index: u32,
    /// The index up to which rx requests are answered.
    pub rx_index: u32,
    /// The reason why the queue has halted, if it has.
    pub halt: Option<Halt>,
}
