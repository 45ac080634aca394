//! A transmit under way; `stepping` has its calls, one event at a time.

mod stepping;

ghost use Rattle.std.specs.Prelude.{IsTrue};
ghost use Rattle.xen_rx_fill.specs.Going.{is_going};

use crate::by_event::phase::{Phase, TransmitOutcome};

/// A transmit that isn't over.
#[derive(Drop)]
pub struct Transmit {
    pub(crate) phase: Phase,
    ghost going: { IsTrue (is_going phase) },
}

/// A transmit after an event.
#[derive(Drop)]
pub enum Progress {
    On(Transmit),
    Over(TransmitOutcome),
}
