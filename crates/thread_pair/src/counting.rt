//! What a back's row counts.
ghost use Rattle.std.specs.Prelude.{◌≡◌, ◌<◌, ◌*◌, []};
ghost use Rattle.thread_pair.specs.Rounds.{CanCount, counted, next_of, with_delivery, with_turn};

use crate::next::Next;
use crate::report::{BackRow, Deliveries};
use xen_back::{Delivery, Turn};

impl BackRow {
    /// Nothing was done.
    pub fn new() -> BackRow
        ensures { result ≡ counted [] }
    {
        BackRow {
            copied: 0,
            refused: 0,
            halted: None,
            deliveries: Deliveries::NONE,
        }
    }

    /// Counts a turn.
    pub fn count(&mut self, turn: &Turn<'_>) -> Next
        requires room { (self.old.copied < 4294967295) × (self.old.refused < 4294967295) }
        ensures counted { self.new ≡ with_turn turn.now self.old }
        ensures next { result ≡ next_of turn.now }
    {
        match turn {
            Turn::Ran { .. } => {
                self.copied += 1;
                Next::Goes
            }
            Turn::Refused { .. } => {
                self.refused += 1;
                Next::Goes
            }
            Turn::Idle => Next::Rests,
            Turn::Halted { cause } => {
                self.halted = Some(*cause);
                Next::Ends
            }
        }
    }

    /// Counts what became of an answer. There is none of fewer than 14 bytes, or of more than 65,535.
    pub fn note(&mut self, delivery: Delivery)
        requires room { CanCount self.old.deliveries }
        ensures { self.new ≡ with_delivery delivery self.old }
    {
        match delivery {
            Delivery::Sent { .. } => self.deliveries.sent += 1,
            Delivery::FewSlots => self.deliveries.few += 1,
            Delivery::Refused { .. } => self.deliveries.refused += 1,
            Delivery::Halted { cause } => self.halted = Some(cause),
            Delivery::NoFrame | Delivery::NotAccepted => (),
        }
    }
}
