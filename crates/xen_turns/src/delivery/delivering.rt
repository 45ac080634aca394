//! A packet of the host's own, delivered to the frontend.

ghost use Rattle.std.specs.Prelude.{◌≡◌, List, ℕ, None};
ghost use Rattle.xen_netif.specs.declared.offload.RxOffload.{RxOffload};
ghost use Rattle.xen_steps.specs.Event.{Event};
ghost use Rattle.xen_rx_fill.specs.Sending.{IsTransmit};
ghost use Rattle.xen_turns.specs.Delivered.{IsDeliverable, IsDelivery, is_frame};
ghost use Rattle.xen_turns.specs.Deliveries.{arrival};
ghost use Rattle.xen_turns.specs.declared.wiring.Wiring.{Wiring as WiringView};

use crate::decisions::{after_slots, halted};
use crate::state::State;
use crate::turn::Halt;
use xen_rx_fill::TransmitOutcome;

/// The fate of a packet that the host delivers.
#[derive(Clone, Copy, Debug, PartialEq, Eq)]
pub enum Delivery {
    /// It lies in the buffers of `slots` rx slots.
    Sent { slots: u32 },
    /// The frontend posted fewer rx slots than the packet takes. None was taken.
    FewSlots,
    /// A posted slot's grant failed its check, and `slots` slots were answered with ERROR.
    Refused { slots: u32 },
    /// The queue has halted, and stays so.
    Halted { cause: Halt },
    /// It has fewer than 14 bytes, or more than 65,535. Nothing was done.
    NoFrame,
    /// It leaves the frontend what that doesn't accept. Nothing was done.
    NotAccepted,
}

/// Returns whether a packet can be delivered.
pub fn can_be_delivered(packet: &[u8]) -> bool
    ensures { result ≡ is_frame packet.now }
{
    !(packet.len() < 14 || packet.len() > 65_535)
}

/// Returns what a transmit of the host's packet came to.
pub fn delivered(state: &State, outcome: TransmitOutcome) -> (State, Delivery)
    ensures arrival { arrival state.now outcome ≡ (result.0, result.1) }
    ensures rows { (w : WiringView) (o : RxOffload) (packet : List ℕ) (p : List Event) → IsDeliverable w.accepts o packet
        → state.now.halt ≡ None → IsTransmit w.vif state.now.rx_index o packet p outcome
        → IsDelivery w state.now o packet p result.0 result.1 }
{
    match outcome {
        TransmitOutcome::Overflow => {
            let cause = Halt::RxProducer;
            (halted(state, cause), Delivery::Halted { cause })
        }
        TransmitOutcome::TooFew => (*state, Delivery::FewSlots),
        TransmitOutcome::Refused(slots) => (after_slots(state, slots), Delivery::Refused { slots }),
        TransmitOutcome::Sent(slots) => (after_slots(state, slots), Delivery::Sent { slots }),
    }
}
