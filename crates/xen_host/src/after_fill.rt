//! After a packet went into rx buffers, or couldn't: one that was sent back, and one of the host's own.

ghost use Rattle.std.specs.Prelude.{◌≡◌, ℕ, List, true};
ghost use Rattle.xen_steps.specs.Steps.{done, next};
ghost use Rattle.xen_turns.specs.Deliveries.{unless_halted};
ghost use Rattle.xen_turns.specs.Tree.{after_transmit};
ghost use Rattle.xen_host.specs.Early.{is_late};
ghost use Rattle.xen_host.specs.HostLed.{DeliveryLeads, FillLeads, TurnLeads};
ghost use Rattle.xen_host.specs.Led.{beside};
ghost use Rattle.xen_turns.specs.declared.wiring.Wiring.{Wiring};
ghost use Rattle.xen_host.specs.EngineAt.{engine_at};

use crate::engine::Engine;
use crate::host::Host;
use crate::room::Room;
use crate::stage::{Purpose, Stage};
use crate::wires::Wires;
use xen_rx_fill::TransmitOutcome;
use xen_turns::decisions::{after_sending, delivered};
use xen_turns::{Delivery, State};

impl Engine {
    /// After a packet went into rx buffers, or couldn't.
    #[inline(always)]
    pub(crate) fn filled<W: Wires, H: Host, R: Room>(
        &mut self,
        purpose: Purpose,
        outcome: TransmitOutcome,
        wires: &W,
        packet: &mut R,
        host: &mut H,
    )
        requires free { H.is_free host.old }
        ensures led { FillLeads H.was_asked H.is_full purpose (beside (engine_at (W.wiring wires.now) (R.held packet.old) self.old)) (done
            outcome) (engine_at (W.wiring wires.now) (R.held packet.new) self.new) host.old host.new }
        ensures late { is_late self.new.stage ≡ true }
    {
        match purpose {
            Purpose::Back { ops: counted } => self.sent(counted, outcome, wires, packet, host),
            Purpose::Delivery => {
                let (after, delivery) = delivered(&self.state, outcome);
                self.end_delivery(after, delivery, host)
            }
        }
    }

    /// After a packet was sent back.
    #[inline(always)]
    fn sent<W: Wires, H: Host, R: Room>(
        &mut self,
        counted: u32,
        outcome: TransmitOutcome,
        wires: &W,
        packet: &mut R,
        host: &mut H,
    )
        requires free { H.is_free host.old }
        ensures led { TurnLeads H.was_asked H.is_full self.old.offload (after_transmit (W.wiring wires.now)
            self.old.state
            self.old.work.chain (R.held packet.old) counted outcome) (engine_at (W.wiring wires.now) (R.held packet.new) self.new) host.old host.new }
        ensures late { is_late self.new.stage ≡ true }
    {
        let slots = self.work.chain.len() as u32;
        match after_sending(&self.state, counted, slots, outcome) {
            Err(cause) => self.halt(cause, packet, host),
            Ok(answer) => self.respond(answer, wires, host),
        }
    }

    /// A delivery begins, with what was read of the rx producer. A halted queue has no use of it.
    #[inline(always)]
    pub(crate) fn start_delivery<W: Wires, H: Host, R: Room>(
        &mut self,
        producer: u32,
        wires: &W,
        packet: &mut R,
        host: &mut H,
    )
        requires free { H.is_free host.old }
        ensures led { DeliveryLeads H.was_asked H.is_full self.old.offload (R.held packet.old) (next (unless_halted (W.wiring wires.now).vif
            self.old.state self.old.work.offload (R.held packet.old) self.old.state.halt) producer) (engine_at (W.wiring wires.now) (R.held packet.new) self.new) host.old
            host.new }
    {
        match self.state.halt {
            Some(cause) => {
                let state = self.state;
                self.end_delivery(state, Delivery::Halted { cause }, host)
            }
            None => self.found(Purpose::Delivery, producer, wires, packet, host),
        }
    }

    /// A delivery is over.
    #[inline(always)]
    fn end_delivery<H: Host>(&mut self, after: State, delivery: Delivery, host: &mut H)
        requires free { H.is_free host.old }
        ensures led { (w : Wiring) (packet : List ℕ) → DeliveryLeads H.was_asked H.is_full self.old.offload packet (done (
          after,
          delivery,
        )) (engine_at w packet self.new) host.old host.new }
        ensures late { is_late self.new.stage ≡ true }
    {
        self.state = after;
        self.stage = Stage::Ready;
        host.delivered(delivery)
    }
}
