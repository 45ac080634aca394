//! The responses to rx slots, the push, and a notice if one is due.

ghost use Rattle.std.specs.Prelude.{◌≡◌, ◌<◌, ◌≤◌, [], drop, length, true, ℕ, List};
ghost use Rattle.xen_ring.specs.Index.{is_due};
ghost use Rattle.xen_steps.specs.Places.{add32};
ghost use Rattle.xen_steps.specs.Steps.{done};
ghost use Rattle.xen_rx_fill.specs.Transmit.{outcome_of, rx_answer, rx_notice, rx_publish};
ghost use Rattle.xen_host.specs.Early.{is_late};
ghost use Rattle.xen_host.specs.Chained.{reply};
ghost use Rattle.xen_host.specs.EngineAt.{engine_at};
ghost use Rattle.xen_host.specs.HostLed.{FillLeads, HasReplied};
ghost use Rattle.xen_host.specs.Led.{beside};
ghost use Rattle.xen_host.specs.Rest.{rx_offload};

use crate::engine::Engine;
use crate::host::Host;
use crate::room::Room;
use crate::stage::{Fill, Purpose, Stage};
use crate::wires::Wires;
use xen_ring::{RSP_EVENT, RSP_PROD, due};
use xen_rx_fill::{Grants, TransmitOutcome};
use xen_steps::{header, rx_entry};

/// Returns what a transmit comes to that used `used` slots.
#[inline(always)]
fn outcome_of(grants: Grants, used: u32) -> TransmitOutcome
    ensures { result ≡ outcome_of grants used }
{
    match grants {
        Grants::Passed => TransmitOutcome::Sent(used),
        Grants::Refused => TransmitOutcome::Refused(used),
    }
}

impl Engine {
    /// Says the i-th response.
    #[inline(always)]
    fn say_reply<W: Wires, H: Host, R: Room>(
        &self,
        purpose: Purpose,
        grants: Grants,
        i: u32,
        wires: &W,
        packet: &R,
        host: &mut H,
    )
        requires within { i < length self.now.work.targets }
        requires free { H.is_free host.old }
        ensures asked { H.was_asked host.old (reply (W.wiring wires.now).vif self.now.state.rx_index (rx_offload purpose
            self.now.work.offload) (R.held packet.now)
            grants self.now.work.targets i) [] host.new }
        ensures settled { H.is_settled host.new }
    {
        let [first, second] = self.response(purpose, grants, packet.bytes(), i);
        let index = self.state.rx_index.wrapping_add(i);
        host.store_two(rx_entry(wires.rx(), index, 0), first, second)
    }

    /// Says the responses from the i-th on, as far as there is room. Returns the first that is left, if there is no room before it.
    #[inline(always)]
    fn say_replies<W: Wires, H: Host, R: Room>(
        &self,
        purpose: Purpose,
        grants: Grants,
        from: u32,
        wires: &W,
        packet: &R,
        host: &mut H,
    ) -> Option<u32>
        requires within { from ≤ length self.now.work.targets }
        requires free { H.is_free host.old }
        ensures { HasReplied H.was_asked H.is_free H.is_full (engine_at (W.wiring wires.now) (R.held packet.now) self.now) (rx_offload
            purpose self.now.work.offload)
            grants from result host.old host.new }
    {
        for i in from..self.work.targets.len() {
            self.say_reply(purpose, grants, i, wires, packet, host);
            if !host.has_room() {
                return Some(i + 1);
            }
        }
        None
    }

    /// The responses from the i-th on, and the push, as far as there is room.
    #[inline(always)]
    pub(crate) fn reply_from<W: Wires, H: Host, R: Room>(
        &mut self,
        purpose: Purpose,
        grants: Grants,
        from: u32,
        wires: &W,
        packet: &R,
        host: &mut H,
    )
        requires within { from ≤ length self.old.work.targets }
        requires free { H.is_free host.old }
        ensures led { FillLeads H.was_asked H.is_full purpose (beside (engine_at (W.wiring wires.now) (R.held packet.now) self.old))
            (rx_answer (W.wiring wires.now).vif self.old.state.rx_index (rx_offload purpose self.old.work.offload) (R.held packet.now) grants (length
            self.old.work.targets) from (drop from self.old.work.targets)) (engine_at (W.wiring wires.now) (R.held packet.now) self.new) host.old host.new }
        ensures late { is_late self.new.stage ≡ true }
    {
        match self.say_replies(purpose, grants, from, wires, packet, host) {
            Some(i) => {
                self.stage = Stage::Fill {
                    fill: Fill::Respond { grants, i },
                    purpose,
                }
            }
            None => self.push_replies(purpose, grants, wires, host),
        }
    }

    /// The push of the responses.
    #[inline(always)]
    fn push_replies<W: Wires, H: Host>(
        &mut self,
        purpose: Purpose,
        grants: Grants,
        wires: &W,
        host: &mut H,
    )
        requires { H.is_free host.old }
        ensures led { (packet : List ℕ) → FillLeads H.was_asked H.is_full purpose (beside (engine_at (W.wiring wires.now) packet
            self.old)) (rx_publish (W.wiring wires.now).vif self.old.state.rx_index grants (length self.old.work.targets))
            (engine_at (W.wiring wires.now) packet self.new) host.old host.new }
        ensures late { is_late self.new.stage ≡ true }
    {
        self.stage = Stage::Fill {
            fill: Fill::Push { grants },
            purpose,
        };
        let end = self.state.rx_index.wrapping_add(self.work.targets.len());
        host.push(header(wires.rx(), RSP_PROD), end, RSP_EVENT)
    }

    /// After the rx event index.
    #[inline(always)]
    pub(crate) fn after_reply_event<W: Wires, H: Host, R: Room>(
        &mut self,
        purpose: Purpose,
        grants: Grants,
        event: u32,
        wires: &W,
        packet: &mut R,
        host: &mut H,
    )
        requires free { H.is_free host.old }
        ensures led { FillLeads H.was_asked H.is_full purpose (beside (engine_at (W.wiring wires.now) (R.held packet.old) self.old))
            (rx_notice (W.wiring wires.now).vif (is_due self.old.state.rx_index (add32 self.old.state.rx_index (length
            self.old.work.targets)) event) (outcome_of grants (length self.old.work.targets))) (engine_at (W.wiring wires.now)
            (R.held packet.new) self.new) host.old host.new }
        ensures late { is_late self.new.stage ≡ true }
    {
        let end = self.state.rx_index.wrapping_add(self.work.targets.len());
        if due(self.state.rx_index, end, event) {
            self.give_rx_notice(purpose, grants, wires, packet, host)
        } else {
            self.replied(purpose, grants, wires, packet, host)
        }
    }

    /// A notice is due.
    #[inline(always)]
    fn give_rx_notice<W: Wires, H: Host, R: Room>(
        &mut self,
        purpose: Purpose,
        grants: Grants,
        wires: &W,
        packet: &mut R,
        host: &mut H,
    )
        requires free { H.is_free host.old }
        ensures led { FillLeads H.was_asked H.is_full purpose (beside (engine_at (W.wiring wires.now) (R.held packet.old) self.old))
            (rx_notice (W.wiring wires.now).vif true (outcome_of grants (length self.old.work.targets))) (engine_at (W.wiring
            wires.now) (R.held packet.new) self.new) host.old host.new }
        ensures late { is_late self.new.stage ≡ true }
    {
        self.stage = Stage::Fill {
            fill: Fill::Notice { grants },
            purpose,
        };
        host.notify(wires.port());
        if host.has_room() {
            self.replied(purpose, grants, wires, packet, host)
        }
    }

    /// All is answered.
    #[inline(always)]
    pub(crate) fn replied<W: Wires, H: Host, R: Room>(
        &mut self,
        purpose: Purpose,
        grants: Grants,
        wires: &W,
        packet: &mut R,
        host: &mut H,
    )
        requires free { H.is_free host.old }
        ensures led { FillLeads H.was_asked H.is_full purpose (beside (engine_at (W.wiring wires.now) (R.held packet.old) self.old)) (done
            (outcome_of grants (length self.old.work.targets))) (engine_at (W.wiring wires.now) (R.held packet.new) self.new) host.old
            host.new }
        ensures late { is_late self.new.stage ≡ true }
    {
        let outcome = outcome_of(grants, self.work.targets.len());
        self.filled(purpose, outcome, wires, packet, host)
    }
}
