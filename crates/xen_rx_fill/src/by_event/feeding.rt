//! A transmit after an answer.

ghost use Rattle.std.specs.Prelude.{◌≡◌, ◌≤◌, length};
ghost use Rattle.xen_netif.specs.declared.rx.RxReq.{RxReq};
ghost use Rattle.xen_rx_fill.specs.Rest.{rest_of};
ghost use Rattle.xen_steps.specs.Steps.{next_by};

use crate::by_event::phase::Phase;
use crate::by_event::reading::{after_entry, after_first, after_flags, found, requested};
use crate::by_event::writing::{after_event, after_response, filled, outcome, responded};
use crate::packet::RxPacket;
use crate::vif::Vif;
use xen_netif::RxReq;
use xen_steps::requests_shown;

/// The transmit after an answer.
pub(crate) fn phase_fed(
    vif: &Vif,
    rx_index: u32,
    packet: &RxPacket,
    phase: Phase,
    word: u32,
) -> Phase
    requires { length packet.now.bytes.now ≤ 65535 }
    ensures { rest_of vif.now rx_index packet.now.offload packet.now.bytes.now result
        ≡ next_by (rest_of vif.now rx_index packet.now.offload packet.now.bytes.now phase) word 0 }
{
    match phase {
        Phase::Look => found(packet, requests_shown(rx_index, word)),
        Phase::First(posting) => after_first(posting, word),
        Phase::Second(posting, a) => requested(
            vif,
            &packet.offload,
            posting,
            RxReq::of_words([a, word]),
        ),
        Phase::EntryFlags(granting) => after_flags(granting, word),
        Phase::EntryFrame {
            granting,
            flags_word,
        } => after_entry(vif, granting, flags_word, word),
        Phase::Filling { targets, k } => filled(packet.bytes, targets, k),
        Phase::Response { grants, targets, i } => responded(grants, targets, i),
        Phase::HalfResponse(responding) => after_response(responding),
        Phase::ReadEvent { grants, n } => after_event(rx_index, grants, n, word),
        Phase::Notice { grants, n } => Phase::Over(outcome(grants, n)),
        Phase::Over(o) => Phase::Over(o),
    }
}
