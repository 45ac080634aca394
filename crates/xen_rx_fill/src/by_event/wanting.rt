//! What a transmit wants next.

ghost use Rattle.std.specs.Prelude.{◌≡◌, ◌*◌, ◌<◌, ◌≤◌, length, drop};
ghost use Rattle.xen_rx_fill.specs.Packets.{words};
ghost use Rattle.xen_steps.specs.Places.{add32};
ghost use Rattle.xen_rx_fill.specs.Rest.{rest_of};
ghost use Rattle.xen_steps.specs.Steps.{want_of};
ghost use Rattle.xen_rx_fill.specs.Transmit.{fill_from, rx_answer};

use crate::by_event::phase::Phase;
use crate::packet::RxPacket;
use crate::target::{Grants, Targets};
use crate::vif::Vif;
use crate::words::{buffer_at, packet_word, response, words_of};
use xen_ring::{REQ_PROD, RSP_EVENT, RSP_PROD};
use xen_steps::{Want, header, rx_entry};

/// The index of the slot that is read next.
fn slot_index(rx_index: u32, targets: &Targets) -> u32
    ensures { result ≡ add32 rx_index (length targets.now) }
{
    rx_index.wrapping_add(targets.len())
}

/// Returns what a transmit in this phase wants.
pub(crate) fn phase_want(vif: &Vif, rx_index: u32, packet: &RxPacket, phase: &Phase) -> Want
    requires { length packet.now.bytes.now ≤ 65535 }
    ensures { result ≡ want_of (rest_of vif.now rx_index packet.now.offload packet.now.bytes.now phase.now) }
{
    match phase {
        Phase::Look => Want::Read(header(vif.rx, REQ_PROD)),
        Phase::First(posting) => Want::Read(rx_entry(
            vif.rx,
            slot_index(rx_index, &posting.targets),
            0,
        )),
        Phase::Second(posting, _) => Want::Read(rx_entry(
            vif.rx,
            slot_index(rx_index, &posting.targets),
            1,
        )),
        Phase::EntryFlags(granting) => Want::Read(granting.at),
        Phase::EntryFrame { granting, .. } => Want::Read(granting.at.next()),
        Phase::Filling { targets, k } => filling_want(vif, rx_index, packet, targets, *k),
        Phase::Response { grants, targets, i } => {
            response_want(vif, rx_index, packet, *grants, targets, *i)
        }
        Phase::HalfResponse(responding) => {
            let response = response(responding.grants, packet, &responding.targets, responding.i);
            Want::Write(
                rx_entry(vif.rx, rx_index.wrapping_add(responding.i), 1),
                response[1],
            )
        }
        Phase::ReadEvent { .. } => Want::Read(header(vif.rx, RSP_EVENT)),
        Phase::Notice { .. } => Want::Notify(vif.port),
        Phase::Over(_) => Want::Done,
    }
}

/// The next word of the packet, or the first response if all words are written.
fn filling_want(vif: &Vif, rx_index: u32, packet: &RxPacket, targets: &Targets, k: u32) -> Want
    requires { length packet.now.bytes.now ≤ 65535 }
    ensures { result ≡ want_of (fill_from vif.now rx_index packet.now.offload packet.now.bytes.now targets.now k) }
{
    if k < words_of(packet.bytes) {
        Want::Write(
            buffer_at(&packet.offload, targets, k),
            packet_word(packet.bytes, k),
        )
    } else {
        response_want(vif, rx_index, packet, Grants::Passed, targets, 0)
    }
}

/// The first word of the next response, or the push if all are written.
fn response_want(
    vif: &Vif,
    rx_index: u32,
    packet: &RxPacket,
    grants: Grants,
    targets: &Targets,
    i: u32,
) -> Want
    requires { length packet.now.bytes.now ≤ 65535 }
    ensures { result ≡ want_of (rx_answer vif.now rx_index packet.now.offload packet.now.bytes.now grants (length targets.now) i
        (drop i targets.now)) }
{
    let n = targets.len();
    if i < n {
        let response = response(grants, packet, targets, i);
        Want::Write(rx_entry(vif.rx, rx_index.wrapping_add(i), 0), response[0])
    } else {
        Want::Write(header(vif.rx, RSP_PROD), rx_index.wrapping_add(n))
    }
}
