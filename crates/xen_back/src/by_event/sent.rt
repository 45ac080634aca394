//! Sending a packet back: a transmit, and the answer to the packet's chain.

ghost use Rattle.std.specs.Prelude.{◌≡◌, ◌≤◌, List, ℕ, length};
ghost use Rattle.xen_back.specs.Rest.{rest_at, rest_in};
ghost use Rattle.xen_netif.specs.declared.offload.RxOffload.TheVariants.{Whole};
ghost use Rattle.xen_rx_fill.specs.Rest.{rest_after, rest_of};
ghost use Rattle.xen_steps.specs.Steps.{bind, next_by, want_of};
ghost use Rattle.xen_turns.specs.Tree.{after_transmit, send};
ghost use Rattle.xen_back.specs.declared.by_event.stage.Stage.TheVariants as stages;
ghost use Rattle.xen_turns.specs.declared.state.State.{State as StateView};
ghost use Rattle.xen_turns.specs.declared.wiring.Wiring.{Wiring as WiringView};

use crate::by_event::answering::begin_answers;
use crate::by_event::looking::halt;
use crate::by_event::phase::Phase;
use crate::by_event::stage::{Stage, Transmitting};
use crate::copy_buf::CopyBuf;
use xen_host::Room;
use xen_netif::{Chain, RxOffload};
use xen_rx_fill::{Progress, RxPacket, Transmit, TransmitOutcome};
use xen_steps::Want;
use xen_turns::decisions::{Reply, after_sending};
use xen_turns::{State, Wiring};

/// After a run that ended in TX.
pub(crate) fn begin_send(chain: Chain, ops: u32) -> Transmitting
    ensures { (w : WiringView) (s : StateView) (packet : List ℕ) → rest_in w s (stages.Send packet result) ≡ send w s chain packet ops }
{
    Transmitting {
        chain,
        transmit: Transmit::begin(),
        ops,
    }
}

/// The packet, which leaves the frontend nothing to do.
fn whole<'t>(packet: &'t CopyBuf<'_>) -> RxPacket<'t>
    ensures offload { result.offload ≡ Whole }
    ensures same { result.bytes.now ≡ packet.now }
    ensures short { length result.bytes.now ≤ 65535 }
{
    RxPacket {
        offload: RxOffload::Whole,
        bytes: packet.bytes(),
    }
}

/// Returns what a transmit wants.
pub(crate) fn sent_want(
    wiring: &Wiring,
    state: &State,
    packet: &CopyBuf,
    sent: &Transmitting,
) -> Want
    ensures { result ≡ want_of (bind (rest_of wiring.now.vif state.now.rx_index Whole packet.now sent.now.transmit.phase)
        (after_transmit wiring.now state.now sent.now.chain packet.now sent.now.ops)) }
{
    sent.transmit
        .want(&wiring.vif, state.rx_index, &whole(packet))
}

/// After an event of a transmit.
pub(crate) fn sent_fed<'p, 'b>(
    wiring: &Wiring<'p>,
    state: &State,
    packet: CopyBuf<'b>,
    sent: Transmitting,
    word: u32,
) -> Stage<'p, 'b>
    ensures { (counter : ℕ) → rest_in wiring.now state.now result
        ≡ next_by (bind (rest_of wiring.now.vif state.now.rx_index Whole packet.entry sent.transmit.phase)
        (after_transmit wiring.now state.now sent.chain packet.entry sent.ops)) word counter }
{
    let Transmitting {
        chain,
        transmit,
        ops,
    } = sent;
    let progress = transmit.feed(&wiring.vif, state.rx_index, &whole(&packet), word);
    progressed(state, packet, chain, ops, progress)
}

/// After an event of a transmit that came so far.
fn progressed<'p, 'b>(
    state: &State,
    packet: CopyBuf<'b>,
    chain: Chain,
    ops: u32,
    progress: Progress,
) -> Stage<'p, 'b>
    ensures { (w : WiringView) → rest_in w state.now result
        ≡ bind (rest_after w.vif state.now.rx_index Whole packet.entry progress) (after_transmit w state.now chain packet.entry ops) }
{
    match progress {
        Progress::On(transmit) => Stage::Send(
            packet,
            Transmitting {
                chain,
                transmit,
                ops,
            },
        ),
        Progress::Over(outcome) => Stage::At(packet, transmitted(state, &chain, ops, outcome)),
    }
}

/// After the transmit.
fn transmitted(state: &State, chain: &Chain, ops: u32, outcome: TransmitOutcome) -> Phase
    ensures { (w : WiringView) (packet : List ℕ) → rest_at w state.now packet result
        ≡ after_transmit w state.now chain.now packet ops outcome }
{
    let slots = chain.requests().len() as u32;
    match after_sending(state, ops, slots, outcome) {
        Err(cause) => halt(state, cause),
        Ok(Reply { at, status, kind }) => begin_answers(at, chain, status, kind),
    }
}
