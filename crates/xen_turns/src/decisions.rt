//! What a turn, a delivery and a wait decide: the status and the response of a slot, the state after it, and what the host gets as the answer.

ghost use Rattle.std.specs.Prelude.{◌≡◌, ◌≤◌, [], List, Option, Some, length, ℕ};
ghost use Rattle.xen_turns.specs.Rest.{after_reply};
ghost use Rattle.xen_turns.specs.Tree.{after_slots as after_slots_spec, after_transmit, answered, response as response_spec, status_of};
ghost use Rattle.xen_turns.specs.declared.wiring.Wiring.{Wiring as WiringView};
ghost use Rattle.xen_netif.specs.Chain.{Slot};
ghost use Rattle.xen_netif.specs.declared.tx.TxReq.{TxReq};
ghost use Rattle.xen_steps.specs.Places.{add32};

pub use crate::delivery::delivering::{can_be_delivered, delivered};
pub use crate::delivery::wait::wait_answer;
use crate::state::State;
use crate::turn::{Halt, Kind, PacketRefusal};
use bpf_vm::{XDP_DROP, XDP_PASS, XDP_TX};
use xen_netif::{Chain, Status, TxReq, TxRsp};
use xen_rx_fill::TransmitOutcome;

/// The status of the responses to a packet that isn't sent back, by the number that the program ended with.
pub fn status(number: u32) -> Status
    ensures { result ≡ status_of number }
{
    match number {
        XDP_PASS => Status::Okay,
        XDP_DROP => Status::Dropped,
        _ => Status::Error,
    }
}

/// The first word of the response to a slot. A slot without a request is an extra.
pub fn response(status: Status, request: &Option<TxReq>) -> u32
    ensures { result ≡ response_spec status request.now }
{
    let response = match request {
        Some(request) => TxRsp {
            id: request.id,
            status: status.code(),
        },
        None => TxRsp {
            id: 0,
            status: Status::Null.code(),
        },
    };
    response.words()[0]
}

/// The index of the slot that a chain wants.
pub fn slot_index(state: &State, chain: &Chain) -> u32
    ensures { result ≡ add32 state.now.tx_index (length chain.now) }
{
    state.tx_index.wrapping_add(chain.len() as u32)
}

/// The state after `n` tx slots are answered.
pub fn after_answers(state: &State, n: u32) -> State
    ensures { result ≡ answered state.now n }
{
    State {
        tx_index: state.tx_index.wrapping_add(n),
        rx_index: state.rx_index,
        halt: state.halt,
    }
}

/// The state after `n` rx slots are answered.
pub fn after_slots(state: &State, n: u32) -> State
    ensures { result ≡ after_slots_spec state.now n }
{
    State {
        tx_index: state.tx_index,
        rx_index: state.rx_index.wrapping_add(n),
        halt: state.halt,
    }
}

/// A state that has halted.
pub fn halted(state: &State, cause: Halt) -> State
    ensures { result ≡ record state.now { halt = Some cause } }
{
    State {
        tx_index: state.tx_index,
        rx_index: state.rx_index,
        halt: Some(cause),
    }
}

/// The responses to a chain: the state that they begin at, their status, and the turn that they end.
#[derive(Clone, Copy, Debug, PartialEq, Eq)]
pub struct Reply {
    pub at: State,
    pub status: Status,
    pub kind: Kind,
}

/// Returns what follows a transmit: an answer to the packet's chain, or a halt.
#[inline(always)]
pub fn after_sending(
    state: &State,
    ops: u32,
    slots: u32,
    outcome: TransmitOutcome,
) -> Result<Reply, Halt>
    ensures { (w : WiringView) → (chain : List Slot) → (packet : List ℕ) → length chain ≡ slots →
        after_transmit w state.now chain packet ops outcome ≡ after_reply w state.now chain packet result }
{
    match outcome {
        TransmitOutcome::Overflow => Err(Halt::RxProducer),
        TransmitOutcome::TooFew => Ok(Reply {
            at: *state,
            status: Status::Error,
            kind: Kind::Refused {
                cause: PacketRefusal::FewSlots,
                ops,
                slots,
            },
        }),
        TransmitOutcome::Refused(used) => Ok(Reply {
            at: after_slots(state, used),
            status: Status::Error,
            kind: Kind::Refused {
                cause: PacketRefusal::RxGrant,
                ops,
                slots,
            },
        }),
        TransmitOutcome::Sent(used) => Ok(Reply {
            at: after_slots(state, used),
            status: Status::Okay,
            kind: Kind::Ran {
                number: XDP_TX,
                ops,
                slots,
            },
        }),
    }
}
