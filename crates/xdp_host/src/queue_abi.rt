//! What crosses to C of a queue. `include/laxonje.h` has these structs in the same order, and these numbers.
ghost use Rattle.std.specs.Prelude.{◌≡◌};
ghost use Rattle.xdp_host.specs.Begins.{begin_number};
ghost use Rattle.xdp_host.specs.Ops.{no_state, state_of};

use xen_host::{Begin, State};

/// The parts of a queue beside its lists: the frames of its rings, two domains, a port, what the program is told, and the indices
/// at which the rings are gone on with.
#[repr(C)]
#[derive(Clone, Copy, Drop)]
pub struct XdpQueueDesc {
    pub tx: u32,
    pub rx: u32,
    pub granter: u16,
    pub user: u16,
    pub port: u32,
    pub ifindex: u32,
    pub queue: u32,
    pub tx_index: u32,
    pub rx_index: u32,
}

/// The state of a queue between two turns.
#[repr(C)]
#[derive(Clone, Copy, Drop)]
pub struct XdpQueueState {
    pub kind: u32,
    pub tx_index: u32,
    pub rx_index: u32,
    pub halt: u32,
}

impl XdpQueueState {
    /// There is no queue, or it is inside a turn.
    pub fn none() -> XdpQueueState
        ensures { result ≡ no_state }
    {
        XdpQueueState {
            kind: 0,
            tx_index: 0,
            rx_index: 0,
            halt: 0,
        }
    }

    /// A queue that goes on, or has halted.
    pub fn of(state: State) -> XdpQueueState
        ensures { result ≡ state_of state }
    {
        let (kind, halt) = match state.halt {
            None => (1, 0),
            Some(cause) => (2, u32::from(cause.number())),
        };
        XdpQueueState {
            kind,
            tx_index: state.tx_index,
            rx_index: state.rx_index,
            halt,
        }
    }
}

/// The answer of a call that begins something if there is no queue.
pub const NO_QUEUE: u32 = 1;

/// The answer to a wait for more slots than a ring has.
pub const TOO_MANY_SLOTS: u32 = 4;

/// Returns what C is told of what is to be begun.
pub fn begin_number(answer: Begin) -> u32
    ensures { result ≡ begin_number answer }
{
    match answer {
        Begin::Begun => 0,
        Begin::Busy => 2,
        Begin::NoFrame => 3,
        Begin::NotAccepted => 6,
    }
}
