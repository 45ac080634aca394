//! The result of a turn.

ghost use Rattle.std.specs.Prelude.{◌≡◌};
ghost use Rattle.xen_turns.specs.Causes.{halt_number, refusal_number};

use bpf_vm::Action;
use xen_netif::{ChainFault, SizeFault};

/// The reason why a queue has halted.
#[derive(Clone, Copy, Debug, PartialEq, Eq)]
pub enum Halt {
    /// The tx ring's producer is more than a whole ring ahead.
    TxProducer,
    /// A chain wants a slot that the producer didn't show.
    ShortChain,
    /// A slot can't continue its chain.
    Chain(ChainFault),
    /// The rx ring's producer is more than a whole ring ahead.
    RxProducer,
}

/// The reason why a packet is refused.
#[derive(Clone, Copy, Debug, PartialEq, Eq)]
pub enum PacketRefusal {
    /// The chain has an extra, or its sizes are wrong.
    Size(SizeFault),
    /// A fragment's grant failed its check.
    Grant,
    /// The frontend posted fewer rx slots than the packet needs.
    FewSlots,
    /// A posted rx slot's grant failed its check.
    RxGrant,
}

/// A turn. It borrows the packet from the queue's buffer, so the queue can't go on while the packet is in use.
#[derive(Debug, PartialEq, Eq, Drop)]
pub enum Turn<'t> {
    /// The ring had no request.
    Idle,
    /// A packet was copied, and the program ran on it.
    Ran {
        action: Action,
        number: u32,
        packet: &'t [u8],
        ops: u32,
        slots: u32,
    },
    /// The packet was refused, and its slots were answered with ERROR.
    Refused {
        cause: PacketRefusal,
        ops: u32,
        slots: u32,
    },
    /// The queue has halted, and stays so.
    Halted {
        cause: Halt,
    },
}

/// A turn without its packet.
#[derive(Clone, Copy, Debug, PartialEq, Eq)]
pub enum Kind {
    Idle,
    Ran {
        ops: u32,
        number: u32,
        slots: u32,
    },
    Refused {
        cause: PacketRefusal,
        ops: u32,
        slots: u32,
    },
    Halted {
        cause: Halt,
    },
}

impl Halt {
    /// The cause's number in reports.
    pub fn number(self) -> u8
        ensures { result ≡ halt_number self }
    {
        match self {
            Halt::TxProducer => 1,
            Halt::ShortChain => 2,
            Halt::Chain(fault) => fault.number(),
            Halt::RxProducer => 6,
        }
    }
}

impl PacketRefusal {
    /// The cause's number in reports.
    pub fn number(self) -> u8
        ensures { result ≡ refusal_number self }
    {
        match self {
            PacketRefusal::Size(fault) => fault.number(),
            PacketRefusal::Grant => 4,
            PacketRefusal::FewSlots => 6,
            PacketRefusal::RxGrant => 7,
        }
    }
}
