//! Netback's queue: each packet of another domain is copied, a verified program runs on the copy, and the packet is
//! answered; and packets of the host's own are delivered to that domain.
//!
//! - `queue`: a queue and all of its calls
//! - `by_event`: a turn one event at a time; what a queue wants (`wanting`), what it does with an answer (`feeding`), and a
//!   file for each part of a turn: `looking`, `copying`, `executing`, `sent`, `answering`, `ending`
//! - `in_one_go`: a turn, a delivery and a wait over a bus, by the engine of `xen_host`
//! - `delivery`: a packet of the host's own by event, and waiting for slots
//! - `desc`, `copy_buf`: what these work on; `shown`: the turn that a host is shown
//!
//! What a turn is stands in `xen_turns`, and how it is taken over a bus in `xen_host`. `Rest` is what is left of it at a stage.
#![tactic(auto)]

mod by_event;
mod copy_buf;
mod delivery;
mod desc;
mod in_one_go;
mod queue;
mod shown;

pub use bpf_vm::Action;
pub use delivery::underway::Delivering;
pub use delivery::wait_stage::Awaiting;
pub use desc::QueueDesc;
pub use queue::Queue;
pub use xen_rx_fill::{RxPacket, Vif, slots_of};
pub use xen_steps::{Answer, Want};
pub use xen_turns::{Awaited, Delivery, Halt, Kind, PacketRefusal, State, Turn, Wiring};
