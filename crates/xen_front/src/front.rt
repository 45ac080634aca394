//! A front, and all of its calls: how it is made (`making`), those that begin an activity (`beginning`), and those that make it (`calls`).

mod beginning;
mod calls;
mod making;

ghost use Rattle.xen_front.specs.Rest.{HasSpace};
ghost use Rattle.xen_front.specs.Short.{IsShort, IsShort-prop};
ghost use Rattle.xen_buffers.specs.Wired.{IsWired};

use crate::by_event::phase::Phase;
use crate::packet::Packet;
use crate::state::FrontState;
use xen_buffers::FrontWiring;

/// Netfront's queue. It takes one activity at a time, a send, a post or a poll, and makes it one event at a time.
#[derive(Drop)]
pub struct Front<'p> {
    pub(crate) wiring: FrontWiring<'p>,
    pub(crate) state: FrontState,
    /// The packet that is being sent.
    pub(crate) sent: Packet,
    /// The bytes that were received so far.
    pub(crate) received: Packet,
    pub(crate) phase: Phase,
    ghost space: { HasSpace phase received },
    ghost wired: { IsWired wiring },
    ghost short: { IsShort wiring state sent received phase } by { IsShort-prop wiring state sent received phase },
}
