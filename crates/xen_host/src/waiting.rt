//! Waiting for rx slots: the end of `ring.h`'s final check, for as many requests as a packet has pages.

ghost use Rattle.std.specs.Prelude.{◌≡◌, ◌≤◌, ℕ, List, length};
ghost use Rattle.xen_steps.specs.Places.{available};
ghost use Rattle.xen_steps.specs.Steps.{done};
ghost use Rattle.xen_turns.specs.Waits.{wait_end, whole_wait};
ghost use Rattle.xen_host.specs.HostLed.{WaitLeads};
ghost use Rattle.xen_turns.specs.declared.wiring.Wiring.{Wiring};
ghost use Rattle.xen_host.specs.EngineAt.{engine_at};

use crate::engine::Engine;
use crate::host::Host;
use crate::stage::Stage;
use crate::wires::Wires;
use xen_ring::{REQ_EVENT, REQ_PROD};
use xen_steps::{header, requests_shown};
use xen_turns::decisions::wait_answer;
use xen_turns::{Awaited, State};

impl Engine {
    /// A wait begins.
    #[inline(always)]
    pub(crate) fn wait_begun<W: Wires, H: Host>(&mut self, pages: u32, wires: &W, host: &mut H)
        requires free { H.is_free host.old }
        ensures led { (packet : List ℕ) → WaitLeads H.was_asked H.is_full self.old.offload packet (whole_wait (W.wiring
            wires.now).vif.rx self.old.state pages) (engine_at (W.wiring wires.now) packet self.new) host.old host.new }
    {
        if let Some(cause) = self.state.halt {
            let state = self.state;
            return self.end_wait(state, Awaited::Halted { cause }, host);
        }
        self.stage = Stage::WaitLook { pages };
        let index = self.state.rx_index.wrapping_add(pages);
        host.push(header(wires.rx(), REQ_EVENT), index, REQ_PROD)
    }

    /// After the event index of a wait.
    #[inline(always)]
    pub(crate) fn wait_looked<H: Host>(&mut self, pages: u32, producer: u32, host: &mut H)
        requires free { H.is_free host.old }
        ensures led { (w : Wiring) (packet : List ℕ) → WaitLeads H.was_asked H.is_full self.old.offload packet (done (wait_end
            self.old.state pages (available self.old.state.rx_index producer))) (engine_at w packet self.new) host.old host.new }
    {
        let (after, awaited) = wait_answer(
            &self.state,
            pages,
            requests_shown(self.state.rx_index, producer),
        );
        self.end_wait(after, awaited, host)
    }

    /// A wait is over.
    #[inline(always)]
    fn end_wait<H: Host>(&mut self, after: State, awaited: Awaited, host: &mut H)
        requires free { H.is_free host.old }
        ensures led { (w : Wiring) (packet : List ℕ) → WaitLeads H.was_asked H.is_full self.old.offload packet (done (after, awaited))
            (engine_at w packet self.new) host.old host.new }
    {
        self.state = after;
        self.stage = Stage::Ready;
        host.awaited(awaited)
    }
}
