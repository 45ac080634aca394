//! What a queue works with.

ghost use Rattle.std.specs.Prelude.{true, ◌≡◌};
ghost use Rattle.xen_steps.specs.Steps.{done};
ghost use Rattle.xen_turns.specs.Tree.{halted as halted_spec};
ghost use Rattle.xen_turns.specs.Turned.{turned};
ghost use Rattle.xen_turns.specs.declared.wiring.Wiring.{Wiring};
ghost use Rattle.xen_host.specs.Early.{is_late};
ghost use Rattle.xen_host.specs.EngineAt.{engine_at};
ghost use Rattle.xen_host.specs.HostLed.{TurnLeads};
ghost use Rattle.xen_host.specs.Led.{packet_after};

use crate::host::Host;
use crate::offload::Offload;
use crate::room::Room;
use crate::stage::Stage;
use crate::work::Work;
use xen_turns::decisions::halted;
use xen_turns::{Halt, Kind, State};

/// The engine of a queue. Each of its steps is made by a function that sets the stage and says what leads there. What it is wired
/// to and the room of its packet are lent to each.
#[derive(Drop)]
pub struct Engine {
    pub(crate) state: State,
    pub(crate) stage: Stage,
    /// The work that is left undone of the packet of the turn that is under way or over.
    pub(crate) offload: Offload,
    pub(crate) work: Work,
}

/// Keeps the packet of a turn that is over if the program ran on it and the guest was told so.
#[inline(always)]
fn keep_packet<R: Room>(kind: &Kind, packet: &mut R)
    ensures { R.held packet.new ≡ packet_after kind.now (R.held packet.old) }
{
    match kind {
        Kind::Ran { .. } => {}
        _ => packet.clear(),
    }
}

impl Engine {
    /// A turn is over, in the engine's state. Its packet stays if the program ran on it and the guest was told so.
    #[inline(always)]
    pub(crate) fn end<H: Host, R: Room>(&mut self, kind: Kind, packet: &mut R, host: &mut H)
        requires { H.is_free host.old }
        ensures led { (w : Wiring) → TurnLeads H.was_asked H.is_full self.old.offload (done (
          self.old.state,
          turned kind (R.held
              packet.old),
        ))
            (engine_at w (R.held packet.new) self.new) host.old host.new }
        ensures rx { self.new.state.rx_index ≡ self.old.state.rx_index }
        ensures late { is_late self.new.stage ≡ true }
    {
        keep_packet(&kind, packet);
        self.stage = Stage::Ready;
        host.done(kind)
    }

    /// A turn halts.
    #[inline(always)]
    pub(crate) fn halt<H: Host, R: Room>(&mut self, cause: Halt, packet: &mut R, host: &mut H)
        requires { H.is_free host.old }
        ensures led { (w : Wiring) → TurnLeads H.was_asked H.is_full self.old.offload (halted_spec self.old.state cause)
            (engine_at w (R.held packet.new) self.new) host.old host.new }
        ensures rx { self.new.state.rx_index ≡ self.old.state.rx_index }
        ensures late { is_late self.new.stage ≡ true }
    {
        self.state = halted(&self.state, cause);
        self.end(Kind::Halted { cause }, packet, host)
    }
}
