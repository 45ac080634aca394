//! An engine's calls, for whoever lends it its wiring and the room of its packet.

ghost use Rattle.std.specs.Prelude.{◌≡◌, IsSome, List, Some, true, ℕ};
ghost use Rattle.xdp_program.specs.Tallies.{Went};
ghost use Rattle.xen_turns.specs.declared.wiring.Wiring.{Wiring};
ghost use Rattle.xen_host.specs.EngineAt.{engine_at};
ghost use Rattle.xen_host.specs.Rest.{is_stepping, no_offload};
ghost use Rattle.xen_host.specs.Stands.{Stands};
ghost use Rattle.xen_host.specs.StepsAt.{BeginsAt, StepsAt};
ghost use Rattle.xen_host.specs.UnderWay.{resting_at};
ghost use Rattle.xen_host.specs.declared.stage.Stage.TheVariants as stage;

use crate::engine::Engine;
use crate::host::Host;
use crate::offload::Offload;
use crate::room::Room;
use crate::stage::Stage;
use crate::wires::Wires;
use crate::work::Work;
use xdp_program::Tallies;
use xen_turns::State;

impl Engine {
    /// An engine between two turns.
    pub fn new(state: State) -> Engine
        ensures offload { result.offload ≡ no_offload }
        ensures ready { result.stage ≡ stage.Ready }
        ensures rests { (w : Wiring) (packet : List ℕ) → resting_at (engine_at w packet result) ≡ Some state }
    {
        Engine {
            state,
            stage: Stage::Ready,
            offload: Offload::none(),
            work: Work::none(),
        }
    }

    /// Is between two turns in this state, whatever was under way.
    #[inline(always)]
    pub fn resume(&mut self, state: State)
        ensures state { self.new.state ≡ state }
        ensures rests { (w : Wiring) (packet : List ℕ) → resting_at (engine_at w packet self.new) ≡ Some state }
    {
        self.state = state;
        self.stage = Stage::Ready;
    }

    /// Its state, between two turns: where both rings stand, and whether it has halted.
    pub fn state(&self) -> State
        ensures { result ≡ self.now.state }
    {
        self.state
    }

    /// Begins a turn between two, with what was read of the tx producer, and asks its host for what comes then.
    #[inline(always)]
    pub(crate) fn turn_by<W: Wires, R: Room, H: Host>(
        &mut self,
        producer: u32,
        wires: &W,
        packet: &mut R,
        host: &mut H,
    )
        requires stands { Stands (engine_at (W.wiring wires.now) (R.held packet.old) self.old) }
        requires rests { IsSome (resting_at (engine_at (W.wiring wires.now) (R.held packet.old) self.old)) }
        requires free { H.is_free host.old }
        ensures stands { Stands (engine_at (W.wiring wires.now) (R.held packet.new) self.new) }
        ensures begun { BeginsAt H.was_asked H.is_full (engine_at (W.wiring wires.now) (R.held packet.old) self.old) (engine_at
            (W.wiring wires.now) (R.held packet.new) self.new) producer host.old host.new }
    {
        self.begin(producer, wires, packet, host)
    }

    /// Goes on with what is under way: takes the answer that it waits for, and asks its host for what comes then.
    #[inline(always)]
    pub(crate) fn step_by<W: Wires, R: Room, H: Host, T: Tallies>(
        &mut self,
        wires: &W,
        packet: &mut R,
        counters: &mut T,
        host: &mut H,
    )
        requires stands { Stands (engine_at (W.wiring wires.now) (R.held packet.old) self.old) }
        requires busy { is_stepping self.old.stage ≡ true }
        requires counts { T.serves (W.wiring wires.now).program.now.shapes counters.old }
        requires fresh { H.is_fresh host.old }
        requires free { H.is_free host.old }
        ensures stands { Stands (engine_at (W.wiring wires.now) (R.held packet.new) self.new) }
        ensures stepped { StepsAt H.was_asked H.is_full H.has_given (Went (T.did (W.wiring wires.now).program.now.shapes) counters.old
            counters.new) (counters.new ≡ counters.old) (engine_at (W.wiring wires.now) (R.held packet.old) self.old) (engine_at
            (W.wiring wires.now) (R.held packet.new) self.new) host.old host.new }
    {
        self.step(wires, packet, counters, host)
    }
}
