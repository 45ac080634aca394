//! A queue's turns, one event at a time and in one go, and its end.

ghost use Rattle.std.specs.Prelude.{◌≡◌, ◌≢◌, ⊤, [], length};
ghost use Rattle.std.specs.Borrow.{sem};
ghost use denote.Follow.{follows_so};
ghost use mir.Syntax.{named};
ghost use mathlib.Core.Option.{none};
ghost use Rattle.bpf_maps.specs.Seats.{IsSeatOf};
ghost use Rattle.xen_steps.specs.Answers.{Fits};
ghost use Rattle.xen_steps.specs.Steps.{done, want_of};
ghost use Rattle.xen_back.specs.Drive.{IsTurnOver};
ghost use Rattle.xen_back.specs.Queues.{HasRest, IsAsked, IsFed, IsOver, IsReady, rest, rx_ring_of, state_of, tx_ring_of, wiring_of};
ghost use Rattle.xen_turns.specs.Turned.{Ending};
ghost use Rattle.xen_turns.specs.Within.{may_want};
ghost use Rattle.xen_back.specs.contracts.queue.Queue.{the_row};

use crate::by_event::ending::over;
use crate::by_event::feeding::stage_fed;
use crate::by_event::wanting::stage_want;
use crate::queue::Queue;
use crate::shown::shown;
use bpf_maps::{CounterSeat, Counters};
use xdp_program::Seated;
use xen_page::{Bus, Mapped};
use xen_ring::Ports;
use xen_steps::{Answer, Want};
use xen_turns::{State, Turn};

impl<'p, 'b> Queue<'p, 'b> {
    /// Returns what the queue wants next.
    pub fn want(&self) -> Want
        ensures want { result ≡ want_of (rest self.now) }
        ensures within { result ≢ Want.Done → may_want (wiring_of self.now) result }
        ensures over { result ≡ Want.Done → (end : Ending) × (rest self.now ≡ done end) }
        ensures rests { HasRest self.now }
    {
        match &self.stage {
            Some(stage) => stage_want(&self.wiring, &self.engine.state(), stage),
            None => unreachable!(),
        }
    }

    /// Returns what the queue wants next, for a caller that holds it by `&mut`.
    pub fn wanted(&mut self) -> Want
        ensures { IsAsked result self.old self.new }
    {
        // The borrow checker has to see this type in the body.
        let _vif = &self.wiring.vif;
        match &self.stage {
            Some(stage) => stage_want(&self.wiring, &self.engine.state(), stage),
            None => unreachable!(),
        }
    }

    /// Goes on with the answer to what the queue wants.
    pub fn feed(&mut self, answer: Answer)
        requires { Fits (want_of (rest self.old)) answer }
        ensures { IsFed answer self.old self.new }
    {
        // The borrow checker has to see this type in the body.
        let _vif = &self.wiring.vif;
        let word = answer.word();
        let counter = answer.counter();
        match self.stage.take() {
            Some(stage) => {
                let next = stage_fed(&self.wiring, &self.engine.state(), stage, word, counter);
                self.stage = Some(next);
            }
            None => unreachable!(),
        }
    }

    /// The turn that is over. Its packet lies in the queue's buffer, so the next turn can begin only once it is no longer
    /// borrowed.
    pub fn turn(&mut self) -> Turn<'_>
        requires { want_of (rest self.old) ≡ Want.Done }
        ensures* after { sem 𝓛 (follows_so
            (the_row (record { mir = named 1; lft = [] }) (record { mir = named 2; lft = [] }))
            (the_row (record { mir = named 1; lft = [] }) (record { mir = named 2; lft = [] }))
            self.entry.ghost_name none (λ _ _. ⊤) (λ q. IsOver self.old q result)) }
    {
        // The borrow checker has to see this type in the body.
        let _vif = &self.wiring.vif;
        let (after, kind) = match &mut self.stage {
            Some(stage) => over(&self.engine.state(), stage),
            None => unreachable!(),
        };
        self.engine.resume(after);
        match &self.stage {
            Some(stage) => shown(stage, kind),
            None => unreachable!(),
        }
    }

    /// A whole turn: its events over the bus, at the counters and to the ports.
    #[inline(always)]
    pub fn drive_turn<B: Bus>(
        &mut self,
        bus: &mut B,
        counters: &Counters,
        seat: &mut CounterSeat,
        ports: &Ports,
    ) -> Turn<'_>
        requires ready { IsReady self.old }
        requires size { B.size bus.old ≡ length (wiring_of self.old).vif.owners.now }
        requires shapes { counters.now.shapes ≡ (wiring_of self.old).program.now.shapes }
        requires seat { IsSeatOf counters.now seat.old }
        ensures size { B.size bus.new ≡ B.size bus.old }
        ensures seat { seat.new ≡ record seat.old { ops = seat.new.ops } }
        ensures* turn { sem 𝓛 (follows_so
            (the_row (record { mir = named 1; lft = [] }) (record { mir = named 2; lft = [] }))
            (the_row (record { mir = named 1; lft = [] }) (record { mir = named 2; lft = [] }))
            self.entry.ghost_name none (λ _ _. ⊤)
            (λ q. IsTurnOver B.log B.access_gives self.old q result bus.old bus.new seat.old.ops seat.new.ops)) }
    {
        // The borrow checker has to see this type in the body.
        let _vif = &self.wiring.vif;
        let mut shared = Seated { counters, seat };
        let kind = self.take_turn(bus, &mut shared, ports);
        match &self.stage {
            Some(stage) => shown(stage, kind),
            None => unreachable!(),
        }
    }

    /// Returns what the queue is between turns; inside one, what it was when that began.
    pub fn state(&self) -> State
        ensures { result ≡ state_of self.now }
    {
        self.engine.state()
    }

    /// Ends a queue that is between turns, and hands back the mappings of its tx ring and its rx ring, so that they can be
    /// unmapped.
    pub fn close(self) -> (Mapped, Mapped)
        requires { IsReady self }
        ensures tx { result.0 ≡ tx_ring_of self.entry }
        ensures rx { result.1 ≡ rx_ring_of self.entry }
    {
        let Queue {
            wiring: _,
            tx_ring,
            rx_ring,
            engine: _,
            stage: _,
        } = self;
        (tx_ring, rx_ring)
    }
}
