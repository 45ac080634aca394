//! A front's activities, one event at a time and in one go, and what it counts.

ghost use Rattle.std.specs.Prelude.{◌≡◌, ◌≢◌, ◌≤◌, ◌∷◌, ⊤, []};
ghost use Rattle.std.specs.Borrow.{sem};
ghost use denote.Follow.{follows_so};
ghost use mir.Syntax.{named};
ghost use mathlib.Core.Option.{none};
ghost use Rattle.xen_front.specs.contracts.front.Front.{the_row};
ghost use Rattle.xen_front.specs.Drive.{IsDriven};
ghost use Rattle.xen_front.specs.Fronts.{IsAsked, IsFed, IsOver, rest, state_of, wiring_of};
ghost use Rattle.xen_front.specs.Slots.{outstanding};
ghost use Rattle.xen_steps.specs.Answers.{Fits};
ghost use Rattle.xen_steps.specs.Drive.{IsPageWant};
ghost use Rattle.xen_steps.specs.Steps.{want_of};

use crate::by_event::feeding::{ending, phase_fed, phase_want, show};
use crate::by_event::phase::Phase;
use crate::front::Front;
use crate::in_one_go::drive::{drive_events, drive_pieces};
use crate::state::FrontState;
use crate::turn::RxTurn;
use std::mem;
use xen_page::Bus;
use xen_ring::Ports;
use xen_steps::{Answer, Want};

impl<'p> Front<'p> {
    /// Returns what the front wants next: an access to a page of its own, a notice, or `Done` when the activity is over.
    pub fn want(&self) -> Want
        ensures want { result ≡ want_of (rest self.now) }
        ensures within { result ≢ Want.Done → IsPageWant (wiring_of self.now).frames result }
    {
        phase_want(&self.wiring, &self.state, self.sent.bytes(), &self.phase)
    }

    /// [`want`](Front::want), of a front that is lent for going on.
    pub fn wanted(&mut self) -> Want
        ensures { IsAsked result self.old self.new }
    {
        phase_want(&self.wiring, &self.state, self.sent.bytes(), &self.phase)
    }

    /// Takes the answer to its want, and goes on by it.
    pub fn feed(&mut self, answer: Answer)
        requires { Fits (want_of (rest self.old)) answer }
        ensures { IsFed answer self.old self.new }
    {
        let word = answer.word();
        let phase = mem::replace(&mut self.phase, Phase::Ready);
        self.phase = phase_fed(
            &self.wiring,
            &mut self.state,
            self.sent.bytes(),
            &mut self.received,
            phase,
            word,
        );
    }

    /// Returns what the activity gave. The next activity may begin once the borrow of the packet has ended.
    pub fn received(&mut self) -> RxTurn<'_>
        requires { want_of (rest self.old) ≡ Want.Done }
        ensures* after { sem 𝓛 (follows_so
            (the_row (record { mir = named 1; lft = [] }))
            (the_row (record { mir = named 1; lft = [] }))
            self.entry.ghost_name none (λ _ _. ⊤) (λ f. IsOver self.old f result)) }
    {
        // The borrow checker has to see these two types in the body.
        let (_table, _buffers) = (self.wiring.table, self.wiring.tx);
        let phase = mem::replace(&mut self.phase, Phase::Ready);
        let outcome = ending(phase);
        show(&self.received, outcome)
    }

    /// Makes all events of the activity that has begun, over the bus and to the ports, and says what it gave. The bus
    /// has at least the frames that the front was made for.
    pub fn drive_front<B: Bus>(&mut self, bus: &mut B, ports: &Ports) -> RxTurn<'_>
        requires { (wiring_of self.old).frames ≤ B.size bus.old }
        ensures size { B.size bus.new ≡ B.size bus.old }
        ensures* over { sem 𝓛 (follows_so
            (the_row (record { mir = named 1; lft = [] }))
            (the_row (record { mir = named 1; lft = [] }))
            self.entry.ghost_name none (λ _ _. ⊤)
            (λ f. IsDriven B.log B.access_gives self.old f result bus.old bus.new)) }
    {
        drive_pieces(self, bus);
        drive_events(self, bus, ports);
        self.received()
    }

    /// The numbers of tx responses that were OKAY, DROPPED, ERROR and anything else, each staying at 2^64 - 1 once there.
    pub fn statuses(&self) -> [u64; 4]
        ensures { let c = (state_of self.now).counts in result ≡ c.okay ∷ c.dropped ∷ c.error ∷ c.other ∷ [] }
    {
        let c = &self.state.counts;
        [c.okay, c.dropped, c.error, c.other]
    }

    /// Returns the numbers of requests of the tx ring and of the rx ring that aren't answered, as far as the polls have seen.
    pub fn unanswered(&self) -> (u32, u32)
        ensures { let s = state_of self.now in result ≡ (outstanding s.tx, outstanding s.rx) }
    {
        let FrontState { tx, rx, .. } = &self.state;
        (tx.prod.wrapping_sub(tx.cons), rx.prod.wrapping_sub(rx.cons))
    }
}
