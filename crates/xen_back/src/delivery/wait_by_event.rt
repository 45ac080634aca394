//! A wait for rx slots one event at a time, for a host that serves each event itself.

ghost use Rattle.std.specs.Prelude.{◌≡◌, ◌≢◌, ◌<◌, ℕ};
ghost use Rattle.xen_steps.specs.Answers.{Fits};
ghost use Rattle.xen_steps.specs.Drive.{IsPageWant};
ghost use Rattle.xen_steps.specs.Steps.{done, next_by, want_of};
ghost use Rattle.xen_turns.specs.Waits.{Wait, whole_wait};
ghost use Rattle.xen_back.specs.Waits.{rest_looking};
ghost use Rattle.xen_back.specs.WaitsByEvent.{IsWaitFed, left_of_wait};

use crate::delivery::wait_stage::{Awaiting, Looking};
use xen_ring::{REQ_EVENT, REQ_PROD};
use xen_steps::{Answer, Want, header, requests_shown};
use xen_turns::decisions::wait_answer;
use xen_turns::{Awaited, State};

/// A wait of which nothing is done.
pub(crate) fn begun(state: &State) -> Looking
    ensures { (rx wanted : ℕ) → rest_looking rx state.now wanted result ≡ whole_wait rx state.now wanted }
{
    match state.halt {
        Some(cause) => Looking::Over {
            after: *state,
            awaited: Awaited::Halted { cause },
        },
        None => Looking::Index,
    }
}

/// A wait after an event.
fn looking_fed(state: &State, wanted: u32, looking: Looking, word: u32) -> Looking
    ensures { (rx counter : ℕ) → rest_looking rx state.now wanted result ≡ next_by (rest_looking rx state.now wanted looking) word counter }
{
    match looking {
        Looking::Index => Looking::Producer,
        Looking::Producer => {
            let (after, awaited) = wait_answer(state, wanted, requests_shown(state.rx_index, word));
            Looking::Over { after, awaited }
        }
        over => over,
    }
}

impl Awaiting {
    /// Returns what the wait wants next: [`Want::Done`] once it is over.
    pub fn want(&self) -> Want
        ensures want { result ≡ want_of (left_of_wait self.now) }
        ensures within { (frames : ℕ) → self.now.rx < frames → result ≢ Want.Done → IsPageWant frames result }
        ensures over { result ≡ Want.Done → (end : Wait) × (left_of_wait self.now ≡ done end) }
    {
        match self.looking {
            Looking::Index => Want::Write(
                header(self.rx, REQ_EVENT),
                self.state.rx_index.wrapping_add(self.wanted),
            ),
            Looking::Producer => Want::Read(header(self.rx, REQ_PROD)),
            Looking::Over { .. } => Want::Done,
        }
    }

    /// Goes on with the answer to what the wait wants.
    pub fn feed(&mut self, answer: Answer)
        requires { Fits (want_of (left_of_wait self.old)) answer }
        ensures { IsWaitFed answer self.old self.new }
    {
        let word = answer.word();
        self.looking = looking_fed(&self.state, self.wanted, self.looking, word);
    }
}
