//! One event of a wait for rx slots.
ghost use Rattle.std.specs.Prelude.{◌≡◌, ◌≢◌, []};
ghost use Rattle.xen_steps.specs.Drive.{Goes};
ghost use Rattle.xen_steps.specs.Event.{Event};
ghost use Rattle.xen_steps.specs.Steps.{want_of};
ghost use Rattle.xen_turns.specs.Drive.{label_of};
ghost use Rattle.xen_back.specs.Queues.{IsReady, state_of, wiring_of};
ghost use Rattle.xen_turns.specs.Waits.{whole_wait};
ghost use Rattle.xen_back.specs.WaitsByEvent.{IsWaitOf, left_of_wait};
ghost use Rattle.xdp_world.specs.Carries.{Looks, Resumes};
ghost use Rattle.xdp_world.specs.Doings.{Fits};
ghost use Rattle.xdp_world.specs.Entries.{Serves};

use crate::doing::Doing;
use xen_back::{Answer, Awaited, Awaiting, Queue, Want};

/// Answers what a wait wants. A read is answered by the number.
fn looked(awaiting: &mut Awaiting, answer: u32)
    requires { want_of (left_of_wait awaiting.old) ≢ Want.Done }
    ensures rx { awaiting.new.rx ≡ awaiting.old.rx }
    ensures state { awaiting.new.state ≡ awaiting.old.state }
    ensures event { (e : Event) × Goes (left_of_wait awaiting.old) e (left_of_wait awaiting.new) × Serves e answer × (label_of e ≡ []) }
{
    match awaiting.want() {
        Want::Read(_) => awaiting.feed(Answer::Word(answer)),
        Want::Write(_, _) => awaiting.feed(Answer::Nothing),
        _ => unreachable!(),
    }
}

/// Returns what the queue is doing with the wait as it is, and its answer, if it is over.
fn resumed<'p, 'd>(
    queue: &mut Queue<'p, '_>,
    awaiting: Awaiting,
) -> (Doing<'p, 'd>, Option<Awaited>)
    requires ready { IsReady queue.old }
    requires own { IsWaitOf queue.old awaiting }
    ensures same { wiring_of queue.new ≡ wiring_of queue.old }
    ensures fits { Fits result.0 queue.new }
    ensures resumes { Resumes queue.old (left_of_wait awaiting) queue.new result.0 result.1 }
{
    match awaiting.want() {
        Want::Done => (Doing::Between, Some(queue.end_wait(awaiting))),
        _ => (Doing::Wait(awaiting), None),
    }
}

/// One event of a wait.
pub(crate) fn waited<'p, 'd>(
    queue: &mut Queue<'p, '_>,
    awaiting: Awaiting,
    answer: u32,
) -> (Doing<'p, 'd>, Option<Awaited>)
    requires { Fits (Doing.Wait awaiting) queue.old }
    ensures same { wiring_of queue.new ≡ wiring_of queue.old }
    ensures fits { Fits result.0 queue.new }
    ensures looks { Looks queue.old awaiting queue.new result.0 answer result.1 }
{
    let mut awaiting = awaiting;
    looked(&mut awaiting, answer);
    resumed(queue, awaiting)
}

/// Begins a wait for `pages` rx slots.
pub(crate) fn wait_begun<'p, 'd>(
    queue: &mut Queue<'p, '_>,
    pages: u32,
) -> (Doing<'p, 'd>, Option<Awaited>)
    requires { IsReady queue.old }
    ensures same { wiring_of queue.new ≡ wiring_of queue.old }
    ensures fits { Fits result.0 queue.new }
    ensures resumes { Resumes queue.old (whole_wait (wiring_of queue.old).vif.rx (state_of queue.old) pages) queue.new result.0 result.1 }
{
    let awaiting = queue.begin_wait(pages);
    resumed(queue, awaiting)
}
