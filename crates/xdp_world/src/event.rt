//! One event of a queue, served from an answer and the counters.
ghost use Rattle.std.specs.Prelude.{◌≡◌, ◌≢◌};
ghost use Rattle.xen_steps.specs.Drive.{Goes};
ghost use Rattle.xen_turns.specs.Drive.{label_of};
ghost use Rattle.xen_steps.specs.Event.{Event};
ghost use Rattle.xen_back.specs.Queues.{rest, state_of, wiring_of};
ghost use Rattle.xen_steps.specs.Steps.{want_of};
ghost use Rattle.xdp_world.specs.Entries.{Serves};
ghost use Rattle.xdp_world.specs.Happens.{Counts, op_list};

use bpf_maps::{Op, Totals};
use xen_back::{Answer, Queue, Want};

/// One event. A read is answered by the number, a counter operation by the counters.
pub(crate) fn event(queue: &mut Queue, counters: &mut Totals, answer: u32) -> Option<Op>
    requires want { want_of (rest queue.old) ≢ Want.Done }
    requires shapes { (wiring_of queue.old).program.now.shapes ≡ counters.old.shapes }
    ensures same { wiring_of queue.new ≡ wiring_of queue.old }
    ensures state { state_of queue.new ≡ state_of queue.old }
    ensures shapes { counters.new.shapes ≡ counters.old.shapes }
    ensures event { (e : Event) × Goes (rest queue.old) e (rest queue.new) × Serves e answer × (label_of e ≡ op_list result) }
    ensures counts { Counts counters.old result counters.new }
{
    match queue.wanted() {
        Want::Read(_) => {
            queue.feed(Answer::Word(answer));
            None
        }
        Want::Write(_, _) => {
            queue.feed(Answer::Nothing);
            None
        }
        Want::Instr => {
            queue.feed(Answer::Nothing);
            None
        }
        Want::Load { m, k, j } => {
            let v = counters.at(m, k, j);
            queue.feed(Answer::Counter(v));
            Some(Op::Load { m, k, j, v })
        }
        Want::Add { m, k, j, delta } => {
            let old = counters.add(m, k, j, delta);
            queue.feed(Answer::Counter(old));
            Some(Op::Add {
                m,
                k,
                j,
                delta,
                old,
            })
        }
        Want::Notify(_) => {
            queue.feed(Answer::Nothing);
            None
        }
        Want::Done => unreachable!(),
    }
}
