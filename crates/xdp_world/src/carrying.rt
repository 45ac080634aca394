//! One event of a delivery.
ghost use Rattle.std.specs.Prelude.{◌≡◌, ◌≢◌, []};
ghost use Rattle.xen_steps.specs.Drive.{Goes};
ghost use Rattle.xen_steps.specs.Event.{Event};
ghost use Rattle.xen_steps.specs.Steps.{want_of};
ghost use Rattle.xen_back.specs.ByEvent.{IsDeliveryOf, left_of};
ghost use Rattle.xen_netif.specs.declared.offload.RxOffload.TheVariants.{Whole};
ghost use Rattle.xen_turns.specs.Deliveries.{whole_delivery};
ghost use Rattle.xen_turns.specs.Drive.{label_of};
ghost use Rattle.xen_back.specs.Queues.{IsReady, state_of, wiring_of};
ghost use Rattle.xdp_world.specs.Carries.{Carries, Lands};
ghost use Rattle.xdp_world.specs.Doings.{Fits};
ghost use Rattle.xdp_world.specs.Entries.{Serves};

use crate::doing::Doing;
use xen_back::{Answer, Delivering, Delivery, Queue, Want};
use xen_netif::RxOffload;

/// Answers what a delivery wants. A read is answered by the number.
fn answered(delivering: &mut Delivering, answer: u32)
    requires { want_of (left_of delivering.old) ≢ Want.Done }
    ensures vif { delivering.new.vif ≡ delivering.old.vif }
    ensures state { delivering.new.state ≡ delivering.old.state }
    ensures event { (e : Event) × Goes (left_of delivering.old) e (left_of delivering.new) × Serves e answer × (label_of e ≡ []) }
{
    match delivering.wanted() {
        Want::Read(_) => delivering.feed(Answer::Word(answer)),
        Want::Write(_, _) => delivering.feed(Answer::Nothing),
        Want::Notify(_) => delivering.feed(Answer::Nothing),
        Want::Instr => unreachable!(),
        Want::Load { .. } => unreachable!(),
        Want::Add { .. } => unreachable!(),
        Want::Done => unreachable!(),
    }
}

/// Returns what the queue is doing with the delivery as it is, and what became of the packet, if it is over.
fn landed<'p, 'd>(
    queue: &mut Queue<'p, '_>,
    delivering: Delivering<'p, 'd>,
) -> (Doing<'p, 'd>, Option<Delivery>)
    requires ready { IsReady queue.old }
    requires own { IsDeliveryOf queue.old delivering }
    ensures same { wiring_of queue.new ≡ wiring_of queue.old }
    ensures fits { Fits result.0 queue.new }
    ensures lands { Lands queue.old (left_of delivering.entry) queue.new result.0 result.1 }
{
    match delivering.want() {
        Want::Done => (Doing::Between, Some(queue.end_delivery(delivering))),
        _ => (Doing::Delivery(delivering), None),
    }
}

/// One event of a delivery.
pub(crate) fn carried<'p, 'd>(
    queue: &mut Queue<'p, '_>,
    delivering: Delivering<'p, 'd>,
    answer: u32,
) -> (Doing<'p, 'd>, Option<Delivery>)
    requires { Fits (Doing.Delivery delivering) queue.old }
    ensures same { wiring_of queue.new ≡ wiring_of queue.old }
    ensures fits { Fits result.0 queue.new }
    ensures carries { Carries queue.old delivering.entry queue.new result.0 answer result.1 }
{
    let mut delivering = delivering;
    answered(&mut delivering, answer);
    landed(queue, delivering)
}

/// Begins the delivery of a packet.
pub(crate) fn begun<'p, 'd>(
    queue: &mut Queue<'p, '_>,
    packet: &'d [u8],
) -> (Doing<'p, 'd>, Option<Delivery>)
    requires { IsReady queue.old }
    ensures same { wiring_of queue.new ≡ wiring_of queue.old }
    ensures fits { Fits result.0 queue.new }
    ensures lands { Lands queue.old (whole_delivery (wiring_of queue.old).vif (wiring_of queue.old).accepts (state_of queue.old) Whole packet.now)
        queue.new result.0 result.1 }
{
    let delivering = queue.begin_delivery(packet, RxOffload::Whole);
    landed(queue, delivering)
}
