//! Waits for rx slots between the turns of a world's queues.
ghost use Rattle.std.specs.Prelude.{◌≡◌, ◌≤◌, vec_len};

use super::deliveries::{FOURTEEN, HALTED, SENT, answered, fourteen, goes, over, read, write};
use super::programs::{PASS, accepted, buffers};
use std::alloc::{AllocError, Global};
use std::test::Fail;
use xdp_world::{Begun, Kept, Layout, WaitBegun, Waited, World, WorldEvent};
use xen_back::{Awaited, Delivery, Halt, Want};

/// The halt of a producer that is more than a whole ring ahead.
const OVERFLOWN: Awaited = Awaited::Halted {
    cause: Halt::RxProducer,
};

/// A wait that was over after `turns` turns and `deliveries` deliveries.
fn after(turns: usize, deliveries: usize, awaited: Awaited) -> Waited {
    Waited {
        turns,
        deliveries,
        awaited,
    }
}

/// Returns what a wait wants that stores this event index, with what it is answered: the producer is `shown`.
fn wait(event: u32, shown: u32) -> [(Want, u32); 2] {
    [(write(18, 1, event), 7), (read(18, 0), shown)]
}

/// Returns whether a wait for `pages` slots on queue 0 is under way.
fn waits(world: &mut World, pages: u32) -> Result<bool, AllocError>
    requires { 1 ≤ vec_len world.old.queues }
    ensures { vec_len world.new.queues ≡ vec_len world.old.queues }
{
    Ok(world.await_slots(0, pages)? == WaitBegun::Underway)
}

fn posted(world: &mut World) -> Result<bool, AllocError>
    requires { vec_len world.old.queues ≡ 2 }
{
    let begun = waits(world, 3)?;
    let went = goes(world, 0, &wait(3, 3))?;
    let told = world.waits(0) == [after(0, 0, Awaited::Posted)].as_slice();
    Ok(begun && went && told && world.want(0) == read(17, 0) && world.waits(1).is_empty())
}

/// The wait is kept only once it is over.
fn waiting(world: &mut World) -> Result<bool, AllocError>
    requires { vec_len world.old.queues ≡ 2 }
{
    let begun = waits(world, 3)?;
    world.step(0, 5)?;
    let early = world.waits(0).is_empty();
    world.step(0, 2)?;
    let again = waits(world, 3)? && goes(world, 0, &wait(3, 4))?;
    let wanted = [after(0, 0, Awaited::Waiting), after(0, 0, Awaited::Posted)];
    Ok(begun && early && again && world.waits(0) == wanted.as_slice())
}

/// A ring has 256 slots.
fn overflown(world: &mut World) -> Result<bool, AllocError>
    requires { vec_len world.old.queues ≡ 2 }
{
    let begun = waits(world, 1)?;
    let went = goes(world, 0, &wait(1, 257))?;
    let done = world.want(0) == Want::Done;
    let again = world.await_slots(0, 1)? == WaitBegun::Over(OVERFLOWN);
    let delivery = world.deliver(0, &FOURTEEN)? == Begun::Over(HALTED);
    let wanted = [after(0, 0, OVERFLOWN), after(0, 0, OVERFLOWN)];
    let told = world.waits(0) == wanted.as_slice();
    Ok(begun && went && done && again && delivery && told && world.turns(0).is_empty())
}

fn busy(world: &mut World) -> Result<bool, AllocError>
    requires { vec_len world.old.queues ≡ 2 }
{
    world.step(0, 0)?;
    let turn = world.await_slots(0, 1)? == WaitBegun::Busy;
    // The other queue is between turns.
    let other = world.await_slots(1, 1)? == WaitBegun::Underway;
    answered(world, 0, &[0, 0])?;
    let delivers = world.deliver(0, &FOURTEEN)? == Begun::Underway;
    let delivery = world.await_slots(0, 1)? == WaitBegun::Busy;
    Ok(turn && other && delivers && delivery && world.waits(0).is_empty())
}

fn busy_inside_a_wait(world: &mut World) -> Result<bool, AllocError>
    requires { vec_len world.old.queues ≡ 2 }
{
    let begun = waits(world, 1)?;
    let wait_twice = world.await_slots(0, 2)? == WaitBegun::Busy;
    let packet = world.deliver(0, &FOURTEEN)? == Begun::Busy;
    let went = goes(world, 0, &wait(1, 1))?;
    let told = world.waits(0) == [after(0, 0, Awaited::Posted)].as_slice();
    Ok(begun && wait_twice && packet && went && told)
}

/// A turn that finds no request, between two waits.
fn around_a_turn(world: &mut World) -> Result<bool, AllocError>
    requires { vec_len world.old.queues ≡ 2 }
{
    let first = waits(world, 18)? && goes(world, 0, &wait(18, 0))?;
    let turn = [(read(17, 0), 0), (write(17, 1, 1), 0), (read(17, 0), 0)];
    let idle = goes(world, 0, &turn)? && world.turns(0) == [Kept::Idle].as_slice();
    let second = waits(world, 1)? && goes(world, 0, &wait(1, 1))?;
    let wanted = [after(0, 0, Awaited::Waiting), after(1, 0, Awaited::Posted)];
    Ok(first && idle && second && world.waits(0) == wanted.as_slice())
}

/// A packet finds no slot; the host waits for one, the front posts it, and the packet is sent.
fn until_posted(world: &mut World) -> Result<bool, AllocError>
    requires { vec_len world.old.queues ≡ 2 }
{
    let early = world.deliver(0, &FOURTEEN)? == Begun::Underway;
    let few = goes(world, 0, &[(read(18, 0), 0)])?;
    let begun = waits(world, 1)? && goes(world, 0, &wait(1, 0))?;
    let again = waits(world, 1)? && goes(world, 0, &wait(1, 1))?;
    let later = world.deliver(0, &FOURTEEN)? == Begun::Underway;
    let sent = goes(world, 0, &fourteen(0, 1, 0))?;
    let last = waits(world, 2)? && goes(world, 0, &wait(3, 1))?;
    let deliveries = [over(0, Delivery::FewSlots), over(0, SENT)];
    let wanted = [
        after(0, 1, Awaited::Waiting),
        after(0, 1, Awaited::Posted),
        after(0, 2, Awaited::Waiting),
    ];
    let told = world.deliveries(0) == deliveries.as_slice() && world.waits(0) == wanted.as_slice();
    Ok(early && few && begun && again && later && sent && last && told)
}

/// An activity of a world of two queues, whose rings begin at 0.
#[derive(Clone, Copy)]
enum Scenario {
    Posted,
    Waiting,
    Overflown,
    Busy,
    BusyInsideAWait,
    AroundATurn,
    UntilPosted,
}

impl Scenario {
    /// Returns whether all is as it has to be.
    fn seen(self, world: &mut World) -> Result<bool, AllocError>
        requires { vec_len world.old.queues ≡ 2 }
    {
        match self {
            Scenario::Posted => posted(world),
            Scenario::Waiting => waiting(world),
            Scenario::Overflown => overflown(world),
            Scenario::Busy => busy(world),
            Scenario::BusyInsideAWait => busy_inside_a_wait(world),
            Scenario::AroundATurn => around_a_turn(world),
            Scenario::UntilPosted => until_posted(world),
        }
    }
}

/// Returns whether all is as it has to be, if there is memory.
fn holds(alloc: Global, scenario: Scenario) -> Option<bool> {
    let program = accepted(alloc, PASS)?;
    let layout = Layout::make(alloc, 2).ok()?;
    let mut buffers = buffers(alloc, 2).ok()?;
    let mut world = World::make(
        alloc,
        &layout,
        &program,
        &[],
        &[],
        buffers.as_mut_slice(),
        2,
        0,
        0,
    )
    .ok()?;
    scenario.seen(&mut world).ok()
}

#[test]
fn a_wait_stores_its_event_index_and_then_reads_the_producer(rt: HostRuntime) -> Result<(), Fail> {
    assert!(rt; holds(rt.alloc(), Scenario::Posted) == Some(true));
    Ok(())
}

#[test]
fn too_few_slots_are_waited_for_again(rt: HostRuntime) -> Result<(), Fail> {
    assert!(rt; holds(rt.alloc(), Scenario::Waiting) == Some(true));
    Ok(())
}

#[test]
fn a_producer_past_the_ring_halts_the_queue(rt: HostRuntime) -> Result<(), Fail> {
    assert!(rt; holds(rt.alloc(), Scenario::Overflown) == Some(true));
    Ok(())
}

#[test]
fn no_wait_begins_inside_a_turn_or_a_delivery(rt: HostRuntime) -> Result<(), Fail> {
    assert!(rt; holds(rt.alloc(), Scenario::Busy) == Some(true));
    Ok(())
}

#[test]
fn nothing_else_begins_inside_a_wait(rt: HostRuntime) -> Result<(), Fail> {
    assert!(rt; holds(rt.alloc(), Scenario::BusyInsideAWait) == Some(true));
    Ok(())
}

#[test]
fn a_turn_lies_between_two_waits(rt: HostRuntime) -> Result<(), Fail> {
    assert!(rt; holds(rt.alloc(), Scenario::AroundATurn) == Some(true));
    Ok(())
}

#[test]
fn a_packet_is_sent_once_its_slots_are_posted(rt: HostRuntime) -> Result<(), Fail> {
    assert!(rt; holds(rt.alloc(), Scenario::UntilPosted) == Some(true));
    Ok(())
}

/// A wait on queue 1, one that finds it busy, and the first one's end; then a delivery of a packet that is no frame, and a wait that isn't
/// over. Whether what is reported is as it has to be, if there is memory.
fn reported(alloc: Global) -> Option<bool> {
    let program = accepted(alloc, PASS)?;
    let events = [
        WorldEvent::Await { queue: 1, pages: 2 },
        WorldEvent::Await { queue: 1, pages: 1 },
        WorldEvent::Step {
            queue: 1,
            answer: 0,
        },
        WorldEvent::Step {
            queue: 1,
            answer: 1,
        },
        WorldEvent::Deliver {
            queue: 1,
            packet: Vec::new(alloc),
        },
        WorldEvent::Await { queue: 1, pages: 1 },
        WorldEvent::Step {
            queue: 1,
            answer: 0,
        },
    ];
    let report = World::run_events(alloc, &program, 2, 0, 0, &events).ok()?;
    let wanted = [after(0, 0, Awaited::Waiting)];
    match report.waits.as_slice() {
        [first, second] => Some(first.is_empty() && second.as_slice() == wanted.as_slice()),
        _ => Some(false),
    }
}

#[test]
fn a_report_has_the_waits_of_each_queue(rt: HostRuntime) -> Result<(), Fail> {
    assert_eq!(rt; reported(rt.alloc()), Some(true));
    Ok(())
}
