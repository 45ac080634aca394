//! Packets of the host's own, delivered between the turns of a world's queues.
ghost use Rattle.std.specs.Prelude.{◌≡◌, ◌<◌, vec_len};

use super::programs::{PASS, SEND, accepted, buffers};
use std::alloc::{AllocError, Global};
use std::test::Fail;
use xdp_world::{Begun, Delivered, Kept, Layout, World, WorldEvent};
use xen_back::{Delivery, Halt, Want};
use xen_page::Place;

/// Fourteen bytes. Each says where it lies.
pub static FOURTEEN: [u8; 14] = [0, 1, 2, 3, 4, 5, 6, 7, 8, 9, 10, 11, 12, 13];

/// A packet that is longer than a page, and one that is no frame.
static LONG: [u8; 4097] = [4; 4097];

static SHORT: [u8; 13] = [7; 13];

pub fn read(frame: u32, word: u32) -> Want {
    Want::Read(Place { frame, word })
}

pub fn write(frame: u32, word: u32, value: u32) -> Want {
    Want::Write(Place { frame, word }, value)
}

/// Returns what the delivery of the fourteen bytes wants as the i-th packet on the rx ring, with what it is answered: `posted`
/// slots are there, the slot has id 9 and reference 5, its entry permits frame 22, and `event` is the ring's event index.
pub fn fourteen(i: u32, posted: u32, event: u32) -> [(Want, u32); 13]
    requires { i < 100 }
{
    let word = 16 + 2 * i;
    [
        (read(18, 0), posted),
        (read(18, word), 9),
        (read(18, word + 1), 5),
        (read(1, 10), 1),
        (read(1, 11), 22),
        (write(22, 0, 0x0302_0100), 0),
        (write(22, 1, 0x0706_0504), 0),
        (write(22, 2, 0x0b0a_0908), 0),
        (write(22, 3, 0x0000_0d0c), 0),
        (write(18, word, 9), 0),
        (write(18, word + 1, 0x000e_0000), 0),
        (write(18, 2, i + 1), 0),
        (read(18, 3), event),
    ]
}

/// Steps a queue, each step with an answer. Whether it wanted these.
pub fn goes(world: &mut World, queue: usize, steps: &[(Want, u32)]) -> Result<bool, AllocError>
    requires { queue < vec_len world.old.queues }
    ensures { vec_len world.new.queues ≡ vec_len world.old.queues }
{
    for step in steps {
        if world.want(queue) != step.0 {
            return Ok(false);
        }
        world.step(queue, step.1)?;
    }
    Ok(true)
}

/// Steps a queue, whatever it wants.
pub fn answered(world: &mut World, queue: usize, answers: &[u32]) -> Result<(), AllocError>
    requires { queue < vec_len world.old.queues }
    ensures { vec_len world.new.queues ≡ vec_len world.old.queues }
{
    for answer in answers {
        world.step(queue, *answer)?;
    }
    Ok(())
}

/// A delivery that was over after `turns` turns.
pub fn over(turns: usize, delivery: Delivery) -> Delivered {
    Delivered { turns, delivery }
}

pub const SENT: Delivery = Delivery::Sent { slots: 1 };

/// The halt of a producer that is more than a whole ring ahead.
pub const HALTED: Delivery = Delivery::Halted {
    cause: Halt::RxProducer,
};

fn by_its_events(world: &mut World) -> Result<bool, AllocError>
    requires { vec_len world.old.queues ≡ 2 }
{
    let begun = world.deliver(0, &FOURTEEN)? == Begun::Underway;
    let went = goes(world, 0, &fourteen(0, 1, 1))? && world.deliveries(0).is_empty();
    let notice = world.want(0) == Want::Notify(Layout::back_port(0));
    world.step(0, 0)?;
    let told = world.deliveries(0) == [over(0, SENT)].as_slice();
    Ok(begun && went && notice && told && world.want(0) == read(17, 0))
}

/// A packet that is sent back: what its turn reads, its program, what its transmit and its responses are answered, with three posted slots.
/// The rx slot is read by the 14th step.
#[rattlefmt::skip]
const SENT_BACK: [u32; 28] = [
    1, 2, 0, 917_511, 1, 19, 50_462_976, 117_835_012, 185_207_048, 252_579_084,
    0, 0,
    3, 9, 5, 1, 22, 0, 0, 0, 0, 0, 0, 0, 0,
    0, 0, 0,
];

/// Such a turn. Its tx slot is the i-th, with i + 1 published, and its rx slot lies at `word`. Whether both are read
/// there.
fn turns_back(world: &mut World, i: u32, word: u32) -> Result<bool, AllocError>
    requires queues { vec_len world.old.queues ≡ 2 }
    requires few { i < 100 }
    ensures { vec_len world.new.queues ≡ vec_len world.old.queues }
{
    answered(world, 0, &[i + 1])?;
    let slot = world.want(0) == read(17, 16 + 3 * i);
    answered(world, 0, &SENT_BACK[1..13])?;
    let posted = world.want(0) == read(18, word);
    answered(world, 0, &SENT_BACK[13..])?;
    Ok(slot && posted)
}

fn between_two_turns(world: &mut World) -> Result<bool, AllocError>
    requires { vec_len world.old.queues ≡ 2 }
{
    let first = turns_back(world, 0, 16)?;
    let begun = world.deliver(0, &FOURTEEN)? == Begun::Underway;
    let went = goes(world, 0, &fourteen(1, 3, 0))?;
    let second = turns_back(world, 1, 20)?;
    let told = world.deliveries(0) == [over(1, SENT)].as_slice();
    Ok(first && begun && went && second && told && world.turns(0).len() == 2)
}

fn too_few(world: &mut World) -> Result<bool, AllocError>
    requires { vec_len world.old.queues ≡ 2 }
{
    let long = world.deliver(0, &LONG)? == Begun::Underway;
    world.step(0, 1)?;
    let begun = world.deliver(0, &FOURTEEN)? == Begun::Underway;
    let went = goes(world, 0, &fourteen(0, 1, 0))?;
    let wanted = [over(0, Delivery::FewSlots), over(0, SENT)];
    Ok(long && begun && went && world.deliveries(0) == wanted.as_slice())
}

fn refused(world: &mut World) -> Result<bool, AllocError>
    requires { vec_len world.old.queues ≡ 2 }
{
    let begun = world.deliver(0, &FOURTEEN)? == Begun::Underway;
    // The entry's flags, 0, allow nothing.
    let steps = [
        (read(18, 0), 1),
        (read(18, 16), 9),
        (read(18, 17), 5),
        (read(1, 10), 0),
        (read(1, 11), 22),
        (write(18, 16, 9), 0),
        (write(18, 17, 0xffff_0000), 0),
        (write(18, 2, 1), 0),
        (read(18, 3), 0),
    ];
    let went = goes(world, 0, &steps)?;
    let wanted = [over(0, Delivery::Refused { slots: 1 })];
    Ok(begun && went && world.deliveries(0) == wanted.as_slice())
}

fn halted(world: &mut World) -> Result<bool, AllocError>
    requires { vec_len world.old.queues ≡ 2 }
{
    let begun = world.deliver(0, &FOURTEEN)? == Begun::Underway;
    world.step(0, 257)?;
    let told = world.deliveries(0) == [over(0, HALTED)].as_slice();
    let done = world.want(0) == Want::Done;
    world.step(0, 1)?;
    let again = world.deliver(0, &FOURTEEN)? == Begun::Over(HALTED);
    let twice = [over(0, HALTED), over(0, HALTED)];
    let kept = world.deliveries(0) == twice.as_slice() && world.turns(0).is_empty();
    Ok(begun && told && done && again && kept)
}

fn no_frame(world: &mut World) -> Result<bool, AllocError>
    requires { vec_len world.old.queues ≡ 2 }
{
    let short = world.deliver(0, &SHORT)? == Begun::Over(Delivery::NoFrame);
    let told = world.deliveries(0) == [over(0, Delivery::NoFrame)].as_slice();
    let turn = world.want(0) == read(17, 0);
    Ok(short && told && turn && world.deliver(0, &FOURTEEN)? == Begun::Underway)
}

fn busy(world: &mut World) -> Result<bool, AllocError>
    requires { vec_len world.old.queues ≡ 2 }
{
    world.step(0, 0)?;
    let inside = world.deliver(0, &FOURTEEN)? == Begun::Busy;
    let short = world.deliver(0, &SHORT)? == Begun::Busy;
    // The other queue is between turns.
    let other = world.deliver(1, &FOURTEEN)? == Begun::Underway;
    answered(world, 0, &[0, 0])?;
    let begun = world.deliver(0, &FOURTEEN)? == Begun::Underway;
    let delivering = world.deliver(0, &LONG)? == Begun::Busy;
    let went = goes(world, 0, &fourteen(0, 1, 0))?;
    let told = world.deliveries(0) == [over(1, SENT)].as_slice();
    Ok(inside && short && other && begun && delivering && went && told)
}

/// An activity of a world of two queues, whose rings begin at 0.
#[derive(Clone, Copy)]
enum Scenario {
    ByItsEvents,
    BetweenTwoTurns,
    TooFew,
    Refused,
    Halted,
    NoFrame,
    Busy,
}

impl Scenario {
    /// The program of both queues.
    fn program(self) -> &'static [u64] {
        match self {
            Scenario::BetweenTwoTurns => SEND,
            _ => PASS,
        }
    }

    /// Returns whether all is as it has to be.
    fn seen(self, world: &mut World) -> Result<bool, AllocError>
        requires { vec_len world.old.queues ≡ 2 }
    {
        match self {
            Scenario::ByItsEvents => by_its_events(world),
            Scenario::BetweenTwoTurns => between_two_turns(world),
            Scenario::TooFew => too_few(world),
            Scenario::Refused => refused(world),
            Scenario::Halted => halted(world),
            Scenario::NoFrame => no_frame(world),
            Scenario::Busy => busy(world),
        }
    }
}

/// Returns whether all is as it has to be, if there is memory.
fn holds(alloc: Global, scenario: Scenario) -> Option<bool> {
    let program = accepted(alloc, scenario.program())?;
    let layout = Layout::make(alloc, 2).ok()?;
    let mut buffers = buffers(alloc, 2).ok()?;
    let mut world = World::make(
        alloc,
        &layout,
        &program,
        &[],
        &[],
        buffers.as_mut_slice(),
        2,
        0,
        0,
    )
    .ok()?;
    scenario.seen(&mut world).ok()
}

#[test]
fn a_packet_is_delivered_by_its_events(rt: HostRuntime) -> Result<(), Fail> {
    assert!(rt; holds(rt.alloc(), Scenario::ByItsEvents) == Some(true));
    Ok(())
}

#[test]
fn a_delivery_between_two_turns_moves_the_rx_index_alone(rt: HostRuntime) -> Result<(), Fail> {
    assert!(rt; holds(rt.alloc(), Scenario::BetweenTwoTurns) == Some(true));
    Ok(())
}

#[test]
fn too_few_slots_take_nothing(rt: HostRuntime) -> Result<(), Fail> {
    assert!(rt; holds(rt.alloc(), Scenario::TooFew) == Some(true));
    Ok(())
}

#[test]
fn a_refused_grant_is_answered(rt: HostRuntime) -> Result<(), Fail> {
    assert!(rt; holds(rt.alloc(), Scenario::Refused) == Some(true));
    Ok(())
}

#[test]
fn a_halted_queue_delivers_nothing(rt: HostRuntime) -> Result<(), Fail> {
    assert!(rt; holds(rt.alloc(), Scenario::Halted) == Some(true));
    Ok(())
}

#[test]
fn what_is_no_frame_is_told_at_once(rt: HostRuntime) -> Result<(), Fail> {
    assert!(rt; holds(rt.alloc(), Scenario::NoFrame) == Some(true));
    Ok(())
}

#[test]
fn a_queue_is_busy_inside_a_turn_or_a_delivery(rt: HostRuntime) -> Result<(), Fail> {
    assert!(rt; holds(rt.alloc(), Scenario::Busy) == Some(true));
    Ok(())
}

/// Two deliveries on queue 1, one of too many bytes for its one slot, and one of none, with a turn of each queue between them. What is
/// reported, if there is memory: how many queues have deliveries, whether those of queue 1 are as they have to be, and whether queue 0
/// was idle.
fn reported(alloc: Global) -> Option<(usize, bool, bool)> {
    let program = accepted(alloc, PASS)?;
    let events = [
        WorldEvent::Deliver {
            queue: 1,
            packet: Vec::from_slice(alloc, &LONG).ok()?,
        },
        WorldEvent::Step {
            queue: 0,
            answer: 0,
        },
        WorldEvent::Step {
            queue: 0,
            answer: 0,
        },
        WorldEvent::Step {
            queue: 0,
            answer: 0,
        },
        WorldEvent::Step {
            queue: 1,
            answer: 1,
        },
        WorldEvent::Step {
            queue: 1,
            answer: 0,
        },
        WorldEvent::Step {
            queue: 1,
            answer: 0,
        },
        WorldEvent::Step {
            queue: 1,
            answer: 0,
        },
        WorldEvent::Deliver {
            queue: 1,
            packet: Vec::new(alloc),
        },
    ];
    let report = World::run_events(alloc, &program, 2, 0, 0, &events).ok()?;
    let wanted = [over(0, Delivery::FewSlots), over(1, Delivery::NoFrame)];
    let (delivered, idle) = match (report.deliveries.as_slice(), report.turns.as_slice()) {
        ([first, second], [turns, _]) => (
            first.is_empty() && second.as_slice() == wanted.as_slice(),
            matches!(turns.as_slice(), [Kept::Idle]),
        ),
        _ => (false, false),
    };
    Some((report.deliveries.len(), delivered, idle))
}

#[test]
fn a_report_has_the_deliveries_of_each_queue(rt: HostRuntime) -> Result<(), Fail> {
    assert_eq!(rt; reported(rt.alloc()), Some((2, true, true)));
    Ok(())
}
