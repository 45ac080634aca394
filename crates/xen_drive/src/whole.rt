//! A whole turn, a whole delivery and a whole wait, with the program's counters in words of the host's.

ghost use Rattle.std.specs.Prelude.{◌≡◌, ◌≤◌, IsSome, length};
ghost use Rattle.bpf_maps.specs.Layout.{total};
ghost use Rattle.xdp_program.specs.Tallies.{HasWords};
ghost use Rattle.xen_turns.specs.declared.delivery.delivering.Delivery.{Delivery};
ghost use Rattle.xen_turns.specs.declared.delivery.wait.Awaited.{Awaited};
ghost use Rattle.xen_turns.specs.declared.turn.Kind.{Kind};
ghost use Rattle.xen_host.specs.Asks.{DeliveryOver, TurnOver, WaitOver, op_of};
ghost use Rattle.xen_host.specs.Queues.{resting, wired_to};
ghost use Rattle.xen_drive.specs.Driven.{HasAwaited, HasDelivered, HasTurned};

use xdp_program::CounterWords;
use xen_host::{Awaited, Delivery, HostOp, Kind, Over, Queue, RxOffload};
use xen_page::Bus;
use xen_ring::Ports;

/// As [`drive`], in words that are lent.
#[inline(always)]
fn drive_in_words<B: Bus>(
    queue: &mut Queue,
    bus: &mut B,
    counters: &mut CounterWords<'_>,
    ports: &Ports,
) -> Kind
    requires rests { IsSome (resting queue.old) }
    requires size { B.size bus.old ≡ length (wired_to queue.old).owners }
    requires counts { HasWords (wired_to queue.old).program.shapes counters.old }
    ensures size { B.size bus.new ≡ B.size bus.old }
    ensures counters { length counters.new.words.now ≡ length counters.old.words.now }
    ensures loan { counters.new.words.ghost_name ≡ counters.old.words.ghost_name }
    ensures turned { HasTurned B.log B.access_gives queue.old queue.new result bus.old bus.new counters.old.words.now
        counters.new.words.now }
{
    queue.drive_turn(counters, bus, ports)
}

/// As [`deliver`], in words that are lent.
fn deliver_in_words<B: Bus>(
    queue: &mut Queue,
    packet: &[u8],
    offload: RxOffload,
    bus: &mut B,
    counters: &mut CounterWords<'_>,
    ports: &Ports,
) -> Delivery
    requires rests { IsSome (resting queue.old) }
    requires size { B.size bus.old ≡ length (wired_to queue.old).owners }
    requires counts { HasWords (wired_to queue.old).program.shapes counters.old }
    ensures size { B.size bus.new ≡ B.size bus.old }
    ensures counters { length counters.new.words.now ≡ length counters.old.words.now }
    ensures loan { counters.new.words.ghost_name ≡ counters.old.words.ghost_name }
    ensures delivered { HasDelivered B.log B.access_gives queue.old queue.new offload packet.now result bus.old bus.new
        counters.old.words.now counters.new.words.now }
{
    queue.drive_delivery(packet, offload, counters, bus, ports)
}

/// As [`await_slots`], in words that are lent.
fn await_in_words<B: Bus>(
    queue: &mut Queue,
    pages: u32,
    bus: &mut B,
    counters: &mut CounterWords<'_>,
    ports: &Ports,
) -> Awaited
    requires rests { IsSome (resting queue.old) }
    requires size { B.size bus.old ≡ length (wired_to queue.old).owners }
    requires counts { HasWords (wired_to queue.old).program.shapes counters.old }
    ensures size { B.size bus.new ≡ B.size bus.old }
    ensures counters { length counters.new.words.now ≡ length counters.old.words.now }
    ensures loan { counters.new.words.ghost_name ≡ counters.old.words.ghost_name }
    ensures awaited { HasAwaited B.log B.access_gives queue.old queue.new pages result bus.old bus.new counters.old.words.now
        counters.new.words.now }
{
    queue.drive_wait(pages, counters, bus, ports)
}

/// Takes a whole turn of a queue that is between two, and returns its last op: how the turn ended.
#[inline(always)]
pub fn drive<B: Bus>(queue: &mut Queue, bus: &mut B, counters: &mut [u64], ports: &Ports) -> HostOp
    requires rests { IsSome (resting queue.old) }
    requires size { B.size bus.old ≡ length (wired_to queue.old).owners }
    requires counts { total (wired_to queue.old).program.shapes ≤ length counters.old }
    ensures size { B.size bus.new ≡ B.size bus.old }
    ensures counters { length counters.new ≡ length counters.old }
    ensures turned { (kind : Kind) × (result ≡ op_of (TurnOver kind)) ×
        HasTurned B.log B.access_gives queue.old queue.new kind bus.old bus.new counters.old counters.new }
{
    let mut own = CounterWords { words: counters };
    Over::Turn(drive_in_words(queue, bus, &mut own, ports)).op()
}

/// Delivers a packet of the host's own to the frontend, between two turns, and returns the last op: what became of it. It leaves
/// `offload` to the frontend.
pub fn deliver<B: Bus>(
    queue: &mut Queue,
    packet: &[u8],
    offload: RxOffload,
    bus: &mut B,
    counters: &mut [u64],
    ports: &Ports,
) -> HostOp
    requires rests { IsSome (resting queue.old) }
    requires size { B.size bus.old ≡ length (wired_to queue.old).owners }
    requires counts { total (wired_to queue.old).program.shapes ≤ length counters.old }
    ensures size { B.size bus.new ≡ B.size bus.old }
    ensures counters { length counters.new ≡ length counters.old }
    ensures delivered { (what : Delivery) × (result ≡ op_of (DeliveryOver what)) ×
        HasDelivered B.log B.access_gives queue.old queue.new offload packet.now what bus.old bus.new counters.old counters.new }
{
    let mut own = CounterWords { words: counters };
    Over::Delivery(deliver_in_words(queue, packet, offload, bus, &mut own, ports)).op()
}

/// Asks the frontend for a notice as soon as it has posted `pages` rx slots, and looks whether it has by now, between two turns. Returns
/// the last op: whether they are there.
pub fn await_slots<B: Bus>(
    queue: &mut Queue,
    pages: u32,
    bus: &mut B,
    counters: &mut [u64],
    ports: &Ports,
) -> HostOp
    requires rests { IsSome (resting queue.old) }
    requires size { B.size bus.old ≡ length (wired_to queue.old).owners }
    requires counts { total (wired_to queue.old).program.shapes ≤ length counters.old }
    ensures size { B.size bus.new ≡ B.size bus.old }
    ensures counters { length counters.new ≡ length counters.old }
    ensures awaited { (what : Awaited) × (result ≡ op_of (WaitOver what)) ×
        HasAwaited B.log B.access_gives queue.old queue.new pages what bus.old bus.new counters.old counters.new }
{
    let mut own = CounterWords { words: counters };
    Over::Wait(await_in_words(queue, pages, bus, &mut own, ports)).op()
}
