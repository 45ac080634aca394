//! A packet that the host delivers, and what its frontend sees.

ghost use Rattle.std.specs.Prelude.{◌≡◌, ◌<◌, length};
ghost use Rattle.xen_back.specs.Queues.{IsReady, IsSameWiring, wiring_of};

use super::fixtures::{PASSES, access_to, answer_to, is_notified, wrote};
use crate::bench::{Bench, FRAMES, ready};
use bpf_vm::Buffer;
use std::alloc::Global;
use xen_back::{Delivery, Queue, RxPacket, Want};
use xen_netif::{ACCEPTS_WHOLE, Accepts, RxOffload};
use xen_page::{Access, ScriptBus};
use xen_ring::Ports;

/// Returns where word `word` of the i-th rx slot from `start` lies in the rx ring's page.
pub fn rx(start: u32, i: u32, word: u32) -> u32
    requires { word < 2 }
{
    16 + 2 * (start.wrapping_add(i) % 256) + word
}

/// A delivery, with its accesses and whether a notice was sent.
#[derive(Debug, PartialEq, Drop)]
pub struct Delivered {
    pub delivery: Delivery,
    pub accesses: Vec<Access>,
    pub notified: bool,
}

impl Delivered {
    /// Returns whether these are its writes to a frame, in order.
    pub fn wrote(&self, frame: u32, wanted: &[Access]) -> bool {
        wrote(self.accesses.as_slice(), frame, wanted)
    }
}

/// A packet that leaves the frontend nothing to do.
fn whole(bytes: &[u8]) -> RxPacket<'_> {
    RxPacket {
        offload: RxOffload::Whole,
        bytes,
    }
}

/// A delivery of a packet that leaves nothing, to a frontend that answers from a list.
pub fn deliver(
    alloc: Global,
    queue: &mut Queue,
    packet: &[u8],
    answers: &[u32],
) -> Option<Delivered>
    requires ready { IsReady queue.old }
    requires owners { length (wiring_of queue.old).vif.owners.now ≡ 20 }
    ensures ready { IsReady queue.new }
    ensures same { IsSameWiring queue.old queue.new }
{
    deliver_in_one_go(alloc, queue, whole(packet), answers)
}

/// A delivery to a frontend that answers from a list.
fn deliver_in_one_go(
    alloc: Global,
    queue: &mut Queue,
    packet: RxPacket<'_>,
    answers: &[u32],
) -> Option<Delivered>
    requires ready { IsReady queue.old }
    requires owners { length (wiring_of queue.old).vif.owners.now ≡ 20 }
    ensures ready { IsReady queue.new }
    ensures same { IsSameWiring queue.old queue.new }
{
    let mut bus = ScriptBus::make(alloc, FRAMES, answers, 34_000).ok()?;
    let ports = Ports::new();
    let delivery = queue.deliver(packet.bytes, packet.offload, &mut bus, &ports);
    match Vec::from_slice(alloc, bus.accesses()) {
        Ok(accesses) => Some(Delivered {
            delivery,
            accesses,
            notified: is_notified(&ports),
        }),
        Err(_) => None,
    }
}

/// As [`deliver_in_one_go`], but one event at a time. None if it has no end.
fn deliver_by_event(
    alloc: Global,
    queue: &mut Queue,
    packet: RxPacket<'_>,
    answers: &[u32],
) -> Option<Delivered>
    requires ready { IsReady queue.old }
{
    let mut delivering = queue.begin_delivery(packet.bytes, packet.offload);
    let mut accesses = Vec::new(alloc);
    let mut given = answers.iter();
    let mut notified = false;
    for _event in 0..100_000u32 {
        let want = delivering.want();
        let word = match want {
            Want::Read(_) => given.next().copied().unwrap_or(0),
            _ => 0,
        };
        let Some(answer) = answer_to(want, word) else {
            let delivery = queue.end_delivery(delivering);
            return Some(Delivered {
                delivery,
                accesses,
                notified,
            });
        };
        if let Some(access) = access_to(want, word) {
            accesses.push(access).ok()?;
        }
        notified |= matches!(want, Want::Notify(_));
        delivering.feed(answer);
    }
    None
}

/// The delivery by a new queue.
fn delivered_in_one_go(
    alloc: Global,
    bench: &Bench,
    buffer: &mut Buffer,
    start: u32,
    packet: RxPacket<'_>,
    answers: &[u32],
) -> Option<Delivered> {
    let mut queue = bench.queue(alloc, start, buffer)?;
    deliver_in_one_go(alloc, &mut queue, packet, answers)
}

/// As [`delivered_in_one_go`], but one event at a time.
fn delivered_by_event(
    alloc: Global,
    bench: &Bench,
    buffer: &mut Buffer,
    start: u32,
    packet: RxPacket<'_>,
    answers: &[u32],
) -> Option<Delivered> {
    let mut queue = bench.queue(alloc, start, buffer)?;
    deliver_by_event(alloc, &mut queue, packet, answers)
}

/// The delivery by a new queue that comes out both ways, of a packet that leaves nothing. None if the two ways differ.
pub fn delivered_first(
    alloc: Global,
    start: u32,
    packet: &[u8],
    answers: &[u32],
) -> Option<Delivered> {
    delivered_to(alloc, ACCEPTS_WHOLE, start, whole(packet), answers)
}

/// As [`delivered_first`], of any packet to a frontend that accepts so much.
pub fn delivered_to(
    alloc: Global,
    accepts: Accepts,
    start: u32,
    packet: RxPacket<'_>,
    answers: &[u32],
) -> Option<Delivered> {
    let (bench, mut buffer) = ready(alloc, &PASSES, &[])?;
    let bench = bench.with_accepts(accepts);
    let seen = delivered_in_one_go(alloc, &bench, &mut buffer, start, packet, answers);
    if seen == delivered_by_event(alloc, &bench, &mut buffer, start, packet, answers) {
        seen
    } else {
        None
    }
}

/// Fourteen bytes. Each says where it lies.
pub const FOURTEEN: [u8; 14] = [0, 1, 2, 3, 4, 5, 6, 7, 8, 9, 10, 11, 12, 13];
