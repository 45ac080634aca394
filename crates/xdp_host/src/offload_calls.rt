//! What C says of a queue's guest, and packets that leave something to the guest that they are delivered to.
ghost use Rattle.std.specs.Prelude.{◌≡◌, None, IfNone, IfSome, IsSome};
ghost use Rattle.xdp_host.specs.Accepts.{AcceptAnswers, DeliverAsAnswers, accepting_number, accepts_of, offload_of, segmented};
ghost use Rattle.xdp_host.specs.Begins.{no_queue};

use crate::queue_abi::NO_QUEUE;
use crate::queue_calls::given_packet;
use crate::queue_handle::XdpQueue;
use crate::segment_calls::{UNKNOWN_OFFER, has_bit, types_of};
use xen_host::{Accepting, Accepts, GsoType, Queue, RxOffload, Segments};

/// The answer if what a packet leaves has no name.
const UNKNOWN_OFFLOAD: u32 = 7;

/// Returns what a guest takes by these bits, if each has a name.
fn accepts_of(bits: u32) -> Option<Accepts>
    ensures { result ≡ accepts_of bits }
{
    if bits >= 8 {
        return None;
    }
    Some(Accepts {
        blank_checksums: has_bit(bits, 2),
        segments: types_of(bits),
    })
}

/// The number of the answer to what a guest takes.
fn accepting_number(answer: Accepting) -> u32
    ensures { result ≡ accepting_number answer }
{
    match answer {
        Accepting::Accepted => 0,
        Accepting::Busy => 2,
    }
}

/// Has a queue know that its guest takes what these bits say.
fn know(queue: &mut Queue, bits: u32) -> u32
    ensures { AcceptAnswers queue.old queue.new bits result }
{
    match accepts_of(bits) {
        Some(accepts) => accepting_number(queue.accept(accepts)),
        None => UNKNOWN_OFFER,
    }
}

/// Has a queue know what its guest takes, in place of what it knew, between two turns. The answer is 0; or, if it knows what it knew, there is
/// no queue, a turn, a delivery or a wait is under way, or a bit has no name.
#[unsafe(no_mangle)]
pub extern "C" fn laxonje_queue_accept(queue: &mut XdpQueue, accepts: u32) -> u32
    ensures none { IfNone queue.old.slot.held ((result ≡ no_queue) × (queue.new.slot.held ≡ None)) }
    ensures kept { IfSome queue.old.slot.held (λ _. IsSome queue.new.slot.held) }
    ensures given { IfSome queue.old.slot.held (λ q. IfSome queue.new.slot.held (λ r. AcceptAnswers q r accepts result)) }
{
    match queue.held_mut() {
        Some(held) => know(held, accepts),
        None => NO_QUEUE,
    }
}

/// A packet that stands for segments, if an extra has room for their size.
fn segmented(kind: GsoType, size: u32) -> Option<RxOffload>
    ensures { result ≡ segmented kind size }
{
    match u16::try_from(size) {
        Ok(size) => Some(RxOffload::Segmented(Segments { kind, size })),
        Err(_) => None,
    }
}

/// Returns what a packet leaves, by its number of the header and the size of a segment.
fn offload_of(number: u32, segment_size: u32) -> Option<RxOffload>
    ensures { result ≡ offload_of number segment_size }
{
    match number {
        0 => Some(RxOffload::Whole),
        1 => Some(RxOffload::Validated),
        2 => Some(RxOffload::Blank),
        3 => segmented(GsoType::TcpV4, segment_size),
        4 => segmented(GsoType::TcpV6, segment_size),
        _ => None,
    }
}

/// Gives a queue a packet to deliver, which leaves what these numbers say.
fn deliver_as(
    queue: &mut Queue,
    producer: u32,
    packet: &[u8],
    number: u32,
    segment_size: u32,
) -> u32
    ensures { DeliverAsAnswers queue.old queue.new producer packet.now number segment_size result }
{
    match offload_of(number, segment_size) {
        Some(offload) => given_packet(queue, producer, packet, offload),
        None => UNKNOWN_OFFLOAD,
    }
}

/// Begins to deliver a packet as `laxonje_queue_deliver` does, of which the guest is left something. The answer may also be that the guest
/// doesn't take that, or that it has no name.
#[unsafe(no_mangle)]
pub extern "C" fn laxonje_queue_deliver_as(
    queue: &mut XdpQueue,
    producer: u32,
    packet: &[u8],
    offload: u32,
    segment_size: u32,
) -> u32
    ensures none { IfNone queue.old.slot.held ((result ≡ no_queue) × (queue.new.slot.held ≡ None)) }
    ensures kept { IfSome queue.old.slot.held (λ _. IsSome queue.new.slot.held) }
    ensures taken { IfSome queue.old.slot.held (λ q. IfSome queue.new.slot.held (λ r.
        DeliverAsAnswers q r producer packet.now offload segment_size result)) }
{
    match queue.held_mut() {
        Some(held) => deliver_as(held, producer, packet, offload, segment_size),
        None => NO_QUEUE,
    }
}
