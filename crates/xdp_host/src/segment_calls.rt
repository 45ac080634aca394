//! What C has a queue offer its guest, and how a turn's packet is to be segmented.
ghost use Rattle.std.specs.Prelude.{◌≡◌, ◌<◌, None, IfNone, IfSome, IsSome, MatchOption};
ghost use Rattle.xen_netif.specs.Words.{is_set};
ghost use Rattle.xdp_host.specs.Begins.{no_queue};
ghost use Rattle.xdp_host.specs.Offers.{OfferAnswers, offering_number, offers_of, types_of};
ghost use Rattle.xen_host.specs.Offload.{segment_size, segment_type};

use crate::queue_abi::NO_QUEUE;
use crate::queue_handle::XdpQueue;
use xen_host::{Offering, Offers, Queue};

/// The answer if a bit has no name.
pub const UNKNOWN_OFFER: u32 = 3;

/// Returns whether a bit is set.
pub fn has_bit(bits: u32, index: u32) -> bool
    requires { index < 32 }
    ensures { result ≡ is_set bits index }
{
    bits >> index & 1 == 1
}

/// The types of segments whose bits are set.
pub fn types_of(bits: u32) -> Offers
    ensures { result ≡ types_of bits }
{
    Offers {
        gso_tcpv4: has_bit(bits, 0),
        gso_tcpv6: has_bit(bits, 1),
    }
}

/// The offers of these bits, if each has a name.
fn offers_of(bits: u32) -> Option<Offers>
    ensures { result ≡ offers_of bits }
{
    if bits < 4 { Some(types_of(bits)) } else { None }
}

/// The number of the answer to offers.
fn offering_number(answer: Offering) -> u32
    ensures { result ≡ offering_number answer }
{
    match answer {
        Offering::Offered => 0,
        Offering::Busy => 2,
    }
}

/// Has a queue make the offers of these bits.
fn make_offers(queue: &mut Queue, bits: u32) -> u32
    ensures { OfferAnswers queue.old queue.new bits result }
{
    match offers_of(bits) {
        Some(offers) => offering_number(queue.offer(offers)),
        None => UNKNOWN_OFFER,
    }
}

/// Has a queue make these offers in place of its own, between two turns. The answer is 0; or, if it makes those that it made, there is no
/// queue, a turn, a delivery or a wait is under way, or a bit has no name.
#[unsafe(no_mangle)]
pub extern "C" fn laxonje_queue_offer(queue: &mut XdpQueue, offers: u32) -> u32
    ensures none { IfNone queue.old.slot.held ((result ≡ no_queue) × (queue.new.slot.held ≡ None)) }
    ensures kept { IfSome queue.old.slot.held (λ _. IsSome queue.new.slot.held) }
    ensures given { IfSome queue.old.slot.held (λ q. IfSome queue.new.slot.held (λ r. OfferAnswers q r offers result)) }
{
    match queue.held_mut() {
        Some(held) => make_offers(held, offers),
        None => NO_QUEUE,
    }
}

/// Returns what kind of segments the packet of the turn that is under way or over is to make. 0 with no queue, before its chain is
/// whole, and of a packet that isn't to be segmented.
#[unsafe(no_mangle)]
pub extern "C" fn laxonje_queue_segment_type(queue: &mut XdpQueue) -> u32
    ensures kept { queue.new.slot.held ≡ queue.old.slot.held }
    ensures number { MatchOption queue.old.slot.held (result ≡ 0) (λ q. result ≡ segment_type q.engine.offload.segments) }
{
    match queue.held_mut() {
        Some(held) => u32::from(held.segment_type()),
        None => 0,
    }
}

/// The most bytes of payload in each of these segments.
#[unsafe(no_mangle)]
pub extern "C" fn laxonje_queue_segment_size(queue: &mut XdpQueue) -> u32
    ensures kept { queue.new.slot.held ≡ queue.old.slot.held }
    ensures size { MatchOption queue.old.slot.held (result ≡ 0) (λ q. result ≡ segment_size q.engine.offload.segments) }
{
    match queue.held_mut() {
        Some(held) => u32::from(held.segment_size()),
        None => 0,
    }
}
