//! The pages of one interface, as a frontend fills them.
ghost use Rattle.std.specs.Prelude.{◌≡◌, ◌≤◌, IfOk, length};

use crate::packet::{Packets, pages_of};
use std::alloc::{AllocError, Global};
use xen_page::{Bus, Owners, Place, WORDS};

/// Frame 0 is the backend's, 4 to 19 are a packet's pages, which are also the buffers of its posted rx slots, and the
/// frontend's own lie between.
pub const FRAMES: usize = 20;
/// The frontend's domain; the backend's is 0.
pub const FRONT: u16 = 1;

/// The frontend's grant table, and its rings, each granted under the reference of its frame.
pub const TABLE: u32 = 1;

pub const TX: u32 = 2;

pub const RX: u32 = 3;

const FIRST_PAGE: u32 = 4;
/// The number of pages in which packets lie.
const PAGES: u32 = FRAMES as u32 - FIRST_PAGE;
/// The most slots that a packet takes, which netback allows (`XEN_NETBK_LEGACY_SLOTS_MAX` of Linux).
const MOST_SLOTS: u32 = 18;
/// The words of a ring's page before its entries.
const HEADER: u32 = 16;

const MORE_DATA: u32 = 4;

/// The owner of each frame.
pub fn domains() -> [u16; FRAMES]
    ensures { length result ≡ 20 }
{
    let mut domains = [FRONT; FRAMES];
    domains[0] = 0;
    domains
}

pub fn owners(alloc: Global) -> Result<Owners, AllocError>
    ensures { IfOk result (λ o. length o ≡ 20) }
{
    Owners::make(alloc, &domains())
}

/// The words of as many frames, which one thread owns.
pub fn plain_words(alloc: Global) -> Result<Vec<u32>, AllocError>
    ensures { IfOk result (λ words. length words.items ≡ 20480) }
{
    Vec::from_slice(alloc, &[0; FRAMES * WORDS as usize])
}

/// Writes a word of a page.
fn put<B: Bus>(bus: &mut B, frame: u32, word: u32, value: u32)
    ensures { B.size bus.new ≡ B.size bus.old }
{
    if frame < bus.frames() && word < 1024 {
        bus.write(Place { frame, word }, value);
    }
}

/// Grants each frame under the reference of its number, and fills the packet's pages.
pub fn fill<B: Bus>(bus: &mut B)
    ensures { B.size bus.new ≡ B.size bus.old }
{
    for frame in 0..FRAMES as u32 {
        put(bus, TABLE, 2 * frame, 1);
        put(bus, TABLE, 2 * frame + 1, frame);
    }
    for frame in FIRST_PAGE..FRAMES as u32 {
        for word in 0..1024u32 {
            put(bus, frame, word, word.wrapping_mul(0x0101_0101));
        }
    }
    for ring in [TX, RX] {
        put(bus, ring, 1, 1);
        put(bus, ring, 3, 1);
    }
}

/// Writes the slots of one packet from an index on.
fn put_packet<B: Bus>(bus: &mut B, index: u32, packets: Packets)
    ensures { B.size bus.new ≡ B.size bus.old }
{
    for slot in 0..packets.slots.min(MOST_SLOTS) {
        let at = HEADER + 3 * (index.wrapping_add(slot) % 256);
        let more = if slot + 1 < packets.slots {
            MORE_DATA
        } else {
            0
        };
        let size = (packets.size_in(slot) % 0x1_0000) as u32;
        put(bus, TX, at, FIRST_PAGE + slot % PAGES);
        put(bus, TX, at + 1, more * 0x1_0000);
        put(bus, TX, at + 2, size * 0x1_0000 + slot);
    }
}

/// Posts as many rx slots from an index on as one packet takes.
fn post_slots<B: Bus>(bus: &mut B, index: u32, size: usize)
    ensures { B.size bus.new ≡ B.size bus.old }
{
    for slot in 0..pages_of(size) {
        let at = HEADER + 2 * (index.wrapping_add(slot) % 256);
        put(bus, RX, at, slot);
        put(bus, RX, at + 1, FIRST_PAGE + slot);
    }
}

/// Publishes `count` packets from `index` on, posts rx slots for their pages, and returns the producer of both rings.
pub fn publish<B: Bus>(bus: &mut B, index: u32, packets: Packets, count: u32) -> u32
    ensures { B.size bus.new ≡ B.size bus.old }
{
    let mut producer = index;
    for _packet in 0..count {
        put_packet(bus, producer, packets);
        post_slots(bus, producer, packets.size);
        producer = producer.wrapping_add(packets.slots);
    }
    put(bus, TX, 0, producer);
    put(bus, RX, 0, producer);
    producer
}
