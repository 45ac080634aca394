//! What the guest does, which a host doesn't write: it lends its pages, and sends a packet.
ghost use Rattle.std.specs.Prelude.{◌<◌};

use crate::bus::Pages;
use xen_page::{Bus, Place};

/// The back's domain, and the guest's.
pub const BACK: u16 = 0;

pub const FRONT: u16 = 1;

/// The guest's grant table, its two rings, and a packet's page. The guest lends each under the reference of its number.
pub const TABLE: u32 = 1;

pub const TX: u32 = 2;

pub const RX: u32 = 3;

const PAGE: u32 = 4;

/// The owner of each frame.
pub const OWNERS: [u16; 5] = [BACK, FRONT, FRONT, FRONT, FRONT];

/// The words before a ring's slots: two producers, and two event indices.
const REQ_PROD: u32 = 0;

const REQ_EVENT: u32 = 1;

const RSP_EVENT: u32 = 3;

const FIRST_SLOT: u32 = 16;

/// The packet's bytes: an Ethernet header.
const LENGTH: u32 = 14;

fn put(pages: &mut Pages, frame: u32, word: u32, value: u32)
    requires frame { frame < 5 }
    requires word { word < 1024 }
{
    pages.write(Place { frame, word }, value);
}

/// Grants the rings and the page, for reading and writing, and asks for a notice of each ring's first entry.
pub fn lend(pages: &mut Pages) {
    for frame in [TX, RX, PAGE] {
        put(pages, TABLE, 2 * frame + 1, frame);
        put(pages, TABLE, 2 * frame, 1);
    }
    for ring in [TX, RX] {
        put(pages, ring, REQ_EVENT, 1);
        put(pages, ring, RSP_EVENT, 1);
    }
}

/// One request: the page's reference, at offset 0 with no flags, id 0 and the size; then the producer.
pub fn send(pages: &mut Pages) {
    put(pages, TX, FIRST_SLOT, PAGE);
    put(pages, TX, FIRST_SLOT + 1, 0);
    put(pages, TX, FIRST_SLOT + 2, 0x1_0000 * LENGTH);
    put(pages, TX, REQ_PROD, 1);
}

/// A buffer for a packet of the host's: its id 0 and the page's reference; then the producer.
pub fn post(pages: &mut Pages) {
    put(pages, RX, FIRST_SLOT, 0);
    put(pages, RX, FIRST_SLOT + 1, PAGE);
    put(pages, RX, REQ_PROD, 1);
}
