//! The phases of a transmit.

ghost use Rattle.std.specs.Prelude.{◌<◌, ◌+◌, length};

use crate::target::{Grants, Targets};
use xen_page::Place;

/// The end of a transmit. The last two used this many rx slots.
#[derive(Clone, Copy, Debug, PartialEq, Eq)]
pub enum TransmitOutcome {
    /// The rx ring's producer is more than a whole ring ahead.
    Overflow,
    /// The frontend posted fewer slots than the packet needs.
    TooFew,
    /// A slot's grant was refused; each slot read was answered with ERROR.
    Refused(u32),
    /// The packet was copied into the posted buffers.
    Sent(u32),
}

/// The slots read so far, and how many are left after the one that is being read.
#[derive(Drop)]
pub struct Posting {
    pub left: u32,
    pub targets: Targets,
    ghost room: { length targets + left < 17 },
}

/// Before the grant entry of the slot with this id; its flags word is at the place.
#[derive(Drop)]
pub struct Granting {
    pub left: u32,
    pub targets: Targets,
    pub id: u16,
    pub at: Place,
    ghost room: { length targets + left < 17 },
    ghost word: { at.word < 1023 },
}

/// Between the two words of the i-th response.
#[derive(Drop)]
pub struct Responding {
    pub grants: Grants,
    pub targets: Targets,
    pub i: u32,
    ghost within: { i < length targets },
}

/// The next act of a transmit.
#[derive(Drop)]
pub enum Phase {
    /// Read the producer.
    Look,
    /// Read a slot's first word.
    First(Posting),
    /// Read its second word, after this first one.
    Second(Posting, u32),
    /// Read a grant entry's flags word.
    EntryFlags(Granting),
    /// Read the entry's frame word, after this flags word.
    EntryFrame {
        granting: Granting,
        flags_word: u32,
    },
    /// Write the k-th word of the packet, or the first response if all are written.
    Filling {
        targets: Targets,
        k: u32,
    },
    /// Write the i-th response's first word, or push if all are written.
    Response {
        grants: Grants,
        targets: Targets,
        i: u32,
    },
    /// Write a response's second word.
    HalfResponse(Responding),
    /// Read the event index after the push of `n` responses.
    ReadEvent {
        grants: Grants,
        n: u32,
    },
    /// Send the notice.
    Notice {
        grants: Grants,
        n: u32,
    },
    /// Nothing.
    Over(TransmitOutcome),
}
