//! Where a front is inside an activity.

ghost use Rattle.std.specs.Prelude.{◌<◌, ◌≤◌, ◌≡◌, ◌+◌, ◌-◌, ◌/◌, length, true};
ghost use Rattle.xen_netif.specs.Copy.{Covers};

use crate::turn::Outcome;
use arrayvec::ArrayVec;
use xen_netif::{Fragment, RxOffload, RxRsp};

/// A piece of the packet that is being sent, and the ids of all its pieces. The first piece's slot has the index `start`.
#[derive(Drop)]
pub struct Piece {
    pub start: u32,
    pub index: u32,
    pub ids: ArrayVec<u8, 16>,
    ghost within: { index < length ids.items },
    ghost few: { index ≤ 15 },
}

/// A page of which some words are written.
#[derive(Drop)]
pub struct Filling {
    pub piece: Piece,
    pub written: u32,
    ghost most: { written ≤ 1024 },
}

/// A chain that is being received: how many responses are left after the one that is being read, how many slots came
/// before it, whether one of their statuses was negative, and what the packet leaves to the front.
#[derive(Clone, Copy)]
pub struct Chained {
    pub left: u32,
    pub slots: u32,
    pub bad: bool,
    pub offload: RxOffload,
    ghost few: { slots ≤ 15 },
}

/// A response of the chain that has passed the checks.
#[derive(Clone, Copy)]
pub struct Part {
    pub chained: Chained,
    pub response: RxRsp,
    ghost room: { response.flags.more_data ≡ true → chained.slots ≤ 14 },
    ghost extra: { response.flags.extra_info ≡ true → chained.slots ≡ 0 },
}

/// The extra behind the first response of a chain, and whether further responses follow it.
#[derive(Clone, Copy)]
pub struct Extra {
    pub chained: Chained,
    pub more: bool,
}

/// Before the word at a place of the part's page, after which `more` words are covered.
#[derive(Clone, Copy)]
pub struct Paging {
    pub part: Part,
    pub frame: u32,
    pub fragment: Fragment,
    pub place: u32,
    pub more: u32,
    ghost covers: { Covers fragment place },
    ghost last: { place + more ≡ (fragment.offset + fragment.size - 1) / 4 },
}

/// The push of requests on one of the two rings.
#[derive(Clone, Copy)]
pub struct Push {
    pub frame: u32,
    pub old: u32,
    pub new: u32,
}

/// The next event of an activity.
#[derive(Drop)]
pub enum Phase {
    /// Between activities.
    Ready,
    /// A piece's grant: its frame word, its flags word.
    GrantFrame(Piece),
    GrantFlags(Piece),
    /// A word of its page, or its slot's first word once all are written.
    Fill(Filling),
    Second(Piece),
    Third(Piece),
    /// A posted buffer's grant and the slot's words.
    PostFrame { id: u8, start: u32 },
    PostFlags { id: u8, start: u32 },
    PostFirst { id: u8, start: u32 },
    PostSecond { id: u8, start: u32 },
    Publish(Push),
    ReadEvent(Push),
    Notice,
    /// A poll: the tx ring's producer.
    TxLook,
    TxAnnounce,
    TxLookAgain,
    /// That many tx responses are left; after them, the rx ring's producer.
    Take(u32),
    /// A taken response's grant.
    TxEnd { id: u16, left: u32 },
    RxAnnounce,
    RxLookAgain,
    RxFirst(Chained),
    RxSecond { chained: Chained, first: u32 },
    RxEnd(Part),
    RxPage(Paging),
    /// The words of an extra, and the grant of the request in whose entry it lies.
    ExtraFirst(Extra),
    ExtraSecond { extra: Extra, first: u32 },
    ExtraEnd { extra: Extra, id: u16 },
    Ended(Outcome),
}
