//! Two fronts that are played the same calls and answers: one by `drive_front` over a bus that answers from a list, one by
//! `want` and `feed`.

ghost use Rattle.std.specs.Prelude.{◌≡◌};
ghost use Rattle.xen_front.specs.Fronts.{wiring_of};

use crate::bench::{Bench, FRAMES};
use std::alloc::{AllocError, Global};
use xen_front::{
    ACCEPTS_WHOLE, Accepts, Front, FrontHalt, PollRefusal, PostRefusal, RxOffload, RxTurn,
    SendRefusal,
};
use xen_page::{Access, ScriptBus};
use xen_ring::{Port, Ports};
use xen_steps::{Answer, Want};

/// Both indices at which a ring may begin: that of a new ring, and the last one before it wraps.
pub const STARTS: [u32; 2] = [0, 0xFFFF_FFFF];

/// The bytes 00 to 0d.
pub const SMALL: [u8; 14] = [0, 1, 2, 3, 4, 5, 6, 7, 8, 9, 10, 11, 12, 13];

/// A call that begins an activity.
#[derive(Clone, Copy)]
pub enum Call<'a> {
    Send(&'a [u8]),
    Post,
    Poll,
}

/// The outcome of a call. A packet is kept beside it.
#[derive(Clone, Copy, Debug, PartialEq, Eq)]
pub enum End {
    Idle,
    Packet(RxOffload),
    Refused,
    Halted(FrontHalt),
    NotSent(SendRefusal),
    NotPosted(PostRefusal),
    NotPolled(PollRefusal),
    /// More events than an activity may have.
    Endless,
}

/// A call's end, the packet that was received, the accesses, and whether a notice was sent.
#[derive(Debug, PartialEq, Eq, Drop)]
pub struct Played {
    pub end: End,
    pub packet: Vec<u8>,
    pub accesses: Vec<Access>,
    pub noticed: bool,
}

/// A read or a write, its frame and word, and the word that was read or written.
pub type Row = (bool, u32, u32, u32);

pub const READ: bool = false;

pub const WRITE: bool = true;

fn row(access: &Access) -> Row {
    match access {
        Access::Read { at, answer } => (READ, at.frame, at.word, *answer),
        Access::Write { at, value } => (WRITE, at.frame, at.word, *value),
        Access::Exchange { at, found, .. } => (READ, at.frame, at.word, *found),
    }
}

/// Returns whether these are the accesses from the `from`-th on, and perhaps more.
pub fn has(accesses: &[Access], from: usize, rows: &[Row]) -> bool {
    let mut at = from;
    for wanted in rows {
        match accesses.get(at) {
            Some(access) if row(access) == *wanted => at = at.saturating_add(1),
            _ => return false,
        }
    }
    true
}

impl Bench {
    /// Two fronts between activities.
    pub fn fronts(&self, start: u32) -> Option<Fronts<'_>> {
        self.fronts_accepting(start, ACCEPTS_WHOLE)
    }

    /// Two fronts between activities that accept so much.
    pub fn fronts_accepting(&self, start: u32, accepts: Accepts) -> Option<Fronts<'_>> {
        match (
            self.front_accepting(start, accepts),
            self.front_accepting(start, accepts),
        ) {
            (Some(driven), Some(fed)) => Some(Fronts {
                alloc: self.alloc,
                driven,
                fed,
            }),
            _ => None,
        }
    }
}

/// Returns what a turn gave, its packet copied.
fn copied(alloc: Global, turn: RxTurn) -> Result<(End, Vec<u8>), AllocError> {
    let (end, bytes): (End, &[u8]) = match turn {
        RxTurn::Idle => (End::Idle, &[]),
        RxTurn::Packet { offload, bytes } => (End::Packet(offload), bytes),
        RxTurn::Refused => (End::Refused, &[]),
        RxTurn::Halted { cause } => (End::Halted(cause), &[]),
    };
    Ok((end, bytes.to_vec(alloc)?))
}

/// Begins a call's activity. What came of it, if it is refused.
fn begin(front: &mut Front, call: Call) -> Option<End>
    ensures { wiring_of front.new ≡ wiring_of front.old }
{
    match call {
        Call::Send(bytes) => match front.send(bytes) {
            Ok(()) => None,
            Err(refusal) => Some(End::NotSent(refusal)),
        },
        Call::Post => match front.post_rx() {
            Ok(()) => None,
            Err(refusal) => Some(End::NotPosted(refusal)),
        },
        Call::Poll => match front.poll() {
            Ok(()) => None,
            Err(refusal) => Some(End::NotPolled(refusal)),
        },
    }
}

/// The activity over a bus that answers from a list.
fn drive(alloc: Global, front: &mut Front, answers: &[u32]) -> Result<Played, AllocError>
    requires { (wiring_of front.old).frames ≡ 531 }
    ensures { wiring_of front.new ≡ wiring_of front.old }
{
    let mut bus = ScriptBus::make(alloc, FRAMES, answers, 17_000)?;
    let ports = Ports::new();
    let (end, packet) = copied(alloc, front.drive_front(&mut bus, &ports))?;
    let noticed = match Port::of(1) {
        Some(port) => ports.take(port),
        None => false,
    };
    Ok(Played {
        end,
        packet,
        accesses: bus.accesses().to_vec(alloc)?,
        noticed,
    })
}

/// One event by hand.
enum Event {
    Read(Access),
    Wrote(Access),
    Noticed,
    Over,
}

/// Makes one event by hand, a read being answered by this word.
fn feed_one(front: &mut Front, word: u32) -> Event
    ensures { wiring_of front.new ≡ wiring_of front.old }
{
    match front.wanted() {
        Want::Read(at) => {
            front.feed(Answer::Word(word));
            Event::Read(Access::Read { at, answer: word })
        }
        Want::Write(at, value) => {
            front.feed(Answer::Nothing);
            Event::Wrote(Access::Write { at, value })
        }
        Want::Notify(_) => {
            front.feed(Answer::Nothing);
            Event::Noticed
        }
        _ => Event::Over,
    }
}

/// Returns what the activity gave, if it is over.
fn ended(alloc: Global, front: &mut Front) -> Result<(End, Vec<u8>), AllocError>
    ensures { wiring_of front.new ≡ wiring_of front.old }
{
    match front.wanted() {
        Want::Done => copied(alloc, front.received()),
        _ => Ok((End::Endless, Vec::new(alloc))),
    }
}

/// Makes the events by hand and notes them.
fn feed_all(front: &mut Front, answers: &[u32], played: &mut Played) -> Result<(), AllocError>
    ensures { wiring_of front.new ≡ wiring_of front.old }
{
    let mut next = 0;
    for _event in 0..17_000u32 {
        let word = answers.get(next).copied().unwrap_or(0);
        match feed_one(front, word) {
            Event::Read(access) => {
                played.accesses.push(access)?;
                next = next.saturating_add(1);
            }
            Event::Wrote(access) => played.accesses.push(access)?,
            Event::Noticed => played.noticed = true,
            Event::Over => break,
        }
    }
    Ok(())
}

/// The activity by hand.
fn feed(alloc: Global, front: &mut Front, answers: &[u32]) -> Result<Played, AllocError>
    ensures { wiring_of front.new ≡ wiring_of front.old }
{
    let mut played = Played {
        end: End::Endless,
        packet: Vec::new(alloc),
        accesses: Vec::new(alloc),
        noticed: false,
    };
    feed_all(front, answers, &mut played)?;
    (played.end, played.packet) = ended(alloc, front)?;
    Ok(played)
}

/// Returns what both fronts did, if it is the same. A refusal is what came of the call.
fn compared(
    by_drive: Result<Played, AllocError>,
    by_hand: Result<Played, AllocError>,
    refused: Option<End>,
) -> Option<Played> {
    let (Ok(mut played), Ok(fed)) = (by_drive, by_hand) else {
        return None;
    };
    let is_same = played == fed;
    if let Some(end) = refused {
        played.end = end;
    }
    is_same.then_some(played)
}

/// Plays a call to both fronts, if both do the same. A refused one makes no event.
fn play_both(
    alloc: Global,
    driven: &mut Front,
    fed: &mut Front,
    call: Call,
    answers: &[u32],
) -> Option<Played>
    requires { (wiring_of driven.old).frames ≡ 531 }
    ensures { wiring_of driven.new ≡ wiring_of driven.old }
{
    let refused = begin(driven, call);
    let also = begin(fed, call);
    let by_drive = drive(alloc, driven, answers);
    let by_hand = feed(alloc, fed, answers);
    if refused == also {
        compared(by_drive, by_hand, refused)
    } else {
        None
    }
}

/// The two fronts.
#[derive(Drop)]
pub struct Fronts<'p> {
    alloc: Global,
    driven: Front<'p>,
    fed: Front<'p>,
    ghost on_bus: { (wiring_of driven).frames ≡ 531 },
}

impl Fronts<'_> {
    /// Plays a call to both, with these answers, if both do the same.
    pub fn play(&mut self, call: Call, answers: &[u32]) -> Option<Played> {
        play_both(self.alloc, &mut self.driven, &mut self.fed, call, answers)
    }

    /// The counts of tx responses by status, if both fronts have the same.
    pub fn statuses(&self) -> Option<[u64; 4]> {
        let driven = self.driven.statuses();
        (driven == self.fed.statuses()).then_some(driven)
    }
}
