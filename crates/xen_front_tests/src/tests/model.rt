//! A front by lists, which makes up the answers that it takes: mostly those of an honest back.

ghost use Rattle.std.specs.Prelude.{◌<◌};

use super::answers::{
    extra_words, flags_and_status, given, is_negative, said, segments_in, size_of,
};
use super::fixtures::End;
use std::alloc::{AllocError, Global};
use xen_front::{Accepts, FrontHalt, RxOffload};
use xen_netif::Segments;

/// Numbers that look random, the same in each run (Knuth's MMIX generator).
#[derive(Clone, Copy)]
pub struct Random(u64);

impl Random {
    pub fn new(seed: u64) -> Random {
        Random(seed)
    }

    pub fn number(&mut self) -> u32 {
        self.0 = self
            .0
            .wrapping_mul(6_364_136_223_846_793_005)
            .wrapping_add(1_442_695_040_888_963_407);
        (self.0 >> 32) as u32
    }

    /// A number below 8, 16 or another small power of two.
    pub fn small(&mut self, mask: u32) -> u32 {
        self.number() & mask
    }

    /// Returns whether the next answer is any number at all.
    pub fn is_wild(&mut self) -> bool {
        self.small(255) == 0
    }
}

/// One ring: its two indices, the ids in flight, and all ids in the order of their requests.
#[derive(Drop)]
struct Ring {
    prod: u32,
    cons: u32,
    open: Vec<u32>,
    all: Vec<u32>,
    /// The number of responses that were taken.
    taken: usize,
}

impl Ring {
    /// Takes the lowest free id.
    fn begin(&mut self) -> Result<(), AllocError> {
        for id in 0..256u32 {
            if !self.open.contains(&id) {
                self.open.push(id)?;
                self.all.push(id)?;
                self.prod = self.prod.wrapping_add(1);
                return Ok(());
            }
        }
        Ok(())
    }

    fn end(&mut self, id: u32) {
        self.open.retain(|other| *other != id);
        self.taken = self.taken.saturating_add(1);
        self.cons = self.cons.wrapping_add(1);
    }

    fn new(alloc: Global, start: u32) -> Ring {
        Ring {
            prod: start,
            cons: start,
            open: Vec::new(alloc),
            all: Vec::new(alloc),
            taken: 0,
        }
    }

    /// The id of the request in the entry of the next response.
    fn next_id(&self) -> Option<u32> {
        self.all.get(self.taken).copied()
    }

    /// An id in flight, mostly.
    fn some_id(&self, random: &mut Random) -> u32 {
        let wild = random.is_wild();
        let at = random.small(15);
        match self.open.get(at as usize) {
            Some(id) if !wild => *id,
            _ => match self.open.first() {
                Some(id) if !wild => *id,
                _ => random.small(0x1FF),
            },
        }
    }
}

/// The answers to a poll, and its outcome.
#[derive(Drop)]
pub struct Poll {
    pub answers: Vec<u32>,
    pub packet: Vec<u8>,
    /// The number of words that it read or wrote.
    pub accesses: usize,
}

#[derive(Drop)]
pub struct Model {
    alloc: Global,
    tx: Ring,
    rx: Ring,
    accepts: Accepts,
    pub statuses: [u64; 4],
}

impl Poll {
    fn answer(&mut self, word: u32) -> Result<(), AllocError> {
        self.answers.push(word)?;
        self.accesses = self.accesses.saturating_add(1);
        Ok(())
    }

    fn wrote(&mut self) {
        self.accesses = self.accesses.saturating_add(1);
    }

    /// Looks for responses, and again if there is none: how many there are, or `None` if they are too many.
    fn look(&mut self, ring: &Ring, random: &mut Random) -> Result<Option<u32>, AllocError> {
        let open = ring.prod.wrapping_sub(ring.cons);
        for second in [false, true] {
            if second {
                self.wrote();
            }
            let shown = if random.is_wild() {
                random.number()
            } else {
                random.small(7).min(open)
            };
            self.answer(ring.cons.wrapping_add(shown))?;
            if shown > open {
                return Ok(None);
            }
            if shown > 0 || second {
                return Ok(Some(shown));
            }
        }
        Ok(None)
    }
}

/// Returns the count that a status two below this number belongs to: OKAY, DROPPED, ERROR or another.
fn place_of(status: u32) -> usize
    ensures { result < 4 }
{
    match status {
        0 => 1,
        1 => 2,
        2 => 0,
        _ => 3,
    }
}

impl Model {
    pub fn new(alloc: Global, start: u32, accepts: Accepts) -> Model {
        Model {
            alloc,
            tx: Ring::new(alloc, start),
            rx: Ring::new(alloc, start),
            accepts,
            statuses: [0; 4],
        }
    }

    /// Returns whether `pieces` ids are free.
    pub fn has_room(&self, pieces: usize) -> bool {
        self.tx.open.len().saturating_add(pieces) <= 256
    }

    pub fn can_post(&self) -> bool {
        self.rx.open.len() < 256
    }

    pub fn send(&mut self) -> Result<(), AllocError> {
        self.tx.begin()
    }

    pub fn post(&mut self) -> Result<(), AllocError> {
        self.rx.begin()
    }

    /// A poll before its first answer.
    pub fn begin(&self) -> Poll {
        Poll {
            answers: Vec::new(self.alloc),
            packet: Vec::new(self.alloc),
            accesses: 0,
        }
    }

    /// Makes up the answers of a poll, and returns what comes of it.
    pub fn poll(&mut self, poll: &mut Poll, random: &mut Random) -> Result<End, AllocError> {
        let Some(responses) = poll.look(&self.tx, random)? else {
            return Ok(End::Halted(FrontHalt::TxProducer));
        };
        for _response in 0..responses {
            if !self.take(poll, random)? {
                return Ok(End::Halted(FrontHalt::TxId));
            }
        }
        match poll.look(&self.rx, random)? {
            None => Ok(End::Halted(FrontHalt::RxProducer)),
            Some(0) => Ok(End::Idle),
            Some(responses) => self.receive(responses, poll, random),
        }
    }

    /// A tx response. Whether it is to a packet in flight.
    fn take(&mut self, poll: &mut Poll, random: &mut Random) -> Result<bool, AllocError> {
        let id = self.tx.some_id(random);
        let status = random.small(3);
        poll.answer(id | (status.wrapping_sub(2) & 0xFFFF) << 16)?;
        if !self.tx.open.contains(&id) {
            return Ok(false);
        }
        self.tx.end(id);
        poll.wrote();
        let place = place_of(status);
        self.statuses[place] = self.statuses[place].saturating_add(1);
        Ok(true)
    }

    /// A packet of at most `responses` responses.
    fn receive(
        &mut self,
        responses: u32,
        poll: &mut Poll,
        random: &mut Random,
    ) -> Result<End, AllocError> {
        let mut bad = false;
        let mut offload = RxOffload::Whole;
        let mut slots = 0u32;
        let mut extra: Option<bool> = None;
        for response in 0..responses {
            let left = responses.saturating_sub(response.saturating_add(1));
            match extra {
                Some(more) => {
                    extra = None;
                    match self.extra(poll, random)? {
                        Some(segments) => offload = RxOffload::Segmented(segments),
                        None => return Ok(End::Halted(FrontHalt::RxSlot)),
                    }
                    if !more {
                        return Ok(given(bad, offload));
                    }
                }
                None => {
                    let second = match self.slot(slots, left, poll, random)? {
                        Ok(second) => second,
                        Err(cause) => return Ok(End::Halted(cause)),
                    };
                    bad = bad || is_negative(second);
                    if slots == 0 {
                        offload = said(second);
                    }
                    slots = slots.saturating_add(1);
                    let more = second & 4 != 0;
                    if second & 8 != 0 {
                        extra = Some(more);
                    } else if !more {
                        return Ok(given(bad, offload));
                    }
                }
            }
        }
        Ok(End::Halted(FrontHalt::ShortChain))
    }

    /// A response to a slot and its page: its second word, or why the front halts.
    fn slot(
        &mut self,
        slots: u32,
        left: u32,
        poll: &mut Poll,
        random: &mut Random,
    ) -> Result<Result<u32, FrontHalt>, AllocError> {
        let id = self.rx.some_id(random);
        let offset = random.small(31);
        let may_have_extra = slots == 0 && self.accepts.segments.gso_tcpv4;
        let second = flags_and_status(left, may_have_extra, random);
        poll.answer(id | offset << 16)?;
        poll.answer(second)?;
        if !self.rx.open.contains(&id) || second & 8 != 0 && !may_have_extra {
            return Ok(Err(FrontHalt::RxSlot));
        }
        if let Some(cause) = poll.fault(slots, offset, second) {
            return Ok(Err(cause));
        }
        self.rx.end(id);
        poll.wrote();
        page(offset, size_of(second), poll, random)?;
        Ok(Ok(second))
    }

    /// An extra: the segments that it says, if it is taken.
    fn extra(
        &mut self,
        poll: &mut Poll,
        random: &mut Random,
    ) -> Result<Option<Segments>, AllocError> {
        let words = extra_words(random);
        poll.answer(words[0])?;
        poll.answer(words[1])?;
        let Some(id) = self.rx.next_id() else {
            return Ok(None);
        };
        if !self.rx.open.contains(&id) {
            return Ok(None);
        }
        let segments = segments_in(words);
        if segments.is_some() {
            self.rx.end(id);
            poll.wrote();
        }
        Ok(segments)
    }
}

impl Poll {
    /// Returns why a response to a buffer in flight halts the front, if it does.
    fn fault(&self, slot: u32, offset: u32, second: u32) -> Option<FrontHalt> {
        let size = size_of(second);
        if second & 16 != 0 {
            Some(FrontHalt::RxSlot)
        } else if !is_negative(second) && offset.saturating_add(size) > 4096 {
            Some(FrontHalt::RxSize)
        } else if slot >= 15 && second & 4 != 0
            || self.packet.len().saturating_add(size as usize) > 65_535
        {
            Some(FrontHalt::LongChain)
        } else {
            None
        }
    }
}

/// The words that `size` bytes from an offset on cover, and the bytes.
fn page(offset: u32, size: u32, poll: &mut Poll, random: &mut Random) -> Result<(), AllocError> {
    let end = offset.saturating_add(size);
    let first = offset / 4;
    let words = if size == 0 {
        0
    } else {
        end.div_ceil(4).saturating_sub(first)
    };
    let mut at = 4 * first;
    for _word in 0..words {
        let word = random.number();
        poll.answer(word)?;
        for byte in word.to_le_bytes() {
            if at >= offset && at < end {
                poll.packet.push(byte)?;
            }
            at = at.saturating_add(1);
        }
    }
    Ok(())
}
