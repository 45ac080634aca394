//! Random writes of a frontend between the accesses of turns of random chains.

use super::pages::{BUFFER, Bench, RX, Rewrite, TABLE, TX, agreed, fill};
use super::programs::{COUNT, PASS, READ_AND_ADD, SEND, SET_FIRST, accepted};
use crate::memory::{Memory, frames};
use bpf_verify::Verified;
use bpf_vm::Buffer;
use std::alloc::{AllocError, Global};
use xen_page::{Frames, Place};

/// The number of lists of writes.
const LISTS: u64 = 2_000;

/// The reference of the first rx buffer of the test.
const POSTED: u32 = 300;

/// A chain in the pages, and writes that come between the accesses of its turn.
#[derive(Drop)]
struct Attack {
    random: u64,
    start: u32,
    words: Vec<(u32, u32, u32)>,
    writes: Vec<Rewrite>,
}

/// The word of a tx slot, and of an rx request.
fn tx_word(index: u32, word: u32) -> u32 {
    16u32.wrapping_add(3 * (index % 256)).wrapping_add(word)
}

fn rx_word(index: u32, word: u32) -> u32 {
    16u32.wrapping_add(2 * (index % 256)).wrapping_add(word)
}

impl Attack {
    fn new(alloc: Global, seed: u64) -> Attack {
        Attack {
            random: seed.wrapping_mul(0x9e37_79b9_7f4a_7c15) | 1,
            start: if seed % 2 == 0 { 0 } else { 0xffff_ffff },
            words: Vec::new(alloc),
            writes: Vec::new(alloc),
        }
    }

    /// A random number below `limit`, by xorshift.
    fn below(&mut self, limit: u32) -> u32 {
        let mut x = self.random;
        x ^= x << 13;
        x ^= x >> 7;
        x ^= x << 17;
        self.random = x;
        ((x >> 33) % u64::from(limit.max(1))) as u32
    }

    fn put(&mut self, frame: u32, word: u32, value: u32) -> Result<(), AllocError> {
        self.words.push((frame, word, value))?;
        Ok(())
    }

    /// A grant of a buffer's frame under a reference.
    fn grant(&mut self, gref: u32) -> Result<(), AllocError> {
        self.put(TABLE, gref.wrapping_mul(2), 1)?;
        self.put(
            TABLE,
            gref.wrapping_mul(2).wrapping_add(1),
            gref.wrapping_add(17),
        )
    }

    /// The slot of an extra, the last or not.
    fn extra(&mut self, index: u32, more: bool) -> Result<(), AllocError> {
        let kind = self.below(5).wrapping_add(1);
        let flag = if more { 256 } else { 0 };
        self.put(TX, tx_word(index, 0), kind.wrapping_add(flag))
    }

    /// A data slot of buffer `number`, with the words of its page.
    fn data(&mut self, index: u32, number: u32, flags: u32, size: u32) -> Result<(), AllocError> {
        let gref = number.wrapping_add(2);
        let offset = self.below(70);
        self.grant(gref)?;
        self.put(TX, tx_word(index, 0), gref)?;
        self.put(TX, tx_word(index, 1), (flags << 16).wrapping_add(offset))?;
        self.put(TX, tx_word(index, 2), (size << 16).wrapping_add(number))?;
        for word in 0..64 {
            let value = self.below(0x7fff_ffff);
            self.put(BUFFER.wrapping_add(number), word, value)?;
        }
        Ok(())
    }

    /// A chain of `slots` data slots, with extras or without. Returns its length.
    fn chain(&mut self, slots: u32) -> Result<u32, AllocError> {
        let extras = if self.below(6) == 0 {
            self.below(5).wrapping_add(1)
        } else {
            0
        };
        let mut index = self.start;
        for number in 0..slots {
            let more = if number.wrapping_add(1) < slots { 4 } else { 0 };
            let has_extras = number == 0 && extras > 0;
            let flags = if has_extras { more | 8 } else { more };
            let size = if number == 0 {
                self.below(300).wrapping_add(900)
            } else {
                self.below(50)
            };
            self.data(index, number, flags, size)?;
            index = index.wrapping_add(1);
            if has_extras {
                for extra in 0..extras {
                    self.extra(index, extra.wrapping_add(1) < extras)?;
                    index = index.wrapping_add(1);
                }
            }
        }
        Ok(index.wrapping_sub(self.start))
    }

    /// Up to three rx requests, and the events of both rings.
    fn requests(&mut self, length: u32) -> Result<(), AllocError> {
        let posted = self.below(4);
        for number in 0..posted {
            let gref = POSTED.wrapping_add(number);
            let index = self.start.wrapping_add(number);
            self.grant(gref)?;
            self.put(RX, rx_word(index, 0), number)?;
            self.put(RX, rx_word(index, 1), gref)?;
        }
        self.put(RX, 0, self.start.wrapping_add(posted))?;
        let event = self.below(3);
        self.put(RX, 3, self.start.wrapping_add(event))?;
        let event = self.below(length.wrapping_add(2));
        self.put(TX, 3, self.start.wrapping_add(event))?;
        self.put(TX, 0, self.start.wrapping_add(length))
    }

    /// A place that a turn of a chain of this length may look at.
    fn place(&mut self, length: u32) -> Place {
        let slot = self.below(length);
        let word = self.below(3);
        let index = self.start.wrapping_add(slot);
        match self.below(8) {
            0 => Place { frame: TX, word: 0 },
            1 => Place {
                frame: TX,
                word: tx_word(index, word),
            },
            2 => Place {
                frame: TABLE,
                word: slot.wrapping_mul(2).wrapping_add(4),
            },
            3 => Place {
                frame: TABLE,
                word: slot.wrapping_mul(2).wrapping_add(5),
            },
            4 => Place {
                frame: BUFFER.wrapping_add(slot),
                word: self.below(64),
            },
            5 => Place {
                frame: if word == 0 { TX } else { RX },
                word: word.wrapping_mul(3) % 6,
            },
            6 => Place {
                frame: RX,
                word: rx_word(index, word % 2),
            },
            _ => Place {
                frame: TABLE,
                word: POSTED.wrapping_mul(2).wrapping_add(self.below(6)),
            },
        }
    }

    fn value(&mut self) -> u32 {
        match self.below(12) {
            0 => 0,
            1 => 1,
            2 => 5,
            3 => 0x0004_0000,
            4 => 0x0008_0000,
            5 => 0xffff_0007,
            6 => 0xffff_ffff,
            7 => 9,
            8 => self.start.wrapping_add(257),
            9 => self.start.wrapping_add(self.below(30)),
            10 => self.below(531),
            _ => self.below(0x7fff_ffff),
        }
    }

    /// Up to seven writes, before accesses of any part of the turn.
    fn rewrite(&mut self, slots: u32, length: u32) -> Result<(), AllocError> {
        let accesses = length
            .wrapping_mul(4)
            .wrapping_add(slots.wrapping_mul(20))
            .wrapping_add(300);
        let most = if self.below(2) == 0 { 20 } else { accesses };
        for _write in 0..self.below(7).wrapping_add(1) {
            let number = self.below(most);
            let place = self.place(length);
            let value = self.value();
            self.writes.push((number, place, value))?;
        }
        Ok(())
    }
}

impl Attack {
    /// Makes up a chain and its writes.
    fn choose(&mut self) -> Result<(), AllocError> {
        let slots = self.below(18).wrapping_add(1);
        let length = self.chain(slots)?;
        self.requests(length)?;
        self.rewrite(slots, length)
    }
}

/// The programs that the lists go through in turn.
const PROGRAMS: [&[u64]; 5] = [PASS, SEND, COUNT, READ_AND_ADD, SET_FIRST];

/// Returns how the ways to a random turn differ, if they do.
fn difference(
    alloc: Global,
    memory: &Memory,
    frames: &Frames,
    buffer: &mut Buffer,
    program: &Verified,
    seed: u64,
) -> Option<&'static str> {
    let mut attack = Attack::new(alloc, seed);
    if attack.choose().is_err() {
        return Some("no list of writes");
    }
    let bench = Bench {
        memory,
        frames,
        program,
        start: attack.start,
    };
    fill(frames, attack.words.as_slice());
    agreed(alloc, &bench, buffer, attack.writes.as_slice()).err()
}

/// Each fifth list from a seed on: how many give one turn, or the first seed that doesn't and how the ways differ.
fn lists_from(
    alloc: Global,
    memory: &Memory,
    frames: &Frames,
    buffer: &mut Buffer,
    program: &Verified,
    first: u64,
) -> Result<u64, (u64, &'static str)> {
    let mut lists = 0u64;
    let mut seed = first;
    for _list in 0..LISTS / 5 {
        if let Some(found) = difference(alloc, memory, frames, buffer, program, seed) {
            return Err((seed, found));
        }
        lists = lists.wrapping_add(1);
        seed = seed.wrapping_add(5);
    }
    Ok(lists)
}

/// The lists of a program.
fn lists_of(alloc: Global, slots: &[u64], first: u64) -> Result<u64, (u64, &'static str)> {
    let Some(memory) = Memory::make(alloc) else {
        return Err((first, "no memory"));
    };
    let (Some(frames), Some(program)) = (frames(alloc), accepted(alloc, slots)) else {
        return Err((first, "no pages or no program"));
    };
    match Buffer::make(alloc) {
        Ok(mut buffer) => lists_from(alloc, &memory, &frames, &mut buffer, &program, first),
        Err(_) => Err((first, "no buffer")),
    }
}

#[test]
fn random_writes_give_one_turn(rt: HostRuntime) {
    let mut first = 0u64;
    for slots in PROGRAMS {
        assert_eq!(rt; lists_of(rt.alloc(), slots, first), Ok(LISTS / 5));
        first = first.wrapping_add(1);
    }
}
