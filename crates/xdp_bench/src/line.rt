//! What a line asks for.

use crate::fault::Fault;
use crate::packet::Packets;
use std::alloc::Global;

/// The memory of which the pages are made.
#[derive(Clone, Copy, Debug, PartialEq, Eq, Drop)]
pub enum Memory {
    /// Words that threads may share, as a `PageBus` reaches them.
    Shared,
    /// Words that one thread owns, as a `PlainBus` does.
    Plain,
}

/// The work that a line asks for, and the number of times.
#[derive(Drop)]
pub enum Work {
    /// `turn SIZE TIMES PROGRAM [SLOTS]`, or `plain-turn`: turns of packets of `size` bytes in that many
    /// slots, or idle ones.
    Turns {
        memory: Memory,
        packets: Packets,
        times: u32,
        program: Vec<u8>,
    },
    /// `deliver SIZE TIMES`, or `plain-deliver`: deliveries of a packet of `size` bytes.
    Deliveries {
        memory: Memory,
        size: usize,
        times: u32,
    },
    /// `verify TIMES PROGRAM`: decoding and verifying.
    Verify {
        times: u32,
        program: Vec<u8>,
    },
    /// `run TIMES PROGRAM PACKET`: runs on a packet.
    Run {
        times: u32,
        program: Vec<u8>,
        packet: Vec<u8>,
    },
}

fn number(word: Option<&str>) -> Result<u32, Fault> {
    word.and_then(|word| word.parse().ok()).ok_or(Fault::Line)
}

fn bytes(alloc: Global, word: Option<&str>) -> Result<Vec<u8>, Fault> {
    let word = word.ok_or(Fault::Line)?;
    hex::decode(alloc, word).map_err(|_| Fault::Line)
}

/// Returns what a line of turns asks for, by its words after the first.
fn turns(alloc: Global, memory: Memory, words: [Option<&str>; 4]) -> Result<Work, Fault> {
    let [size, times, program, slots] = words;
    let slots = match slots {
        Some(_) => Some(number(slots)?),
        None => None,
    };
    Ok(Work::Turns {
        memory,
        packets: Packets::of(number(size)? as usize, slots),
        times: number(times)?,
        program: bytes(alloc, program)?,
    })
}

/// Returns what a line of deliveries asks for, by its words after the first.
fn deliveries(memory: Memory, words: [Option<&str>; 2]) -> Result<Work, Fault> {
    let [size, times] = words;
    Ok(Work::Deliveries {
        memory,
        size: number(size)? as usize,
        times: number(times)?,
    })
}

pub fn read_line(alloc: Global, line: &str) -> Result<Work, Fault> {
    let mut words = line.split(' ');
    match words.next() {
        Some("turn") => {
            let behind = [words.next(), words.next(), words.next(), words.next()];
            turns(alloc, Memory::Shared, behind)
        }
        Some("plain-turn") => {
            let behind = [words.next(), words.next(), words.next(), words.next()];
            turns(alloc, Memory::Plain, behind)
        }
        Some("deliver") => deliveries(Memory::Shared, [words.next(), words.next()]),
        Some("plain-deliver") => deliveries(Memory::Plain, [words.next(), words.next()]),
        Some("verify") => {
            let times = number(words.next())?;
            let program = bytes(alloc, words.next())?;
            Ok(Work::Verify { times, program })
        }
        Some("run") => {
            let times = number(words.next())?;
            let program = bytes(alloc, words.next())?;
            let packet = bytes(alloc, words.next())?;
            Ok(Work::Run {
                times,
                program,
                packet,
            })
        }
        _ => Err(Fault::Line),
    }
}
