//! Random scripts, with the turns that netif.h and the order of a turn's accesses give.

use super::programs::{PASS, accepted, run_steps};
use bpf_verify::Verified;
use std::alloc::{AllocError, Global};
use xdp_world::{Kept, Report};

/// The outcome of a turn, as it is printed: its kind, its cause or its packet's length, and its slots.
#[derive(Clone, Copy, Debug, PartialEq, Eq, Drop)]
enum Row {
    Idle,
    Passed { length: u32, sum: u32, slots: u32 },
    Refused { cause: u8, slots: u32 },
    Halted { cause: u8 },
}

fn row_of(kept: &Kept) -> Row {
    match kept {
        Kept::Idle => Row::Idle,
        Kept::Ran { packet, slots, .. } => Row::Passed {
            length: packet.len().min(65_536) as u32,
            sum: packet.iter().fold(
                0u32,
                |sum, byte| sum.wrapping_mul(31).wrapping_add(u32::from(*byte)),
            ),
            slots: *slots,
        },
        Kept::Refused { cause, slots, .. } => Row::Refused {
            cause: cause.number(),
            slots: *slots,
        },
        Kept::Halted { cause } => Row::Halted {
            cause: cause.number(),
        },
    }
}

/// A frontend that answers well, or in one of eight times anything. It writes down the script and what it has to come to.
#[derive(Drop)]
struct Frontend {
    random: u64,
    queue: usize,
    index: u32,
    steps: Vec<(usize, u32)>,
    rows: Vec<Row>,
}

/// A data slot: reference, offset, size.
#[derive(Clone, Copy, Debug, PartialEq, Eq, Drop)]
struct Data {
    gref: u32,
    offset: u32,
    size: u32,
}

/// The reason why a turn has no packet.
#[derive(Clone, Copy, Debug, PartialEq, Eq, Drop)]
enum Ended {
    Refused(u8),
    Halted(u8),
}

impl Frontend {
    fn new(alloc: Global, seed: u64, queue: usize, start: u32) -> Frontend {
        Frontend {
            random: seed.wrapping_mul(0x9e37_79b9_7f4a_7c15) | 1,
            queue,
            index: start,
            steps: Vec::new(alloc),
            rows: Vec::new(alloc),
        }
    }

    /// A random number below `limit`, by xorshift.
    fn below(&mut self, limit: u32) -> u32 {
        let mut x = self.random;
        x ^= x << 13;
        x ^= x >> 7;
        x ^= x << 17;
        self.random = x;
        ((x >> 33) % u64::from(limit.max(1))) as u32
    }

    /// A step of a read, well answered or not.
    fn read(&mut self, good: u32) -> Result<u32, AllocError> {
        let odd = [
            0,
            1,
            2,
            3,
            6,
            257,
            0x0004_0000,
            0x0008_0000,
            0x000e_0007,
            0x0101,
            0xffff_ffff,
        ];
        let answer = if self.below(8) == 0 {
            let at = self.below(11) as usize;
            odd.get(at).copied().unwrap_or(0)
        } else {
            good
        };
        self.steps.push((self.queue, answer))?;
        Ok(answer)
    }

    /// Steps of anything but reads.
    fn skip(&mut self, count: u32) -> Result<(), AllocError> {
        for _step in 0..count {
            self.steps.push((self.queue, 0u32))?;
        }
        Ok(())
    }

    /// The requests that are shown: none for an idle turn.
    fn look(&mut self) -> Result<Result<u32, Ended>, AllocError> {
        let wanted = self.below(4);
        let shown = self
            .read(self.index.wrapping_add(wanted))?
            .wrapping_sub(self.index);
        if shown > 256 {
            return Ok(Err(Ended::Halted(1)));
        }
        if shown > 0 {
            return Ok(Ok(shown));
        }
        self.skip(1)?;
        let shown = self.read(self.index)?.wrapping_sub(self.index);
        Ok(if shown > 256 {
            Err(Ended::Halted(1))
        } else {
            Ok(shown)
        })
    }

    /// One chain's data slots, how many slots it has, and whether it has extras.
    fn chain(
        &mut self,
        shown: u32,
        data: &mut Vec<Data>,
    ) -> Result<Result<(u32, bool), Ended>, AllocError> {
        let mut slots = 0u32;
        let mut extras = 0u32;
        let mut wants_extra = false;
        let mut more = true;
        'slots: for _slot in 0..24 {
            if slots == shown {
                return Ok(Err(Ended::Halted(2)));
            }
            let good_flags = if slots.wrapping_add(1) < shown {
                0x0004_0000
            } else {
                0
            };
            let good = if slots == 0 { 60 } else { 20 };
            let first = self.read(2u32.wrapping_add(slots))?;
            let second = self.read(good_flags)?;
            let third = self.read(good << 16)?;
            slots = slots.wrapping_add(1);
            if wants_extra {
                extras = extras.wrapping_add(1);
                if first % 256 == 0 || first % 256 > 5 {
                    return Ok(Err(Ended::Halted(4)));
                }
                wants_extra = (first / 256) % 2 == 1;
                if wants_extra && extras == 5 {
                    return Ok(Err(Ended::Halted(5)));
                }
            } else {
                let flags = second >> 16;
                more = (flags / 4) % 2 == 1;
                wants_extra = data.is_empty() && (flags / 8) % 2 == 1;
                data.push(Data {
                    gref: first,
                    offset: second % 0x1_0000,
                    size: third >> 16,
                })?;
                if more && data.len() == 18 && !wants_extra {
                    return Ok(Err(Ended::Halted(3)));
                }
            }
            if !wants_extra && !more {
                break 'slots;
            }
        }
        Ok(Ok((slots, extras > 0)))
    }

    /// The packet's bytes, summed, and their number.
    fn copy(&mut self, data: &[Data]) -> Result<Result<(u32, u32), Ended>, AllocError> {
        let mut sum = 0u32;
        let mut length = 0u32;
        for slot in data {
            if slot.gref >= 8192 {
                return Ok(Err(Ended::Refused(4)));
            }
            let flags = self.read(1)?;
            let frame = self.read(19)?;
            if flags % 4 != 1 || flags >> 16 != 0 || frame == 0 || frame >= 17 + 514 * 2 {
                return Ok(Err(Ended::Refused(4)));
            }
            let end = slot.offset.wrapping_add(slot.size);
            let mut byte = slot.offset;
            let mut word = 0u32;
            'bytes: for _byte in 0..4096 {
                if byte >= end {
                    break 'bytes;
                }
                if byte == slot.offset || byte % 4 == 0 {
                    let good = self.below(0x7fff_ffff);
                    word = self.read(good)?;
                }
                let value = (word >> (8 * (byte % 4))) % 256;
                sum = sum.wrapping_mul(31).wrapping_add(value);
                length = length.wrapping_add(1);
                byte = byte.wrapping_add(1);
            }
        }
        Ok(Ok((length, sum)))
    }

    /// The responses of `slots` slots.
    fn respond(&mut self, slots: u32) -> Result<(), AllocError> {
        self.skip(slots.wrapping_add(1))?;
        let new = self.index.wrapping_add(slots);
        let event = self.read(new)?;
        if new.wrapping_sub(event) < slots {
            self.skip(1)?;
        }
        self.index = new;
        Ok(())
    }

    /// The packet of a chain that is whole, checked in netback's order.
    fn packet(
        &mut self,
        data: &mut Vec<Data>,
        has_extras: bool,
    ) -> Result<Result<(u32, u32), Ended>, AllocError> {
        let whole = data.first().map_or(0, |slot| slot.size);
        let mut later = 0u32;
        for slot in data.iter().skip(1) {
            later = later.wrapping_add(slot.size);
        }
        let refused = if has_extras {
            5
        } else if whole < 14 {
            1
        } else if later > whole {
            2
        } else {
            0
        };
        if refused > 0 {
            return Ok(Err(Ended::Refused(refused)));
        }
        if let Some(slot) = data.first_mut() {
            slot.size = whole.wrapping_sub(later);
        }
        if data
            .iter()
            .any(|slot| slot.offset.wrapping_add(slot.size) > 4096)
        {
            return Ok(Err(Ended::Refused(3)));
        }
        self.copy(data.as_slice())
    }

    /// A turn after its look: the slots that it has, and what becomes of them.
    fn treat(&mut self, alloc: Global, shown: u32) -> Result<Row, AllocError> {
        let mut data = Vec::new(alloc);
        let (slots, has_extras) = match self.chain(shown, &mut data)? {
            Ok(read) => read,
            Err(Ended::Halted(cause)) | Err(Ended::Refused(cause)) => return Ok(Row::Halted {
                cause,
            }),
        };
        match self.packet(&mut data, has_extras)? {
            Ok((length, sum)) => {
                self.skip(2)?;
                self.respond(slots)?;
                Ok(Row::Passed { length, sum, slots })
            }
            Err(Ended::Refused(cause)) | Err(Ended::Halted(cause)) => {
                self.respond(slots)?;
                Ok(Row::Refused { cause, slots })
            }
        }
    }

    /// `count` turns, or fewer if the queue halts.
    fn turns(&mut self, alloc: Global, count: u32) -> Result<(), AllocError> {
        for _turn in 0..count {
            let row = match self.look()? {
                Ok(0) => Row::Idle,
                Ok(shown) => self.treat(alloc, shown)?,
                Err(Ended::Halted(cause)) | Err(Ended::Refused(cause)) => Row::Halted { cause },
            };
            self.rows.push(row)?;
            if let Row::Halted { .. } = row {
                return Ok(());
            }
        }
        Ok(())
    }
}

/// Adds the steps of both queues, those of the second between those of the first.
fn merge(
    steps: &mut Vec<(usize, u32)>,
    first: &Frontend,
    second: &Frontend,
) -> Result<(), AllocError> {
    let mut others = second.steps.iter();
    for step in &first.steps {
        steps.push(*step)?;
        for _other in 0..first.random % 3 {
            if let Some(other) = others.next() {
                steps.push(*other)?;
            }
        }
    }
    for other in others {
        steps.push(*other)?;
    }
    Ok(())
}

/// Returns whether a queue's turns are what its script has to come to.
fn agrees(frontend: &Frontend, turns: &[Kept]) -> bool {
    let mut rows = frontend.rows.iter();
    for kept in turns {
        if rows.next() != Some(&row_of(kept)) {
            return false;
        }
    }
    rows.next().is_none()
}

/// Returns whether two queues' turns are what their scripts have to come to.
fn both_agree(report: &Report, first: &Frontend, second: &Frontend) -> bool {
    match report.turns.as_slice() {
        [of_first, of_second] => agrees(first, of_first.as_slice())
            && agrees(second, of_second.as_slice()),
        _ => false,
    }
}

/// Runs two scripts in one world.
fn run_scripts(
    alloc: Global,
    program: &Verified,
    start: u32,
    first: &Frontend,
    second: &Frontend,
) -> bool {
    let mut steps = Vec::new(alloc);
    if merge(&mut steps, first, second).is_err() {
        return false;
    }
    match run_steps(alloc, program, 2, start, steps.as_slice()) {
        Some(report) => both_agree(&report, first, second),
        None => false,
    }
}

/// Returns whether two scripts of twelve turns each, or fewer if a queue halts, come to their rows.
fn run_two(alloc: Global, program: &Verified, seed: u64) -> bool {
    let start = if seed % 2 == 0 { 0 } else { 0xffff_ffff };
    let mut first = Frontend::new(alloc, seed.wrapping_mul(2).wrapping_add(1), 0, start);
    let mut second = Frontend::new(alloc, seed.wrapping_mul(2).wrapping_add(2), 1, start);
    let are_made = first.turns(alloc, 12).is_ok() && second.turns(alloc, 12).is_ok();
    are_made && run_scripts(alloc, program, start, &first, &second)
}

/// Returns the number of seeds that come to their rows before one that doesn't.
fn seeds_that_agree(alloc: Global) -> u64 {
    let Some(program) = accepted(alloc, PASS) else {
        return 0;
    };
    for seed in 0..1000u64 {
        if !run_two(alloc, &program, seed) {
            return seed;
        }
    }
    1000
}

#[test]
fn random_scripts_come_to_the_rows_of_a_turn(rt: HostRuntime) {
    assert_eq!(rt; seeds_that_agree(rt.alloc()), 1000);
}
