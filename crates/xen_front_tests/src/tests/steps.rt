//! Calls in a row, and what each has to come to.

use super::fixtures::{Call, End, Fronts, Played, Row, SMALL, has};
use crate::bench::Bench;
use std::alloc::Global;
use xen_front::{ACCEPTS_WHOLE, Accepts, RxOffload};

/// A call with its answers, how often it is made, and what it has to come to.
#[derive(Clone, Copy)]
pub struct Step<'a> {
    call: Call<'a>,
    answers: &'a [u32],
    times: u32,
    end: End,
    packet: &'a [u8],
    accesses: Option<usize>,
    /// Rows from an access on, perhaps in the middle.
    middle: (usize, &'a [Row]),
    /// The last rows, from an access on.
    last: (usize, &'a [Row]),
    noticed: Option<bool>,
}

impl<'a> Step<'a> {
    /// A call that is made once.
    pub fn of(call: Call<'a>, answers: &'a [u32], end: End) -> Step<'a> {
        Step {
            call,
            answers,
            times: 1,
            end,
            packet: &[],
            accesses: None,
            middle: (0, &[]),
            last: (0, &[]),
            noticed: None,
        }
    }

    /// Sends that are taken.
    pub fn sends(times: u32) -> Step<'a> {
        Step::of(Call::Send(&SMALL), &[], End::Idle).times(times)
    }

    /// Posts that are taken.
    pub fn posts(times: u32) -> Step<'a> {
        Step::of(Call::Post, &[], End::Idle).times(times)
    }

    /// A poll that receives this packet.
    pub fn receives(answers: &'a [u32], packet: &'a [u8]) -> Step<'a> {
        Step {
            packet,
            ..Step::of(Call::Poll, answers, End::Packet(RxOffload::Whole))
        }
    }

    /// The packet that it receives leaves so much to the front.
    pub fn leaves(self, offload: RxOffload) -> Step<'a> {
        Step {
            end: End::Packet(offload),
            ..self
        }
    }

    pub fn times(self, times: u32) -> Step<'a> {
        Step { times, ..self }
    }

    /// It makes `accesses` accesses.
    pub fn makes(self, accesses: usize) -> Step<'a> {
        Step {
            accesses: Some(accesses),
            ..self
        }
    }

    /// Its accesses from this one on are these rows, and perhaps more.
    pub fn shows(self, from: usize, rows: &'a [Row]) -> Step<'a> {
        Step {
            middle: (from, rows),
            ..self
        }
    }

    /// Its accesses from this one on are these rows, and no more.
    pub fn ends(self, from: usize, rows: &'a [Row]) -> Step<'a> {
        Step {
            accesses: Some(from.saturating_add(rows.len())),
            last: (from, rows),
            ..self
        }
    }

    /// Sets whether it sends a notice.
    pub fn tells(self, noticed: bool) -> Step<'a> {
        Step {
            noticed: Some(noticed),
            ..self
        }
    }

    /// Returns whether the call has come to that.
    fn is_met(&self, played: &Played) -> bool {
        let accesses = played.accesses.as_slice();
        played.end == self.end
            && played.packet.as_slice() == self.packet
            && self.accesses.unwrap_or(accesses.len()) == accesses.len()
            && self.noticed.unwrap_or(played.noticed) == played.noticed
            && has(accesses, self.middle.0, self.middle.1)
            && has(accesses, self.last.0, self.last.1)
    }
}

impl Fronts<'_> {
    /// Returns whether a call comes to what it has to.
    fn comes_to(&mut self, step: &Step) -> bool {
        match self.play(step.call, step.answers) {
            Some(played) => step.is_met(&played),
            None => false,
        }
    }

    /// Returns whether each of a step's calls comes to what it has to.
    pub fn makes(&mut self, step: &Step) -> bool {
        for _time in 0..step.times {
            if !self.comes_to(step) {
                return false;
            }
        }
        true
    }

    /// The number of the first step that comes to something else than it has to, if any does.
    fn first_other(&mut self, steps: &[Step]) -> Option<usize> {
        let mut number = 1;
        for step in steps {
            if !self.makes(step) {
                return Some(number);
            }
            number = number.saturating_add(1);
        }
        None
    }
}

/// The counts of tx responses by status after these steps of new fronts, or the number of the first step that comes to
/// something else. It is 0 if there are no fronts.
pub fn after(alloc: Global, start: u32, steps: &[Step]) -> Result<[u64; 4], usize> {
    after_accepting(alloc, start, ACCEPTS_WHOLE, steps)
}

/// The same of fronts that accept so much.
pub fn after_accepting(
    alloc: Global,
    start: u32,
    accepts: Accepts,
    steps: &[Step],
) -> Result<[u64; 4], usize> {
    let Ok(bench) = Bench::make(alloc) else {
        return Err(0);
    };
    let Some(mut fronts) = bench.fronts_accepting(start, accepts) else {
        return Err(0);
    };
    match fronts.first_other(steps) {
        Some(number) => Err(number),
        None => fronts.statuses().ok_or(steps.len()),
    }
}

/// `size` bytes of one value.
pub fn filled(alloc: Global, byte: u8, size: usize) -> Option<Vec<u8>> {
    Vec::from_elem(alloc, byte, size).ok()
}
