//! A bus that answers from a list.

ghost use Rattle.std.specs.Prelude.{◌≡◌, IfOk, slice_index, drop};
ghost use Rattle.xen_page.specs.Log.{empty_log, told};
ghost use Rattle.xen_page.specs.Script.{Answers};

use crate::access::Access;
use crate::bus::Bus;
use crate::log::Log;
use crate::place::Place;
use std::alloc::{AllocError, Global};
use std::marker::Model;

/// Answers each read and each compare-exchange with the next number of a list, and with 0 once none is left.
/// Nothing that is written is kept. It reports its accesses as long as `full()` is false.
#[derive(Drop)]
pub struct ScriptBus {
    frames: u32,
    answers: Vec<u32>,
    next: usize,
    log: Log,
}

impl Model for ScriptBus {
    ghost use Rattle.std.specs.Prelude.{drop};
    ghost use Rattle.xen_page.specs.Script.{Script};

    ghost Value = { Script };

    ghost view = { λ b. record { frames = b.frames; answers = drop b.next b.answers.items; log = b.log } };
}

impl ScriptBus {
    /// A bus of `frames` frames, with room for `cap` accesses in its log.
    pub fn make(
        alloc: Global,
        frames: u32,
        answers: &[u32],
        cap: usize,
    ) -> Result<ScriptBus, AllocError>
        ensures { IfOk result (λ bus. bus ≡ record { frames = frames; answers = answers.now; log = empty_log cap }) }
    {
        Ok(ScriptBus {
            frames,
            answers: Vec::from_slice(alloc, answers)?,
            next: 0,
            log: Log::make(alloc, cap)?,
        })
    }

    /// Returns whether an access was left out of the log.
    pub fn full(&self) -> bool
        ensures { result ≡ self.now.log.full }
    {
        self.log.full()
    }

    /// The first accesses, up to `cap` of them.
    pub fn accesses(&self) -> &[Access]
        ensures { result.now ≡ self.now.log.kept }
    {
        self.log.kept()
    }

    fn answer(&mut self) -> u32
        ensures answer { result ≡ slice_index self.old.answers 0 }
        ensures rest { self.new ≡ record self.old { answers = drop 1 self.old.answers } }
    {
        match self.answers.get(self.next) {
            Some(answer) => {
                let answer = *answer;
                self.next += 1;
                answer
            }
            None => 0,
        }
    }
}

impl Bus for ScriptBus {
    ghost size = { λ b. b.frames };

    ghost log = { λ b. told b.log };

    ghost access_gives = { Answers };

    fn frames(&self) -> u32 {
        self.frames
    }

    fn read(&mut self, at: Place) -> u32 {
        let answer = self.answer();
        self.log.note(Access::Read { at, answer });
        answer
    }

    fn write(&mut self, at: Place, value: u32) {
        self.log.note(Access::Write { at, value });
    }

    fn cas(&mut self, at: Place, old: u32, new: u32) -> u32 {
        let found = self.answer();
        self.log.note(Access::Exchange {
            at,
            old,
            new,
            found,
        });
        found
    }
}
