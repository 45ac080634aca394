//! A bus that keeps the accesses of another.

ghost use Rattle.std.specs.Prelude.{◌≡◌, IfOk};
ghost use Rattle.std.specs.List.{filter_map};
ghost use Rattle.xen_page.specs.Log.{empty_log, told};
ghost use Rattle.xen_page.specs.Recorded.{Records, bus_of, log_of};
ghost use Rattle.xen_page.specs.Answered.{answer_of};

use crate::access::Access;
use crate::bus::Bus;
use crate::log::Log;
use crate::place::Place;
use std::alloc::{AllocError, Global};

/// Passes each access on to a bus and reports it with its answer, as long as `full()` is false.
#[derive(Drop)]
pub struct Recorder<B> {
    bus: B,
    log: Log,
}

impl<B: Drop> Recorder<B> {
    /// A recorder with room for `cap` accesses.
    pub fn make(alloc: Global, bus: B, cap: usize) -> Result<Recorder<B>, AllocError>
        ensures bus { IfOk result (λ recorder. bus_of recorder ≡ bus) }
        ensures log { IfOk result (λ recorder. log_of recorder ≡ empty_log cap) }
    {
        let log = Log::make(alloc, cap)?;
        Ok(Recorder { bus, log })
    }
}

impl<B> Recorder<B> {
    /// Returns whether an access was left out of the log.
    pub fn full(&self) -> bool
        ensures { result ≡ (log_of self.now).full }
    {
        self.log.full()
    }

    /// The first accesses, up to `cap` of them.
    pub fn accesses(&self) -> &[Access]
        ensures { result.now ≡ (log_of self.now).kept }
    {
        self.log.kept()
    }

    /// Returns what the kept reads and compare-exchanges returned, in order: a `ScriptBus` of these answers the same.
    pub fn answers(&self, alloc: Global) -> Result<Vec<u32>, AllocError>
        ensures { IfOk result (λ answers. answers.items ≡ filter_map answer_of (log_of self.now).kept) }
    {
        self.accesses()
            .iter()
            .filter_map(|access| access.answer())
            .collect(alloc)
    }
}

impl<B: Bus> Bus for Recorder<B> {
    ghost size = { λ r. B.size (bus_of r) };

    ghost log = { λ r. told (log_of r) };

    ghost access_gives = { Records B.log B.access_gives };

    fn frames(&self) -> u32 {
        self.bus.frames()
    }

    fn read(&mut self, at: Place) -> u32 {
        let answer = self.bus.read(at);
        self.log.note(Access::Read { at, answer });
        answer
    }

    fn write(&mut self, at: Place, value: u32) {
        self.bus.write(at, value);
        self.log.note(Access::Write { at, value });
    }

    fn cas(&mut self, at: Place, old: u32, new: u32) -> u32 {
        let found = self.bus.cas(at, old, new);
        self.log.note(Access::Exchange {
            at,
            old,
            new,
            found,
        });
        found
    }
}
