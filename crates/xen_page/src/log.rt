//! The log of a bus that reports its accesses.

ghost use Rattle.std.specs.Prelude.{◌≡◌, IfOk};
ghost use Rattle.xen_page.specs.Log.{empty_log, noted};

use crate::access::Access;
use std::alloc::{AllocError, Global};
use std::marker::Model;

/// The first accesses, as many as there is room for, and whether one was left out.
#[derive(Drop)]
pub struct Log {
    kept: Vec<Access>,
    room: usize,
    full: bool,
}

impl Model for Log {
    ghost use Rattle.std.specs.Prelude.{◌≤◌, vec_capacity};
    ghost use Rattle.xen_page.specs.Log.{Logged};

    ghost Value = { Logged };

    ghost view = { λ l. record { kept = l.kept.items; room = l.room; full = l.full } };

    ghost invariant = { λ l. l.room ≤ vec_capacity l.kept };
}

impl Log {
    /// Makes all the room that the log ever needs.
    pub fn make(alloc: Global, room: usize) -> Result<Log, AllocError>
        ensures { IfOk result (λ log. log ≡ empty_log room) }
    {
        Ok(Log {
            kept: Vec::with_capacity(alloc, room)?,
            room,
            full: false,
        })
    }

    /// Keeps an access if there is room.
    pub fn note(&mut self, access: Access)
        ensures { self.new ≡ noted self.old access }
    {
        if self.kept.len() < self.room {
            self.kept.push_reserved(access);
        } else {
            self.full = true;
        }
    }

    /// Returns whether an access was left out.
    pub fn full(&self) -> bool
        ensures { result ≡ self.now.full }
    {
        self.full
    }

    /// The accesses that were kept.
    pub fn kept(&self) -> &[Access]
        ensures { result.now ≡ self.now.kept }
    {
        self.kept.as_slice()
    }
}
