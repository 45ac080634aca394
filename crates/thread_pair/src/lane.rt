//! What the two workers of a queue tell each other.

use crate::bell::Bell;
use crossbeam_utils::sync::Unparker;
use std::sync::atomic::{AtomicBool, AtomicU32, Ordering};

/// Wakes both workers of a queue, and tells each whether the other has ended, and the front how far the back is.
#[derive(Drop)]
pub(crate) struct Lane {
    pub front: Bell,
    pub back: Bell,
    front_ended: AtomicBool,
    back_ended: AtomicBool,
    /// The number of tx slots with which the back has done, modulo 2^32: their packet was answered, and what it sends for it is
    /// sent.
    settled: AtomicU32,
}

impl Lane {
    pub fn new(front: Unparker, back: Unparker) -> Lane {
        Lane {
            front: Bell::new(front),
            back: Bell::new(back),
            front_ended: AtomicBool::new(false),
            back_ended: AtomicBool::new(false),
            settled: AtomicU32::new(0),
        }
    }

    pub fn has_front_ended(&self) -> bool {
        self.front_ended.load(Ordering::SeqCst)
    }

    pub fn has_back_ended(&self) -> bool {
        self.back_ended.load(Ordering::SeqCst)
    }

    /// Returns the number of tx slots with which the back has done, modulo 2^32.
    pub fn settled(&self) -> u32 {
        self.settled.load(Ordering::SeqCst)
    }

    /// The back has done with `slots` more tx slots.
    pub fn settle(&self, slots: u32) {
        self.settled.fetch_add(slots, Ordering::SeqCst);
    }

    /// The flag is set before the back is woken, so that the back sees it once it is awake.
    pub fn end_front(&self) {
        self.front_ended.store(true, Ordering::SeqCst);
        self.back.ring();
    }

    /// The flag is set before the front is woken, so that the front sees it once it is awake.
    pub fn end_back(&self) {
        self.back_ended.store(true, Ordering::SeqCst);
        self.front.ring();
    }
}
