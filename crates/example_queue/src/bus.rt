//! A bus over pages that this host has itself.
ghost use Rattle.std.specs.Prelude.{◌≡◌, ◌<◌, ⊤, None, vec_len};

use std::alloc::{AllocError, Global};
use std::sync::atomic::{AtomicU32, Ordering};
use xen_page::{Bus, Place, WORDS};

/// The number of frames.
pub const FRAMES: u32 = 5;

/// The words of all frames. A host has the memory that it maps in their place.
#[derive(Drop)]
pub struct Pages {
    words: Vec<AtomicU32>,
    ghost whole: { vec_len words ≡ 5120 },
}

impl Pages {
    /// Pages of zeros.
    pub fn make(alloc: Global) -> Result<Pages, AllocError> {
        let total = (FRAMES * WORDS) as usize;
        let mut words = Vec::with_capacity(alloc, total)?;
        for _word in 0..total {
            words.push_reserved(AtomicU32::new(0));
        }
        Ok(Pages { words })
    }

    fn word(&self, at: Place) -> &AtomicU32
        requires frame { at.frame < 5 }
        requires word { at.word < 1024 }
    {
        &self.words[(at.frame * WORDS + at.word) as usize]
    }
}

impl Bus for Pages {
    // five frames
    ghost size = { λ _. 5 };

    // this bus reports no accesses
    ghost log = { λ _. None };

    // any answer: another domain may have written meanwhile
    ghost access_gives = { λ _ _ _. ⊤ };

    fn frames(&self) -> u32 {
        FRAMES
    }

    fn read(&mut self, at: Place) -> u32 {
        self.word(at).load(Ordering::SeqCst)
    }

    fn write(&mut self, at: Place, value: u32) {
        self.word(at).store(value, Ordering::SeqCst);
    }

    fn cas(&mut self, at: Place, old: u32, new: u32) -> u32 {
        match self
            .word(at)
            .compare_exchange(old, new, Ordering::SeqCst, Ordering::SeqCst)
        {
            Ok(found) | Err(found) => found,
        }
    }
}
