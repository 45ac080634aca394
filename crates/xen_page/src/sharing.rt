//! The steps of shared words. A contract can say nothing of what a word holds, and so not which access a step makes: a
//! reader of each step's line has to see that it makes one.

ghost use Rattle.std.specs.Prelude.{◌≡◌, None};
ghost use Rattle.xen_page.specs.Shared.{frames_of};

use crate::frames::Frames;
use crate::shared_words::SharedWords;
use crate::words::Words;
use std::sync::atomic::Ordering;

impl<'f> SharedWords<'f> {
    /// The words of these frames.
    pub fn of(frames: &'f Frames) -> SharedWords<'f>
        ensures { frames_of result ≡ frames.now }
    {
        SharedWords {
            count: frames.count(),
            words: frames.words(),
        }
    }
}

impl Words for SharedWords<'_> {
    ghost size = { frames_of };

    ghost log = { λ _. None };

    ghost step_gives = { λ old _ new. new ≡ old };

    fn frames(&self) -> u32 {
        self.count
    }

    fn load(&mut self, index: usize) -> u32 {
        self.words[index].load(Ordering::SeqCst)
    }

    fn store(&mut self, index: usize, value: u32) {
        self.words[index].store(value, Ordering::SeqCst);
    }

    fn exchange(&mut self, index: usize, old: u32, new: u32) -> u32 {
        match self.words[index].compare_exchange(old, new, Ordering::SeqCst, Ordering::SeqCst) {
            Ok(found) | Err(found) => found,
        }
    }
}
