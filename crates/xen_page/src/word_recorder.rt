//! Words that keep their steps.

ghost use Rattle.std.specs.Prelude.{◌≡◌, ◌<◌, ◌*◌};
ghost use Rattle.xen_page.specs.Log.{empty_log, noted, told};
ghost use Rattle.xen_page.specs.Numbered.{place_at};
ghost use Rattle.xen_page.specs.Stepped.{Notes, steps_of, words_of};

use crate::access::Access;
use crate::place::{Place, WORDS};
use crate::words::Words;

/// The number of steps that a `WordRecorder` keeps.
pub const MAX_STEPS: usize = 16;

const NOWHERE: Place = Place { frame: 0, word: 0 };

/// Passes each step on to words and reports it with its answer, as long as `full()` is false.
#[derive(Clone, Copy, Drop)]
pub struct WordRecorder<W> {
    words: W,
    kept: [Access; MAX_STEPS],
    count: usize,
    full: bool,
}

impl<W> WordRecorder<W> {
    /// A recorder with no steps.
    pub fn make(words: W) -> WordRecorder<W>
        ensures words { words_of result ≡ words }
        ensures steps { steps_of result ≡ empty_log 16 }
    {
        WordRecorder {
            words,
            kept: [Access::Write {
                at: NOWHERE,
                value: 0,
            }; MAX_STEPS],
            count: 0,
            full: false,
        }
    }

    /// Returns whether a step was left out.
    pub fn full(&self) -> bool
        ensures { result ≡ (steps_of self.now).full }
    {
        self.full
    }

    /// The first steps, up to sixteen of them.
    pub fn steps(&self) -> &[Access]
        ensures { result.now ≡ (steps_of self.now).kept }
    {
        if self.count < MAX_STEPS {
            &self.kept[..self.count]
        } else {
            &self.kept
        }
    }

    /// Keeps a step if there is room.
    fn note(&mut self, step: Access)
        ensures words { words_of self.new ≡ words_of self.old }
        ensures steps { steps_of self.new ≡ noted (steps_of self.old) step }
    {
        if self.count < MAX_STEPS {
            self.kept[self.count] = step;
            self.count += 1;
        } else {
            self.full = true;
        }
    }
}

impl<W: Words> WordRecorder<W> {
    /// The place of the word of a number.
    fn place_of(&self, index: usize) -> Place
        requires { index < W.size (words_of self.now) * 1024 }
        ensures { result ≡ place_at index }
    {
        let frames = self.words.frames();
        let frame = index / WORDS as usize;
        prove!(frame < frames as usize);
        Place {
            frame: frame as u32,
            word: (index % WORDS as usize) as u32,
        }
    }
}

impl<W: Words> Words for WordRecorder<W> {
    ghost size = { λ r. W.size (words_of r) };

    ghost log = { λ r. told (steps_of r) };

    ghost step_gives = { Notes W.log W.step_gives };

    fn frames(&self) -> u32 {
        self.words.frames()
    }

    fn load(&mut self, index: usize) -> u32 {
        let at = self.place_of(index);
        let answer = self.words.load(index);
        self.note(Access::Read { at, answer });
        answer
    }

    fn store(&mut self, index: usize, value: u32) {
        let at = self.place_of(index);
        self.words.store(index, value);
        self.note(Access::Write { at, value });
    }

    fn exchange(&mut self, index: usize, old: u32, new: u32) -> u32 {
        let at = self.place_of(index);
        let found = self.words.exchange(index, old, new);
        self.note(Access::Exchange {
            at,
            old,
            new,
            found,
        });
        found
    }
}
