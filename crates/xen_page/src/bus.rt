//! What reaches page words.

ghost use Rattle.std.specs.Prelude.{◌≡◌, ◌<◌, ◌≤◌, ◌+◌, ◌/◌, ◌%◌, ◌∷◌, [], List, ℕ, Option, length};
ghost use Rattle.xen_page.specs.declared.access.Access.{Access};
ghost use Rattle.xen_page.specs.Access.{Tells};
ghost use Rattle.xen_page.specs.Run.{ReadsRun, WritesRun};

use crate::place::Place;
use crate::run::{put_word, word_at};

/// Reaches the words of frames, each access being one step. Nothing is known of what a read returns but what the bus
/// says (`access_gives`): nothing, if another domain may write the page between any two accesses.
pub trait Bus {
    // The number of frames.
    ghost size: { Self → ℕ };

    // The accesses so far with their answers, if the bus reports them.
    ghost log: { Self → Option (List Access) };

    // Which access may take the bus from which state to which. This also says what it may return.
    ghost access_gives: { Self → Access → Self → Type 0 };

    /// The number of frames.
    fn frames(&self) -> u32
        ensures { result ≡ size self.now };

    /// The word at a place.
    fn read(&mut self, at: Place) -> u32
        requires frame { at.frame < size self.old }
        requires word { at.word < 1024 }
        ensures told { Tells (log self.old) (log self.new) (Access.Read at result ∷ []) }
        ensures given { access_gives self.old (Access.Read at result) self.new }
        ensures size { size self.new ≡ size self.old };

    /// Reads a run of words of one frame from a place on, four bytes of room for each, and writes their bytes there, each
    /// word's lowest byte first. Each word is read once and in order, as by [`Bus::read`]: this is for a bus that has a
    /// faster way to do that.
    fn read_run(&mut self, at: Place, room: &mut [u8])
        requires frame { at.frame < size self.old }
        requires whole { length room.old % 4 ≡ 0 }
        requires within { at.word + length room.old / 4 ≤ 1024 }
        ensures read { ReadsRun log access_gives at self.old room.new self.new }
        ensures length { length room.new ≡ length room.old }
        ensures size { size self.new ≡ size self.old }
    {
        for number in 0..room.len() / 4 {
            let word = self.read(Place {
                frame: at.frame,
                word: at.word + number as u32,
            });
            put_word(room, number, word);
        }
    }

    /// Writes the word at a place.
    fn write(&mut self, at: Place, value: u32)
        requires frame { at.frame < size self.old }
        requires word { at.word < 1024 }
        ensures told { Tells (log self.old) (log self.new) (Access.Write at value ∷ []) }
        ensures given { access_gives self.old (Access.Write at value) self.new }
        ensures size { size self.new ≡ size self.old };

    /// Writes a run of words of one frame from a place on, whose bytes these are, each word's lowest byte first. Each word is
    /// written once and in order, as by [`Bus::write`]: this is for a bus that has a faster way to do that.
    fn write_run(&mut self, at: Place, bytes: &[u8])
        requires frame { at.frame < size self.old }
        requires whole { length bytes.now % 4 ≡ 0 }
        requires within { at.word + length bytes.now / 4 ≤ 1024 }
        ensures written { WritesRun log access_gives at self.old bytes.now self.new }
        ensures size { size self.new ≡ size self.old }
    {
        for number in 0..bytes.len() / 4 {
            let frame = at.frame;
            let word = at.word + number as u32;
            self.write(Place { frame, word }, word_at(bytes, number));
        }
    }

    /// A compare-exchange: returns the word that it found, and writes `new` if that is `old`.
    fn cas(&mut self, at: Place, old: u32, new: u32) -> u32
        requires frame { at.frame < size self.old }
        requires word { at.word < 1024 }
        ensures told { Tells (log self.old) (log self.new) (Access.Exchange at old new result ∷ []) }
        ensures given { access_gives self.old (Access.Exchange at old new result) self.new }
        ensures size { size self.new ≡ size self.old };
}
