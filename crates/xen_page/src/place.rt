//! A word of a frame.

ghost use Rattle.std.specs.Prelude.{◌≡◌, ◌<◌, ◌+◌};
ghost use Rattle.std.specs.Option.{SomeIff};
ghost use Rattle.xen_page.specs.Numbered.{index_of};

/// The number of words of four octets in a page.
pub const WORDS: u32 = 1024;

/// A word of a frame.
#[derive(Clone, Copy, Debug, PartialEq, Eq, Hash)]
pub struct Place {
    pub frame: u32,
    /// From 0 to 1,023 within a page.
    pub word: u32,
}

impl Place {
    /// The place of this word, if a page has it.
    pub fn of(frame: u32, word: u32) -> Option<Place>
        ensures { SomeIff result (word < 1024) (record { frame = frame; word = word }) }
    {
        if word < WORDS {
            Some(Place { frame, word })
        } else {
            None
        }
    }

    /// The word after this one.
    pub fn next(self) -> Place
        requires { self.word + 1 < 1024 }
        ensures { result ≡ record { frame = self.frame; word = self.word + 1 } }
    {
        Place {
            frame: self.frame,
            word: self.word + 1,
        }
    }
}

/// Returns which word of all frames lies at a place, the frames one after another.
pub(crate) fn place_of(at: Place) -> usize
    ensures { result ≡ index_of at }
{
    at.frame as usize * WORDS as usize + at.word as usize
}
