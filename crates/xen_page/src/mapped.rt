//! A frame that is mapped.

ghost use Rattle.std.specs.Prelude.{◌≡◌, ◌<◌};

use crate::entry::Rights;
use crate::place::Place;
use std::marker::Model;

/// A mapping of a frame that its granter owned, made by `map` alone. Its entry carries the marks until `unmap`.
#[derive(Debug, Drop)]
pub struct Mapped {
    pub(crate) granter: u16,
    pub(crate) frame: u32,
    pub(crate) rights: Rights,
    /// The place of the entry's flags word.
    pub(crate) at: Place,
    /// The flags word, without the marks.
    pub(crate) word: u32,
}

impl Model for Mapped {
    ghost use Rattle.std.specs.Prelude.{◌≡◌, ◌<◌, false};
    ghost use Rattle.xen_page.specs.Entry.{entry_of, is_marked};
    ghost use Rattle.xen_page.specs.Mapping.{Mapping};

    ghost Value = { Mapping };

    ghost view = { λ m. record { granter = m.granter; frame = m.frame; rights = m.rights; at = m.at; word = m.word } };

    ghost invariant = { λ m. (m.at.word < 1024) × (is_marked (entry_of m.word m.frame) ≡ false) };
}

impl Mapped {
    /// The frame's number.
    pub fn frame(&self) -> u32
        ensures { result ≡ self.now.frame }
    {
        self.frame
    }

    /// The domain that lends the frame.
    pub fn granter(&self) -> u16
        ensures { result ≡ self.now.granter }
    {
        self.granter
    }

    /// Returns where the entry's flags word is.
    pub fn entry(&self) -> Place
        ensures entry { result ≡ self.now.at }
        ensures in_page { self.now.at.word < 1024 }
    {
        self.at
    }
}
