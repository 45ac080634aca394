//! A bus over frames.

ghost use Rattle.std.specs.Prelude.{◌≡◌};
ghost use Rattle.xen_page.specs.Shared.{frames_of};

use crate::frames::Frames;
use crate::shared_words::SharedWords;
use crate::word_bus::WordBus;

/// Reaches frames that threads share. It doesn't report its accesses.
pub type PageBus<'f> = WordBus<SharedWords<'f>>;

impl<'f> WordBus<SharedWords<'f>> {
    /// A bus that reaches these frames.
    pub fn of(frames: &'f Frames) -> PageBus<'f>
        ensures { frames_of result ≡ frames.now }
    {
        WordBus::over(SharedWords::of(frames))
    }
}
