//! Bytes that are written where they are to lie.
ghost use Rattle.std.specs.Prelude.{◌≡◌, List, ℕ, length};

/// Writes bytes that come from a source, as words of a page that a bus reads.
pub trait Fill<S> {
    // The sources of which it writes this number of bytes.
    ghost fits: { Self → S → ℕ → Type 0 };

    // Which bytes it may write, and what it may leave the source as.
    ghost fills: { Self → S → List ℕ → S → Type 0 };

    /// Writes each byte of a room.
    fn fill(&self, source: &mut S, room: &mut [u8])
        requires { fits self.now source.old (length room.old) }
        ensures filled { fills self.now source.old room.new source.new }
        ensures length { length room.new ≡ length room.old };
}
