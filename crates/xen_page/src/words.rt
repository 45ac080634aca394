//! What a bus over pages is made of.

ghost use Rattle.std.specs.Prelude.{◌≡◌, ◌<◌, ◌*◌, ◌∷◌, [], List, ℕ, Option};
ghost use Rattle.xen_page.specs.declared.access.Access.{Access};
ghost use Rattle.xen_page.specs.Access.{Tells};
ghost use Rattle.xen_page.specs.Numbered.{place_at};

/// A handle to the words of frames, one frame after another, and the three steps that reach them. A
/// [`WordBus`](crate::WordBus) makes no others: which it makes, how often and in which order is proved of every `Words`, so
/// also of those that report each step. It is `Copy`, so that a run keeps it in registers.
pub trait Words: Copy {
    // The number of frames, of 1,024 words each.
    ghost size: { Self → ℕ };

    // The steps so far with their answers, if the words report them.
    ghost log: { Self → Option (List Access) };

    // Which step may take the words from which state to which. This also says what it may return.
    ghost step_gives: { Self → Access → Self → Type 0 };

    /// The number of frames.
    fn frames(&self) -> u32
        ensures { result ≡ size self.now };

    /// The word of a number.
    fn load(&mut self, index: usize) -> u32
        requires { index < size self.old * 1024 }
        ensures told { Tells (log self.old) (log self.new) (Access.Read (place_at index) result ∷ []) }
        ensures given { step_gives self.old (Access.Read (place_at index) result) self.new }
        ensures size { size self.new ≡ size self.old };

    /// Writes the word of a number.
    fn store(&mut self, index: usize, value: u32)
        requires { index < size self.old * 1024 }
        ensures told { Tells (log self.old) (log self.new) (Access.Write (place_at index) value ∷ []) }
        ensures given { step_gives self.old (Access.Write (place_at index) value) self.new }
        ensures size { size self.new ≡ size self.old };

    /// A compare-exchange: returns the word that it found, and writes `new` if that is `old`.
    fn exchange(&mut self, index: usize, old: u32, new: u32) -> u32
        requires { index < size self.old * 1024 }
        ensures told { Tells (log self.old) (log self.new) (Access.Exchange (place_at index) old new result ∷ []) }
        ensures given { step_gives self.old (Access.Exchange (place_at index) old new result) self.new }
        ensures size { size self.new ≡ size self.old };
}
