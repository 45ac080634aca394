//! A packet that can be delivered.

use std::marker::Model;

/// A packet that can be delivered, where its bytes lie. Contracts see its bytes.
#[derive(Drop)]
pub(crate) struct Frame<'p> {
    bytes: &'p [u8],
}

impl<'p> Model for Frame<'p> {
    ghost use Rattle.std.specs.Prelude.{◌≡◌, List, ℕ, true};
    ghost use Rattle.xen_turns.specs.Delivered.{is_frame};

    ghost Value = { List ℕ };

    ghost view = { λ f. f.bytes.now };

    ghost invariant = { λ f. is_frame f.bytes.now ≡ true };
}

impl<'p> Frame<'p> {
    ghost use Rattle.std.specs.Prelude.{◌≡◌, ◌≤◌, length, true};
    ghost use Rattle.xen_turns.specs.Delivered.{is_frame};

    /// A packet that is lent.
    #[inline(always)]
    pub(crate) fn of(packet: &'p [u8]) -> Frame<'p>
        requires { is_frame packet.now ≡ true }
        ensures { result ≡ packet.now }
    {
        Frame { bytes: packet }
    }

    /// Its bytes.
    #[inline(always)]
    pub(crate) fn bytes(&self) -> &[u8]
        ensures same { result.now ≡ self.now }
        ensures short { length result.now ≤ 65535 }
    {
        self.bytes
    }
}
