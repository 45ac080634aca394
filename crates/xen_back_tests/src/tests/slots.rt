//! Words of the tx ring (ring.h, netif.h).

ghost use Rattle.std.specs.Prelude.{◌<◌};

/// A ring that begins at 0, and one whose indices wrap within the turn.
pub const STARTS: [u32; 2] = [0, 0xffff_ffff];

/// The third word of a slot: its id in the low half, its size in the high half.
pub fn slot(id: u16, size: u16) -> u32 {
    u32::from(id) + 0x1_0000 * u32::from(size)
}

/// Returns where word `word` of the i-th slot from `start` lies in the ring's page.
pub fn tx(start: u32, i: u32, word: u32) -> u32
    requires { word < 3 }
{
    16 + 3 * (start.wrapping_add(i) % 256) + word
}
