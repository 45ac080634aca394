//! Where constants lie.
ghost use Rattle.std.specs.Prelude.{◌≡◌, ◌≢◌, ◌-◌, ◌<◌, ◌≤◌, ℕ, List, Some, option_map, slice_get};
ghost use Rattle.bpf_note.specs.Constants.{HaveNoConstants, bytes_in, bytes_left, constant_address};
ghost use Rattle.bpf_note.specs.Keys.{constant_bytes, IsKey};
ghost use Rattle.bpf_note.specs.Regions.{Nowhere, region};
ghost use Rattle.bpf_note.specs.Shape.{Shape, most_maps};

use crate::shape::MapShape;

/// The address of the first constant of map 0.
pub const CONSTANTS_START: u64 = 0x3800_0000;
/// The distance between the constants of a map and those of the next one.
pub const CONSTANTS_STRIDE: u64 = 0x1_0000;
/// The first address past the constants of all maps that there may be.
const CONSTANTS_END: u64 = 0x4000_0000;

fn bytes_of(shape: Option<&MapShape>) -> u32
    ensures { result ≡ bytes_in (option_map (λ s. s.now) shape.entry) }
{
    match shape {
        None => 0,
        Some(shape) => shape.key().constant_bytes(),
    }
}

/// Returns the number of bytes of constants of map `m`.
fn bytes_in(shapes: &[MapShape], m: u64) -> u32
    ensures { result ≡ bytes_in (slice_get shapes.now m) }
{
    bytes_of(shapes.get(m as usize))
}

/// Returns the number of bytes of constants of one map that lie from an address on.
#[tactic(auto, unfolding(crate::specs::Constants::bytes_left))]
pub fn constants_left(shapes: &[MapShape], address: u64) -> u64
    ensures { result ≡ bytes_left shapes.now address }
{
    if address < CONSTANTS_START || CONSTANTS_END <= address {
        return 0;
    }
    let past = address - CONSTANTS_START;
    let bytes = bytes_in(shapes, past / CONSTANTS_STRIDE);
    u64::from(bytes).saturating_sub(past % CONSTANTS_STRIDE)
}

/// Each byte of constants lies at its address, with those of its map that follow it.
pub fn constants_are_found()
    ensures { (shapes : List Shape) (m i : ℕ) (shape : Shape) → m < most_maps → slice_get shapes m ≡ Some shape →
        IsKey shape.key → i < constant_bytes shape.key → bytes_left shapes (constant_address m i) ≡ constant_bytes shape.key - i }
{}

/// Where something else lies, and where no map has constants, there are none.
pub fn constants_lie_apart()
    ensures regions { (len : ℕ) (shapes : List Shape) (a z : ℕ) → len ≤ 65535 → region len shapes a z ≢ Nowhere →
        bytes_left shapes a ≡ 0 }
    ensures none { (shapes : List Shape) (a : ℕ) → HaveNoConstants shapes → bytes_left shapes a ≡ 0 }
{}
