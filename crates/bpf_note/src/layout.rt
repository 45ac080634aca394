//! Laws of the addresses.
ghost use Rattle.std.specs.Prelude.{◌≡◌, ◌≢◌, ◌+◌, ◌<◌, ◌≤◌, ℕ, List, Some, length, slice_get, true};
ghost use Rattle.bpf_note.specs.Narrow as narrow;
ghost use Rattle.bpf_note.specs.Narrow.{AreNarrow};
ghost use Rattle.bpf_note.specs.Regions.{region, InPacket, InCounter, Nowhere, counter_at, counter_address, load_place, LiesAt, HaveNoParts};
ghost use Rattle.bpf_note.specs.Shape.{Shape, IsShape, AreShapes, IsNarrow, most_maps};

/// No byte past a packet's end is in the packet's region.
pub fn packets_end()
    ensures { (len : ℕ) (shapes : List Shape) (a z i : ℕ) → region len shapes a z ≡ InPacket i → i + z ≤ len }
{}

/// Each counter of each map is found at its address.
pub fn counters_are_found()
    ensures { (shapes : List Shape) (m k j : ℕ) (s : Shape) → m < most_maps → slice_get shapes m ≡ Some s → IsShape s →
        k < s.entries → j < s.counters → counter_at shapes (counter_address s m k j) ≡ InCounter m k j }
{}

/// A counter that is found at an address is one of the maps', and lies there.
pub fn found_counters_lie_there()
    ensures { (shapes : List Shape) (a m k j : ℕ) → AreShapes shapes → counter_at shapes a ≡ InCounter m k j →
        (s : Shape) × (slice_get shapes m ≡ Some s) × LiesAt s m k j a }
{}

/// The counters of narrow maps lie where they lay before there were others.
pub fn narrow_addresses_stay()
    ensures address { (s : Shape) (m k j : ℕ) → IsNarrow s → counter_address s m k j ≡ narrow.counter_address s.counters m k j }
    ensures counter { (shapes : List Shape) (a : ℕ) → AreNarrow shapes → length shapes ≤ 4 → counter_at shapes a ≡ narrow.counter_at shapes a }
{}

/// Each part of a counter is found in it if its map has parts. A load of anything else finds what a region holds.
pub fn parts_are_found()
    ensures found { (len : ℕ) (shapes : List Shape) (m k j b z : ℕ) (s : Shape) → m < most_maps → slice_get shapes m ≡ Some s →
        IsShape s → k < s.entries → j < s.counters → s.parts ≡ true → 1 ≤ z → z < 8 → b + z ≤ 8 →
        load_place len shapes (counter_address s m k j + b) z ≡ InCounter m k j }
    ensures regions { (len : ℕ) (shapes : List Shape) (a z : ℕ) → len ≤ 65535 → region len shapes a z ≢ Nowhere →
        load_place len shapes a z ≡ region len shapes a z }
    ensures none { (len : ℕ) (shapes : List Shape) (a z : ℕ) → HaveNoParts shapes →
        load_place len shapes a z ≡ region len shapes a z }
{}
