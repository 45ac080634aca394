//! How large a map is, and by what its values are looked up.
ghost use Rattle.std.specs.Prelude.{◌≡◌, IfSome, IfNone, true, false};
ghost use Rattle.bpf_note.specs.Shape.{IsShape, IsNarrow};

use crate::key::MapKey;
use std::marker::Model;

/// A map of `entries` values, 1 to 65,536, of `counters` counters each, 1 to 8, which are looked up by `key`.
/// A counter is a number of 64 bits. A load takes it whole, unless it may take a part.
#[derive(Clone, Copy, Debug, PartialEq, Eq)]
pub struct MapShape {
    entries: u32,
    counters: u32,
    key: MapKey,
    parts: bool,
}

impl Model for MapShape {
    ghost use Rattle.bpf_note.specs.Shape.{Shape, IsShape};

    ghost Value = { Shape };

    ghost view = { λ s. record { entries = s.entries; counters = s.counters; key = s.key; parts = s.parts } };

    ghost inverse = { λ v. record { entries = v.entries; counters = v.counters; key = v.key; parts = v.parts } };

    ghost invariant = { λ s. IsShape (record { entries = s.entries; counters = s.counters; key = s.key; parts = s.parts }) };
}

impl MapShape {
    /// The array with `entries` values of `counters` counters each, if there are 1 to 1,024 and 1 to 8.
    pub fn of(entries: u32, counters: u32) -> Option<MapShape>
        ensures some { IfSome result (λ s. s ≡ record { entries = entries; counters = counters; key = MapKey.Index; parts = false }) }
        ensures within { IfSome result IsNarrow }
        ensures none { IfNone result (IsNarrow (record { entries = entries; counters = counters; key = MapKey.Index; parts = false }) → ⊥) }
    {
        if 1 <= entries && entries <= 1024 && 1 <= counters && counters <= 8 {
            Some(MapShape {
                entries,
                counters,
                key: MapKey::Index,
                parts: false,
            })
        } else {
            None
        }
    }

    /// The map with `entries` values of `counters` counters each that are looked up by `key`, if all are within their limits.
    pub fn keyed(key: MapKey, entries: u32, counters: u32) -> Option<MapShape>
        ensures some { IfSome result (λ s. s ≡ record { entries = entries; counters = counters; key = key; parts = false }) }
        ensures within { IfSome result IsShape }
        ensures none { IfNone result (IsShape (record { entries = entries; counters = counters; key = key; parts = false }) → ⊥) }
    {
        if 1 <= entries
            && entries <= 65536
            && 1 <= counters
            && counters <= 8
            && key.is_supported()
        {
            Some(MapShape {
                entries,
                counters,
                key,
                parts: false,
            })
        } else {
            None
        }
    }

    /// Returns the number of values that the map has.
    pub fn entries(&self) -> u32
        ensures value { result ≡ self.now.entries }
        ensures shape { IsShape self.now }
    {
        self.entries
    }

    /// Returns the number of counters that each value has.
    pub fn counters(&self) -> u32
        ensures value { result ≡ self.now.counters }
        ensures shape { IsShape self.now }
    {
        self.counters
    }

    /// By what its values are looked up.
    pub fn key(&self) -> MapKey
        ensures value { result ≡ self.now.key }
        ensures shape { IsShape self.now }
    {
        self.key
    }

    /// The same map, of whose counters a load may take one, two or four bytes.
    pub fn with_parts(self) -> MapShape
        ensures { result ≡ record { entries = self.entries; counters = self.counters; key = self.key; parts = true } }
    {
        MapShape {
            parts: true,
            ..self
        }
    }

    /// Returns whether a load may take a part of a counter.
    pub fn has_parts(&self) -> bool
        ensures { result ≡ self.now.parts }
    {
        self.parts
    }
}
