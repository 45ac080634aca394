//! Where the numbers of counters are read.
ghost use Rattle.std.specs.Prelude.{◌≡◌, List, ℕ};
ghost use Rattle.bpf_note.specs.Shape.{Shape, IsCounter};

use bpf_maps::{Totals, place};
use bpf_note::MapShape;
use std::marker::Model;

/// The numbers of the counters of some maps.
pub trait Numbers {
    // The maps' shapes.
    ghost shapes_of: { Self → List Shape };

    // The number of counter j of value k of map m.
    ghost number_at: { Self → ℕ → ℕ → ℕ → ℕ };

    /// Counter `j` of value `k` of map `m`.
    fn number(&self, m: u32, k: u32, j: u32) -> u64
        requires { IsCounter (shapes_of self.now) m k j }
        ensures { result ≡ number_at self.now m k j };
}

impl Numbers for Totals {
    ghost use Rattle.bpf_maps.specs.Seats.{total_at};

    ghost shapes_of = { λ t. t.shapes };

    ghost number_at = { total_at };

    fn number(&self, m: u32, k: u32, j: u32) -> u64 {
        self.at(m, k, j)
    }
}

/// Words that are all counters of maps with these shapes.
#[derive(Drop)]
pub struct Words<'a> {
    shapes: &'a [MapShape],
    words: &'a [u64],
}

impl<'a> Model for Words<'a> {
    ghost use Rattle.std.specs.Prelude.{◌≡◌, ◌≤◌, length};
    ghost use Rattle.bpf_maps.specs.Layout.{total};
    ghost use Rattle.bpf_maps.specs.Seats.{TotalsView};
    ghost use Rattle.bpf_note.specs.Shape.{most_maps};

    ghost Value = { TotalsView };

    ghost view = { λ w. record { shapes = w.shapes.now; values = w.words.now } };

    ghost invariant = { λ w. (length w.shapes.now ≤ most_maps) × (length w.words.now ≡ total w.shapes.now) };
}

impl<'a> Words<'a> {
    ghost use Rattle.std.specs.Prelude.{◌≡◌, ◌≤◌, length};
    ghost use Rattle.bpf_maps.specs.Layout.{total};
    ghost use Rattle.bpf_note.specs.Shape.{most_maps};

    /// The counters of these maps in these words.
    pub fn of(shapes: &'a [MapShape], words: &'a [u64]) -> Words<'a>
        requires few { length shapes.now ≤ most_maps }
        requires all { length words.now ≡ total shapes.now }
        ensures shapes { result.shapes ≡ shapes.now }
        ensures values { result.values ≡ words.now }
    {
        Words { shapes, words }
    }
}

impl<'a> Numbers for Words<'a> {
    ghost use Rattle.bpf_maps.specs.Seats.{total_at};

    ghost shapes_of = { λ w. w.shapes };

    ghost number_at = { total_at };

    fn number(&self, m: u32, k: u32, j: u32) -> u64 {
        self.words[place(self.shapes, m, k, j)]
    }
}
