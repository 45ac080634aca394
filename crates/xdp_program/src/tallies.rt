//! The counters of a run: words of the host's, or a seat at counters that threads share.
ghost use Rattle.std.specs.Prelude.{◌≤◌, List, length};
ghost use Rattle.bpf_note.specs.Shape.{IsCounter, Shape, most_maps};
ghost use Rattle.bpf_note.specs.declared.op.Op.{Op};
ghost use Rattle.bpf_note.specs.declared.op.Op.TheVariants.{Load, Add};
ghost use Rattle.xdp_program.specs.Tallies.{DidAtSeat, DidInWords, HasWords, IsSeated};

use bpf_maps::{CounterSeat, Counters, place};
use bpf_verify::MapShape;

/// The counters at which the operations of a run are done. A run asks for nothing but these two.
pub trait Tallies {
    // They are counters of maps of these shapes.
    ghost serves: { List Shape → Self → Type 0 };

    // Which operation takes them from which state to which.
    ghost did: { List Shape → Op → Self → Self → Type 0 };

    /// Counter `j` of value `k` of map `m`.
    fn load(&mut self, shapes: &[MapShape], m: u32, k: u32, j: u32) -> u64
        requires serves { serves shapes.now self.old }
        requires maps { length shapes.now ≤ most_maps }
        requires place { IsCounter shapes.now m k j }
        ensures did { did shapes.now (Load m k j result) self.old self.new }
        ensures serves { serves shapes.now self.new };

    /// Adds to counter `j` of value `k` of map `m`, and answers what it was. The sum wraps.
    fn add(&mut self, shapes: &[MapShape], m: u32, k: u32, j: u32, delta: u64) -> u64
        requires serves { serves shapes.now self.old }
        requires maps { length shapes.now ≤ most_maps }
        requires place { IsCounter shapes.now m k j }
        ensures did { did shapes.now (Add m k j delta result) self.old self.new }
        ensures serves { serves shapes.now self.new };
}

/// The first words of a slice, which nobody else changes during a run.
#[derive(Drop)]
pub struct CounterWords<'c> {
    pub words: &'c mut [u64],
}

impl<'c> Tallies for CounterWords<'c> {
    ghost serves = { HasWords };

    ghost did = { DidInWords };

    #[inline(always)]
    fn load(&mut self, shapes: &[MapShape], m: u32, k: u32, j: u32) -> u64 {
        self.words[place(shapes, m, k, j)]
    }

    #[inline(always)]
    fn add(&mut self, shapes: &[MapShape], m: u32, k: u32, j: u32, delta: u64) -> u64 {
        let at = place(shapes, m, k, j);
        let old = self.words[at];
        self.words[at] = old.wrapping_add(delta);
        old
    }
}

/// Counters that threads share, and a seat at them.
#[derive(Drop)]
pub struct Seated<'c> {
    pub counters: &'c Counters,
    pub seat: &'c mut CounterSeat,
}

impl<'c> Tallies for Seated<'c> {
    ghost serves = { IsSeated };

    ghost did = { DidAtSeat };

    #[inline(always)]
    fn load(&mut self, _shapes: &[MapShape], m: u32, k: u32, j: u32) -> u64 {
        self.counters.load(self.seat, m, k, j)
    }

    #[inline(always)]
    fn add(&mut self, _shapes: &[MapShape], m: u32, k: u32, j: u32, delta: u64) -> u64 {
        self.counters.add(self.seat, m, k, j, delta)
    }
}
