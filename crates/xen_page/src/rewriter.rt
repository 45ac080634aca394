//! A bus whose words are rewritten between accesses.

ghost use Rattle.std.specs.Prelude.{◌<◌, All};

use crate::bus::Bus;
use crate::place::Place;

/// Passes each access on to a bus, and makes given writes before accesses of given numbers, as a domain at the other
/// end of the pages may. It doesn't report its accesses; a `Recorder` round it does.
#[derive(Drop)]
pub struct Rewriter<'a, B: Bus> {
    pub(crate) bus: B,
    pub(crate) writes: &'a [(u32, Place, u32)],
    pub(crate) next: Option<u32>,
    ghost within: { All (λ w. (w.1.frame < B.size bus) × (w.1.word < 1024)) writes.now },
}
