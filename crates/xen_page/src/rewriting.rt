//! What a `Rewriter` does.

ghost use Rattle.std.specs.Prelude.{◌≡◌, ◌<◌, All, None, Some};
ghost use Rattle.xen_page.specs.Access.{Performs};
ghost use Rattle.xen_page.specs.Rewritten.{Rewrites, bus_in, due_at, due_before, next_of, number_of, writes_of};

use crate::bus::Bus;
use crate::place::Place;
use crate::rewriter::Rewriter;

/// Makes the writes of the list that come before the access of this number.
fn write_due<B: Bus>(bus: &mut B, writes: &[(u32, Place, u32)], number: u32)
    requires { All (λ w. (w.1.frame < B.size bus.old) × (w.1.word < 1024)) writes.now }
    ensures performs { Performs B.log B.access_gives bus.old (due_before number writes.now) bus.new }
    ensures size { B.size bus.new ≡ B.size bus.old }
{
    for (before, place, value) in writes {
        if *before == number {
            bus.write(*place, *value);
        }
    }
}

impl<'a, B: Bus> Rewriter<'a, B> {
    /// A write is the number of the access, from 0, before which it is made, the place, and the word. Writes before
    /// one access are made in the list's order. Past access 4,294,967,295 no more writes are made.
    pub fn make(bus: B, writes: &'a [(u32, Place, u32)]) -> Rewriter<'a, B>
        requires { All (λ w. (w.1.frame < B.size bus) × (w.1.word < 1024)) writes.now }
        ensures bus { bus_in result ≡ bus }
        ensures writes { writes_of result ≡ writes.now }
        ensures next { next_of result ≡ Some 0 }
    {
        Rewriter {
            bus,
            writes,
            next: Some(0),
        }
    }

    /// As [`Rewriter::make`], with the accesses counted from this number on.
    pub fn numbered_from(bus: B, writes: &'a [(u32, Place, u32)], first: u32) -> Rewriter<'a, B>
        requires { All (λ w. (w.1.frame < B.size bus) × (w.1.word < 1024)) writes.now }
        ensures bus { bus_in result ≡ bus }
        ensures writes { writes_of result ≡ writes.now }
        ensures next { next_of result ≡ Some first }
    {
        Rewriter {
            bus,
            writes,
            next: Some(first),
        }
    }

    /// Makes the writes that come before the next access, and counts it.
    fn rewrite(&mut self)
        ensures performs { Performs B.log B.access_gives (bus_in self.old) (due_at (next_of self.old) (writes_of self.old))
            (bus_in self.new) }
        ensures writes { writes_of self.new ≡ writes_of self.old }
        ensures next { next_of self.new ≡ number_of (next_of self.old) }
        ensures size { B.size (bus_in self.new) ≡ B.size (bus_in self.old) }
    {
        if let Some(number) = self.next {
            write_due(&mut self.bus, self.writes, number);
            self.next = number.checked_add(1);
        }
    }
}

impl<B: Bus> Bus for Rewriter<'_, B> {
    ghost size = { λ r. B.size (bus_in r) };

    ghost log = { λ _. None };

    ghost access_gives = { Rewrites B.log B.access_gives };

    fn frames(&self) -> u32 {
        self.bus.frames()
    }

    fn read(&mut self, at: Place) -> u32 {
        self.rewrite();
        self.bus.read(at)
    }

    fn write(&mut self, at: Place, value: u32) {
        self.rewrite();
        self.bus.write(at, value);
    }

    fn cas(&mut self, at: Place, old: u32, new: u32) -> u32 {
        self.rewrite();
        self.bus.cas(at, old, new)
    }
}
