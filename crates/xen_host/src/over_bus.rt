//! A host over a bus: it writes at once, and reads when the answer is taken.

ghost use Rattle.std.specs.Prelude.{◌≡◌, ◌<◌, ◌≤◌, ◌+◌, ◌-◌, ◌*◌, ◌↔◌, ◌++◌, ◌∷◌, [], IsTrue, List, None, length, ℕ};
ghost use Rattle.xen_netif.specs.Copy.{Covers, bytes_from, bytes_in, bytes_of};
ghost use Rattle.xen_page.specs.Access.{Performs};
ghost use Rattle.xen_steps.specs.Drive.{accesses};
ghost use Rattle.xen_steps.specs.Pages.{HasRoom};
ghost use Rattle.xen_steps.specs.Places.{page_word};
ghost use Rattle.xen_host.specs.Asks.{op_of, writes_at};
ghost use Rattle.xen_host.specs.Filling.{packet_words};
ghost use Rattle.xen_host.specs.Buses.{HasRead, IsAlways, IsFilled, IsInBus, IsMade, IsNever, IsSameBus, MayRead, MayWrite, ask_of, behind as behind_spec};

use crate::copying::push_part;
use crate::host::Host;
use crate::op::HostOp;
use crate::room::Room;
use bpf_vm::Fill;
use xen_netif::Fragment;
use xen_page::{Bus, Place, Rights};
use xen_ring::{Port, Ports};
use xen_rx_fill::packet_word;
use xen_turns::{Awaited, Delivery, Kind};

/// The number of words that a page has.
const PAGE_WORDS: u32 = 1024;

/// The activity that is over.
#[derive(Clone, Copy, Debug, PartialEq, Eq, Drop)]
pub enum Over {
    Turn(Kind),
    Delivery(Delivery),
    Wait(Awaited),
}

impl Over {
    /// As C sees it.
    #[inline(always)]
    pub fn op(self) -> HostOp
        ensures { result ≡ op_of (ask_of self) }
    {
        match self {
            Over::Turn(kind) => HostOp::done(kind),
            Over::Delivery(delivery) => HostOp::delivered(delivery),
            Over::Wait(awaited) => HostOp::awaited(awaited),
        }
    }
}

/// A host over a bus. It makes each access that it is asked for at once, but for a read, which it makes when its answer is taken.
/// What isn't in the bus's pages is neither read nor written: a word there is 0. No queue asks for such a word.
#[derive(Drop)]
pub struct OverBus<'a, 'p, B: Bus> {
    /// The bus that reaches the pages.
    pub(crate) bus: &'a mut B,
    /// The ports to which notices go.
    pub(crate) ports: &'p Ports,
    /// The activity that is over, if one is.
    pub(crate) over: Option<Over>,
}

/// The place of the k-th word from one on.
#[inline(always)]
fn behind(at: Place, k: u32) -> Place
    requires { at.word + k < 1024 }
    ensures { result ≡ behind_spec at k }
{
    Place {
        frame: at.frame,
        word: at.word + k,
    }
}

/// Returns whether `count` words, from a place on, are words of a page of a bus.
#[inline(always)]
fn are_in_bus<B: Bus>(bus: &B, at: Place, count: u32) -> bool
    requires { count ≤ 1024 }
    ensures { IsTrue result ↔ IsInBus (B.size bus.now) at count }
{
    at.frame < bus.frames() && at.word <= PAGE_WORDS - count
}

/// The word at a place, which is one of a bus's pages.
#[inline(always)]
fn there<B: Bus>(bus: &mut B, at: Place) -> u32
    requires { IsInBus (B.size bus.old) at 1 }
    ensures { MayRead B.log B.access_gives B.size bus.old at (result ∷ []) bus.new }
{
    bus.read(at)
}

/// The word at a place.
#[inline(always)]
fn word_at<B: Bus>(bus: &mut B, at: Place) -> u32
    ensures { MayRead B.log B.access_gives B.size bus.old at (result ∷ []) bus.new }
{
    if are_in_bus(bus, at, 1) {
        there(bus, at)
    } else {
        0
    }
}

/// Fills room with the bytes of words from a place on. It is a call of its own, so that steps that read no page don't pay for it.
#[inline(never)]
fn fill_from<B: Bus>(bus: &mut B, at: Place, count: u32, room: &mut [u8])
    requires page { count ≤ 1024 }
    requires room { length room.old ≡ 4 * count }
    ensures { IsFilled B.log B.access_gives B.size bus.old at count room.new bus.new }
{
    if are_in_bus(bus, at, count) {
        bus.read_run(at, room)
    } else {
        room.fill(0)
    }
}

/// Puts a fragment's bytes in the word of its page at a place after a packet's bytes. Few fragments have words of which only a part is
/// theirs, so this is a call of its own.
#[inline(never)]
fn page_part<B: Bus, R: Room>(
    bus: &mut B,
    frame: u32,
    fragment: &Fragment,
    place: u32,
    packet: &mut R,
)
    requires covers { Covers fragment.now place }
    requires room { HasRoom (length (R.held packet.old)) fragment.now place 0 }
    ensures room { HasRoom (length (R.held packet.new)) fragment.now (place + 1) 0 }
    ensures read { (word : ℕ) × MayRead B.log B.access_gives B.size bus.old (page_word frame place) (word ∷ []) bus.new ×
        (R.held packet.new ≡ R.held packet.old ++ bytes_in fragment.now place word) }
{
    let word = word_at(bus, Place { frame, word: place });
    push_part(fragment, place, word, packet);
}

/// So it does for the words from one place to another.
#[inline(never)]
fn page_parts<B: Bus, R: Room>(
    bus: &mut B,
    frame: u32,
    fragment: &Fragment,
    from: u32,
    to: u32,
    packet: &mut R,
)
    requires ordered { from ≤ to }
    requires covers { (place : ℕ) → from ≤ place → place < to → Covers fragment.now place }
    requires room { HasRoom (length (R.held packet.old)) fragment.now from 0 }
    ensures room { HasRoom (length (R.held packet.new)) fragment.now to 0 }
    ensures read { (words : List ℕ) × (length words ≡ to - from) × MayRead B.log B.access_gives B.size bus.old (page_word frame from)
        words bus.new × ((R.held packet.new) ≡ R.held packet.old ++ bytes_from fragment.now from words) }
{
    for place in from..to {
        page_part(bus, frame, fragment, place, packet);
    }
}

/// So it does, if there are such words. Mostly there is one.
#[inline(always)]
fn page_edge<B: Bus, R: Room>(
    bus: &mut B,
    frame: u32,
    fragment: &Fragment,
    from: u32,
    to: u32,
    packet: &mut R,
)
    requires ordered { from ≤ to }
    requires covers { (place : ℕ) → from ≤ place → place < to → Covers fragment.now place }
    requires room { HasRoom (length (R.held packet.old)) fragment.now from 0 }
    ensures room { HasRoom (length (R.held packet.new)) fragment.now to 0 }
    ensures read { (words : List ℕ) × (length words ≡ to - from) × MayRead B.log B.access_gives B.size bus.old (page_word frame from)
        words bus.new × ((R.held packet.new) ≡ R.held packet.old ++ bytes_from fragment.now from words) }
{
    if from == to {
        return;
    }
    page_part(bus, frame, fragment, from, packet);
    if from + 1 < to {
        page_parts(bus, frame, fragment, from + 1, to, packet)
    }
}

/// Puts `count` words, from a place on, after a packet's bytes.
#[inline(always)]
fn page_run<B: Bus, R: Room>(bus: &mut B, at: Place, count: u32, packet: &mut R)
    requires page { count ≤ 1024 }
    requires room { 0 < count → length (R.held packet.old) + 4 * count ≤ 65535 }
    ensures { (words : List ℕ) × (length words ≡ count) × MayRead B.log B.access_gives B.size bus.old at words bus.new ×
        (R.held packet.new ≡ R.held packet.old ++ bytes_of words) }
{
    if count == 0 {
        return;
    }
    packet.push_from(4 * count as usize, &PageRun { at, count }, bus);
}

/// Words from a place on.
#[derive(Clone, Copy)]
struct PageRun {
    at: Place,
    count: u32,
}

impl<B: Bus> Fill<B> for PageRun {
    ghost fits = { λ run bus count. (run.count ≤ 1024) × (count ≡ 4 * run.count) };

    ghost fills = { λ run old bytes new. IsFilled B.log B.access_gives B.size old run.at run.count bytes new };

    #[inline(always)]
    fn fill(&self, source: &mut B, room: &mut [u8]) {
        fill_from(source, self.at, self.count, room)
    }
}

impl<'a, 'p, B: Bus> OverBus<'a, 'p, B> {
    /// A host that was asked for nothing yet.
    #[inline(always)]
    pub fn new(bus: &'a mut B, ports: &'p Ports) -> OverBus<'a, 'p, B>
        ensures bus { result.bus.now ≡ bus.old }
        ensures loan { result.bus.ghost_name ≡ bus.entry.ghost_name }
        ensures over { result.over ≡ None }
    {
        OverBus {
            bus,
            ports,
            over: None,
        }
    }

    /// Returns what is over, if anything is.
    #[inline(always)]
    pub fn over(&self) -> Option<Over>
        ensures { result ≡ self.now.over }
    {
        self.over
    }

    /// Writes a word.
    #[inline(always)]
    fn put(&mut self, at: Place, word: u32)
        ensures { MayWrite B.log B.access_gives B.size self.old at word self.new }
    {
        if are_in_bus(self.bus, at, 1) {
            self.bus.write(at, word)
        }
    }

    /// Writes `count` words of a packet, from the word `from` on, from a place on.
    #[inline(always)]
    fn put_packet(&mut self, at: Place, bytes: &[u8], from: u32, count: u32)
        requires frame { at.frame < B.size self.old.bus.now }
        requires within { at.word + count ≤ 1024 }
        requires short { length bytes.now ≤ 65535 }
        requires some { 0 < count }
        requires inside { 4 * (from + count) ≤ length bytes.now + 3 }
        ensures size { B.size self.new.bus.now ≡ B.size self.old.bus.now }
        ensures wrote { Performs B.log B.access_gives self.old.bus.now (accesses (writes_at at (packet_words bytes.now from count)))
            self.new.bus.now }
        ensures beside { (self.new.over ≡ self.old.over) × IsSameBus self.old self.new }
    {
        let whole = count.min(bytes.len() as u32 / 4 - from);
        let start = 4 * from as usize;
        self.bus
            .write_run(at, &bytes[start..start + 4 * whole as usize]);
        if whole < count {
            let last = Place {
                frame: at.frame,
                word: at.word + whole,
            };
            self.bus.write(last, packet_word(bytes, from + whole));
        }
    }
}

impl<'a, 'p, B: Bus> Host for OverBus<'a, 'p, B> {
    ghost was_asked = { IsMade B.log B.access_gives B.size };

    ghost has_given = { HasRead B.log B.access_gives B.size };

    ghost is_fresh = { IsAlways };

    ghost is_free = { IsAlways };

    ghost is_settled = { IsAlways };

    ghost is_full = { IsNever };

    #[inline(always)]
    fn has_room(&self) -> bool {
        true
    }

    #[inline(always)]
    fn read(&mut self, _at: Place, _count: u32) {}

    #[inline(always)]
    fn read_entry(&mut self, _at: Place, _reference: u32, _rights: Rights) {}

    #[inline(always)]
    fn write(&mut self, at: Place, bytes: &[u8], from: u32, count: u32) {
        if are_in_bus(self.bus, at, count) {
            self.put_packet(at, bytes, from, count)
        }
    }

    #[inline(always)]
    fn store(&mut self, at: Place, word: u32) {
        self.put(at, word)
    }

    #[inline(always)]
    fn store_two(&mut self, at: Place, first: u32, second: u32) {
        if are_in_bus(self.bus, at, 2) {
            self.bus.write(at, first);
            let next = Place {
                frame: at.frame,
                word: at.word + 1,
            };
            self.bus.write(next, second);
        }
    }

    #[inline(always)]
    fn push(&mut self, at: Place, word: u32, _read: u32) {
        self.put(at, word);
    }

    #[inline(always)]
    fn notify(&mut self, port: u32) {
        if let Some(port) = Port::of(port) {
            self.ports.notify(port);
        }
    }

    #[inline(always)]
    fn done(&mut self, kind: Kind) {
        self.over = Some(Over::Turn(kind));
    }

    #[inline(always)]
    fn delivered(&mut self, delivery: Delivery) {
        self.over = Some(Over::Delivery(delivery));
    }

    #[inline(always)]
    fn awaited(&mut self, awaited: Awaited) {
        self.over = Some(Over::Wait(awaited));
    }

    #[inline(always)]
    fn word(&mut self, at: Place) -> u32 {
        word_at(self.bus, at)
    }

    #[inline(always)]
    fn two(&mut self, at: Place) -> [u32; 2] {
        if !are_in_bus(self.bus, at, 2) {
            return [0; 2];
        }
        let first = there(self.bus, at);
        let second = there(self.bus, behind(at, 1));
        [first, second]
    }

    #[inline(always)]
    fn three(&mut self, at: Place) -> [u32; 3] {
        if !are_in_bus(self.bus, at, 3) {
            return [0; 3];
        }
        let first = there(self.bus, at);
        let second = there(self.bus, behind(at, 1));
        let third = there(self.bus, behind(at, 2));
        [first, second, third]
    }

    #[inline(always)]
    fn page<R: Room>(&mut self, frame: u32, fragment: &Fragment, packet: &mut R) {
        let covered = fragment.covered_words();
        let whole = fragment.whole_words();
        page_edge(
            self.bus,
            frame,
            fragment,
            covered.start,
            whole.start,
            packet,
        );
        let first = Place {
            frame,
            word: whole.start,
        };
        page_run(self.bus, first, whole.end - whole.start, packet);
        page_edge(self.bus, frame, fragment, whole.end, covered.end, packet);
    }
}
