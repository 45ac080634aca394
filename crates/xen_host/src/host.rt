//! Who does what an engine says: a host in C, later and by ops, or another at once.

ghost use Rattle.std.specs.Prelude.{◌≡◌, ◌<◌, ◌≤◌, ◌+◌, ◌*◌, ◌++◌, ◌∷◌, [], ℕ, List, IsTrue, drop, false, length, slice_index, take};
ghost use Rattle.xen_netif.specs.Fragments.{is_in_page};
ghost use Rattle.xen_page.specs.declared.place.Place.{Place};
ghost use Rattle.xen_host.specs.Asks.{Ask, op_of};
ghost use Rattle.xen_host.specs.Asks as ask;
ghost use Rattle.xen_host.specs.Filling.{packet_words};
ghost use Rattle.xen_host.specs.Hosts.{GavePage, IsFree, IsFresh, IsFull, IsPut, IsSameLoan, IsSettled, HasGiven};
ghost use Rattle.xen_host.specs.LentWords.{lent_words};

use crate::copying::read_bytes;
use crate::op::HostOp;
use crate::page_words::put_words;
use crate::room::Room;
use crate::words::LentWord;
use xen_netif::Fragment;
use xen_page::{Place, Rights};
use xen_turns::{Awaited, Delivery, Kind};

/// The host that does what an engine says. After a read nothing more is said before its answer is taken, and that is the first
/// thing of the next step: only taking it makes the host free again.
pub trait Host {
    // Which ask takes the host from which state to which. The words of a WRITE stand beside it.
    ghost was_asked: { Self → Ask → List ℕ → Self → Type 0 };

    // Which answers to what was asked last, whose words are from a place on, take it from which state to which.
    ghost has_given: { Self → Place → List ℕ → Self → Type 0 };

    // A step begins: an answer may be taken, or a page written.
    ghost is_fresh: { Self → Type 0 };

    // Something may be asked.
    ghost is_free: { Self → Type 0 };

    // What was asked last has no answer, so whether there is room for more may be asked.
    ghost is_settled: { Self → Type 0 };

    // There is no room for more in this step.
    ghost is_full: { Self → Type 0 };

    /// Returns whether there is room for more.
    fn has_room(&self) -> bool
        requires { is_settled self.now }
        ensures room { IsTrue result → is_free self.now }
        ensures full { result ≡ false → is_full self.now };

    /// Reads `count` words, from a place on.
    fn read(&mut self, at: Place, count: u32)
        requires { is_free self.old }
        ensures { was_asked self.old (ask.Read at count) [] self.new };

    /// Reads the two words of a reference's entry; the page has to be granted with these rights.
    fn read_entry(&mut self, at: Place, reference: u32, rights: Rights)
        requires { is_free self.old }
        ensures { was_asked self.old (ask.Entry at reference rights) [] self.new };

    /// Writes `count` words of a packet, from the word `from` on, from a place on. The last may reach past the packet's end.
    fn write(&mut self, at: Place, bytes: &[u8], from: u32, count: u32)
        requires fresh { is_fresh self.old }
        requires short { length bytes.now ≤ 65535 }
        requires some { 0 < count }
        requires page { count ≤ 1024 }
        requires inside { 4 * (from + count) ≤ length bytes.now + 3 }
        ensures asked { was_asked self.old (ask.Write at count) (packet_words bytes.now from count) self.new }
        ensures settled { is_settled self.new };

    /// Writes this word.
    fn store(&mut self, at: Place, word: u32)
        requires { is_free self.old }
        ensures asked { was_asked self.old (ask.Store at word) [] self.new }
        ensures settled { is_settled self.new };

    /// Writes these two words, from a place on.
    fn store_two(&mut self, at: Place, first: u32, second: u32)
        requires { is_free self.old }
        ensures asked { was_asked self.old (ask.StoreTwo at first second) [] self.new }
        ensures settled { is_settled self.new };

    /// Writes this word, and then reads one of the same page.
    fn push(&mut self, at: Place, word: u32, read: u32)
        requires { is_free self.old }
        ensures { was_asked self.old (ask.Push at word read) [] self.new };

    /// Sends a notice to a port.
    fn notify(&mut self, port: u32)
        requires { is_free self.old }
        ensures asked { was_asked self.old (ask.Notify port) [] self.new }
        ensures settled { is_settled self.new };

    /// The turn is over.
    fn done(&mut self, kind: Kind)
        requires { is_free self.old }
        ensures { was_asked self.old (ask.TurnOver kind) [] self.new };

    /// The delivery is over.
    fn delivered(&mut self, delivery: Delivery)
        requires { is_free self.old }
        ensures { was_asked self.old (ask.DeliveryOver delivery) [] self.new };

    /// The wait for rx slots is over.
    fn awaited(&mut self, awaited: Awaited)
        requires { is_free self.old }
        ensures { was_asked self.old (ask.WaitOver awaited) [] self.new };

    /// The word at this place, which was asked for last.
    fn word(&mut self, at: Place) -> u32
        requires { is_fresh self.old }
        ensures given { has_given self.old at (result ∷ []) self.new }
        ensures fresh { is_fresh self.new }
        ensures free { is_free self.new };

    /// The two words that were, from this place on.
    fn two(&mut self, at: Place) -> [u32; 2]
        requires { is_fresh self.old }
        ensures given { has_given self.old at (slice_index result 0 ∷ slice_index result 1 ∷ []) self.new }
        ensures fresh { is_fresh self.new }
        ensures free { is_free self.new };

    /// The three words that were, from this place on.
    fn three(&mut self, at: Place) -> [u32; 3]
        requires { is_fresh self.old }
        ensures given { has_given self.old at (slice_index result 0 ∷ slice_index result 1 ∷ slice_index result 2 ∷ []) self.new }
        ensures fresh { is_fresh self.new }
        ensures free { is_free self.new };

    /// Puts the bytes of a fragment, whose words in this frame were, after a packet's bytes.
    fn page<R: Room>(&mut self, frame: u32, fragment: &Fragment, packet: &mut R)
        requires fresh { is_fresh self.old }
        requires in_page { IsTrue (is_in_page fragment.now) }
        requires room { length (R.held packet.old) + fragment.now.size ≤ 65535 }
        ensures given { GavePage has_given frame fragment.now (R.held packet.old) (R.held packet.new) self.old self.new }
        ensures length { length (R.held packet.new) ≡ length (R.held packet.old) + fragment.now.size }
        ensures fresh { is_fresh self.new }
        ensures free { is_free self.new };
}

/// A host that has room for ops, and does what they say before the next step: in C, say. It answers with the lent words.
#[derive(Drop)]
pub struct Ops<'a> {
    /// Room for ops.
    pub(crate) ops: &'a mut [HostOp],
    /// The number that is said.
    pub(crate) count: usize,
    /// The lent words.
    pub(crate) words: &'a mut [LentWord],
}

impl<'a> Ops<'a> {
    /// The first of the lent words.
    #[inline(always)]
    fn front(&self, count: usize) -> &[LentWord]
        requires { count ≤ length self.now.words.now }
        ensures { result.now ≡ take count self.now.words.now }
    {
        &self.words[..count]
    }

    /// A word of the lent ones.
    #[inline(always)]
    fn lent(&self, i: usize) -> u32
        requires { i < length self.now.words.now }
        ensures { result ≡ slice_index (lent_words self.now.words.now) i }
    {
        u32::from_le_bytes(self.words[i])
    }

    /// Puts an op behind those that are said.
    #[inline(always)]
    fn put(&mut self, op: HostOp)
        requires { self.old.count < length self.old.ops.now }
        ensures ops { self.new.ops.now ≡ take self.old.count self.old.ops.now ++ op ∷ drop (self.old.count + 1) self.old.ops.now }
        ensures counted { self.new.count ≡ self.old.count + 1 }
        ensures words { self.new.words.now ≡ self.old.words.now }
        ensures loan { IsSameLoan self.old self.new }
        ensures within { self.new.count ≤ length self.new.ops.now }
    {
        self.ops[self.count] = op;
        self.count += 1;
    }
}

impl<'a> Host for Ops<'a> {
    ghost was_asked = { IsPut };

    ghost has_given = { HasGiven };

    ghost is_fresh = { IsFresh };

    ghost is_free = { IsFree };

    ghost is_settled = { IsSettled };

    ghost is_full = { IsFull };

    #[inline(always)]
    fn has_room(&self) -> bool {
        self.count < self.ops.len()
    }

    #[inline(always)]
    fn read(&mut self, at: Place, count: u32) {
        self.put(HostOp::read(at, count))
    }

    #[inline(always)]
    fn read_entry(&mut self, at: Place, reference: u32, rights: Rights) {
        self.put(HostOp::read_entry(at, reference, rights))
    }

    #[inline(always)]
    fn write(&mut self, at: Place, bytes: &[u8], from: u32, count: u32) {
        put_words(bytes, from, count, self.words);
        self.put(HostOp::write(at, count))
    }

    #[inline(always)]
    fn store(&mut self, at: Place, word: u32) {
        self.put(HostOp::store(at, word))
    }

    #[inline(always)]
    fn store_two(&mut self, at: Place, first: u32, second: u32) {
        self.put(HostOp::store_two(at, first, second))
    }

    #[inline(always)]
    fn push(&mut self, at: Place, word: u32, read: u32) {
        self.put(HostOp::push(at, word, read))
    }

    #[inline(always)]
    fn notify(&mut self, port: u32) {
        self.put(HostOp::notify(port))
    }

    #[inline(always)]
    fn done(&mut self, kind: Kind) {
        self.put(HostOp::done(kind))
    }

    #[inline(always)]
    fn delivered(&mut self, delivery: Delivery) {
        self.put(HostOp::delivered(delivery))
    }

    #[inline(always)]
    fn awaited(&mut self, awaited: Awaited) {
        self.put(HostOp::awaited(awaited))
    }

    #[inline(always)]
    fn word(&mut self, _at: Place) -> u32 {
        self.lent(0)
    }

    #[inline(always)]
    fn two(&mut self, _at: Place) -> [u32; 2] {
        [self.lent(0), self.lent(1)]
    }

    #[inline(always)]
    fn three(&mut self, _at: Place) -> [u32; 3] {
        [self.lent(0), self.lent(1), self.lent(2)]
    }

    #[inline(always)]
    fn page<R: Room>(&mut self, _frame: u32, fragment: &Fragment, packet: &mut R) {
        let covered = fragment.covered_words();
        let count = (covered.end - covered.start) as usize;
        packet.push_all(read_bytes(fragment, self.front(count)))
    }
}
