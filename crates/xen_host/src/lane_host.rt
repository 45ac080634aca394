//! The host of one of several turns: its ops stand among those of the others, and what all of them say once it keeps to itself.

ghost use Rattle.std.specs.Prelude.{◌≡◌, ◌<◌, ◌≤◌, ◌+◌, ◌*◌, ◌^◌, ◌++◌, ◌∷◌, ◌↔◌, IsTrue, drop, length, slice_index, take};
ghost use Rattle.xen_steps.specs.Places.{add32};
ghost use Rattle.xen_host.specs.Filling.{packet_words};
ghost use Rattle.xen_host.specs.LaneHosts.{HasLaneGiven, IsLaneFree, IsLaneFresh, IsLaneFull, IsLanePut, IsLaneSettled, StaysBeside};
ghost use Rattle.xen_host.specs.LentWords.{lent_words};

use crate::copying::read_bytes;
use crate::host::Host;
use crate::op::HostOp;
use crate::page_words::put_words;
use crate::room::Room;
use crate::words::LentWord;
use xen_netif::Fragment;
use xen_page::{Place, Rights};
use xen_ring::RSP_PROD;
use xen_steps::header;
use xen_turns::{Awaited, Delivery, Kind};

/// The slots that were read ahead, in front of the lent words.
#[derive(Clone, Copy)]
pub(crate) struct Ahead {
    /// The index of the first.
    pub(crate) start: u32,
    /// Their number.
    pub(crate) count: usize,
    /// The number of those that are taken.
    pub(crate) taken: usize,
}

impl Ahead {
    /// Returns whether one isn't taken.
    #[inline(always)]
    pub(crate) fn has_more(&self) -> bool
        ensures { IsTrue result ↔ (self.now.taken < self.now.count) }
    {
        self.taken < self.count
    }

    /// The index of the next.
    #[inline(always)]
    pub(crate) fn index(&self) -> u32
        requires { self.now.taken ≤ 16 }
        ensures { result ≡ add32 self.now.start self.now.taken }
    {
        self.start.wrapping_add(self.taken as u32)
    }
}

/// The host of a lane.
#[derive(Drop)]
pub(crate) struct LaneHost<'a> {
    pub(crate) ops: &'a mut [HostOp],
    /// The number that is said by all.
    pub(crate) count: usize,
    /// The number that was, before this one said any. Only proofs read it.
    pub(crate) base: usize,
    /// No more are said than these.
    pub(crate) limit: usize,
    pub(crate) words: &'a mut [LentWord],
    /// The place in the lent words of its own, those of a page.
    pub(crate) own: usize,
    pub(crate) ahead: Ahead,
    /// The frame of the tx ring, whose push is withheld.
    pub(crate) tx: u32,
}

/// The number of words of a slot.
const SLOT_WORDS: usize = 3;
/// The number of words of a lane's own.
const OWN_WORDS: usize = 1024;

/// None.
pub(crate) const NONE_AHEAD: Ahead = Ahead {
    start: 0,
    count: 0,
    taken: 0,
};

/// One of the lent words.
#[inline(always)]
fn lent_word(words: &[LentWord], i: usize) -> u32
    requires { i < length words.now }
    ensures { result ≡ slice_index (lent_words words.now) i }
{
    u32::from_le_bytes(words[i])
}

/// The three words of the slot of this number, of those that were read ahead.
#[inline(always)]
pub(crate) fn slot_ahead(words: &[LentWord], number: usize) -> [u32; 3]
    requires few { number ≤ 16 }
    requires inside { 3 * number + 3 ≤ length words.now }
    ensures { result ≡ take 3 (drop (3 * number) (lent_words words.now)) }
{
    let from = SLOT_WORDS * number;
    [
        lent_word(words, from),
        lent_word(words, from + 1),
        lent_word(words, from + 2),
    ]
}

/// Puts `count` words of a packet, from the word `from` on, in front of a page of the lent ones, from `own` on.
#[inline(always)]
fn put_own(bytes: &[u8], from: u32, count: u32, own: usize, words: &mut [LentWord])
    requires short { length bytes.now ≤ 65535 }
    requires some { 0 < count }
    requires page { count ≤ 1024 }
    requires inside { 4 * (from + count) ≤ length bytes.now + 3 }
    requires low { own ≤ 2 ^ 31 }
    requires enough { own + 1024 ≤ length words.old }
    ensures width { length words.new ≡ length words.old }
    ensures front { take own (lent_words words.new) ≡ take own (lent_words words.old) }
    ensures wrote { take count (drop own (lent_words words.new)) ≡ packet_words bytes.now from count }
    ensures rest { drop (own + count) (lent_words words.new) ≡ drop (own + count) (lent_words words.old) }
{
    put_words(bytes, from, count, &mut words[own..own + OWN_WORDS]);
}

impl<'a> LaneHost<'a> {
    #[inline(always)]
    pub(crate) fn put(&mut self, op: HostOp)
        requires room { self.old.count < self.old.limit }
        requires within { self.old.limit ≤ length self.old.ops.now }
        ensures ops { self.new.ops.now ≡ take self.old.count self.old.ops.now ++ op ∷ drop (self.old.count + 1) self.old.ops.now }
        ensures counted { self.new.count ≡ self.old.count + 1 }
        ensures words { self.new.words.now ≡ self.old.words.now }
        ensures beside { StaysBeside self.old self.new }
    {
        self.ops[self.count] = op;
        self.count += 1;
    }

    /// The lent words of its own, in front of the others.
    #[inline(always)]
    fn front(&self, count: usize) -> &[LentWord]
        requires inside { self.now.own + count ≤ length self.now.words.now }
        requires low { self.now.own ≤ 2 ^ 31 }
        requires page { count ≤ 1024 }
        ensures { result.now ≡ take count (drop self.now.own self.now.words.now) }
    {
        &self.words[self.own..self.own + count]
    }

    /// A lent word of its own.
    #[inline(always)]
    fn lent(&self, i: usize) -> u32
        requires inside { self.now.own + i < length self.now.words.now }
        requires low { self.now.own ≤ 2 ^ 31 }
        requires page { i < 1024 }
        ensures { result ≡ slice_index (lent_words self.now.words.now) (self.now.own + i) }
    {
        lent_word(self.words, self.own + i)
    }

    /// All lent words.
    #[inline(always)]
    pub(crate) fn all_words(&self) -> &[LentWord]
        ensures { result.now ≡ self.now.words.now }
    {
        self.words
    }

    /// The next slot that was read ahead.
    #[inline(always)]
    pub(crate) fn next_slot(&self) -> [u32; 3]
        requires few { self.now.ahead.taken ≤ 16 }
        requires inside { 3 * self.now.ahead.taken + 3 ≤ length self.now.words.now }
        ensures { result ≡ take 3 (drop (3 * self.now.ahead.taken) (lent_words self.now.words.now)) }
    {
        slot_ahead(self.words, self.ahead.taken)
    }
}

impl<'a> Host for LaneHost<'a> {
    ghost was_asked = { IsLanePut };

    ghost has_given = { HasLaneGiven };

    ghost is_fresh = { IsLaneFresh };

    ghost is_free = { IsLaneFree };

    ghost is_settled = { IsLaneSettled };

    ghost is_full = { IsLaneFull };

    #[inline(always)]
    fn has_room(&self) -> bool {
        self.count < self.limit
    }

    #[inline(always)]
    fn read(&mut self, at: Place, count: u32) {
        self.put(HostOp {
            lent: self.own as u32,
            ..HostOp::read(at, count)
        })
    }

    #[inline(always)]
    fn read_entry(&mut self, at: Place, reference: u32, rights: Rights) {
        self.put(HostOp {
            lent: self.own as u32,
            ..HostOp::read_entry(at, reference, rights)
        })
    }

    #[inline(always)]
    fn write(&mut self, at: Place, bytes: &[u8], from: u32, count: u32) {
        put_own(bytes, from, count, self.own, self.words);
        self.put(HostOp {
            lent: self.own as u32,
            ..HostOp::write(at, count)
        })
    }

    #[inline(always)]
    fn store(&mut self, at: Place, word: u32) {
        self.put(HostOp::store(at, word))
    }

    #[inline(always)]
    fn store_two(&mut self, at: Place, first: u32, second: u32) {
        self.put(HostOp::store_two(at, first, second))
    }

    #[inline(always)]
    fn push(&mut self, at: Place, word: u32, read: u32) {
        if at == header(self.tx, RSP_PROD) {
            return;
        }
        self.put(HostOp {
            lent: self.own as u32,
            ..HostOp::push(at, word, read)
        })
    }

    #[inline(always)]
    fn notify(&mut self, port: u32) {
        self.put(HostOp::notify(port))
    }

    #[inline(always)]
    fn done(&mut self, _kind: Kind) {}

    #[inline(always)]
    fn delivered(&mut self, _delivery: Delivery) {}

    #[inline(always)]
    fn awaited(&mut self, _awaited: Awaited) {}

    #[inline(always)]
    fn word(&mut self, _at: Place) -> u32 {
        self.lent(0)
    }

    #[inline(always)]
    fn two(&mut self, _at: Place) -> [u32; 2] {
        [self.lent(0), self.lent(1)]
    }

    #[inline(always)]
    fn three(&mut self, _at: Place) -> [u32; 3] {
        [self.lent(0), self.lent(1), self.lent(2)]
    }

    #[inline(always)]
    fn page<R: Room>(&mut self, _frame: u32, fragment: &Fragment, packet: &mut R) {
        let covered = fragment.covered_words();
        let count = (covered.end - covered.start) as usize;
        packet.push_all(read_bytes(fragment, self.front(count)))
    }
}
