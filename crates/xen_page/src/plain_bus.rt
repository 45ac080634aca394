//! A bus over plain words that one thread owns.

ghost use Rattle.std.specs.Prelude.{◌≡◌, ◌<◌, ◌≤◌, ◌^◌, ◌/◌, ◌%◌, ◌+◌, ◌*◌, All, None, drop, length, take};
ghost use Rattle.std.specs.Int.{w32, to_le_bytes};
ghost use Rattle.std.specs.List.{flat_map};
ghost use Rattle.xen_page.specs.Numbered.{index_of};
ghost use Rattle.xen_page.specs.Plain.{Holds};

use crate::bus::Bus;
use crate::place::{Place, WORDS, place_of};
use crate::run::{put_word, word_at};
use std::marker::Model;

/// Reaches frames of plain words, one frame after another, which nobody else reaches while the bus lives: the pages of a test,
/// a bench or a simulator of one thread. Contracts see the words. Accesses may be joined and moved by the compiler, so it is
/// never for pages that another thread or a guest reaches. It doesn't report its accesses.
#[derive(Drop)]
pub struct PlainBus<'w> {
    count: u32,
    words: &'w mut [u32],
}

impl<'w> Model for PlainBus<'w> {
    ghost use Rattle.std.specs.Prelude.{◌≡◌, ◌*◌, ℕ, List, length};

    ghost Value = { List ℕ };

    ghost view = { λ b. b.words.now };

    ghost invariant = { λ b. length b.words.now ≡ b.count * 1024 };
}

impl<'w> PlainBus<'w> {
    /// A bus that reaches these words: frames of 1,024 each, fewer than 4,294,967,296.
    pub fn of(words: &'w mut [u32]) -> PlainBus<'w>
        requires whole { length words.old % 1024 ≡ 0 }
        requires few { length words.old / 1024 < 2 ^ 32 }
        ensures { result ≡ words.old }
    {
        PlainBus {
            count: (words.len() / WORDS as usize) as u32,
            words,
        }
    }

    /// The words of all frames, one frame after another.
    pub fn words(&self) -> &[u32]
        ensures { result.now ≡ self.now }
    {
        self.words
    }

    /// The words again, which the bus no longer reaches.
    pub fn into_words(self) -> &'w mut [u32]
        ensures { result.now ≡ self.entry }
    {
        self.words
    }

    /// `count` words from a place on.
    fn words_from(&self, at: Place, count: usize) -> &[u32]
        requires { index_of at + count ≤ length self.now }
        ensures { result.now ≡ take count (drop (index_of at) self.now) }
    {
        let from = place_of(at);
        &self.words[from..from + count]
    }
}

/// Writes the bytes of words, by way of a page that nothing else reaches: so the compiler makes one copy of the bytes. Where there are
/// no words it returns first, so that nothing is copied or not as the loop runs.
fn put_bytes(room: &mut [u8], words: &[u32])
    requires few { length words.now ≤ 1024 }
    requires length { length room.old ≡ 4 * length words.now }
    ensures bytes { room.new ≡ flat_map (to_le_bytes w32) words.now }
    ensures below { All (λ word. word < 2 ^ 32) words.now }
{
    if words.is_empty() {
        return;
    }
    let mut page = [0; 4 * WORDS as usize];
    for number in 0..words.len() {
        put_word(&mut page, number, words[number]);
    }
    let count = 4 * words.len();
    room[..count].copy_from_slice(&page[..count]);
}

/// Writes words whose bytes these are.
fn put_words(words: &mut [u32], bytes: &[u8])
    requires { length bytes.now ≡ 4 * length words.old }
    ensures length { length words.new ≡ length words.old }
    ensures words { flat_map (to_le_bytes w32) words.new ≡ bytes.now }
    ensures below { All (λ word. word < 2 ^ 32) words.new }
{
    for number in 0..words.len() {
        words[number] = word_at(bytes, number);
    }
}

impl Bus for PlainBus<'_> {
    ghost size = { λ words. length words / 1024 };

    ghost log = { λ _. None };

    ghost access_gives = { Holds };

    fn frames(&self) -> u32 {
        self.count
    }

    fn read(&mut self, at: Place) -> u32 {
        self.words[place_of(at)]
    }

    fn read_run(&mut self, at: Place, room: &mut [u8]) {
        put_bytes(room, self.words_from(at, room.len() / 4));
    }

    fn write(&mut self, at: Place, value: u32) {
        self.words[place_of(at)] = value;
    }

    fn write_run(&mut self, at: Place, bytes: &[u8]) {
        let first = place_of(at);
        put_words(&mut self.words[first..first + bytes.len() / 4], bytes);
    }

    fn cas(&mut self, at: Place, old: u32, new: u32) -> u32 {
        let word = &mut self.words[place_of(at)];
        let found = *word;
        if found == old {
            *word = new;
        }
        found
    }
}
