//! A bus made of the steps of words.

ghost use Rattle.std.specs.Prelude.{◌≡◌, ◌<◌, ◌≤◌, ◌+◌, ◌*◌, ◌/◌, ◌%◌, length};
ghost use Rattle.xen_page.specs.Numbered.{place_at};
ghost use Rattle.xen_page.specs.Run.{ReadsFurther, ReadsRun};

use crate::bus::Bus;
use crate::place::{Place, place_of};
use crate::run::put_word;
use crate::words::Words;
use std::marker::Model;

/// Reaches words by their steps, each access by one step. Contracts see the words.
#[derive(Drop)]
pub struct WordBus<W> {
    words: W,
}

impl<W> Model for WordBus<W> {
    ghost Value = { W };

    ghost view = { λ b. b.words };
}

impl<W> WordBus<W> {
    /// A bus that reaches these words.
    pub fn over(words: W) -> WordBus<W>
        ensures { result ≡ words }
    {
        WordBus { words }
    }

    /// The words that it reaches.
    pub fn words(&self) -> &W
        ensures { result.now ≡ self.now }
    {
        &self.words
    }
}

/// Reads the word of this number of a run that begins at a place, and writes its bytes.
#[inline(always)]
fn load_word<W: Words>(words: &mut W, first: usize, number: usize, room: &mut [u8])
    requires word { first % 1024 + number < 1024 }
    requires within { first + number < W.size words.old * 1024 }
    requires room { 4 * number + 4 ≤ length room.old }
    ensures read { ReadsFurther W.log W.step_gives (place_at first) number words.old room.old (number + 1) words.new room.new }
    ensures size { W.size words.new ≡ W.size words.old }
    ensures length { length room.new ≡ length room.old }
{
    let word = words.load(first + number);
    put_word(room, number, word);
}

/// Reads eight words of a run from the one of this number on, and writes their bytes.
#[inline(always)]
fn load_eight<W: Words>(words: &mut W, first: usize, number: usize, room: &mut [u8])
    requires words { first % 1024 + number + 8 ≤ 1024 }
    requires within { first + number + 8 ≤ W.size words.old * 1024 }
    requires room { 4 * (number + 8) ≤ length room.old }
    ensures read { ReadsFurther W.log W.step_gives (place_at first) number words.old room.old (number + 8) words.new room.new }
    ensures size { W.size words.new ≡ W.size words.old }
    ensures length { length room.new ≡ length room.old }
{
    for step in 0..8 {
        load_word(words, first, number + step, room);
    }
}

/// Reads a run of words from the one of this number on, eight of them without a test between.
#[inline(always)]
fn load_run<W: Words>(words: &mut W, first: usize, room: &mut [u8])
    requires whole { length room.old % 4 ≡ 0 }
    requires page { first % 1024 + length room.old / 4 ≤ 1024 }
    requires within { first + length room.old / 4 ≤ W.size words.old * 1024 }
    ensures read { ReadsRun W.log W.step_gives (place_at first) words.old room.new words.new }
    ensures size { W.size words.new ≡ W.size words.old }
    ensures length { length room.new ≡ length room.old }
{
    let count = room.len() / 4;
    let mut number = 0;
    while count - number >= 8 {
        load_eight(words, first, number, room);
        number += 8;
    }
    for number in number..count {
        load_word(words, first, number, room);
    }
}

impl<W: Words> Bus for WordBus<W> {
    ghost size = { W.size };

    ghost log = { W.log };

    ghost access_gives = { W.step_gives };

    fn frames(&self) -> u32 {
        self.words.frames()
    }

    fn read(&mut self, at: Place) -> u32 {
        self.words.load(place_of(at))
    }

    // the words are copied, so that a run keeps them in registers
    fn read_run(&mut self, at: Place, room: &mut [u8]) {
        let mut words = self.words;
        load_run(&mut words, place_of(at), room);
        self.words = words;
    }

    fn write(&mut self, at: Place, value: u32) {
        self.words.store(place_of(at), value);
    }

    fn cas(&mut self, at: Place, old: u32, new: u32) -> u32 {
        self.words.exchange(place_of(at), old, new)
    }
}
