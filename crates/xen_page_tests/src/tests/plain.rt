//! What a bus over plain words answers, and what it leaves.

ghost use Rattle.std.specs.Prelude.{◌/◌};

use crate::bench::{A, B, visit};
use xen_page::{Bus, Place, PlainBus};

/// The words of two frames, each of which holds its own number.
fn numbered() -> [u32; 2048] {
    let mut words = [0; 2048];
    for number in 0..2048 {
        words[number] = number as u32;
    }
    words
}

/// The words that don't hold their own number, up to three, with their numbers.
fn changed(words: &[u32]) -> [Option<(usize, u32)>; 3] {
    let mut found = [None; 3];
    let others = words
        .iter()
        .enumerate()
        .filter(|(number, word)| **word as usize != *number);
    for (kept, (number, word)) in found.iter_mut().zip(others) {
        *kept = Some((number, *word));
    }
    found
}

/// The number of frames, what [`visit`] reads, and the words that it changed.
fn visited() -> (u32, [u32; 4], [Option<(usize, u32)>; 3]) {
    let mut words = numbered();
    let mut bus = PlainBus::of(&mut words);
    let count = bus.frames();
    let answers = visit(&mut bus);
    (count, answers, changed(bus.words()))
}

#[test]
fn plain_words_keep_what_is_written(rt: HostRuntime) {
    // the second exchange found another word, and no word but the last was changed
    assert_eq!(rt;
        visited(),
        (2, [5, 77, 77, 78], [Some((2047, 78)), None, None])
    );
}

/// The bytes of three words.
const BYTES: [u8; 12] = [24, 25, 26, 27, 28, 29, 30, 31, 32, 33, 34, 35];

/// Returns what a run writes to the last three words of the first frame, and what a run reads there.
fn run_written() -> ([Option<(usize, u32)>; 3], [u8; 12], u32) {
    let mut words = numbered();
    let mut bus = PlainBus::of(&mut words);
    let at = Place {
        frame: 0,
        word: 1021,
    };
    bus.write_run(at, &BYTES);
    let mut read = [0; 12];
    bus.read_run(at, &mut read);
    let behind = bus.read(Place { frame: 1, word: 0 });
    (changed(bus.into_words()), read, behind)
}

#[test]
fn a_run_over_plain_words_writes_no_other(rt: HostRuntime) {
    let written = [
        Some((1021, 0x1b1a_1918)),
        Some((1022, 0x1f1e_1d1c)),
        Some((1023, 0x2322_2120)),
    ];
    assert_eq!(rt; run_written(), (written, BYTES, 1024));
}

/// Returns what two writes and a failed exchange leave.
fn written_twice() -> (u32, [Option<(usize, u32)>; 3]) {
    let mut words = numbered();
    let mut bus = PlainBus::of(&mut words);
    bus.write(A, 9);
    bus.write(A, 10);
    bus.write(B, 4_294_967_295);
    let found = bus.cas(A, 9, 8);
    (found, changed(bus.words()))
}

#[test]
fn the_last_write_counts(rt: HostRuntime) {
    let left = [Some((5, 10)), Some((2047, 4_294_967_295)), None];
    assert_eq!(rt; written_twice(), (10, left));
}
