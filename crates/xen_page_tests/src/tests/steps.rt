//! Which steps of words a bus makes: how often, and in which order.

ghost use Rattle.std.specs.Prelude.{◌≡◌, ◌≤◌};

use crate::bench::{Log, log, visit};
use crate::tests::buses::visited;
use std::alloc::Global;
use xen_page::{Access, Bus, Frames, Place, SharedWords, WordBus, WordRecorder, Words};

/// The first of the last eleven words of a page: eight, and three after them.
const ELEVEN: Place = Place {
    frame: 1,
    word: 1013,
};

/// The kind of a step, its word, and the number that it read or wrote.
type Step = (char, u32, u32);

/// The steps of a log of at most eleven, and nothing after them.
type Steps = [Option<Step>; 12];

const READ: Steps = [
    Some(('r', 1013, 0x0302_0100)),
    Some(('r', 1014, 0x0706_0504)),
    Some(('r', 1015, 0x0b0a_0908)),
    Some(('r', 1016, 0x0f0e_0d0c)),
    Some(('r', 1017, 0x1312_1110)),
    Some(('r', 1018, 0x1716_1514)),
    Some(('r', 1019, 0x1b1a_1918)),
    Some(('r', 1020, 0x1f1e_1d1c)),
    Some(('r', 1021, 0x2322_2120)),
    Some(('r', 1022, 0x2726_2524)),
    Some(('r', 1023, 0x2b2a_2928)),
    None,
];

const WRITTEN: Steps = [
    Some(('w', 1013, 0x0302_0100)),
    Some(('w', 1014, 0x0706_0504)),
    Some(('w', 1015, 0x0b0a_0908)),
    Some(('w', 1016, 0x0f0e_0d0c)),
    Some(('w', 1017, 0x1312_1110)),
    Some(('w', 1018, 0x1716_1514)),
    Some(('w', 1019, 0x1b1a_1918)),
    Some(('w', 1020, 0x1f1e_1d1c)),
    Some(('w', 1021, 0x2322_2120)),
    Some(('w', 1022, 0x2726_2524)),
    Some(('w', 1023, 0x2b2a_2928)),
    None,
];

/// The bytes of the eleven words.
const BYTES: [u8; 44] = [
    0, 1, 2, 3, 4, 5, 6, 7, 8, 9, 10, 11, 12, 13, 14, 15, 16, 17, 18, 19, 20, 21, 22, 23, 24, 25,
    26, 27, 28, 29, 30, 31, 32, 33, 34, 35, 36, 37, 38, 39, 40, 41, 42, 43,
];

fn step(access: &Access) -> Step {
    match access {
        Access::Read { at, answer } => ('r', at.word, *answer),
        Access::Write { at, value } => ('w', at.word, *value),
        Access::Exchange { at, found, .. } => ('x', at.word, *found),
    }
}

fn steps(accesses: &[Access]) -> Steps {
    let mut first = [None; 12];
    for (kept, access) in first.iter_mut().zip(accesses) {
        *kept = Some(step(access));
    }
    first
}

/// The steps of a run that is written to new pages, and those of one that reads them then, with its bytes.
fn written_and_read(alloc: Global) -> Option<(Steps, Steps, [u8; 44])> {
    let frames = Frames::make(alloc, &[0, 1]).ok()?;
    if frames.count() < 2 {
        return None;
    }
    let mut bus = WordBus::over(WordRecorder::make(SharedWords::of(&frames)));
    bus.write_run(ELEVEN, &BYTES);
    let written = steps(bus.words().steps());
    let mut bus = WordBus::over(WordRecorder::make(SharedWords::of(&frames)));
    let mut bytes = [0; 44];
    bus.read_run(ELEVEN, &mut bytes);
    Some((written, steps(bus.words().steps()), bytes))
}

#[test]
fn a_run_makes_one_step_for_each_word_in_rising_order(rt: HostRuntime) {
    assert_eq!(rt; written_and_read(rt.alloc()), Some((WRITTEN, READ, BYTES)));
}

/// Returns what [`visit`] reads of new pages, the steps that it makes, and the number of frames.
fn visited_by_steps(alloc: Global) -> Option<([u32; 4], Log, u32)> {
    let frames = Frames::make(alloc, &[0, 1]).ok()?;
    let words = WordRecorder::make(SharedWords::of(&frames));
    let count = words.frames();
    let mut bus = WordBus::over(words);
    if bus.frames() < 2 {
        return None;
    }
    let answers = visit(&mut bus);
    Some((answers, log(bus.words().steps()), count))
}

#[test]
fn an_access_is_one_step(rt: HostRuntime) {
    let answers = [0, 77, 77, 78];
    let told = log(&visited(answers));
    assert_eq!(rt; visited_by_steps(rt.alloc()), Some((answers, told, 2)));
}

/// Returns the number of steps that are kept of two runs of eleven words, whether one was left out, and the bytes that the second
/// run reads.
fn left_out(alloc: Global) -> Option<(usize, bool, [u8; 44])> {
    let frames = Frames::make(alloc, &[0, 1]).ok()?;
    if frames.count() < 2 {
        return None;
    }
    let mut bus = WordBus::over(WordRecorder::make(SharedWords::of(&frames)));
    bus.write_run(ELEVEN, &BYTES);
    let mut bytes = [0; 44];
    bus.read_run(ELEVEN, &mut bytes);
    let words = bus.words();
    Some((words.steps().len(), words.full(), bytes))
}

#[test]
fn steps_go_on_where_sixteen_are_kept(rt: HostRuntime) {
    assert_eq!(rt; left_out(rt.alloc()), Some((16, true, BYTES)));
}
