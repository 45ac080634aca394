//! What buses answer and tell.

ghost use Rattle.std.specs.Prelude.{◌≤◌};

use crate::bench::{A, B, Log, log, visit};
use std::alloc::Global;
use xen_page::{Access, Bus, Frames, PageBus, Place, Recorder, Rewriter, ScriptBus};

pub(super) fn visited([first, second, third, fourth]: [u32; 4]) -> [Access; 5] {
    [
        Access::Read {
            at: A,
            answer: first,
        },
        Access::Write { at: B, value: 77 },
        Access::Read {
            at: B,
            answer: second,
        },
        Access::Exchange {
            at: B,
            old: 77,
            new: 78,
            found: third,
        },
        Access::Exchange {
            at: B,
            old: 77,
            new: 79,
            found: fourth,
        },
    ]
}

fn shared<T: Sync>(_frames: &T) {}

/// Returns what pages answer: the numbers of frames, what [`visit`] reads, and word `B` through the same bus and another.
fn answers_of_pages(alloc: Global) -> Option<([u32; 2], [u32; 4], [u32; 2])> {
    let frames = Frames::make(alloc, &[0, 1]).ok()?;
    let mut bus = PageBus::of(&frames);
    let counts = [frames.count(), bus.frames()];
    let answers = visit(&mut bus);
    shared(&frames);
    let mut other = PageBus::of(&frames);
    Some((counts, answers, [bus.read(B), other.read(B)]))
}

#[test]
fn pages_keep_what_is_written(rt: HostRuntime) {
    // the second exchange found another word, and both buses reach the same pages
    assert_eq!(rt;
        answers_of_pages(rt.alloc()),
        Some(([2, 2], [0, 77, 77, 78], [78, 78]))
    );
}

/// Returns whether all words of two frames are 0.
fn are_zeros(frames: &Frames) -> bool
    requires { 2 ≤ frames.now }
{
    for frame in 0..2 {
        for word in 0..1024 {
            if PageBus::of(frames).read(Place { frame, word }) != 0 {
                return false;
            }
        }
    }
    true
}

/// Writes another number to each word of two frames.
fn write_numbers(frames: &Frames)
    requires { 2 ≤ frames.now }
{
    for frame in 0..2 {
        for word in 0..1024 {
            PageBus::of(frames).write(Place { frame, word }, 1024 * frame + word);
        }
    }
}

/// Returns whether each word of two frames has the number that [`write_numbers`] writes.
fn have_numbers(frames: &Frames) -> bool
    requires { 2 ≤ frames.now }
{
    for frame in 0..2 {
        for word in 0..1024 {
            if PageBus::of(frames).read(Place { frame, word }) != 1024 * frame + word {
                return false;
            }
        }
    }
    true
}

/// Returns whether new frames have zeros, and then the numbers that are written.
fn fresh_and_written(alloc: Global) -> Option<[bool; 2]> {
    let frames = Frames::make(alloc, &[1, 1]).ok()?;
    let fresh = are_zeros(&frames);
    write_numbers(&frames);
    Some([fresh, have_numbers(&frames)])
}

#[test]
fn all_words_are_0_at_first_and_each_is_its_own(rt: HostRuntime) {
    assert_eq!(rt; fresh_and_written(rt.alloc()), Some([true, true]));
}

/// Returns what [`visit`] reads of a script, whether its log is full then, the log, and the number of frames.
fn answers_of_script(
    alloc: Global,
    script: &[u32],
    cap: usize,
) -> Option<([u32; 4], bool, Log, u32)> {
    let mut bus = ScriptBus::make(alloc, 2, script, cap).ok()?;
    let answers = visit(&mut bus);
    Some((answers, bus.full(), log(bus.accesses()), bus.frames()))
}

#[test]
fn a_script_answers_in_order_and_then_0(rt: HostRuntime) {
    let answers = [4, 5, 6, 0];
    assert_eq!(rt;
        answers_of_script(rt.alloc(), &[4, 5, 6], 5),
        Some((answers, false, log(&visited(answers)), 2))
    );
}

#[test]
fn a_full_script_answers_on(rt: HostRuntime) {
    let answers = [4, 5, 6, 7];
    assert_eq!(rt;
        answers_of_script(rt.alloc(), &[4, 5, 6, 7], 2),
        Some((answers, true, log(&visited(answers)[..2]), 2))
    );
}

/// Returns what [`visit`] reads of pages through a recorder of five accesses, whether it is full then, and its log; word `B` after
/// that, whether it is full then, and its log; and the number of frames.
fn recorded_pages(alloc: Global) -> Option<([u32; 4], (bool, Log), u32, (bool, Log), u32)> {
    let frames = Frames::make(alloc, &[0, 1]).ok()?;
    let mut bus = Recorder::make(alloc, PageBus::of(&frames), 5).ok()?;
    let count = bus.frames();
    let answers = visit(&mut bus);
    let before = (bus.full(), log(bus.accesses()));
    let word = bus.read(B);
    Some((
        answers,
        before,
        word,
        (bus.full(), log(bus.accesses())),
        count,
    ))
}

#[test]
fn a_recorder_tells_what_pages_answered(rt: HostRuntime) {
    let answers = [0, 77, 77, 78];
    let told = log(&visited(answers));
    // a sixth access is left out
    assert_eq!(rt;
        recorded_pages(rt.alloc()),
        Some((answers, (false, told), 78, (true, told), 2))
    );
}

/// Returns what [`visit`] reads of a script through a recorder of one access, whether it is full then, its log, and the number of
/// frames.
fn recorded_script(alloc: Global, script: &[u32]) -> Option<([u32; 4], bool, Log, u32)> {
    let script = ScriptBus::make(alloc, 2, script, 0).ok()?;
    let mut bus = Recorder::make(alloc, script, 1).ok()?;
    let count = bus.frames();
    let answers = visit(&mut bus);
    Some((answers, bus.full(), log(bus.accesses()), count))
}

#[test]
fn a_recorder_of_a_script_keeps_the_first(rt: HostRuntime) {
    let answers = [9, 8, 0, 0];
    assert_eq!(rt;
        recorded_script(rt.alloc(), &[9, 8]),
        Some((answers, true, log(&visited(answers)[..1]), 2))
    );
}

/// The writes of a rewriter.
const WRITES: [(u32, Place, u32); 6] = [
    (3, B, 9),
    (0, A, 4),
    (2, B, 5),
    (3, B, 77),
    (2, A, 1),
    (5, A, 3),
];

/// Returns what [`visit`] reads of pages that are rewritten, the log, whether the log's answers are what was read, word `A` then,
/// and the number of frames.
fn rewritten_pages(alloc: Global) -> Option<([u32; 4], Log, bool, u32, u32)> {
    let frames = Frames::make(alloc, &[0, 1]).ok()?;
    let rewriter = Rewriter::make(PageBus::of(&frames), &WRITES);
    let mut bus = Recorder::make(alloc, rewriter, 6).ok()?;
    let count = bus.frames();
    let read = visit(&mut bus);
    let accesses = log(bus.accesses());
    let answers = bus.answers(alloc).ok()?;
    let is_told = answers.as_slice() == read.as_slice();
    Some((read, accesses, is_told, bus.read(A), count))
}

#[test]
fn a_rewriter_writes_before_the_accesses_of_its_list(rt: HostRuntime) {
    // 9 was overwritten before the exchange; no write of the list is told; and a write has no answer
    let answers = [4, 5, 77, 78];
    assert_eq!(rt;
        rewritten_pages(rt.alloc()),
        Some((answers, log(&visited(answers)), true, 3, 2))
    );
}

/// Word `A` twice of a rewriter that is at the last number, and twice after it was written.
fn read_at_the_last_number(alloc: Global) -> Option<([u32; 2], [u32; 2])> {
    let frames = Frames::make(alloc, &[0, 1]).ok()?;
    let writes = [(u32::MAX, A, 4), (0, A, 5)];
    let mut bus = Rewriter::numbered_from(PageBus::of(&frames), &writes, u32::MAX);
    let first = [bus.read(A), bus.read(A)];
    bus.write(A, 6);
    Some((first, [bus.read(A), bus.read(A)]))
}

#[test]
fn a_rewriter_stops_after_the_last_number(rt: HostRuntime) {
    // the numbers don't begin again, and the accesses after it have none
    assert_eq!(rt; read_at_the_last_number(rt.alloc()), Some(([4, 4], [6, 6])));
}
