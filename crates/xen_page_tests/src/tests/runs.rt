//! Runs of words, beside as many single reads.

ghost use Rattle.std.specs.Prelude.{◌≡◌, ◌≤◌};

use crate::bench::{Log, MOST, log};
use std::alloc::Global;
use xen_page::{Access, Bus, Frames, PageBus, Place, Recorder, Rewriter, ScriptBus};

/// The first of the last nine words of a page: eight, and one after them.
const NINE: Place = Place {
    frame: 1,
    word: 1015,
};

/// The first of the last three words of a page.
const THREE: Place = Place {
    frame: 1,
    word: 1021,
};

/// The bytes of the nine words.
const BYTES: [u8; 36] = [
    0, 1, 2, 3, 4, 5, 6, 7, 8, 9, 10, 11, 12, 13, 14, 15, 16, 17, 18, 19, 20, 21, 22, 23, 24, 25,
    26, 27, 28, 29, 30, 31, 32, 33, 34, 35,
];

/// Two frames, of which the second has those words.
fn frames(alloc: Global) -> Option<Frames> {
    let frames = Frames::make(alloc, &[0, 1]).ok()?;
    if frames.count() < 2 {
        return None;
    }
    for number in 0..9 {
        let at = Place {
            frame: 1,
            word: 1015 + number,
        };
        PageBus::of(&frames).write(at, 0x0302_0100 + 0x0404_0404 * number);
    }
    Some(frames)
}

/// Returns what a run of the nine words reads.
fn nine_by_run<T: Bus>(bus: &mut T) -> [u8; 36]
    requires { 2 ≤ T.size bus.old }
{
    let mut bytes = [0; 36];
    bus.read_run(NINE, &mut bytes);
    bytes
}

/// Returns what a run of the three words reads.
fn three_by_run<T: Bus>(bus: &mut T) -> [u8; 12]
    requires { 2 ≤ T.size bus.old }
    ensures { T.size bus.new ≡ T.size bus.old }
{
    let mut bytes = [0; 12];
    bus.read_run(THREE, &mut bytes);
    bytes
}

/// Returns what single reads of the three words read.
fn three_by_reads<T: Bus>(bus: &mut T) -> [u8; 12]
    requires { 2 ≤ T.size bus.old }
    ensures { T.size bus.new ≡ T.size bus.old }
{
    let [a, b, c, d] = bus.read(THREE).to_le_bytes();
    let [e, f, g, h] = bus.read(THREE.next()).to_le_bytes();
    let [i, j, k, l] = bus.read(THREE.next().next()).to_le_bytes();
    [a, b, c, d, e, f, g, h, i, j, k, l]
}

/// A run of no words.
fn none_by_run<T: Bus>(bus: &mut T)
    requires { 2 ≤ T.size bus.old }
{
    bus.read_run(THREE, &mut []);
}

/// The reads of the three words, which answer so.
fn reads([first, second, third]: [u32; 3]) -> Log {
    log(&[
        Access::Read {
            at: THREE,
            answer: first,
        },
        Access::Read {
            at: THREE.next(),
            answer: second,
        },
        Access::Read {
            at: THREE.next().next(),
            answer: third,
        },
    ])
}

/// Returns what pages' runs of nine and of three words read, and what single reads do.
fn read_of_pages(alloc: Global) -> Option<([u8; 36], [u8; 12], [u8; 12])> {
    let frames = frames(alloc)?;
    if frames.count() < 2 {
        return None;
    }
    let mut bus = PageBus::of(&frames);
    let three = three_by_run(&mut bus);
    let singly = three_by_reads(&mut bus);
    Some((nine_by_run(&mut bus), three, singly))
}

#[test]
fn a_run_over_pages_reads_what_single_reads_do(rt: HostRuntime) {
    let three = [24, 25, 26, 27, 28, 29, 30, 31, 32, 33, 34, 35];
    assert_eq!(rt; read_of_pages(rt.alloc()), Some((BYTES, three, three)));
}

/// Returns what a run of the three words reads of a recorder of pages, and its log; and the same of single reads.
fn recorded_of_pages(alloc: Global) -> Option<[([u8; 12], bool, Log); 2]> {
    let frames = frames(alloc)?;
    if frames.count() < 2 {
        return None;
    }
    let mut run = Recorder::make(alloc, PageBus::of(&frames), 3).ok()?;
    let by_run = three_by_run(&mut run);
    let mut singly = Recorder::make(alloc, PageBus::of(&frames), 3).ok()?;
    let by_reads = three_by_reads(&mut singly);
    Some([
        (by_run, run.full(), log(run.accesses())),
        (by_reads, singly.full(), log(singly.accesses())),
    ])
}

#[test]
fn a_recorder_tells_each_read_of_a_run(rt: HostRuntime) {
    let three = [24, 25, 26, 27, 28, 29, 30, 31, 32, 33, 34, 35];
    let told = reads([0x1b1a_1918, 0x1f1e_1d1c, 0x2322_2120]);
    assert_eq!(rt;
        recorded_of_pages(rt.alloc()),
        Some([(three, false, told); 2])
    );
}

/// Returns what a run of the three words reads of a script, whether its log is full then, and the log.
fn run_of_script(alloc: Global, script: &[u32], cap: usize) -> Option<([u8; 12], bool, Log)> {
    let mut bus = ScriptBus::make(alloc, 2, script, cap).ok()?;
    let bytes = three_by_run(&mut bus);
    Some((bytes, bus.full(), log(bus.accesses())))
}

#[test]
fn a_script_answers_each_read_of_a_run(rt: HostRuntime) {
    let script = [0x0403_0201, 0x0807_0605];
    let bytes = [1, 2, 3, 4, 5, 6, 7, 8, 0, 0, 0, 0];
    let told = reads([0x0403_0201, 0x0807_0605, 0]);
    assert_eq!(rt;
        run_of_script(rt.alloc(), &script, 3),
        Some((bytes, false, told))
    );
}

#[test]
fn a_run_goes_on_where_the_log_is_full(rt: HostRuntime) {
    let script = [0x0403_0201, 0x0807_0605, 0x0c0b_0a09];
    let bytes = [1, 2, 3, 4, 5, 6, 7, 8, 9, 10, 11, 12];
    let mut first = reads(script);
    first[1] = None;
    first[2] = None;
    assert_eq!(rt;
        run_of_script(rt.alloc(), &script, 1),
        Some((bytes, true, first))
    );
}

/// Writes in a run of the three words: to the first once it is read, and to the third before that.
const WRITES: [(u32, Place, u32); 2] = [
    (1, THREE, 0xffff_ffff),
    (
        1,
        Place {
            frame: 1,
            word: 1023,
        },
        0x0d0e_0f10,
    ),
];

/// Returns what a run of the three words reads of pages that are rewritten in it, and its log; then what single reads do.
fn rewritten_in_a_run(alloc: Global) -> Option<([u8; 12], Log, [u8; 12])> {
    let frames = frames(alloc)?;
    if frames.count() < 2 {
        return None;
    }
    let rewriter = Rewriter::make(PageBus::of(&frames), &WRITES);
    let mut bus = Recorder::make(alloc, rewriter, 3).ok()?;
    let by_run = three_by_run(&mut bus);
    let told = log(bus.accesses());
    Some((by_run, told, three_by_reads(&mut bus)))
}

#[test]
fn a_run_reads_what_is_written_before_each_word(rt: HostRuntime) {
    let by_run = [24, 25, 26, 27, 28, 29, 30, 31, 0x10, 0x0f, 0x0e, 0x0d];
    let told = reads([0x1b1a_1918, 0x1f1e_1d1c, 0x0d0e_0f10]);
    let then = [255, 255, 255, 255, 28, 29, 30, 31, 0x10, 0x0f, 0x0e, 0x0d];
    assert_eq!(rt; rewritten_in_a_run(rt.alloc()), Some((by_run, told, then)));
}

/// Returns whether a run of no words reads nothing of a script, and leaves its answers.
fn nothing_read(alloc: Global) -> Option<(bool, Log, u32)> {
    let mut bus = ScriptBus::make(alloc, 2, &[7], 3).ok()?;
    none_by_run(&mut bus);
    let told = log(bus.accesses());
    let word = if bus.frames() == 2 {
        bus.read(THREE)
    } else {
        0
    };
    Some((bus.full(), told, word))
}

#[test]
fn a_run_of_no_words_reads_nothing(rt: HostRuntime) {
    assert_eq!(rt; nothing_read(rt.alloc()), Some((false, [None; MOST], 7)));
}

/// The bytes of the three words that are written.
const WRITTEN: [u8; 12] = [1, 2, 3, 4, 5, 6, 7, 8, 9, 10, 11, 12];

/// Writes the three words by a run.
fn write_by_run<T: Bus>(bus: &mut T)
    requires { 2 ≤ T.size bus.old }
    ensures { T.size bus.new ≡ T.size bus.old }
{
    bus.write_run(THREE, &WRITTEN);
}

/// A run of no words is written.
fn write_none<T: Bus>(bus: &mut T)
    requires { 2 ≤ T.size bus.old }
{
    bus.write_run(THREE, &[]);
}

/// The writes of the three words.
fn writes() -> Log {
    log(&[
        Access::Write {
            at: THREE,
            value: 0x0403_0201,
        },
        Access::Write {
            at: THREE.next(),
            value: 0x0807_0605,
        },
        Access::Write {
            at: THREE.next().next(),
            value: 0x0c0b_0a09,
        },
    ])
}

/// The word before the three, and the three, after a run over pages.
fn written_to_pages(alloc: Global) -> Option<(u32, [u8; 12])> {
    let frames = frames(alloc)?;
    if frames.count() < 2 {
        return None;
    }
    let mut bus = PageBus::of(&frames);
    write_by_run(&mut bus);
    let before = bus.read(Place {
        frame: 1,
        word: 1020,
    });
    Some((before, three_by_reads(&mut bus)))
}

#[test]
fn a_run_over_pages_is_written(rt: HostRuntime) {
    assert_eq!(rt; written_to_pages(rt.alloc()), Some((0x1716_1514, WRITTEN)));
}

/// The log of a run that a script with room for `cap` accesses is written, and whether it is full.
fn written_to_script(alloc: Global, cap: usize) -> Option<(bool, Log)> {
    let mut bus = ScriptBus::make(alloc, 2, &[], cap).ok()?;
    write_by_run(&mut bus);
    Some((bus.full(), log(bus.accesses())))
}

#[test]
fn a_script_tells_each_write_of_a_run(rt: HostRuntime) {
    assert_eq!(rt; written_to_script(rt.alloc(), 3), Some((false, writes())));
    let mut first = writes();
    first[2] = None;
    assert_eq!(rt; written_to_script(rt.alloc(), 2), Some((true, first)));
}

/// Returns what a run leaves that is written to pages which are rewritten in it, and its log.
fn written_and_rewritten(alloc: Global) -> Option<([u8; 12], Log)> {
    let frames = frames(alloc)?;
    if frames.count() < 2 {
        return None;
    }
    let rewriter = Rewriter::make(PageBus::of(&frames), &WRITES);
    let mut bus = Recorder::make(alloc, rewriter, 3).ok()?;
    write_by_run(&mut bus);
    let told = log(bus.accesses());
    Some((three_by_reads(&mut bus), told))
}

#[test]
fn a_run_is_written_word_by_word(rt: HostRuntime) {
    // the first word is rewritten once it was written, and the third before that
    let left = [255, 255, 255, 255, 5, 6, 7, 8, 9, 10, 11, 12];
    assert_eq!(rt; written_and_rewritten(rt.alloc()), Some((left, writes())));
}

/// The log of a run of no words.
fn none_written(alloc: Global) -> Option<(bool, Log)> {
    let mut bus = ScriptBus::make(alloc, 2, &[], 3).ok()?;
    write_none(&mut bus);
    Some((bus.full(), log(bus.accesses())))
}

#[test]
fn a_run_of_no_words_writes_nothing(rt: HostRuntime) {
    assert_eq!(rt; none_written(rt.alloc()), Some((false, [None; MOST])));
}
