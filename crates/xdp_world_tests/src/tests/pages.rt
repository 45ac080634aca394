//! Turns over pages that are rewritten between their accesses, driven, driven again from a script, and replayed.
ghost use Rattle.std.specs.Prelude.{◌≡◌, length};
ghost use Rattle.xen_back.specs.Queues.{IsReady, wiring_of};

use super::kind::{Kind, kind_of};
use crate::memory::{FRAMES, Memory, seated};
use bpf_verify::Verified;
use bpf_vm::Buffer;
use std::alloc::{AllocError, Global};
use xdp_world::{Kept, replay};
use xen_back::{Answer, Queue, Turn, Want};
use xen_page::{Access, Bus, Frames, PageBus, Place, Recorder, Rewriter, ScriptBus};
use xen_ring::Ports;

/// A write of the frontend: the number of the access before which it comes, the place, the word.
pub(crate) type Rewrite = (u32, Place, u32);

/// The most accesses that a turn makes, and the most notices that it sends.
const MAX_ACCESSES: usize = 33_026;

const MAX_NOTICES: u32 = 2;

/// The tx ring, the rx ring, the first frame of the grant table and the frame of buffer 0.
pub(crate) const TX: u32 = 17;

pub(crate) const RX: u32 = 18;

pub(crate) const TABLE: u32 = 1;

pub(crate) const BUFFER: u32 = 19;

/// The parts that turns of one queue need: its frames' owners, its pages, its program, and where its rings begin.
#[derive(Drop)]
pub(crate) struct Bench<'p> {
    pub memory: &'p Memory,
    pub frames: &'p Frames,
    pub program: &'p Verified,
    pub start: u32,
}

/// A turn over pages, its accesses and their answers.
#[derive(Drop)]
struct Seen {
    turn: Kept,
    accesses: Vec<Access>,
    answers: Vec<u32>,
}

/// Writes words into the pages.
pub(crate) fn fill(frames: &Frames, words: &[(u32, u32, u32)]) {
    for (frame, word, value) in words {
        let mut pages = PageBus::of(frames);
        if *frame < pages.frames() && *word < 1024 {
            pages.write(
                Place {
                    frame: *frame,
                    word: *word,
                },
                *value,
            );
        }
    }
}

/// Makes a word of the pages 0.
fn clear_word(frames: &Frames, at: Place) {
    let mut pages = PageBus::of(frames);
    if at.frame < pages.frames() && at.word < 1024 {
        pages.write(at, 0);
    }
}

/// Makes the words 0 again that a turn may have changed.
fn clear(frames: &Frames, accesses: &[Access], writes: &[Rewrite]) {
    for access in accesses {
        if let Access::Write { at, .. } = access {
            clear_word(frames, *at);
        }
    }
    for (_, at, _) in writes {
        clear_word(frames, *at);
    }
}

fn kept_of(alloc: Global, turn: &Turn) -> Result<Kept, AllocError> {
    Ok(match turn {
        Turn::Idle => Kept::Idle,
        Turn::Ran {
            action,
            number,
            packet,
            ops,
            slots,
        } => Kept::Ran {
            action: *action,
            number: *number,
            packet: Vec::from_slice(alloc, packet)?,
            ops: *ops,
            slots: *slots,
        },
        Turn::Refused { cause, ops, slots } => Kept::Refused {
            cause: *cause,
            ops: *ops,
            slots: *slots,
        },
        Turn::Halted { cause } => Kept::Halted { cause: *cause },
    })
}

/// One turn of a queue over a bus.
fn driven_turn<B: Bus>(
    alloc: Global,
    queue: &mut Queue,
    program: &Verified,
    bus: &mut B,
) -> Option<Kept>
    requires ready { IsReady queue.old }
    requires size { B.size bus.old ≡ length (wiring_of queue.old).vif.owners.now }
    requires program { (wiring_of queue.old).program.now.shapes ≡ program.now.shapes }
{
    let (counters, mut seat) = seated(alloc, program.shapes())?;
    let ports = Ports::new();
    let turn = queue.drive_turn(bus, &counters, &mut seat, &ports);
    kept_of(alloc, &turn).ok()
}

/// One turn of a fresh queue over a bus.
fn driven<B: Bus>(alloc: Global, bench: &Bench, buffer: &mut Buffer, bus: &mut B) -> Option<Kept>
    requires { B.size bus.old ≡ 531 }
{
    let mut queue = bench
        .memory
        .queue(alloc, bench.program, bench.start, buffer)?;
    driven_turn(alloc, &mut queue, bench.program, bus)
}

/// A turn over a bus that is recorded.
fn recorded<B: Bus>(
    alloc: Global,
    bench: &Bench,
    buffer: &mut Buffer,
    bus: &mut Recorder<B>,
) -> Option<Seen>
    requires { B.size bus.old.bus ≡ 531 }
{
    let turn = driven(alloc, bench, buffer, bus)?;
    if bus.full() {
        return None;
    }
    match (Vec::from_slice(alloc, bus.accesses()), bus.answers(alloc)) {
        (Ok(accesses), Ok(answers)) => Some(Seen {
            turn,
            accesses,
            answers,
        }),
        _ => None,
    }
}

/// A turn over pages that are rewritten, with its answers.
fn over_pages(
    alloc: Global,
    bench: &Bench,
    buffer: &mut Buffer,
    writes: &[Rewrite],
) -> Option<Seen> {
    let pages = PageBus::of(bench.frames);
    let count = pages.frames();
    let are_within = writes
        .iter()
        .all(|write| write.1.frame < count && write.1.word < 1024);
    if count != FRAMES || !are_within {
        return None;
    }
    match Recorder::make(alloc, Rewriter::make(pages, writes), MAX_ACCESSES) {
        Ok(mut bus) => recorded(alloc, bench, buffer, &mut bus),
        Err(_) => None,
    }
}

/// Returns how a turn over a script of its answers differs, if it does.
fn script_difference(
    alloc: Global,
    bench: &Bench,
    buffer: &mut Buffer,
    seen: &Seen,
) -> Option<&'static str> {
    let script = ScriptBus::make(alloc, FRAMES, seen.answers.as_slice(), MAX_ACCESSES);
    let Ok(mut bus) = script else {
        return Some("no script");
    };
    match driven(alloc, bench, buffer, &mut bus) {
        Some(turn) if turn != seen.turn => Some("the script's turn"),
        Some(_) if bus.accesses() != seen.accesses.as_slice() => Some("the script's accesses"),
        Some(_) => None,
        None => Some("no turn of the script"),
    }
}

/// Returns the number of notices that a queue sends until its turn is over. Each counter holds 0.
fn notices_of(queue: &mut Queue, answers: &[u32]) -> Option<u32> {
    let mut given = answers.iter();
    let mut sent = 0u32;
    for _event in 0..100_000u32 {
        match queue.wanted() {
            Want::Read(_) => queue.feed(Answer::Word(given.next().copied().unwrap_or(0))),
            Want::Load { .. } | Want::Add { .. } => queue.feed(Answer::Counter(0)),
            Want::Write(..) => queue.feed(Answer::Nothing),
            Want::Instr => queue.feed(Answer::Nothing),
            Want::Notify(_) => {
                sent = sent.saturating_add(1);
                queue.feed(Answer::Nothing);
            }
            Want::Done => return Some(sent),
        }
    }
    None
}

/// Returns the number of notices that a turn sends, by hand.
fn notices(alloc: Global, bench: &Bench, buffer: &mut Buffer, answers: &[u32]) -> Option<u32> {
    let mut queue = bench
        .memory
        .queue(alloc, bench.program, bench.start, buffer)?;
    notices_of(&mut queue, answers)
}

/// Returns whether a replay of these answers gives this turn and no other.
fn is_replayed(alloc: Global, bench: &Bench, answers: &[u32], kept: &Kept) -> bool {
    let Ok(report) = replay(alloc, bench.program, 1, 0, bench.start, 0, answers) else {
        return false;
    };
    match report.turns.first().map(|turns| turns.as_slice()) {
        Some([one]) => *one == *kept,
        _ => false,
    }
}

/// Returns how the ways to a turn differ, if they do.
fn difference(
    alloc: Global,
    bench: &Bench,
    buffer: &mut Buffer,
    seen: &Seen,
) -> Option<&'static str> {
    let difference = script_difference(alloc, bench, buffer, seen);
    if difference.is_some() {
        return difference;
    }
    let answers = seen.answers.as_slice();
    match notices(alloc, bench, buffer, answers) {
        Some(0..=MAX_NOTICES) if is_replayed(alloc, bench, answers, &seen.turn) => None,
        Some(0..=MAX_NOTICES) => Some("the replay's turn"),
        _ => Some("the number of notices"),
    }
}

/// A turn over pages that are rewritten, driven again from a script of its answers, and replayed: what it comes to and how
/// many accesses it makes, or how the ways to it differ.
pub(crate) fn agreed(
    alloc: Global,
    bench: &Bench,
    buffer: &mut Buffer,
    writes: &[Rewrite],
) -> Result<(Kind, usize), &'static str> {
    let Some(seen) = over_pages(alloc, bench, buffer, writes) else {
        return Err("no turn over pages");
    };
    let difference = difference(alloc, bench, buffer, &seen);
    clear(bench.frames, seen.accesses.as_slice(), writes);
    match difference {
        Some(difference) => Err(difference),
        None => Ok((kind_of(&seen.turn), seen.accesses.len())),
    }
}
