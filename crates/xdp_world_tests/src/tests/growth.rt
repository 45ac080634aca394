//! Worlds, steps and replays, asked for again after they were refused memory. `tools/gate/refuse-growths` refuses each
//! allocation of these tests in turn, and counts the runs that print `refused`.
ghost use Rattle.std.specs.Prelude.{◌≡◌, ◌<◌, ◌≤◌, IfOk, length, vec_len};

use super::programs::{accepted_bytes, buffers};
use bpf_maps::Op;
use bpf_verify::Verified;
use bpf_vm::Buffer;
use std::alloc::{AllocError, Global};
use std::test::Fail;
use xdp_world::{Layout, Report, World, replay};
use xen_page::Frames;

/// A turn of one packet, which is counted, and then a producer beyond the ring.
#[rattlefmt::skip]
const STEPS: [(usize, u32); 24] = [
    // The producer, the slot, the grant and the page.
    (0, 1), (0, 2), (0, 0), (0, 917_511), (0, 1), (0, 19),
    (0, 50_462_976), (0, 117_835_012), (0, 185_207_048), (0, 252_579_084),
    // The program, the response and the event index.
    (0, 0), (0, 0), (0, 0), (0, 0), (0, 0), (0, 0), (0, 0), (0, 0), (0, 0), (0, 0), (0, 0), (0, 0), (0, 0),
    (0, 258),
];

/// The words that are read in these steps.
const READS: [u32; 12] = [
    1,
    2,
    0,
    917_511,
    1,
    19,
    50_462_976,
    117_835_012,
    185_207_048,
    252_579_084,
    0,
    258,
];

/// The counter with key 1 grows by 1, and the packet passes.
#[rattlefmt::skip]
const COUNT: [u8; 88] = [
    0x62, 0x0a, 0xfc, 0xff, 1, 0, 0, 0, // *(u32 *)(r10 - 4) = 1
    0xbf, 0xa2, 0, 0, 0, 0, 0, 0, // r2 = r10
    7, 2, 0, 0, 0xfc, 0xff, 0xff, 0xff, // r2 += -4
    0x18, 0x11, 0, 0, 0, 0, 0, 0, // r1 = map 0
    0, 0, 0, 0, 0, 0, 0, 0, // its second slot
    0x85, 0, 0, 0, 1, 0, 0, 0, // call 1
    0x15, 0, 2, 0, 0, 0, 0, 0, // if r0 == 0 goto +2
    0xb7, 1, 0, 0, 1, 0, 0, 0, // r1 = 1
    0xdb, 0x10, 0, 0, 0, 0, 0, 0, // lock *(u64 *)(r0 + 0) += r1
    0xb7, 0, 0, 0, 2, 0, 0, 0, // r0 = 2
    0x95, 0, 0, 0, 0, 0, 0, 0, // exit
];

/// The counting program.
fn counting(alloc: Global) -> Option<Verified> {
    match accepted_bytes(alloc, &COUNT) {
        Some(program) => Some(program),
        None => accepted_bytes(alloc, &COUNT),
    }
}

/// Returns whether one packet was counted, and then the queue halted.
fn is_counted(report: &Report) -> bool {
    let add = Op::Add {
        m: 0,
        k: 1,
        j: 0,
        delta: 1,
        old: 0,
    };
    let turns = report.turns.first().map(|turns| turns.len());
    report.history.as_slice() == [(0, add)].as_slice() && turns == Some(2)
}

/// Returns whether a report shows that, if there is one.
fn counted(report: Result<Report, AllocError>) -> Option<bool> {
    match report {
        Ok(report) => Some(is_counted(&report)),
        Err(_) => None,
    }
}

fn run(alloc: Global, program: &Verified) -> Option<bool> {
    counted(World::run(alloc, program, &[], &[], 1, 0, 0, &STEPS))
}

/// Returns whether a run was refused, and whether it or else another one comes to that.
fn runs(alloc: Global) -> Option<(bool, bool)> {
    let program = counting(alloc)?;
    match run(alloc, &program) {
        Some(counted) => Some((false, counted)),
        None => match run(alloc, &program) {
            Some(counted) => Some((true, counted)),
            None => None,
        },
    }
}

#[test]
fn a_world_is_run_again(rt: HostRuntime) -> Result<(), Fail> {
    let seen = runs(rt.alloc());
    if let Some((true, _)) = seen {
        println!(rt; "refused")?;
    }
    assert!(rt; matches!(seen, Some((_, true))));
    Ok(())
}

fn replayed(alloc: Global, program: &Verified) -> Option<bool> {
    counted(replay(alloc, program, 1, 0, 0, 0, &READS))
}

/// Returns whether a replay was refused, and whether it or else another one comes to that.
fn replays(alloc: Global) -> Option<(bool, bool)> {
    let program = counting(alloc)?;
    match replayed(alloc, &program) {
        Some(counted) => Some((false, counted)),
        None => match replayed(alloc, &program) {
            Some(counted) => Some((true, counted)),
            None => None,
        },
    }
}

#[test]
fn a_replay_is_made_again(rt: HostRuntime) -> Result<(), Fail> {
    let seen = replays(rt.alloc());
    if let Some((true, _)) = seen {
        println!(rt; "refused")?;
    }
    assert!(rt; matches!(seen, Some((_, true))));
    Ok(())
}

/// A step, made again if it was refused. What was refused has to change nothing. Whether it was refused once.
fn step_again(world: &mut World, answer: u32) -> Option<bool>
    requires { 0 < vec_len world.old.queues }
    ensures { vec_len world.new.queues ≡ vec_len world.old.queues }
{
    let before = (world.turns(0).len(), world.history().len());
    if world.step(0, answer).is_ok() {
        return Some(false);
    }
    let after = (world.turns(0).len(), world.history().len());
    match world.step(0, answer) {
        Ok(()) if before == after => Some(true),
        _ => None,
    }
}

/// Makes the steps, each again if it was refused. Whether one was.
fn step_all(world: &mut World) -> Option<bool>
    requires { 0 < vec_len world.old.queues }
{
    let mut refused = false;
    for (_, answer) in STEPS {
        match step_again(world, answer) {
            Some(again) => refused = refused || again,
            None => return None,
        }
    }
    Some(refused)
}

/// Returns whether a step was refused, and whether the steps came to one packet that was counted. None if no world is made, or a
/// step is refused twice.
fn stepped(
    alloc: Global,
    layout: &Layout,
    buffers: &mut [Buffer],
    program: &Verified,
) -> Option<(bool, bool)>
    requires layout { layout.now.queues ≡ 1 }
    requires buffers { 1 ≤ length buffers.now }
{
    let Ok(mut world) = World::make(alloc, layout, program, &[], &[], buffers, 1, 0, 0) else {
        return None;
    };
    match step_all(&mut world) {
        Some(refused) => Some((refused, is_counted(&world.report()))),
        None => None,
    }
}

fn layout(alloc: Global) -> Result<Layout, AllocError>
    ensures { IfOk result (λ layout. layout.queues ≡ 1) }
{
    match Layout::make(alloc, 1) {
        Ok(layout) => Ok(layout),
        Err(_) => Layout::make(alloc, 1),
    }
}

/// A buffer for the queue.
fn buffer(alloc: Global) -> Result<Vec<Buffer>, AllocError>
    ensures { IfOk result (λ buffers. vec_len buffers ≡ 1) }
{
    match buffers(alloc, 1) {
        Ok(buffers) => Ok(buffers),
        Err(_) => buffers(alloc, 1),
    }
}

/// Steps a world, and again if that was refused. Whether anything was, and whether one packet was counted.
fn stepped_again(alloc: Global, layout: &Layout) -> Option<(bool, bool)>
    requires { layout.now.queues ≡ 1 }
{
    let program = counting(alloc)?;
    let Ok(mut buffers) = buffer(alloc) else {
        return None;
    };
    match stepped(alloc, layout, buffers.as_mut_slice(), &program) {
        None => match stepped(alloc, layout, buffers.as_mut_slice(), &program) {
            Some((_, counted)) => Some((true, counted)),
            None => None,
        },
        seen => seen,
    }
}

fn world_is_stepped(alloc: Global) -> Option<(bool, bool)> {
    match layout(alloc) {
        Ok(layout) => stepped_again(alloc, &layout),
        Err(_) => None,
    }
}

#[test]
fn a_world_is_made_and_stepped_again(rt: HostRuntime) -> Result<(), Fail> {
    let seen = world_is_stepped(rt.alloc());
    if let Some((true, _)) = seen {
        println!(rt; "refused")?;
    }
    assert!(rt; matches!(seen, Some((_, true))));
    Ok(())
}

fn count(frames: Result<Frames, AllocError>) -> Option<u32> {
    match frames {
        Ok(frames) => Some(frames.count()),
        Err(_) => None,
    }
}

/// Returns how many frames a layout makes, and how many it makes again if it was refused.
fn frame_counts(alloc: Global) -> [Option<u32>; 2] {
    let Ok(layout) = layout(alloc) else {
        return [None; 2];
    };
    match count(layout.frames(alloc)) {
        None => [None, count(layout.frames(alloc))],
        counted => [counted; 2],
    }
}

#[test]
fn frames_are_made_again(rt: HostRuntime) -> Result<(), Fail> {
    let [first, second] = frame_counts(rt.alloc());
    if first.is_none() {
        println!(rt; "refused")?;
    }
    assert_eq!(rt; second, Some(531));
    Ok(())
}
