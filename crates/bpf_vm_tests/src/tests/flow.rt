//! Backward jumps, and the order of the second pass.
ghost use Rattle.std.specs.Prelude.{◌<◌, ◌≤◌, length};

use crate::programs::{bytes_of, refusal};
use bpf_insn::{Insn, decode};
use bpf_verify::{Cause, first_fault, pass_order};
use std::alloc::{AllocError, Global};

/// A forward jump to a backward one that leads between the two: no cycle.
#[rattlefmt::skip]
const THERE_AND_BACK: [[u8; 8]; 4] = [
    [5, 0, 2, 0, 0, 0, 0, 0], // goto +2
    [0xb7, 0, 0, 0, 2, 0, 0, 0], // r0 = 2
    [0x95, 0, 0, 0, 0, 0, 0, 0], // exit
    [5, 0, 0xfd, 0xff, 0, 0, 0, 0], // goto -3
];

/// The order of a program without a fault of structure.
fn order_of(alloc: Global, code: &[Insn]) -> Option<Vec<u32>>
    requires some { 0 < length code.now }
    requires short { length code.now ≤ 4096 }
{
    match first_fault(alloc, code, 0) {
        Some(_) => None,
        None => pass_order(alloc, code).ok(),
    }
}

/// Returns whether a program without a fault of structure has this order.
fn has_order(alloc: Global, slots: &[[u8; 8]], wanted: &[u32]) -> Option<bool> {
    let bytes = bytes_of(alloc, slots).ok()?;
    let code = decode(alloc, &bytes).ok()?;
    let order = order_of(alloc, code.insns())?;
    Some(order.as_slice() == wanted)
}

#[test]
fn a_backward_jump_without_a_cycle(rt: HostRuntime) {
    assert_eq!(rt;
        has_order(rt.alloc(), &THERE_AND_BACK, &[0, 3, 1, 2]),
        Some(true)
    );
}

/// A jump over an instruction to which nothing leads, and one over a wide load.
#[rattlefmt::skip]
const UPWARDS: [[u8; 8]; 7] = [
    [5, 0, 1, 0, 0, 0, 0, 0], // goto +1
    [0xb7, 0, 0, 0, 1, 0, 0, 0], // r0 = 1
    [0xb7, 0, 0, 0, 2, 0, 0, 0], // r0 = 2
    [0x15, 0, 2, 0, 0, 0, 0, 0], // if r0 == 0 goto +2
    [0x18, 1, 0, 0, 9, 0, 0, 0], // r1 = 9 ll
    [0, 0, 0, 0, 0, 0, 0, 0],
    [0x95, 0, 0, 0, 0, 0, 0, 0], // exit
];

#[test]
fn reached_slots_are_taken_upwards(rt: HostRuntime) {
    assert_eq!(rt;
        has_order(rt.alloc(), &UPWARDS, &[0, 2, 3, 4, 6]),
        Some(true)
    );
}

#[rattlefmt::skip]
const TEN_TIMES: [[u8; 8]; 4] = [
    [0xb7, 0, 0, 0, 0, 0, 0, 0], // r0 = 0
    [7, 0, 0, 0, 1, 0, 0, 0], // r0 += 1
    [0xa5, 0, 0xfe, 0xff, 0x0a, 0, 0, 0], // if r0 < 10 goto -2
    [0x95, 0, 0, 0, 0, 0, 0, 0], // exit
];

#[rattlefmt::skip]
const LOOP_AT_THE_END: [[u8; 8]; 1] = [
    [0x15, 0, 0xff, 0xff, 0, 0, 0, 0], // if r0 == 0 goto -1
];

#[rattlefmt::skip]
const MAP_AT_THE_END: [[u8; 8]; 2] = [
    [0x18, 0x11, 0, 0, 0, 0, 0, 0], // r1 = map 0
    [0, 0, 0, 0, 0, 0, 0, 0], // its second slot
];

#[rattlefmt::skip]
const LOOP_AND_FAR_JUMP: [[u8; 8]; 3] = [
    [5, 0, 0xff, 0xff, 0, 0, 0, 0], // goto -1
    [5, 0, 0x10, 0, 0, 0, 0, 0], // goto +16
    [0x95, 0, 0, 0, 0, 0, 0, 0], // exit
];

/// A program, its refusal, and what it shows.
const FIRST: [(&[[u8; 8]], Option<(Cause, u32)>, &str); 5] = [
    (&THERE_AND_BACK, None, "a backward jump without a cycle"),
    (
        &TEN_TIMES,
        Some((Cause::BackJump, 2)),
        "a loop that would end",
    ),
    (
        &LOOP_AT_THE_END,
        Some((Cause::BackJump, 0)),
        "a cycle before a missing end",
    ),
    (
        &MAP_AT_THE_END,
        Some((Cause::End, 0)),
        "a missing end before a map number",
    ),
    (
        &LOOP_AND_FAR_JUMP,
        Some((Cause::BackJump, 0)),
        "a target at a higher slot comes after a cycle",
    ),
];

#[test]
fn the_first_refusal(rt: HostRuntime) {
    for (slots, wanted, text) in FIRST {
        assert!(rt; refusal(rt.alloc(), slots, &[]) == wanted, "{text}");
    }
}

/// A jump over `to` slots, or back.
fn jump(to: i32) -> Insn {
    Insn::Ja {
        wide_offset: false,
        to,
    }
}

/// A jump to the last of `jumps` jumps, each to the slot below it, the lowest to an EXIT.
fn chain(alloc: Global, jumps: u16) -> Result<Vec<Insn>, AllocError> {
    let mut code = Vec::new(alloc);
    code.push(jump(i32::from(jumps)))?;
    code.push(Insn::Exit)?;
    for _ in 0..jumps {
        code.push(jump(-2))?;
    }
    Ok(code)
}

/// The order of a chain: its length, the first two slots and the last.
fn order_of_chain(alloc: Global, jumps: u16) -> Option<(usize, [Option<u32>; 3])> {
    let code = chain(alloc, jumps).ok()?;
    if code.is_empty() || 4096 < code.len() {
        return None;
    }
    let order = order_of(alloc, &code)?;
    let ends = [order.first(), order.get(1), order.last()];
    Some((order.len(), ends.map(|slot| slot.copied())))
}

#[test]
fn a_chain_of_backward_jumps(rt: HostRuntime) {
    assert_eq!(rt;
        order_of_chain(rt.alloc(), 4000),
        Some((4002, [Some(0), Some(4001), Some(1)]))
    );
}

/// Returns what the structure of a chain is refused for, if a jump to itself follows it. Nothing without memory, or if it isn't
/// refused.
fn fault_behind_chain(alloc: Global, jumps: u16) -> Option<(Cause, u32)> {
    let mut code = chain(alloc, jumps).ok()?;
    code.push(jump(-1)).ok()?;
    if code.is_empty() || 4096 < code.len() {
        return None;
    }
    let refusal = first_fault(alloc, &code, 0)?;
    Some((refusal.cause, refusal.pc))
}

#[test]
fn a_cycle_behind_a_chain_of_backward_jumps(rt: HostRuntime) {
    assert_eq!(rt;
        fault_behind_chain(rt.alloc(), 60),
        Some((Cause::BackJump, 62))
    );
}
