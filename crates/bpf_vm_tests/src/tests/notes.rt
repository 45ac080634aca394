//! The note of a refusal.
use crate::programs::{code, explained};
use bpf_insn::Register;
use bpf_note::{Note, Val};
use bpf_verify::{Explained, explain, joined_at, lost_at};
use std::alloc::Global;

/// Returns what two registers hold by a note.
fn held(note: &Note, [first, second]: [u8; 2]) -> [Val; 2] {
    [note.register(first), note.register(second)]
}

/// Returns what two registers hold by the note of a refused program over one map of a value.
fn registers(alloc: Global, slots: &[[u8; 8]], registers: [u8; 2]) -> Option<[Val; 2]> {
    let Explained { note, .. } = explained(alloc, 0, slots)?;
    match note {
        Some(note) => Some(held(&note, registers)),
        None => None,
    }
}

#[rattlefmt::skip]
const NO_NULL_CHECK: [[u8; 8]; 11] = [
    [0xb4, 1, 0, 0, 0, 0, 0, 0], // w1 = 0
    [0x63, 0x1a, 0xfc, 0xff, 0, 0, 0, 0], // *(u32 *)(r10 - 4) = r1
    [0xbf, 0xa2, 0, 0, 0, 0, 0, 0], // r2 = r10
    [7, 2, 0, 0, 0xfc, 0xff, 0xff, 0xff], // r2 += -4
    [0x18, 0x11, 0, 0, 0, 0, 0, 0], // r1 = map 0
    [0, 0, 0, 0, 0, 0, 0, 0], // its second slot
    [0x85, 0, 0, 0, 1, 0, 0, 0], // call 1
    [0xb7, 1, 0, 0, 1, 0, 0, 0], // r1 = 1
    [0xdb, 0x10, 0, 0, 0, 0, 0, 0], // lock *(u64 *)(r0 + 0) += r1
    [0xb4, 0, 0, 0, 2, 0, 0, 0], // w0 = 2
    [0x95, 0, 0, 0, 0, 0, 0, 0], // exit
];

#[test]
fn an_address_that_may_be_null(rt: HostRuntime) {
    assert_eq!(rt;
        registers(rt.alloc(), &NO_NULL_CHECK, [0, 1]),
        Some([Val::MaybeValue { m: 0, id: 6 }, Val::Num { lo: 1, hi: 1 }])
    );
}

/// The offset is read from the packet and has 32 bits.
#[rattlefmt::skip]
const WIDE_OFFSET: [[u8; 8]; 16] = [
    [0xb4, 0, 0, 0, 1, 0, 0, 0], // w0 = 1
    [0x61, 0x12, 4, 0, 0, 0, 0, 0], // r2 = *(u32 *)(r1 + 4)
    [0x61, 0x11, 0, 0, 0, 0, 0, 0], // r1 = *(u32 *)(r1 + 0)
    [0xbf, 0x13, 0, 0, 0, 0, 0, 0], // r3 = r1
    [7, 3, 0, 0, 18, 0, 0, 0], // r3 += 18
    [0x2d, 0x23, 9, 0, 0, 0, 0, 0], // if r3 > r2 goto +9
    [0x61, 0x13, 14, 0, 0, 0, 0, 0], // r3 = *(u32 *)(r1 + 14)
    [0x0f, 0x31, 0, 0, 0, 0, 0, 0], // r1 += r3
    [0xbf, 0x13, 0, 0, 0, 0, 0, 0], // r3 = r1
    [7, 3, 0, 0, 1, 0, 0, 0], // r3 += 1
    [0x2d, 0x23, 4, 0, 0, 0, 0, 0], // if r3 > r2 goto +4
    [0x71, 0x11, 0, 0, 0, 0, 0, 0], // r1 = *(u8 *)(r1 + 0)
    [0xb4, 0, 0, 0, 2, 0, 0, 0], // w0 = 2
    [0x15, 1, 1, 0, 0, 0, 0, 0], // if r1 == 0 goto +1
    [0xb4, 0, 0, 0, 1, 0, 0, 0], // w0 = 1
    [0x95, 0, 0, 0, 0, 0, 0, 0], // exit
];

#[test]
fn an_address_that_became_a_number(rt: HostRuntime) {
    assert_eq!(rt;
        registers(rt.alloc(), &WIDE_OFFSET, [1, 2]),
        Some([Val::FULL, Val::PktEnd])
    );
}

/// Two notes come to slot 4: of the jump with `r3` an address, then of slot 3 with 1.
#[rattlefmt::skip]
const SECOND_OF_TWO: [[u8; 8]; 6] = [
    [0x61, 0x12, 0x10, 0, 0, 0, 0, 0], // r2 = *(u32 *)(r1 + 16)
    [0xbf, 0xa3, 0, 0, 0, 0, 0, 0], // r3 = r10
    [0x25, 2, 1, 0, 5, 0, 0, 0], // if r2 > 5 goto +1
    [0xb7, 3, 0, 0, 1, 0, 0, 0], // r3 = 1
    [0x72, 3, 0xff, 0xff, 0, 0, 0, 0], // *(u8 *)(r3 - 1) = 0
    [0x95, 0, 0, 0, 0, 0, 0, 0], // exit
];

#[test]
fn the_second_of_two_notes_is_refused(rt: HostRuntime) {
    let one = Val::Num { lo: 1, hi: 1 };
    assert_eq!(rt;
        registers(rt.alloc(), &SECOND_OF_TWO, [3, 3]),
        Some([one, one])
    );
}

/// As [`SECOND_OF_TWO`], but both are numbers: 2 by the jump, then 1.
#[rattlefmt::skip]
const BOTH_OF_TWO: [[u8; 8]; 6] = [
    [0x61, 0x12, 0x10, 0, 0, 0, 0, 0], // r2 = *(u32 *)(r1 + 16)
    [0xb7, 3, 0, 0, 2, 0, 0, 0], // r3 = 2
    [0x25, 2, 1, 0, 5, 0, 0, 0], // if r2 > 5 goto +1
    [0xb7, 3, 0, 0, 1, 0, 0, 0], // r3 = 1
    [0x72, 3, 0xff, 0xff, 0, 0, 0, 0], // *(u8 *)(r3 - 1) = 0
    [0x95, 0, 0, 0, 0, 0, 0, 0], // exit
];

#[test]
fn the_first_of_two_refused_notes(rt: HostRuntime) {
    let two = Val::Num { lo: 2, hi: 2 };
    assert_eq!(rt;
        registers(rt.alloc(), &BOTH_OF_TWO, [3, 3]),
        Some([two, two])
    );
}

/// The slot where a register of a program without maps was an address last, before the refusal, and what it held there.
fn lost(alloc: Global, slots: &[[u8; 8]], register: Register) -> Option<(u32, Val)> {
    let Err(refused) = explain(alloc, code(alloc, slots)?, &[]) else {
        return None;
    };
    match refused.note {
        None => None,
        Some(_) => {
            let pc = refused.refusal.pc;
            let lost = lost_at(alloc, &refused.code, &[], pc, register).ok()??;
            Some((lost.pc, lost.note.register(register.number())))
        }
    }
}

#[test]
fn the_slot_that_lost_an_address(rt: HostRuntime) {
    assert_eq!(rt;
        lost(rt.alloc(), &WIDE_OFFSET, Register::R1),
        Some((7, Val::Pkt { id: 0xffff, off: 0 }))
    );
}

/// Sixteen ways meet at the store, each with another address in `r2`.
#[rattlefmt::skip]
const SIXTEEN_WAYS: [[u8; 8]; 12] = [
    [0x61, 0x13, 0x10, 0, 0, 0, 0, 0], // r3 = *(u32 *)(r1 + 16)
    [0xbf, 0xa2, 0, 0, 0, 0, 0, 0], // r2 = r10
    [0x45, 3, 1, 0, 1, 0, 0, 0], // if r3 & 1 goto +1
    [7, 2, 0, 0, 0xf8, 0xff, 0xff, 0xff], // r2 += -8
    [0x45, 3, 1, 0, 2, 0, 0, 0], // if r3 & 2 goto +1
    [7, 2, 0, 0, 0xf0, 0xff, 0xff, 0xff], // r2 += -16
    [0x45, 3, 1, 0, 4, 0, 0, 0], // if r3 & 4 goto +1
    [7, 2, 0, 0, 0xe0, 0xff, 0xff, 0xff], // r2 += -32
    [0x45, 3, 1, 0, 8, 0, 0, 0], // if r3 & 8 goto +1
    [7, 2, 0, 0, 0xc0, 0xff, 0xff, 0xff], // r2 += -64
    [0x7a, 2, 0xf8, 0xff, 0, 0, 0, 0], // *(u64 *)(r2 - 8) = 0
    [0x95, 0, 0, 0, 0, 0, 0, 0], // exit
];

/// At which slot the sixteen ways are refused, and on how many notes a register is an address, there and at another slot.
fn joined(alloc: Global, register: Register, other: u32) -> Option<(u32, [Option<usize>; 2])> {
    let Err(refused) = explain(alloc, code(alloc, &SIXTEEN_WAYS)?, &[]) else {
        return None;
    };
    match refused.note {
        None => None,
        Some(_) => {
            let pc = refused.refusal.pc;
            let there = joined_at(alloc, &refused.code, &[], pc, register).ok()?;
            let elsewhere = joined_at(alloc, &refused.code, &[], other, register).ok()?;
            Some((pc, [there, elsewhere]))
        }
    }
}

#[test]
fn more_ways_than_notes(rt: HostRuntime) {
    let found = [
        joined(rt.alloc(), Register::R2, 8),
        joined(rt.alloc(), Register::R1, 11),
    ];
    assert_eq!(rt;
        found,
        [Some((10, [Some(7), None])), Some((10, [None, None]))]
    );
}
