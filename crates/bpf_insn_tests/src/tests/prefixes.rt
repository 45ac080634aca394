//! Refusals, at the shortest bytes that give each; and each cut of a program.

use crate::decoding::{exits, refusals, refusals_before_exit, shows_refusal};
use bpf_insn::{Cause, Refusal, decode};

/// The refusal of the first slot, as decoding and the definition give it.
fn first_refused(cause: Cause) -> [Option<Refusal>; 2] {
    [Some(Refusal { cause, pc: 0 }); 2]
}

#[test]
fn causes_in_their_order(rt: HostRuntime) {
    let rows = [
        ([0xff, 0, 0, 0, 0, 0, 0, 0], Cause::Opcode),
        // an unknown opcode comes before a register
        ([0xff, 0xbb, 0, 0, 0, 0, 0, 0], Cause::Opcode),
        ([0xb7, 0x0b, 0, 0, 2, 0, 0, 0], Cause::Register),
        ([0xbf, 0xb0, 0, 0, 0, 0, 0, 0], Cause::Register),
        // a register before another field
        ([0xb7, 0x0b, 1, 0, 2, 0, 0, 0], Cause::Register),
        ([0xb7, 0x10, 0, 0, 2, 0, 0, 0], Cause::Opcode),
        ([0xb7, 0, 1, 0, 2, 0, 0, 0], Cause::Opcode),
        ([0xbf, 0, 0, 0, 1, 0, 0, 0], Cause::Opcode),
        ([0xbf, 0, 24, 0, 0, 0, 0, 0], Cause::Opcode),
        ([0xbc, 0, 32, 0, 0, 0, 0, 0], Cause::Opcode),
        ([0xdf, 0, 0, 0, 16, 0, 0, 0], Cause::Opcode),
        ([0xd4, 0, 0, 0, 8, 0, 0, 0], Cause::Opcode),
        // legacy packet access, whatever its fields are
        ([0x20, 0xff, 0, 0, 0, 0, 0, 0], Cause::Unsupported),
        ([0x50, 0, 0, 0, 0, 0, 0, 0], Cause::Unsupported),
        ([0xc3, 0x0b, 0, 0, 0, 0, 0, 0], Cause::Unsupported),
        // the other kinds of call, of wide load and of atomic operation
        ([0x85, 0x10, 0, 0, 1, 0, 0, 0], Cause::Unsupported),
        ([0x85, 0x1b, 0, 0, 1, 0, 0, 0], Cause::Register),
        ([0x85, 0x30, 0, 0, 1, 0, 0, 0], Cause::Opcode),
        ([0x18, 0x30, 0, 0, 0, 0, 0, 0], Cause::Unsupported),
        ([0x18, 0x70, 0, 0, 0, 0, 0, 0], Cause::Opcode),
        ([0x18, 0, 0, 0, 0, 0, 0, 0], Cause::Opcode),
        ([0xdb, 0x10, 1, 0, 0x50, 0, 0, 0], Cause::Unsupported),
    ];
    for (slot, cause) in rows {
        assert_eq!(rt;
            refusals_before_exit(rt.alloc(), slot),
            first_refused(cause),
            "{slot:?}"
        );
    }
}

/// Each opcode, sixteen a line: `#` an instruction's, `-` left out by this profile, `.` of none (RFC 9669, section 3 and the
/// tables of sections 4 and 5).
const OPCODES: [&str; 16] = [
    "....####....#..#",
    "....#####...####",
    "-...####-...####",
    "-...####....####",
    "-...####-...####",
    "-...####....####",
    ".#######.#######",
    ".#######.#######",
    ".#..##.#.#......",
    ".#..##.#....#..#",
    "....####....####",
    "....####....####",
    "...-####....####",
    "....####...####.",
    "................",
    "................",
];

/// A register of 11 is refused for the register exactly when the opcode is an instruction's.
#[test]
fn every_opcode(rt: HostRuntime) {
    let mut op = 0u8;
    for line in OPCODES {
        for kind in line.bytes() {
            let cause = match kind {
                b'#' => Cause::Register,
                b'-' => Cause::Unsupported,
                _ => Cause::Opcode,
            };
            assert_eq!(rt;
                refusals_before_exit(rt.alloc(), [op, 0x0b, 0, 0, 0, 0, 0, 0]),
                first_refused(cause),
                "{op:x}"
            );
            op = op.wrapping_add(1);
        }
    }
    assert_eq!(rt; op, 0);
}

/// The first and the last field value that this profile leaves out, and the next ones.
#[test]
fn fields_left_out(rt: HostRuntime) {
    for (slot, cause) in [
        ([0x18, 0x20, 0, 0, 0, 0, 0, 0], Cause::Unsupported),
        ([0x18, 0x60, 0, 0, 0, 0, 0, 0], Cause::Unsupported),
        ([0x18, 0x70, 0, 0, 0, 0, 0, 0], Cause::Opcode),
        ([0x85, 0x20, 0, 0, 0, 0, 0, 0], Cause::Unsupported),
        ([0x85, 0x30, 0, 0, 0, 0, 0, 0], Cause::Opcode),
        ([0xdb, 0, 0, 0, 2, 0, 0, 0], Cause::Unsupported),
        ([0xdb, 0, 0, 0, 0xff, 0xff, 0xff, 0xff], Cause::Unsupported),
    ] {
        assert_eq!(rt;
            refusals_before_exit(rt.alloc(), slot),
            first_refused(cause),
            "{slot:?}"
        );
    }
    // a kind that is left out comes before the missing second half
    let last = [0x18, 0x30, 0, 0, 0, 0, 0, 0];
    assert_eq!(rt;
        decode(rt.alloc(), &last).err(),
        Some(Refusal {
            cause: Cause::Unsupported,
            pc: 0
        })
    );
}

#[test]
fn lengths(rt: HostRuntime) {
    let alloc = rt.alloc();
    let bad = Refusal {
        cause: Cause::Length,
        pc: 0,
    };
    assert_eq!(rt; decode(alloc, &[]).err(), Some(bad));
    assert_eq!(rt; decode(alloc, &[0x95, 0, 0, 0, 0, 0, 0]).err(), Some(bad));
    assert_eq!(rt; exits(alloc, 4096), Some(Ok(4096)));
    assert_eq!(rt; exits(alloc, 4097), Some(Err(bad)));
}

/// Returns why the first bytes of [`PROGRAM`] are refused, if they are.
fn wanted(len: usize) -> [Option<Refusal>; 2] {
    if len == 0 || len % 8 != 0 {
        first_refused(Cause::Length)
    } else if len == 8 {
        first_refused(Cause::Opcode)
    } else {
        [None; 2]
    }
}

/// `r1 = 0x200000001`, `r0 = 2`, `exit`.
#[rattlefmt::skip]
const PROGRAM: [u8; 32] = [
    0x18, 1, 0, 0, 1, 0, 0, 0,
    0, 0, 0, 0, 2, 0, 0, 0,
    0xb7, 0, 0, 0, 2, 0, 0, 0,
    0x95, 0, 0, 0, 0, 0, 0, 0,
];

#[test]
fn each_cut_of_a_program(rt: HostRuntime) {
    for len in 0..=PROGRAM.len() {
        assert_eq!(rt; refusals(rt.alloc(), &PROGRAM[..len]), wanted(len), "{len}");
    }
}

#[test]
fn the_slot_of_a_refusal(rt: HostRuntime) {
    // a wide load takes slots 0 and 1
    let bytes = [
        0x18u8, 1, 0, 0, 1, 0, 0, 0, 0, 0, 0, 0, 2, 0, 0, 0, 0xb7, 0, 0, 0, 2, 0, 0, 0, 0xb7, 11,
        0, 0, 2, 0, 0, 0,
    ];
    assert!(rt; shows_refusal(rt.alloc(), &bytes, "V3 at 3"));
}
