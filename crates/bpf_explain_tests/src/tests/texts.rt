//! Each value's text, each cause's advice, and the columns of a listing.
use crate::printed::{advice_by, note_of, text};
use bpf_explain::advice_for;
use bpf_insn::{Cause, Insn, Refusal, Register, Size};
use bpf_note::{MapShape, PACKET_ID, Val};
use std::alloc::Global;

#[rattlefmt::skip]
const EXIT: [u8; 8] = [
    0x95, 0, 0, 0, 0, 0, 0, 0, // exit
];

/// Returns what is printed of `exit` if it is refused with this cause while `r0` is this value.
fn text_of_exit(alloc: Global, cause: Cause, value: Val) -> Option<String> {
    let note = note_of(alloc, &[(0, value)]);
    text(alloc, &EXIT, &[], Refusal { cause, pc: 0 }, Some(&note))
}

/// Returns whether a value of `r0` is shown as this.
fn is_shown(alloc: Global, value: Val, shown: &str) -> Option<bool> {
    let wanted = format!(in alloc;
        ">  0: exit\n       R0={shown}\nrefused V7 at 0\nwrite instead: set the register on each way that leads here; a call leaves r1 to r5 unset\n"
    ).ok()?;
    let text = text_of_exit(alloc, Cause::Unset, value)?;
    Some(text.as_str() == wanted.as_str())
}

#[test]
fn values(rt: HostRuntime) {
    let rows = [
        (Val::Unset, "unset"),
        (Val::Num { lo: 7, hi: 7 }, "7"),
        (Val::Num { lo: 5, hi: 9 }, "scalar(umin=5,umax=9)"),
        (
            Val::Num {
                lo: 5,
                hi: u64::MAX,
            },
            "scalar(umin=5,umax=18446744073709551615)",
        ),
        (Val::FULL, "scalar()"),
        (
            Val::Pkt {
                id: PACKET_ID,
                off: 2,
            },
            "pkt(id=0,off=2,r=0)",
        ),
        (Val::Pkt { id: 3, off: 0 }, "pkt(id=3,off=0,r=0)"),
        (Val::PktEnd, "pkt_end"),
        (Val::Stack { off: 0 }, "fp0"),
        (Val::Stack { off: -4 }, "fp-4"),
        (Val::Ctx, "ctx"),
        (Val::Map { m: 0 }, "map_ptr(map=hits)"),
        (Val::Map { m: 1 }, "map_ptr(map=1)"),
        (
            Val::MaybeValue { m: 0, id: 6 },
            "map_value_or_null(id=6,map=hits)",
        ),
        (Val::Value { m: 0 }, "map_value(map=hits)"),
    ];
    for (value, shown) in rows {
        assert_eq!(rt; is_shown(rt.alloc(), value, shown), Some(true), "{shown}");
    }
}

/// Each cause, with its number, whether the values are shown, and what to write instead.
#[rattlefmt::skip]
const CAUSES: [(Cause, u8, bool, &str); 10] = [
    (Cause::Unset, 7, true, "set the register on each way that leads here; a call leaves r1 to r5 unset"),
    (Cause::FramePointer, 8, false, "copy r10 to another register, and change the copy"),
    (Cause::NoPointer, 9, true, "only add to an address and subtract from it, in 64 bits: constants, or to a packet's address a number of at most 65535; where more than eight ways meet, keep the offset as a number and add it to data anew"),
    (Cause::Packet, 10, true, "compare the address past the last byte with data_end on each way that leads here, after the last addition"),
    (Cause::Stack, 11, true, "load within the 512 bytes below r10: from r10-512 to r10-1"),
    (Cause::Context, 12, true, "load four bytes of a field: at 0, 4, 8, 12 or 16"),
    (Cause::MayBeNull, 13, true, "compare the lookup's result with 0 first; the check frees the copies of that lookup alone"),
    (Cause::MapAccess, 14, true, "load eight bytes, unsigned, at 8*j of the value, j below its number of counters"),
    (Cause::Helper, 15, false, "call 1, the map lookup: it is the one helper"),
    (Cause::Argument, 17, true, "a wide load of a map in r1"),
];

/// Returns whether the cause is explained so if `r0` is 1.
fn is_advised(
    alloc: Global,
    (cause, number, shows, advice): (Cause, u8, bool, &str),
) -> Option<bool> {
    let below = if shows { "       R0=1\n" } else { "" };
    let wanted = format!(in alloc;
        ">  0: exit\n{below}refused V{number} at 0\nwrite instead: {advice}\n"
    ).ok()?;
    let text = text_of_exit(alloc, cause, Val::Num { lo: 1, hi: 1 })?;
    Some(text.as_str() == wanted.as_str())
}

#[test]
fn causes_of_the_second_pass(rt: HostRuntime) {
    for row in CAUSES {
        assert_eq!(rt; is_advised(rt.alloc(), row), Some(true), "{row:?}");
    }
}

/// Advice by the cause alone, if there is no note.
#[rattlefmt::skip]
const ALONE: [(Cause, &str); 11] = [
    (Cause::Memory, "the same program, with more memory: memory ran out"),
    (Cause::Length, "1 to 4096 slots of eight bytes"),
    (Cause::Opcode, "an instruction's opcode, with each field as its form wants it"),
    (Cause::Register, "a register from r0 to r10"),
    (Cause::Target, "a jump to a slot of the program that is no second half of a wide load"),
    (Cause::BackJump, "the loop's body as often as it may run, each time left by a forward jump"),
    (Cause::End, "exit at the end of each way through the program"),
    (Cause::MapNumber, "the number of a map of the settings, or a relocation"),
    (Cause::Unsupported, "other instructions: this profile leaves this one out"),
    (Cause::MapAccess, "load or atomically add eight bytes at 8*j of a value, j below its number of counters"),
    (Cause::Argument, "a wide load of a map in r1, and in r2 the address of a stored key"),
];

#[test]
fn causes_without_a_note(rt: HostRuntime) {
    for (cause, wanted) in ALONE {
        assert_eq!(rt; advice_for(&[], cause, None, None), wanted);
    }
}

const ADD: Insn = Insn::AddCounter {
    fetch: false,
    dst: Register::R0,
    src: Register::R1,
    off: 0,
};

const LOAD: Insn = Insn::Ldx {
    size: Size::Word,
    signed: false,
    dst: Register::R1,
    src: Register::R0,
    off: 0,
};

const CALL: Insn = Insn::Call { helper: 1 };

#[test]
fn advice_by_the_values(rt: HostRuntime) {
    let (value, map) = (Val::Value { m: 0 }, Val::Map { m: 0 });
    let rows = [
        (
            Cause::MapAccess,
            ADD,
            [value, Val::Ctx],
            "add at 8*j of the value, j below its number of counters",
        ),
        (
            Cause::MapAccess,
            LOAD,
            [value, Val::Ctx],
            "load eight bytes, unsigned, at 8*j of the value, j below its number of counters",
        ),
        (
            Cause::MapAccess,
            ADD,
            [Val::Ctx, Val::Ctx],
            "add atomically to a map's counter alone; elsewhere load, add and store",
        ),
        (
            Cause::Argument,
            CALL,
            [Val::Ctx, Val::Ctx],
            "a wide load of a map in r1",
        ),
        (
            Cause::Argument,
            CALL,
            [Val::Ctx, map],
            "the key on the stack, and its address in r2",
        ),
    ];
    for (cause, insn, values, wanted) in rows {
        assert_eq!(rt; advice_by(rt.alloc(), cause, insn, values), wanted);
    }
}

/// Returns whether this is the advice for a refused load of four bytes of a value, over a map of this shape.
fn is_advice_for_a_load(alloc: Global, shape: MapShape, wanted: &str) -> bool {
    let note = note_of(alloc, &[(0, Val::Value { m: 0 })]);
    advice_for(&[shape], Cause::MapAccess, Some(LOAD), Some(&note)) == wanted
}

/// Returns whether it is as it should be where counters are loaded whole, and where a load may take a part.
fn has_advice_for_loads(alloc: Global) -> Option<[bool; 2]> {
    let whole = MapShape::of(2, 3)?;
    Some([
        is_advice_for_a_load(
            alloc,
            whole,
            "load eight bytes, unsigned, at 8*j of the value, j below its number of counters",
        ),
        is_advice_for_a_load(
            alloc,
            whole.with_parts(),
            "load 1, 2, 4 or 8 bytes that lie within one counter of the value",
        ),
    ])
}

#[test]
fn loads_of_counters(rt: HostRuntime) {
    assert_eq!(rt; has_advice_for_loads(rt.alloc()), Some([true, true]));
}

/// Returns whether a listing of 101 slots has its numbers in a column, up to the refused one at the end.
fn has_columns(alloc: Global) -> Option<[bool; 2]> {
    let mut bytes = Vec::new(alloc);
    for _slot in 0..101 {
        bytes.extend_from_slice(&EXIT).ok()?;
    }
    let refusal = Refusal {
        cause: Cause::Target,
        pc: 100,
    };
    let text = text(alloc, &bytes, &[], refusal, None)?;
    Some([
        text.as_str().contains("\n   9: exit\n  10: exit\n"),
        text.as_str().ends_with(
            "\n  99: exit\n>100: exit\nrefused V4 at 100\nwrite instead: a jump to a slot of the program that is no second half of a wide load\n",
        ),
    ])
}

#[test]
fn columns(rt: HostRuntime) {
    assert_eq!(rt; has_columns(rt.alloc()), Some([true, true]));
}

#[test]
fn a_load_outside_the_stack(rt: HostRuntime) {
    for (off, wanted) in [
        (
            -512,
            "store these bytes first, within the 512 bytes below r10",
        ),
        (
            -513,
            "load within the 512 bytes below r10: from r10-512 to r10-1",
        ),
        (
            -4,
            "store these bytes first, within the 512 bytes below r10",
        ),
        (
            -3,
            "load within the 512 bytes below r10: from r10-512 to r10-1",
        ),
    ] {
        let values = [Val::Stack { off }, Val::Ctx];
        assert_eq!(rt; advice_by(rt.alloc(), Cause::Stack, LOAD, values), wanted);
    }
}

#[rattlefmt::skip]
const BEFORE: [u8; 8] = [
    0x79, 0x10, 0xff, 0xff, 0, 0, 0, 0, // r0 = *(u64 *)(r1 -1)
];

/// Returns whether the span of that load is shown.
fn shows_span(alloc: Global) -> Option<bool> {
    let address = Val::Pkt {
        id: PACKET_ID,
        off: 0,
    };
    let note = note_of(alloc, &[(1, address)]);
    let refusal = Refusal {
        cause: Cause::Packet,
        pc: 0,
    };
    let text = text(alloc, &BEFORE, &[], refusal, Some(&note))?;
    Some(
        text.as_str()
            .contains("\n       R1=pkt(id=0,off=0,r=0)  access=-1..7\n"),
    )
}

#[test]
fn a_load_before_the_packet(rt: HostRuntime) {
    assert_eq!(rt; shows_span(rt.alloc()), Some(true));
}

#[rattlefmt::skip]
const JUMPS: [u8; 24] = [
    0x95, 0, 0, 0, 0, 0, 0, 0,             // exit
    0x1d, 0x11, 0xfd, 0xff, 0, 0, 0, 0,    // if r1 == r1 goto pc-3
    0x06, 0, 0, 0, 0xff, 0xff, 0, 0,       // gotol pc+65535
];

/// Returns whether this is printed of a jump that has no target.
fn shows_target(alloc: Global, pc: u32, wanted: &str) -> Option<bool> {
    let refusal = Refusal {
        cause: Cause::Target,
        pc,
    };
    let text = text(alloc, &JUMPS, &[], refusal, None)?;
    Some(text.as_str().contains(wanted))
}

#[test]
fn where_a_jump_goes(rt: HostRuntime) {
    for (pc, wanted) in [(1, "\n       to -1\n"), (2, "\n       to 65538\n")] {
        assert_eq!(rt;
            shows_target(rt.alloc(), pc, wanted),
            Some(true),
            "{wanted}"
        );
    }
}
