//! Refused programs and what is printed of them. A program has one slot per line, with its text beside it.
use crate::printed::{advice_by, prints, prints_by_registers, prints_undecoded, text};
use bpf_explain::{asked_register, joined_text, was_text};
use bpf_insn::{Cause, Insn, Refusal, Register, Size, decode};
use bpf_note::{KeyKind, MapKey, MapShape, Note, PACKET_ID, Val};
use std::alloc::Global;

/// The first byte of the packet.
const DATA: Val = Val::Pkt {
    id: PACKET_ID,
    off: 0,
};

#[rattlefmt::skip]
const NO_CHECK: [u8; 24] = [
    0x61, 0x11, 0, 0, 0, 0, 0, 0,    // r1 = *(u32 *)(r1 +0)
    0x69, 0x11, 0x0c, 0, 0, 0, 0, 0, // r1 = *(u16 *)(r1 +12)
    0x95, 0, 0, 0, 0, 0, 0, 0,       // exit
];

const UNCHECKED: &str =
    "   0: r1 = *(u32 *)(r1 +0)\n>  1: r1 = *(u16 *)(r1 +12)\n       R1=pkt(id=0,off=14,r=20)  access=26..28\n   2: exit\nrefused V10 at 1\nwrite instead: compare the address past the last byte with data_end on each way that leads here, after the last addition\n";

fn prints_unchecked(alloc: Global) -> Option<bool> {
    let mut note = Note::entry(alloc);
    note.set_register(
        1,
        Val::Pkt {
            id: PACKET_ID,
            off: 14,
        },
    );
    note.set_safe(PACKET_ID, Some(20)).ok()?;
    prints(alloc, &NO_CHECK, (Cause::Packet, 1), &note, UNCHECKED)
}

#[test]
fn a_packet_without_a_check(rt: HostRuntime) {
    assert_eq!(rt; prints_unchecked(rt.alloc()), Some(true));
}

#[rattlefmt::skip]
const LOOKUP: [u8; 32] = [
    0x18, 0x11, 0, 0, 0, 0, 0, 0, // r1 = map 0
    0, 0, 0, 0, 0, 0, 0, 0,
    0x85, 0, 0, 0, 1, 0, 0, 0,    // call 1
    0x95, 0, 0, 0, 0, 0, 0, 0,    // exit
];

const HALF_SET: &str =
    "   0: r1 = map 0\n>  2: call 1\n       R1=map_ptr(map=hits)  R2=fp-4  fp-8=????##??\n   3: exit\nrefused V17 at 2\nwrite instead: set all four bytes of the key that r2 points to, within the stack: an unsigned int\n";

fn prints_half_set(alloc: Global) -> Option<bool> {
    let mut note = Note::entry(alloc);
    note.set_register(1, Val::Map { m: 0 });
    note.set_register(2, Val::Stack { off: -4 });
    note.set_byte(508);
    note.set_byte(509);
    prints(alloc, &LOOKUP, (Cause::Argument, 2), &note, HALF_SET)
}

#[test]
fn a_key_that_is_half_set(rt: HostRuntime) {
    assert_eq!(rt; prints_half_set(rt.alloc()), Some(true));
}

const LISTED: &str =
    "   0: r1 = map 0\n>  2: call 1\n       R1=map_ptr(map=hits)  R2=fp-20  fp-24=????##??  fp-16=????????  fp-8=????????\n   3: exit\nrefused V17 at 2\nwrite instead: set all bytes of the key that r2 points to, within the stack: as many as each key of the map's list has\n";

/// Returns whether all slots of a key of 16 bytes are printed, of which two are set.
fn prints_listed(alloc: Global) -> Option<bool> {
    let shape = MapShape::keyed(MapKey::Listed(KeyKind::Exact(16)), 2, 3)?;
    let mut note = Note::entry(alloc);
    note.set_register(1, Val::Map { m: 0 });
    note.set_register(2, Val::Stack { off: -20 });
    note.set_byte(492);
    note.set_byte(493);
    let refusal = Refusal {
        cause: Cause::Argument,
        pc: 2,
    };
    let text = text(alloc, &LOOKUP, &[shape], refusal, Some(&note))?;
    Some(text.as_str() == LISTED)
}

#[test]
fn a_list_s_key_that_is_not_set(rt: HostRuntime) {
    assert_eq!(rt; prints_listed(rt.alloc()), Some(true));
}

#[rattlefmt::skip]
const SPLIT_LOAD: [u8; 8] = [
    0x79, 0xa0, 0xf4, 0xff, 0, 0, 0, 0, // r0 = *(u64 *)(r10 -12)
];

const SPLIT: &str =
    ">  0: r0 = *(u64 *)(r10 -12)\n       R10=fp0  fp-16=map_value_or_null(id=6,map=1)  fp-8=????????\nrefused V11 at 0\nwrite instead: store these bytes first, within the 512 bytes below r10\n";

fn prints_split(alloc: Global) -> Option<bool> {
    let mut note = Note::entry(alloc);
    note.keep(62, Val::MaybeValue { m: 1, id: 6 });
    prints(alloc, &SPLIT_LOAD, (Cause::Stack, 0), &note, SPLIT)
}

#[test]
fn a_load_of_two_slots(rt: HostRuntime) {
    assert_eq!(rt; prints_split(rt.alloc()), Some(true));
}

#[rattlefmt::skip]
const STORE: [u8; 8] = [
    0x73, 0x21, 0, 0, 0, 0, 0, 0, // *(u8 *)(r1 +0) = r2
];

#[rattlefmt::skip]
const FRAME: [u8; 8] = [
    0xbf, 0x1a, 0, 0, 0, 0, 0, 0, // r10 = r1
];

#[test]
fn values_of_registers(rt: HostRuntime) {
    let alloc = rt.alloc();
    let number = Val::Num { lo: 0, hi: 60 };
    let through_a_number = prints_by_registers(
        alloc,
        &STORE,
        (Cause::NoPointer, 0),
        &[(1, Val::FULL), (2, number)],
        ">  0: *(u8 *)(r1 +0) = r2\n       R1=scalar()  R2=scalar(umin=0,umax=60)\nrefused V9 at 0\nwrite instead: only add to an address and subtract from it, in 64 bits: constants, or to a packet's address a number of at most 65535; where more than eight ways meet, keep the offset as a number and add it to data anew\n",
    );
    let to_three_counters = prints_by_registers(
        alloc,
        &STORE,
        (Cause::MapAccess, 0),
        &[(1, Val::Value { m: 0 }), (2, Val::Num { lo: 1, hi: 1 })],
        ">  0: *(u8 *)(r1 +0) = r2\n       R1=map_value(map=hits)  R2=1  counters=3\nrefused V14 at 0\nwrite instead: add to the counter in one step, as __sync_fetch_and_add: a store loses what another queue counts\n",
    );
    let of_the_frame_pointer = prints_by_registers(
        alloc,
        &FRAME,
        (Cause::FramePointer, 0),
        &[],
        ">  0: r10 = r1\nrefused V8 at 0\nwrite instead: copy r10 to another register, and change the copy\n",
    );
    let found = [through_a_number, to_three_counters, of_the_frame_pointer];
    assert_eq!(rt; found, [Some(true); 3]);
}

#[rattlefmt::skip]
const SUMS: [u8; 16] = [
    0x0f, 0x21, 0, 0, 0, 0, 0, 0, // r1 += r2
    0x04, 0x01, 0, 0, 1, 0, 0, 0, // w1 += 1
];

/// Returns whether this is printed of `r1`, an address before a slot of [`SUMS`], which adds `r2` or a constant.
fn was_address(alloc: Global, pc: u32, wanted: &str) -> Option<bool> {
    let mut note = Note::entry(alloc);
    note.set_register(1, DATA);
    note.set_register(2, Val::Num { lo: 0, hi: 70_000 });
    let code = decode(alloc, &SUMS).ok()?;
    let text = was_text(alloc, &[], &code, Register::R1, pc, &note).ok()?;
    Some(text.as_str() == wanted)
}

#[test]
fn since_when_it_is_no_address(rt: HostRuntime) {
    let rows = [
        (
            0,
            "R1 was pkt(id=0,off=0,r=0) before 0 with R2=scalar(umin=0,umax=70000): narrow the number that is added to at most 65535, in 64 bits, and compare the sum with data_end\n",
        ),
        (
            1,
            "R1 was pkt(id=0,off=0,r=0) before 1: narrow the number that is added to at most 65535, in 64 bits, and compare the sum with data_end\n",
        ),
    ];
    for (pc, wanted) in rows {
        assert_eq!(rt; was_address(rt.alloc(), pc, wanted), Some(true));
    }
}

/// Returns whether this is printed of `r1`, an address on seven of the eight notes at slot 37.
fn is_joined(alloc: Global, wanted: &str) -> Option<bool> {
    let text = joined_text(alloc, Register::R1, 37, 7).ok()?;
    Some(text.as_str() == wanted)
}

#[test]
fn more_ways_than_notes(rt: HostRuntime) {
    assert_eq!(rt;
        is_joined(
            rt.alloc(),
            "R1 is an address on 7 of the eight notes at 37, and a number on the last, into which every further one is joined: keep the offset as a number and add it to data anew\n",
        ),
        Some(true)
    );
}

/// The register of which [`STORE`] asks, if its bytes are a program.
fn asked_by_store(alloc: Global) -> Option<Option<Register>> {
    let code = decode(alloc, &STORE).ok()?;
    let refusal = Refusal {
        cause: Cause::NoPointer,
        pc: 0,
    };
    Some(asked_register(&code, refusal))
}

#[test]
fn an_access_through_a_number_asks(rt: HostRuntime) {
    assert_eq!(rt; asked_by_store(rt.alloc()), Some(Some(Register::R1)));
}

#[test]
fn bytes_of_no_program(rt: HostRuntime) {
    let bytes = b"\xb7\x00\x00\x00\x02\x00\x00\x00\xbf\x2b\x34\x12\x78\x56\x34\x12";
    let rows = [
        (
            Cause::Register,
            1,
            ">  1: bf 2b 3412 78563412\nrefused V3 at 1\nwrite instead: a register from r0 to r10\n",
        ),
        (
            Cause::Opcode,
            0,
            ">  0: b7 00 0000 02000000\nrefused V2 at 0\nwrite instead: an instruction's opcode, with each field as its form wants it\n",
        ),
        (
            Cause::Unsupported,
            0,
            ">  0: b7 00 0000 02000000\nrefused V19 at 0\nwrite instead: other instructions: this profile leaves this one out\n",
        ),
        (
            Cause::Register,
            2,
            "refused V3 at 2\nwrite instead: a register from r0 to r10\n",
        ),
        (
            Cause::Length,
            0,
            "refused V1 at 0\nwrite instead: 1 to 4096 slots of eight bytes\n",
        ),
    ];
    for (cause, pc, wanted) in rows {
        assert_eq!(rt;
            prints_undecoded(rt.alloc(), bytes, (cause, pc), wanted),
            Some(true),
            "{wanted}"
        );
    }
}

const ADD: Insn = Insn::AddCounter {
    fetch: false,
    dst: Register::R0,
    src: Register::R1,
    off: 0,
};

const COUNT: Insn = Insn::Stx {
    size: Size::Double,
    dst: Register::R0,
    src: Register::R1,
    off: 0,
};

#[test]
fn advice_by_the_address(rt: HostRuntime) {
    let rest = Val::Ctx;
    let rows = [
        (
            Cause::MapAccess,
            COUNT,
            Val::Value { m: 0 },
            "add to the counter in one step, as __sync_fetch_and_add: a store loses what another queue counts",
        ),
        (
            Cause::MapAccess,
            ADD,
            Val::Map { m: 0 },
            "look a key up first: the reference to a map is no address",
        ),
        (
            Cause::NoPointer,
            COUNT,
            Val::PktEnd,
            "access the packet through data: data_end serves comparisons alone",
        ),
    ];
    for (cause, insn, address, wanted) in rows {
        assert_eq!(rt; advice_by(rt.alloc(), cause, insn, [address, rest]), wanted);
    }
}
