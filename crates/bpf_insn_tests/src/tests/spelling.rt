//! Rows of the instruction table: bytes and text. The bytes are as `llvm-mc -triple=bpfel -mcpu=v3` (LLVM 14) writes
//! them if it knows the form, else as RFC 9669 gives them: section 4.1 for MOD, the offsets of SDIV, SMOD and MOVSX,
//! section 4.2 for the unconditional swap, section 4.3 for JSET and the jump by the immediate, sections 5.1 to 5.4 for
//! ST, MEMSX, FETCH and map references. The texts are in the notation of the kernel's disasm.c.

use crate::decoding::shows;
use std::alloc::Global;

/// The first row whose bytes aren't shown as its text.
fn first_wrong<'a>(alloc: Global, rows: &[(&'a str, &'a str)]) -> Option<&'a str> {
    for (hex, text) in rows {
        if !shows(alloc, hex, text) {
            return Some(*hex);
        }
    }
    None
}

#[test]
fn arithmetic(rt: HostRuntime) {
    let rows = [
        ("07000000fcffffff", "r0 += -4"),
        ("0400000007000000", "w0 += 7"),
        ("1f21000000000000", "r1 -= r2"),
        ("1c21000000000000", "w1 -= w2"),
        ("2703000003000000", "r3 *= 3"),
        ("3f54000000000000", "r4 /= r5"),
        ("47060000ff000000", "r6 |= 255"),
        ("5f87000000000000", "r7 &= r8"),
        ("6700000004000000", "r0 <<= 4"),
        ("7400000003000000", "w0 >>= 3"),
        ("a7020000ffffffff", "r2 ^= -1"),
        ("bf43000000000000", "r3 = r4"),
        ("b4030000ffffffff", "w3 = -1"),
        ("c70500003f000000", "r5 s>>= 63"),
        ("cc65000000000000", "w5 s>>= w6"),
        ("8700000000000000", "r0 = -r0"),
        ("8400000000000000", "w0 = -w0"),
    ];
    assert_eq!(rt; first_wrong(rt.alloc(), &rows), None);
}

#[test]
fn byte_swaps(rt: HostRuntime) {
    let rows = [
        ("d400000010000000", "r0 = le16 r0"),
        ("d400000020000000", "r0 = le32 r0"),
        ("d400000040000000", "r0 = le64 r0"),
        ("dc00000010000000", "r0 = be16 r0"),
        ("dc00000020000000", "r0 = be32 r0"),
        ("dc00000040000000", "r0 = be64 r0"),
        ("d700000010000000", "r0 = bswap16 r0"),
        ("d700000020000000", "r0 = bswap32 r0"),
        ("d700000040000000", "r0 = bswap64 r0"),
    ];
    assert_eq!(rt; first_wrong(rt.alloc(), &rows), None);
}

#[test]
fn loads_and_stores(rt: HostRuntime) {
    let rows = [
        ("18030000010000000000000002000000", "r3 = 0x200000001"),
        ("7110010000000000", "r0 = *(u8 *)(r1 +1)"),
        ("6910020000000000", "r0 = *(u16 *)(r1 +2)"),
        ("6120000000000000", "r0 = *(u32 *)(r2 +0)"),
        ("79a0f8ff00000000", "r0 = *(u64 *)(r10 -8)"),
        ("7321000000000000", "*(u8 *)(r1 +0) = r2"),
        ("6b21020000000000", "*(u16 *)(r1 +2) = r2"),
        ("6321040000000000", "*(u32 *)(r1 +4) = r2"),
        ("7b2af8ff00000000", "*(u64 *)(r10 -8) = r2"),
        ("db1af8ff00000000", "lock *(u64 *)(r10 -8) += r1"),
    ];
    assert_eq!(rt; first_wrong(rt.alloc(), &rows), None);
}

#[test]
fn jumps(rt: HostRuntime) {
    let rows = [
        ("0500010000000000", "goto pc+1"),
        ("1500010005000000", "if r0 == 0x5 goto pc+1"),
        ("2d10020000000000", "if r0 > r1 goto pc+2"),
        ("3500fdff05000000", "if r0 >= 0x5 goto pc-3"),
        ("5d10010000000000", "if r0 != r1 goto pc+1"),
        ("65000100ffffffff", "if r0 s> 0xffffffff goto pc+1"),
        ("7d10010000000000", "if r0 s>= r1 goto pc+1"),
        ("a500010005000000", "if r0 < 0x5 goto pc+1"),
        ("bd10010000000000", "if r0 <= r1 goto pc+1"),
        ("c600010005000000", "if w0 s< 0x5 goto pc+1"),
        ("de10010000000000", "if w0 s<= w1 goto pc+1"),
        ("8500000001000000", "call 1"),
        ("9500000000000000", "exit"),
    ];
    assert_eq!(rt; first_wrong(rt.alloc(), &rows), None);
}

#[test]
fn signed_arithmetic(rt: HostRuntime) {
    let rows = [
        ("970100000a000000", "r1 %= 10"),
        ("9c21000000000000", "w1 %= w2"),
        ("3f10010000000000", "r0 s/= r1"),
        ("34000100fdffffff", "w0 s/= -3"),
        ("9700010003000000", "r0 s%= 3"),
        ("9c21010000000000", "w1 s%= w2"),
        ("bf12080000000000", "r2 = (s8)r1"),
        ("bf12100000000000", "r2 = (s16)r1"),
        ("bf12200000000000", "r2 = (s32)r1"),
        ("bc12080000000000", "w2 = (s8)w1"),
        ("bc12100000000000", "w2 = (s16)w1"),
    ];
    assert_eq!(rt; first_wrong(rt.alloc(), &rows), None);
}

#[test]
fn forms_that_llvm_14_lacks(rt: HostRuntime) {
    let rows = [
        ("4500010005000000", "if r0 & 0x5 goto pc+1"),
        ("0600000000000000", "gotol pc+0"),
        ("72010000ff000000", "*(u8 *)(r1 +0) = 255"),
        ("7a0af8ffffffffff", "*(u64 *)(r10 -8) = -1"),
        ("81a2f8ff00000000", "r2 = *(s32 *)(r10 -8)"),
        ("8912000000000000", "r2 = *(s16 *)(r1 +0)"),
        ("9112ff7f00000000", "r2 = *(s8 *)(r1 +32767)"),
        (
            "db1af8ff01000000",
            "r1 = atomic64_fetch_add((u64 *)(r10 -8), r1)",
        ),
        ("18110000000000000000000000000000", "r1 = map 0"),
        ("18190000ffffffff0000000000000000", "r9 = map 4294967295"),
        (
            "18090000ffffffff00000000ffffffff",
            "r9 = 0xffffffffffffffff",
        ),
    ];
    assert_eq!(rt; first_wrong(rt.alloc(), &rows), None);
}
