//! Values of the operations from outside. Each row names its source: D for this profile's stated results (the least number
//! by -1, zero divisors), R for RFC 9669 section 4, K for values worked by hand from it, P for Python 3's integers reduced
//! modulo 2 ^ 64 or 2 ^ 32.

use bpf_insn::{
    AluOp, Condition, Size, SwapKind, Width, alu, extend, holds, move_extended, negate, swap,
};

/// -1 as 64 bits.
const ONES: u64 = u64::MAX;
/// The least number of 64 bits.
const LEAST: u64 = 1 << 63;

#[test]
fn wide(rt: HostRuntime) {
    let rows = [
        // D
        (AluOp::Div, 7, 0, 0),
        (AluOp::Mod, 7, 0, 7),
        (AluOp::SignedDiv, LEAST, ONES, LEAST),
        (AluOp::SignedMod, LEAST, ONES, 0),
        (AluOp::SignedDiv, LEAST, 0, 0),
        (AluOp::SignedMod, LEAST, 0, LEAST),
        // R: -13 SMOD 3 is -1; SDIV truncates towards zero
        (AluOp::SignedMod, ONES - 12, 3, ONES),
        (AluOp::SignedDiv, ONES - 12, 3, ONES - 3),
        // K
        (AluOp::Add, 0xffff_fffe, 2, 0x1_0000_0000),
        (AluOp::Add, ONES, 1, 0),
        (AluOp::Sub, 4_294_967_295, 4_294_967_294, 1),
        (AluOp::Mul, 2_147_483_647, 2, 4_294_967_294),
        (AluOp::Mul, ONES, 3, ONES - 2),
        (AluOp::Div, 0xffff_ffff_ffff_ffff, 0xffff_ffff_ffff_ffff, 1),
        (AluOp::Mod, 0xffff_ffff_ffff_ffff, 0xffff_ffff_ffff_fffd, 2),
        (
            AluOp::And,
            0xffff_ffff_ffff_0000,
            0xffff_ffff_ffff_ffff,
            0xffff_ffff_ffff_0000,
        ),
        (
            AluOp::Or,
            0x0000_ffff_ffff_0000,
            0xffff_ffff_ffff_ffff,
            ONES,
        ),
        (
            AluOp::Xor,
            0x0000_ffff_ffff_0000,
            0xffff_ffff_ffff_ffff,
            0xffff_0000_0000_ffff,
        ),
        (AluOp::Lsh, 1, 63, 0x8000_0000_0000_0000),
        (AluOp::Lsh, 0x0123_4567_89ab_cdef, 12, 0x3456_789a_bcde_f000),
        (AluOp::Rsh, 0x8000_0000_0000_0000, 63, 1),
        (AluOp::Rsh, 0x8123_4567_89ab_cdef, 12, 0x0008_1234_5678_9abc),
        (
            AluOp::Arsh,
            0xff00_ff00_0000_0000,
            40,
            0xffff_ffff_ffff_00ff,
        ),
        (
            AluOp::Arsh,
            0x8123_4567_89ab_cdef,
            36,
            0xffff_ffff_f812_3456,
        ),
        // R: shift amounts are masked by 63
        (AluOp::Lsh, 1, 64, 1),
        (AluOp::Lsh, 1, 127, LEAST),
        (AluOp::Rsh, LEAST, 64, LEAST),
        (AluOp::Arsh, LEAST, 65, 0xc000_0000_0000_0000),
        // P
        (AluOp::SignedDiv, 7, ONES - 1, ONES - 2),
        (AluOp::SignedMod, 7, ONES - 1, 1),
        (AluOp::SignedMod, ONES - 6, 2, ONES),
        (AluOp::Sub, 0, 1, ONES),
        (AluOp::Mov, 5, 9, 9),
    ];
    for (op, dst, src, result) in rows {
        assert_eq!(rt; alu(op, true, dst, src), result, "{op} {dst} {src}");
    }
}

#[test]
fn narrow(rt: HostRuntime) {
    let rows = [
        // D
        (AluOp::Mov, 0, ONES, 0xffff_ffff),
        (AluOp::Mod, ONES, 0, 0xffff_ffff),
        (AluOp::Div, ONES, 0, 0),
        (AluOp::SignedDiv, 0x8000_0000, ONES, 0x8000_0000),
        (AluOp::SignedMod, 0x8000_0000, ONES, 0),
        (AluOp::SignedMod, 0xf_8000_0000, 0, 0x8000_0000),
        // R: the upper halves take no part, and that of the result is 0
        (AluOp::Add, 0xffff_ffff, 1, 0),
        (AluOp::Add, 0xf_0000_0001, 0xf_0000_0002, 3),
        (AluOp::Div, 0xf_0000_0009, 0xf_0000_0003, 3),
        (AluOp::And, ONES, ONES, 0xffff_ffff),
        (AluOp::SignedMod, 0xffff_fff3, 3, 0xffff_ffff),
        // K
        (AluOp::Sub, 0, 1, 0xffff_ffff),
        (AluOp::Mul, 0x7fff_ffff, 2, 0xffff_fffe),
        (AluOp::Mod, 0xffff_ffff, 0xffff_fffd, 2),
        (AluOp::Or, 0xffff_0000, 0x0000_ffff, 0xffff_ffff),
        (AluOp::Xor, 0xffff_ffff, 1, 0xffff_fffe),
        (AluOp::Lsh, 1, 31, 0x8000_0000),
        (AluOp::Rsh, 0x8000_0000, 31, 1),
        (AluOp::Arsh, 0x8123_4567, 7, 0xff02_468a),
        // R: shift amounts are masked by 31
        (AluOp::Lsh, 1, 32, 1),
        (AluOp::Rsh, 0x8000_0000, 33, 0x4000_0000),
        (AluOp::Arsh, 0x8000_0000, 63, 0xffff_ffff),
    ];
    for (op, dst, src, result) in rows {
        assert_eq!(rt; alu(op, false, dst, src), result, "{op} {dst} {src}");
    }
}

#[test]
fn negations(rt: HostRuntime) {
    // P
    for (wide, dst, result) in [
        (true, 1, ONES),
        (true, 0, 0),
        (true, LEAST, LEAST),
        (false, 1, 0xffff_ffff),
        (false, 0xf_0000_0000, 0),
        (false, 0x8000_0000, 0x8000_0000),
    ] {
        assert_eq!(rt; negate(wide, dst), result, "{wide} {dst}");
    }
}

#[test]
fn byte_swaps(rt: HostRuntime) {
    // K: BPF_END of 0x0123456789abcdef and 0xfedcba9876543210; R: bswap
    let value = 0x0123_4567_89ab_cdef;
    for (kind, width, result) in [
        (SwapKind::ToBig, Width::Bits16, 0xefcd),
        (SwapKind::ToBig, Width::Bits32, 0xefcd_ab89),
        (SwapKind::ToBig, Width::Bits64, 0xefcd_ab89_6745_2301),
        (SwapKind::ToLittle, Width::Bits16, 0xcdef),
        (SwapKind::ToLittle, Width::Bits32, 0x89ab_cdef),
        (SwapKind::ToLittle, Width::Bits64, value),
        (SwapKind::Swap, Width::Bits16, 0xefcd),
        (SwapKind::Swap, Width::Bits32, 0xefcd_ab89),
        (SwapKind::Swap, Width::Bits64, 0xefcd_ab89_6745_2301),
    ] {
        assert_eq!(rt; swap(kind, width, value), result, "{kind}");
    }
}

#[test]
fn extensions(rt: HostRuntime) {
    // R: section 4.1 and 5.2
    for (size, value, result, low) in [
        (Size::Byte, 0xff80, 0xffff_ffff_ffff_ff80, 0xffff_ff80),
        (Size::Byte, 0x7f, 0x7f, 0x7f),
        (Size::Half, 0x1_8000, 0xffff_ffff_ffff_8000, 0xffff_8000),
        (Size::Half, 0x7fff, 0x7fff, 0x7fff),
        (Size::Word, 0xffff_ffff, ONES, 0xffff_ffff),
        (Size::Word, 0x8000_0000_7fff_ffff, 0x7fff_ffff, 0x7fff_ffff),
        (Size::Double, LEAST, LEAST, 0),
    ] {
        let answers = [
            extend(size, value),
            move_extended(true, size, value),
            move_extended(false, size, value),
        ];
        assert_eq!(rt; answers, [result, result, low], "{value}");
    }
}

#[test]
fn conditions(rt: HostRuntime) {
    // R: section 4.3, of -1 and 1, which the unsigned forms read as the greatest number and 1
    for (cond, both, other) in [
        (Condition::Equal, false, false),
        (Condition::NotEqual, true, true),
        (Condition::Greater, true, false),
        (Condition::GreaterOrEqual, true, false),
        (Condition::Less, false, true),
        (Condition::LessOrEqual, false, true),
        (Condition::SignedGreater, false, true),
        (Condition::SignedGreaterOrEqual, false, true),
        (Condition::SignedLess, true, false),
        (Condition::SignedLessOrEqual, true, false),
        (Condition::Set, true, true),
    ] {
        let answers = [
            holds(cond, true, ONES, 1),
            holds(cond, true, 1, ONES),
            holds(cond, false, 0xf_ffff_ffff, 0xf_0000_0001),
            holds(cond, false, 0xf_0000_0001, 0xffff_ffff),
        ];
        assert_eq!(rt; answers, [both, other, both, other], "{cond}");
    }
    let others = [
        holds(Condition::Set, true, 1, 2),
        holds(Condition::Set, false, 0xf_0000_0001, 0xf_0000_0002),
        holds(Condition::Equal, false, 0x1_0000_0005, 5),
    ];
    assert_eq!(rt; others, [false, false, true]);
}

#[test]
fn equal_operands(rt: HostRuntime) {
    // R: section 4.3, whose table has an `=` in the forms that hold of equal numbers; section 4.1: 32-bit forms read the
    // low halves alone. The numbers are -1, the least and the greatest of each width, and 1; none has a zero AND with itself.
    for (cond, holds_of_equals) in [
        (Condition::Equal, true),
        (Condition::NotEqual, false),
        (Condition::Greater, false),
        (Condition::GreaterOrEqual, true),
        (Condition::Less, false),
        (Condition::LessOrEqual, true),
        (Condition::SignedGreater, false),
        (Condition::SignedGreaterOrEqual, true),
        (Condition::SignedLess, false),
        (Condition::SignedLessOrEqual, true),
        (Condition::Set, true),
    ] {
        for number in [ONES, LEAST, LEAST - 1, 1] {
            assert_eq!(rt;
                holds(cond, true, number, number),
                holds_of_equals,
                "{cond} {number}"
            );
        }
        for low in [0xffff_ffff, 0x8000_0000, 0x7fff_ffff, 1] {
            let other = low + 0xf_0000_0000;
            assert_eq!(rt;
                holds(cond, false, low, other),
                holds_of_equals,
                "{cond} {low}"
            );
        }
    }
}
