//! Each form with extreme fields is decoded again.

use crate::decoding::is_decoded_again;
use bpf_insn::{AluOp, Condition, Insn, Operand, Register, Size, SwapKind, Width};

#[test]
fn arithmetic(rt: HostRuntime) {
    let r10 = Register::R10;
    let least = Operand::Immediate(i32::MIN);
    assert!(rt;
        is_decoded_again(
            rt.alloc(),
            Insn::Alu {
                op: AluOp::Arsh,
                wide: true,
                dst: r10,
                src: least
            }
        )
    );
    let src = Operand::Register(r10);
    assert!(rt;
        is_decoded_again(
            rt.alloc(),
            Insn::Alu {
                op: AluOp::SignedMod,
                wide: false,
                dst: Register::R0,
                src
            }
        )
    );
    assert!(rt;
        is_decoded_again(
            rt.alloc(),
            Insn::Neg {
                wide: false,
                dst: r10
            }
        )
    );
    assert!(rt;
        is_decoded_again(
            rt.alloc(),
            Insn::End {
                kind: SwapKind::Swap,
                width: Width::Bits64,
                dst: r10
            }
        )
    );
    assert!(rt;
        is_decoded_again(
            rt.alloc(),
            Insn::MovSx {
                wide: true,
                bits: Size::Word,
                dst: r10,
                src: r10
            }
        )
    );
}

#[test]
fn wide_loads(rt: HostRuntime) {
    let dst = Register::R10;
    assert!(rt;
        is_decoded_again(
            rt.alloc(),
            Insn::Const {
                dst,
                value: u64::MAX
            }
        )
    );
    assert!(rt;
        is_decoded_again(
            rt.alloc(),
            Insn::Const {
                dst,
                value: 0x8000_0000
            }
        )
    );
    assert!(rt; is_decoded_again(rt.alloc(), Insn::MapRef { dst, m: u32::MAX }));
}

#[test]
fn accesses(rt: HostRuntime) {
    let (dst, src) = (Register::R10, Register::R10);
    let (low, high) = (i16::MIN, i16::MAX);
    assert!(rt;
        is_decoded_again(
            rt.alloc(),
            Insn::Ldx {
                size: Size::Double,
                signed: false,
                dst,
                src,
                off: low
            }
        )
    );
    assert!(rt;
        is_decoded_again(
            rt.alloc(),
            Insn::Ldx {
                size: Size::Word,
                signed: true,
                dst,
                src,
                off: high
            }
        )
    );
    assert!(rt;
        is_decoded_again(
            rt.alloc(),
            Insn::St {
                size: Size::Byte,
                dst,
                off: low,
                imm: i32::MIN
            }
        )
    );
    assert!(rt;
        is_decoded_again(
            rt.alloc(),
            Insn::Stx {
                size: Size::Half,
                dst,
                src,
                off: high
            }
        )
    );
    assert!(rt;
        is_decoded_again(
            rt.alloc(),
            Insn::AddCounter {
                fetch: true,
                dst,
                src,
                off: low
            }
        )
    );
}

#[test]
fn jumps(rt: HostRuntime) {
    let dst = Register::R10;
    let src = Operand::Immediate(i32::MIN);
    let off = i16::MIN;
    assert!(rt;
        is_decoded_again(
            rt.alloc(),
            Insn::Ja {
                wide_offset: false,
                to: -32_768
            }
        )
    );
    assert!(rt;
        is_decoded_again(
            rt.alloc(),
            Insn::Ja {
                wide_offset: true,
                to: i32::MIN
            }
        )
    );
    assert!(rt;
        is_decoded_again(
            rt.alloc(),
            Insn::Jump {
                cond: Condition::SignedLessOrEqual,
                wide: false,
                dst,
                src,
                off
            }
        )
    );
    assert!(rt; is_decoded_again(rt.alloc(), Insn::Call { helper: i32::MIN }));
    assert!(rt; is_decoded_again(rt.alloc(), Insn::Exit));
}
