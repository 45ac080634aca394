//! Registers that are read and written, and slots that follow.

use super::same;
use bpf_flow::{jump_target, next_slot, reads, writes};
use bpf_insn::{AluOp, Insn, Operand, Register};

/// `r2 op= r3`.
fn alu(op: AluOp) -> Insn {
    Insn::Alu {
        op,
        wide: true,
        dst: Register::R2,
        src: Operand::Register(Register::R3),
    }
}

/// Returns whether an instruction reads `r0`, `r2` and `r3`, and whether it writes them.
fn used(insn: Insn) -> ([bool; 3], [bool; 3]) {
    let (r0, r2, r3) = (Register::R0, Register::R2, Register::R3);
    (
        [reads(insn, r0), reads(insn, r2), reads(insn, r3)],
        [writes(insn, r0), writes(insn, r2), writes(insn, r3)],
    )
}

#[test]
fn registers_of_instructions(rt: HostRuntime) {
    let fetch = Insn::AddCounter {
        fetch: true,
        dst: Register::R2,
        src: Register::R3,
        off: 0,
    };
    // an instruction, whether it reads r0, r2 and r3, and whether it writes them
    for (insn, read, written) in [
        (alu(AluOp::Add), [false, true, true], [false, true, false]),
        (alu(AluOp::Mov), [false, false, true], [false, true, false]),
        (fetch, [false, true, true], [false, false, true]),
        (
            Insn::Call { helper: 1 },
            [false, true, false],
            [true, false, false],
        ),
        (Insn::Exit, [true, false, false], [false, false, false]),
    ] {
        same(&rt, &insn, &used(insn), &(read, written));
    }
}

#[test]
fn slots_that_follow(rt: HostRuntime) {
    let dst = Register::R2;
    for (insn, wanted) in [
        (Insn::Exit, 8),
        (Insn::Const { dst, value: 0 }, 9),
        (Insn::MapRef { dst, m: 0 }, 9),
    ] {
        same(&rt, &insn, &next_slot(insn, 7), &wanted);
    }
}

#[test]
fn slots_that_a_jump_leads_to(rt: HostRuntime) {
    for (pc, off, wanted) in [
        (7, 2, Some(10)),
        (7, -3, Some(5)),
        (0, -1, Some(0)),
        (0, -2, None),
    ] {
        same(&rt, &(pc, off), &jump_target(pc, off), &wanted);
    }
}
