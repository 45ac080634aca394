//! One instruction at slot 7, done to the note itself.

use crate::known::{exactly, range};
use bpf_flow::{Ways, transfer};
use bpf_insn::{AluOp, Cause, Condition, Insn, Operand, Register};
use bpf_note::{Note, Spares, Val};
use std::alloc::Global;

/// `r2 op= src`.
fn r2_gets(alloc: Global, note: &mut Note, op: AluOp, src: Operand) -> Result<Ways, Cause> {
    let insn = Insn::Alu {
        op,
        wide: true,
        dst: Register::R2,
        src,
    };
    transfer(&mut Spares::none(alloc), &insn, 7, note, &[])
}

/// A note of which nothing but `r2` is known, beside what is known at first.
fn note_of(alloc: Global, r2: Val) -> Note {
    let mut note = Note::entry(alloc);
    note.set_register(2, r2);
    note
}

/// Returns whether `r2 += 10` leads to slot 8 alone, and changes `r2` alone from one value to another.
fn adds_ten(alloc: Global, from: Val, to: Val) -> bool {
    let mut note = note_of(alloc, from);
    let ways = r2_gets(alloc, &mut note, AluOp::Add, Operand::Immediate(10));
    matches!(&ways, Ok(Ways::One(8))) && note.same_as(&note_of(alloc, to))
}

#[test]
fn an_addition_changes_its_register_in_place(rt: HostRuntime) {
    assert!(rt; adds_ten(rt.alloc(), range(1, 5), range(11, 15)));
}

/// The cause against an addition of `r3`, which isn't set, and whether it leaves the note.
fn refused_addition(alloc: Global) -> (Option<Cause>, bool) {
    let mut note = note_of(alloc, exactly(1));
    let src = Operand::Register(Register::R3);
    let refused = r2_gets(alloc, &mut note, AluOp::Add, src).err();
    (refused, note.same_as(&note_of(alloc, exactly(1))))
}

#[test]
fn a_refused_instruction_leaves_the_note(rt: HostRuntime) {
    assert_eq!(rt; refused_addition(rt.alloc()), (Some(Cause::Unset), true));
}

/// Returns where a jump over two slots for `r2 > 4` leads, and what is known of `r2` there.
fn ways_of_a_jump(alloc: Global) -> Option<[(u32, Val); 2]> {
    let mut note = note_of(alloc, range(0, 9));
    let insn = Insn::Jump {
        cond: Condition::Greater,
        wide: true,
        dst: Register::R2,
        src: Operand::Immediate(4),
        off: 2,
    };
    match transfer(&mut Spares::none(alloc), &insn, 7, &mut note, &[]) {
        Ok(Ways::Two(next, target)) => Some([
            (next, note.register(2)),
            (target.pc, target.note.register(2)),
        ]),
        _ => None,
    }
}

#[test]
fn a_jump_gives_two_ways(rt: HostRuntime) {
    let wanted = Some([(8, range(0, 4)), (10, range(5, 9))]);
    assert_eq!(rt; ways_of_a_jump(rt.alloc()), wanted);
}
