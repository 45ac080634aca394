//! Which registers an instruction reads and writes, and where it may lead.
ghost use Rattle.std.specs.Prelude.{◌≡◌, ◌<◌};
ghost use Rattle.bpf_flow.specs.Graph.{is_operand, reads, writes, next_slot};
ghost use Rattle.bpf_flow.specs.Step.{target};
ghost use Rattle.bpf_insn.specs.Register.{number};

use bpf_insn::{AluOp, Insn, Operand, Register};

fn is_operand(operand: Operand, register: Register) -> bool
    ensures { result ≡ is_operand operand (number register) }
{
    match operand {
        Operand::Register(read) => register.number() == read.number(),
        Operand::Immediate(_) => false,
    }
}

/// Returns whether an instruction reads a register.
pub fn reads(insn: Insn, register: Register) -> bool
    ensures { result ≡ reads insn (number register) }
{
    let k = register.number();
    match insn {
        Insn::Alu {
            op: AluOp::Mov,
            src,
            ..
        } => is_operand(src, register),
        Insn::Alu { dst, src, .. } | Insn::Jump { dst, src, .. } => {
            k == dst.number() || is_operand(src, register)
        }
        Insn::Neg { dst, .. } | Insn::End { dst, .. } | Insn::St { dst, .. } => k == dst.number(),
        Insn::MovSx { src, .. } | Insn::Ldx { src, .. } => k == src.number(),
        Insn::Stx { dst, src, .. } | Insn::AddCounter { dst, src, .. } => {
            k == dst.number() || k == src.number()
        }
        Insn::Call { .. } => k == 1 || k == 2,
        Insn::Exit => k == 0,
        Insn::Const { .. } | Insn::MapRef { .. } | Insn::Ja { .. } | Insn::Second => false,
    }
}

/// Returns whether an instruction writes a register.
pub fn writes(insn: Insn, register: Register) -> bool
    ensures { result ≡ writes insn (number register) }
{
    let k = register.number();
    match insn {
        Insn::Alu { dst, .. }
        | Insn::Neg { dst, .. }
        | Insn::End { dst, .. }
        | Insn::MovSx { dst, .. }
        | Insn::Const { dst, .. }
        | Insn::MapRef { dst, .. }
        | Insn::Ldx { dst, .. } => k == dst.number(),
        Insn::AddCounter { fetch, src, .. } => fetch && k == src.number(),
        Insn::Call { .. } => k == 0,
        Insn::St { .. }
        | Insn::Stx { .. }
        | Insn::Ja { .. }
        | Insn::Jump { .. }
        | Insn::Exit
        | Insn::Second => false,
    }
}

/// The slot after an instruction. A wide load takes two slots.
pub fn next_slot(insn: Insn, pc: u32) -> u32
    requires { pc < 4096 }
    ensures { result ≡ next_slot insn pc }
{
    match insn {
        Insn::Const { .. } | Insn::MapRef { .. } => pc + 2,
        _ => pc + 1,
    }
}

/// The slot that a jump over `off` slots from the slot after `pc` leads to, unless it lies below the first.
pub fn jump_target(pc: u32, off: i32) -> Option<u32>
    requires { pc < 4096 }
    ensures { result ≡ target pc off }
{
    let to = i64::from(pc) + 1 + i64::from(off);
    if to < 0 { None } else { Some(to as u32) }
}
