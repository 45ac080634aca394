//! Slots to instructions.
ghost use Rattle.std.specs.Prelude.{◌≡◌, ◌+◌, ◌/◌, ◌%◌, ◌⊎◌, Bool, ℤ, [], ◌∷◌, IfNone, IfSome};
ghost use Rattle.std.specs.Prelude.{◌^◌};
ghost use Rattle.std.specs.Int.{cast_signed, w32};
ghost use Rattle.bpf_insn.specs.Register.{number};
ghost use Rattle.bpf_insn.specs.Spelling.{FitsFields, slots};
ghost use Rattle.bpf_insn.specs.Form.{IsOperand};
ghost use Rattle.bpf_insn.specs.declared.alu_op.AluOp.{AluOp};
ghost use Rattle.bpf_insn.specs.declared.condition.Condition.{Condition};
ghost use Rattle.bpf_insn.specs.declared.fields.Fields.{Fields};
ghost use Rattle.bpf_insn.specs.declared.insn.Insn.{Insn};
ghost use Rattle.bpf_insn.specs.declared.operand.Operand.{Operand};
ghost use Rattle.bpf_insn.specs.declared.register.Register.{Register};
ghost use Rattle.bpf_insn.specs.declared.size.Size.{Size};
ghost use Rattle.bpf_insn.specs.declared.swap_kind.SwapKind.{SwapKind};
ghost use Rattle.bpf_insn.specs.declared.width.Width.{Width};

use crate::access_slot::{load, store, store_constant};
use crate::alu_op::AluOp;
use crate::condition::Condition;
use crate::fields::Fields;
use crate::insn::Insn;
use crate::operand::Operand;
use crate::register::Register;
use crate::size::Size;
use crate::swap_kind::SwapKind;
use crate::width::Width;

/// The second operand, which the opcode's source bit chooses; the field of the other kind is 0.
fn operand(f: Fields) -> Option<Operand>
    ensures some { IfSome result (λ o. IsOperand f o) }
    ensures none { IfNone result ((o : Operand) → IsOperand f o → ⊥) }
{
    if f.op / 8 % 2 == 0 {
        if f.src == 0 {
            Some(Operand::Immediate(f.imm))
        } else {
            None
        }
    } else if f.imm == 0 {
        Some(Operand::Register(Register::of_number(f.src)?))
    } else {
        None
    }
}

/// An instruction of two operands.
fn binary(f: Fields) -> Option<Insn>
    requires { (f.op % 8 ≡ 4) ⊎ (f.op % 8 ≡ 7) }
    ensures some { IfSome result (λ i. slots i ≡ f ∷ []) }
    ensures none { IfNone result ((op : AluOp) (wide : Bool) (dst : Register) (src : Operand) →
        slots (Insn.Alu op wide dst src) ≡ f ∷ [] → ⊥) }
{
    let dst = Register::of_number(f.dst)?;
    let op = AluOp::of_code(f.op - f.op % 16, f.off)?;
    let src = operand(f)?;
    Some(Insn::Alu {
        op,
        wide: f.op % 8 == 7,
        dst,
        src,
    })
}

/// NEG, of one operand.
fn negation(f: Fields) -> Option<Insn>
    ensures some { IfSome result (λ i. slots i ≡ f ∷ []) }
    ensures none { IfNone result ((wide : Bool) (dst : Register) → slots (Insn.Neg wide dst) ≡ f ∷ [] → ⊥) }
{
    let dst = Register::of_number(f.dst)?;
    match (f.op, f.src, f.off, f.imm) {
        (0x84, 0, 0, 0) => Some(Insn::Neg { wide: false, dst }),
        (0x87, 0, 0, 0) => Some(Insn::Neg { wide: true, dst }),
        _ => None,
    }
}

/// A byte swap.
fn byte_swap(f: Fields) -> Option<Insn>
    ensures some { IfSome result (λ i. slots i ≡ f ∷ []) }
    ensures none { IfNone result ((kind : SwapKind) (width : Width) (dst : Register) → slots (Insn.End kind width dst) ≡ f ∷ [] → ⊥) }
{
    let dst = Register::of_number(f.dst)?;
    let kind = match f.op {
        0xd4 => SwapKind::ToLittle,
        0xdc => SwapKind::ToBig,
        0xd7 => SwapKind::Swap,
        _ => return None,
    };
    if f.src != 0 || f.off != 0 {
        return None;
    }
    let width = match f.imm {
        16 => Width::Bits16,
        32 => Width::Bits32,
        64 => Width::Bits64,
        _ => return None,
    };
    Some(Insn::End { kind, width, dst })
}

/// A move with sign extension.
fn extending_move(f: Fields) -> Option<Insn>
    ensures some { IfSome result (λ i. slots i ≡ f ∷ []) }
    ensures none { IfNone result ((wide : Bool) (bits : Size) (dst src : Register) → slots (Insn.MovSx wide bits dst src) ≡ f ∷ [] → ⊥) }
{
    let dst = Register::of_number(f.dst)?;
    let src = Register::of_number(f.src)?;
    if f.imm != 0 {
        return None;
    }
    let (wide, bits) = match (f.op, f.off) {
        (0xbc, 8) => (false, Size::Byte),
        (0xbc, 16) => (false, Size::Half),
        (0xbf, 8) => (true, Size::Byte),
        (0xbf, 16) => (true, Size::Half),
        (0xbf, 32) => (true, Size::Word),
        _ => return None,
    };
    Some(Insn::MovSx {
        wide,
        bits,
        dst,
        src,
    })
}

/// A conditional jump.
fn conditional(f: Fields) -> Option<Insn>
    requires { (f.op % 8 ≡ 5) ⊎ (f.op % 8 ≡ 6) }
    ensures some { IfSome result (λ i. slots i ≡ f ∷ []) }
    ensures none { IfNone result ((cond : Condition) (wide : Bool) (dst : Register) (src : Operand) (off : ℤ) →
        slots (Insn.Jump cond wide dst src off) ≡ f ∷ [] → ⊥) }
{
    let dst = Register::of_number(f.dst)?;
    let cond = Condition::of_code(f.op - f.op % 16)?;
    let src = operand(f)?;
    Some(Insn::Jump {
        cond,
        wide: f.op % 8 == 5,
        dst,
        src,
        off: f.off,
    })
}

/// A jump, a call or an exit without registers.
fn bare(f: Fields) -> Option<Insn>
    ensures some { IfSome result (λ i. slots i ≡ f ∷ []) }
    ensures ja { IfNone result ((wide_offset : Bool) (to : ℤ) → slots (Insn.Ja wide_offset to) ≡ f ∷ [] → ⊥) }
    ensures call { IfNone result ((helper : ℤ) → slots (Insn.Call helper) ≡ f ∷ [] → ⊥) }
    ensures exit { IfNone result (slots Insn.Exit ≡ f ∷ [] → ⊥) }
{
    match (f.op, f.dst, f.src, f.off, f.imm) {
        (0x05, 0, 0, off, 0) => Some(Insn::Ja {
            wide_offset: false,
            to: off as i32,
        }),
        (0x06, 0, 0, 0, imm) => Some(Insn::Ja {
            wide_offset: true,
            to: imm,
        }),
        (0x85, 0, 0, 0, imm) => Some(Insn::Call { helper: imm }),
        (0x95, 0, 0, 0, 0) => Some(Insn::Exit),
        _ => None,
    }
}

/// An ALU or ALU64 instruction.
fn arithmetic(f: Fields) -> Option<Insn>
    requires { (f.op % 8 ≡ 4) ⊎ (f.op % 8 ≡ 7) }
    ensures some { IfSome result (λ i. slots i ≡ f ∷ []) }
    ensures alu { IfNone result ((op : AluOp) (wide : Bool) (dst : Register) (src : Operand) →
        slots (Insn.Alu op wide dst src) ≡ f ∷ [] → ⊥) }
    ensures neg { IfNone result ((wide : Bool) (dst : Register) → slots (Insn.Neg wide dst) ≡ f ∷ [] → ⊥) }
    ensures swap { IfNone result ((kind : SwapKind) (width : Width) (dst : Register) → slots (Insn.End kind width dst) ≡ f ∷ [] → ⊥) }
    ensures extend { IfNone result ((wide : Bool) (bits : Size) (dst src : Register) → slots (Insn.MovSx wide bits dst src) ≡ f ∷ [] → ⊥) }
{
    if let Some(insn) = binary(f) {
        return Some(insn);
    }
    if let Some(insn) = negation(f) {
        return Some(insn);
    }
    if let Some(insn) = byte_swap(f) {
        return Some(insn);
    }
    extending_move(f)
}

/// A JMP or JMP32 instruction.
fn jump(f: Fields) -> Option<Insn>
    requires { (f.op % 8 ≡ 5) ⊎ (f.op % 8 ≡ 6) }
    ensures some { IfSome result (λ i. slots i ≡ f ∷ []) }
    ensures conditional { IfNone result ((cond : Condition) (wide : Bool) (dst : Register) (src : Operand) (off : ℤ) →
        slots (Insn.Jump cond wide dst src off) ≡ f ∷ [] → ⊥) }
    ensures ja { IfNone result ((wide_offset : Bool) (to : ℤ) → slots (Insn.Ja wide_offset to) ≡ f ∷ [] → ⊥) }
    ensures call { IfNone result ((helper : ℤ) → slots (Insn.Call helper) ≡ f ∷ [] → ⊥) }
    ensures exit { IfNone result (slots Insn.Exit ≡ f ∷ [] → ⊥) }
{
    if let Some(insn) = conditional(f) {
        return Some(insn);
    }
    bare(f)
}

/// The instruction that one slot spells.
pub(crate) fn narrow(f: Fields) -> Option<Insn>
    ensures some { IfSome result (λ i. slots i ≡ f ∷ []) }
    ensures fits { IfSome result FitsFields }
    ensures none { IfNone result ((i : Insn) → slots i ≡ f ∷ [] → ⊥) }
{
    match f.op % 8 {
        1 => load(f),
        2 => store_constant(f),
        3 => store(f),
        4 | 7 => arithmetic(f),
        5 | 6 => jump(f),
        _ => None,
    }
}

/// The number in two halves.
fn constant(low: i32, high: i32) -> u64
    ensures low { cast_signed w32 (result % 2 ^ 32) ≡ low }
    ensures high { cast_signed w32 (result / 2 ^ 32) ≡ high }
{
    low.cast_unsigned() as u64 + 4_294_967_296 * high.cast_unsigned() as u64
}

/// The wide load that two slots spell.
pub(crate) fn wide(first: Fields, second: Fields) -> Option<Insn>
    ensures some { IfSome result (λ i. slots i ≡ first ∷ second ∷ []) }
    ensures fits { IfSome result FitsFields }
    ensures none { IfNone result ((i : Insn) → slots i ≡ first ∷ second ∷ [] → ⊥) }
{
    let dst = Register::of_number(first.dst)?;
    if first.op != 0x18 || first.off != 0 {
        return None;
    }
    if second.op != 0 || second.dst != 0 || second.src != 0 || second.off != 0 {
        return None;
    }
    match (first.src, second.imm) {
        (0, high) => Some(Insn::Const {
            dst,
            value: constant(first.imm, high),
        }),
        (1, 0) => Some(Insn::MapRef {
            dst,
            m: first.imm.cast_unsigned(),
        }),
        _ => None,
    }
}
