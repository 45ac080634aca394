//! Instructions to bytes.
ghost use Rattle.std.specs.Prelude.{◌≡◌, ◌+◌, ◌-◌, ◌++◌, [], ◌∷◌, if◌then◌else◌, length, option_to_list, replicate, IfSome};
ghost use Rattle.bpf_insn.specs.Code.{takes};
ghost use Rattle.bpf_insn.specs.Form.{HasRegisters, IsAccess};
ghost use Rattle.bpf_insn.specs.Spelling.{HasSpelling, alu_class, jump_class, size_code, slot, slots, spelling};
ghost use Rattle.bpf_insn.specs.declared.insn.Insn.{Insn};

use crate::alu_op::AluOp;
use crate::condition::Condition;
use crate::fields::{Fields, bytes_of};
use crate::insn::Insn;
use crate::operand::Operand;
use crate::register::Register;
use crate::size::Size;
use crate::truncated::low_32;

/// The bytes of an instruction that has a spelling, then zeros, and how many bytes it has: 8, or 16 of a wide load.
pub fn encode(insn: &Insn) -> ([u8; 16], usize)
    requires { HasSpelling insn.now }
    ensures bytes { result.0 ≡ spelling insn.now ++ replicate (16 - length (spelling insn.now)) 0 }
    ensures len { result.1 ≡ length (spelling insn.now) }
{
    let (first, second) = slots_of_insn(*insn);
    let mut bytes = [0; 16];
    bytes[..8].copy_from_slice(&bytes_of(first));
    match second {
        None => (bytes, 8),
        Some(second) => {
            bytes[8..].copy_from_slice(&bytes_of(second));
            (bytes, 16)
        }
    }
}

/// The class of an arithmetic instruction: ALU64 or ALU.
fn arithmetic_class(wide: bool) -> u8
    ensures { result ≡ alu_class wide }
{
    if wide { 7 } else { 4 }
}

/// The class of a jump: JMP or JMP32.
fn conditional_class(wide: bool) -> u8
    ensures { result ≡ jump_class wide }
{
    if wide { 5 } else { 6 }
}

/// A slot with an offset and an immediate.
fn slot(op: u8, dst: u8, src: u8, off: i16, imm: i32) -> Fields
    ensures { result ≡ slot op dst src off imm }
{
    Fields {
        op,
        dst,
        src,
        off,
        imm,
    }
}

/// The slot of an arithmetic instruction.
fn binary_slot(op: AluOp, wide: bool, dst: Register, src: Operand) -> Fields
    ensures slot { slots (Insn.Alu op wide dst src) ≡ result ∷ [] }
    ensures registers { HasRegisters result }
{
    let opcode = arithmetic_class(wide) + op.code();
    match src {
        Operand::Immediate(imm) => slot(opcode, dst.number(), 0, op.offset(), imm),
        Operand::Register(src) => slot(opcode + 8, dst.number(), src.number(), op.offset(), 0),
    }
}

/// The slot of a conditional jump.
fn jump_slot(cond: Condition, wide: bool, dst: Register, src: Operand, off: i16) -> Fields
    ensures slot { slots (Insn.Jump cond wide dst src off) ≡ result ∷ [] }
    ensures registers { HasRegisters result }
{
    let opcode = conditional_class(wide) + cond.code();
    match src {
        Operand::Immediate(imm) => slot(opcode, dst.number(), 0, off, imm),
        Operand::Register(src) => slot(opcode + 8, dst.number(), src.number(), off, 0),
    }
}

/// The opcode of a load.
fn load_opcode(size: Size, signed: bool) -> u8
    ensures { result ≡ (if signed then 0x81 else 0x61) + size_code size }
{
    (if signed { 0x81 } else { 0x61 }) + size.code()
}

/// The slot of a load, a store or an add.
fn access_slot(insn: Insn) -> Fields
    requires access { IsAccess insn }
    requires spelled { HasSpelling insn }
    ensures slot { slots insn ≡ result ∷ [] }
    ensures registers { HasRegisters result }
{
    match insn {
        Insn::Ldx {
            size,
            signed,
            dst,
            src,
            off,
        } => {
            let opcode = load_opcode(size, signed);
            slot(opcode, dst.number(), src.number(), off, 0)
        }
        Insn::St {
            size,
            dst,
            off,
            imm,
        } => slot(0x62 + size.code(), dst.number(), 0, off, imm),
        Insn::Stx {
            size,
            dst,
            src,
            off,
        } => slot(0x63 + size.code(), dst.number(), src.number(), off, 0),
        Insn::AddCounter {
            fetch,
            dst,
            src,
            off,
        } => slot(0xdb, dst.number(), src.number(), off, i32::from(fetch)),
        _ => unreachable!(),
    }
}

/// The slot of a jump by `to` slots, in the offset or in the immediate.
fn ja_slot(wide_offset: bool, to: i32) -> Fields
    requires { HasSpelling (Insn.Ja wide_offset to) }
    ensures slot { slots (Insn.Ja wide_offset to) ≡ result ∷ [] }
    ensures registers { HasRegisters result }
{
    if wide_offset {
        slot(0x06, 0, 0, 0, to)
    } else {
        slot(0x05, 0, 0, to as i16, 0)
    }
}

/// The slot of a sign-extending move.
fn mov_sx_slot(wide: bool, bits: Size, dst: Register, src: Register) -> Fields
    requires { HasSpelling (Insn.MovSx wide bits dst src) }
    ensures slot { slots (Insn.MovSx wide bits dst src) ≡ result ∷ [] }
    ensures registers { HasRegisters result }
{
    let opcode = arithmetic_class(wide) + 0xb8;
    slot(
        opcode,
        dst.number(),
        src.number(),
        8 * bits.bytes() as i16,
        0,
    )
}

/// The slot of an instruction that takes one.
fn one_slot(insn: Insn) -> Fields
    requires spelled { HasSpelling insn }
    requires one { length (takes insn) ≡ 1 }
    ensures slot { slots insn ≡ result ∷ [] }
    ensures registers { HasRegisters result }
{
    match insn {
        Insn::Alu { op, wide, dst, src } => binary_slot(op, wide, dst, src),
        Insn::Neg { wide, dst } => slot(arithmetic_class(wide) + 0x80, dst.number(), 0, 0, 0),
        Insn::End { kind, width, dst } => {
            let bits = i32::from(width.bits());
            slot(kind.opcode(), dst.number(), 0, 0, bits)
        }
        Insn::MovSx {
            wide,
            bits,
            dst,
            src,
        } => mov_sx_slot(wide, bits, dst, src),
        Insn::Ldx { .. } | Insn::St { .. } | Insn::Stx { .. } | Insn::AddCounter { .. } => {
            access_slot(insn)
        }
        Insn::Ja { wide_offset, to } => ja_slot(wide_offset, to),
        Insn::Jump {
            cond,
            wide,
            dst,
            src,
            off,
        } => jump_slot(cond, wide, dst, src, off),
        Insn::Call { helper } => slot(0x85, 0, 0, 0, helper),
        Insn::Exit => slot(0x95, 0, 0, 0, 0),
        Insn::Const { .. } | Insn::MapRef { .. } | Insn::Second => unreachable!(),
    }
}

/// The slots of an instruction, the second of a wide load only.
fn slots_of_insn(insn: Insn) -> (Fields, Option<Fields>)
    requires { HasSpelling insn }
    ensures slots { slots insn ≡ result.0 ∷ option_to_list result.1 }
    ensures first { HasRegisters result.0 }
    ensures second { IfSome result.1 HasRegisters }
{
    match insn {
        Insn::Const { dst, value } => {
            let low = low_32(value).cast_signed();
            let high = low_32(value >> 32).cast_signed();
            (
                slot(0x18, dst.number(), 0, 0, low),
                Some(slot(0, 0, 0, 0, high)),
            )
        }
        Insn::MapRef { dst, m } => (
            slot(0x18, dst.number(), 1, 0, m.cast_signed()),
            Some(slot(0, 0, 0, 0, 0)),
        ),
        _ => (one_slot(insn), None),
    }
}
