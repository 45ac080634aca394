//! Bytes to instructions, or the first refusal.
ghost use Rattle.std.specs.Prelude.{ℕ, List, IsErrAnd, MatchResult, ◌≡◌, ◌≤◌, ◌*◌, ◌++◌, ◌↔◌, drop, length, IfErr, IfNone, IfOk};
ghost use Rattle.std.specs.Prelude.{IfSome, IsTrue, OnOk};
ghost use Rattle.bpf_insn.specs.Code.{Spells, takes};
ghost use Rattle.bpf_insn.specs.Refusal.{HasCause, HasLength, IsNoCode, IsOpcode, IsRefused, IsSpelled, Stops};
ghost use Rattle.bpf_insn.specs.Refusal.{has_unsupported_field, is_unsupported};
ghost use Rattle.bpf_insn.specs.declared.insn.Insn.{Insn};
ghost use Rattle.bpf_insn.specs.declared.refusal.Cause.{Cause};
ghost use Rattle.bpf_insn.specs.Spelling.{ContinuesNone, HasSpelling, spelling};

use crate::code::Code;
use crate::fields::{Fields, fields_of};
use crate::insn::Insn;
use crate::refusal::{Cause, Refusal};
use crate::slot::{narrow, wide};
use std::alloc::{AllocError, Global};

/// The opcode of a wide load, the one instruction of two slots.
const WIDE_LOAD: u8 = 0x18;

/// The length of the longest program.
const MAX_BYTES: usize = 32_768;

/// The instruction whose spelling begins the bytes.
fn first(bytes: &[u8]) -> Option<Insn>
    requires { 8 ≤ length bytes.now }
    ensures spelled { IfSome result HasSpelling }
    ensures front { IfSome result (λ i. bytes.now ≡ spelling i ++ drop (8 * length (takes i)) bytes.now) }
    ensures none { IfNone result (ContinuesNone bytes.now) }
{
    let fields = fields_of(&bytes[..8]);
    if fields.op != WIDE_LOAD {
        return narrow(fields);
    }
    if bytes.len() < 16 {
        return None;
    }
    wide(fields, fields_of(&bytes[8..16]))
}

/// Adds the slots of an instruction.
fn add(insns: &mut Vec<Insn>, insn: Insn) -> Result<(), AllocError>
    ensures { OnOk result (insns.new.items ≡ insns.old.items ++ takes insn) }
{
    insns.push(insn)?;
    if insn.slot_count() == 2 {
        insns.push(Insn::Second)?;
    }
    Ok(())
}

/// The refusal when memory runs out at `pc`.
fn memory_refusal(error: AllocError, pc: u32) -> Refusal
    ensures { result ≡ record { cause = Cause.Memory; pc = pc } }
{
    Refusal {
        cause: Cause::from(error),
        pc,
    }
}

/// Adds the slots of an instruction, the first of them at `pc`.
fn push(insns: &mut Vec<Insn>, insn: Insn, pc: u32) -> Result<(), Refusal>
    ensures ok { OnOk result (insns.new.items ≡ insns.old.items ++ takes insn) }
    ensures err { IfErr result (λ r. r ≡ record { cause = Cause.Memory; pc = pc }) }
{
    match add(insns, insn) {
        Ok(()) => Ok(()),
        Err(error) => Err(memory_refusal(error, pc)),
    }
}

/// Returns whether bytes are a positive number of slots, at most 4,096.
fn has_length(bytes: &[u8]) -> bool
    ensures { IsTrue result ↔ HasLength bytes.now }
{
    !bytes.is_empty() && bytes.len() <= MAX_BYTES && bytes.len() % 8 == 0
}

/// Returns whether the slot alone spells an instruction.
fn is_spelled(f: Fields) -> bool
    ensures { IsTrue result ↔ IsSpelled f }
{
    narrow(f).is_some()
}

/// Returns whether the spelling of an instruction begins with the opcode. Each opcode but a wide load's spells an instruction with
/// its other fields 0, those of the byte swaps with the immediate 16.
fn is_opcode(op: u8) -> bool
    ensures { IsTrue result ↔ IsOpcode op }
{
    if op == WIDE_LOAD {
        return true;
    }
    let plain = Fields {
        op,
        dst: 0,
        src: 0,
        off: 0,
        imm: 0,
    };
    if is_spelled(plain) {
        return true;
    }
    is_spelled(Fields { imm: 16, ..plain })
}

/// Returns whether this profile leaves the opcode out: legacy packet access and 32-bit atomic operations.
fn is_unsupported_opcode(op: u8) -> bool
    ensures { result ≡ is_unsupported op }
{
    matches!(op, 0x20 | 0x28 | 0x30 | 0x40 | 0x48 | 0x50 | 0xc3)
}

/// Returns whether this profile leaves out what a field of the slot says of its opcode.
fn is_unsupported_field(f: Fields) -> bool
    ensures { result ≡ has_unsupported_field f }
{
    match f.op {
        0x18 => f.src >= 2 && f.src <= 6,
        0x85 => f.src >= 1 && f.src <= 2,
        0xdb => f.imm < 0 || f.imm > 1,
        _ => false,
    }
}

/// Returns why a slot that continues no spelling is refused.
fn cause_of(f: Fields) -> Cause
    ensures { HasCause f result }
{
    if is_unsupported_opcode(f.op) {
        return Cause::Unsupported;
    }
    if !is_opcode(f.op) {
        return Cause::Opcode;
    }
    if f.dst > 10 || f.src > 10 {
        return Cause::Register;
    }
    if is_unsupported_field(f) {
        return Cause::Unsupported;
    }
    Cause::Opcode
}

/// The instruction at `pc`, at the front of bytes.
fn next(bytes: &[u8], pc: u32) -> Result<Insn, Refusal>
    requires { 8 ≤ length bytes.now }
    ensures spelled { IfOk result HasSpelling }
    ensures front { IfOk result (λ i. bytes.now ≡ spelling i ++ drop (8 * length (takes i)) bytes.now) }
    ensures pc { IfErr result (λ r. r.pc ≡ pc) }
    ensures stops { IfErr result (λ r. Stops bytes.now r.cause) }
{
    match first(bytes) {
        Some(insn) => Ok(insn),
        None => Err(Refusal {
            cause: cause_of(fields_of(&bytes[..8])),
            pc,
        }),
    }
}

/// The slots that bytes spell.
fn slots_of(alloc: Global, bytes: &[u8]) -> Result<Vec<Insn>, Refusal>
    requires { HasLength bytes.now }
    ensures ok { IfOk result (λ v. Spells v.items bytes.now) }
    ensures err { IfErr result (λ r. IsNoCode bytes.now r) }
{
    let mut insns = match Vec::with_capacity(alloc, bytes.len() / 8) {
        Ok(insns) => insns,
        Err(error) => return Err(memory_refusal(error, 0)),
    };
    let mut rest = bytes;
    'slots: while !rest.is_empty() {
        let pc = insns.len() as u32;
        let insn = next(rest, pc)?;
        push(&mut insns, insn, pc)?;
        rest = rest.split_at(8 * insn.slot_count()).1;
    }
    Ok(insns)
}

/// The refusal of bytes that spell no program. It takes no memory.
pub fn refusal_of(bytes: &[u8]) -> Option<Refusal>
    ensures none { IfNone result ((code : List Insn) × Spells code bytes.now) }
    ensures some { IfSome result (λ r. IsRefused bytes.now r.cause r.pc) }
{
    if !has_length(bytes) {
        return Some(Refusal {
            cause: Cause::Length,
            pc: 0,
        });
    }
    let mut rest = bytes;
    let mut pc = 0u32;
    'slots: while !rest.is_empty() {
        let count = match next(rest, pc) {
            Ok(insn) => insn.slot_count(),
            Err(refusal) => return Some(refusal),
        };
        pc += count as u32;
        rest = rest.split_at(8 * count).1;
    }
    None
}

/// Reads a program from its bytes. The refusal is that of the first slot that continues no spelling, or `Memory` at the
/// slot that was read when memory ran out.
pub fn decode(alloc: Global, bytes: &[u8]) -> Result<Code, Refusal>
    ensures ok { IfOk result (λ code. Spells code bytes.now) }
    ensures err { IfErr result (λ r. IsNoCode bytes.now r) }

    // Out of memory takes the place of the code alone, never of a refusal.
    ensures spelled { (code : List Insn) → Spells code bytes.now → MatchResult result (λ c. c ≡ code) (λ r. r.cause ≡ Cause.Memory) }
    ensures refused { (cause : Cause) (pc : ℕ) → IsRefused bytes.now cause pc → IsErrAnd result (λ r. (r.cause ≡ cause) × (r.pc ≡ pc)) }
{
    if !has_length(bytes) {
        return Err(Refusal {
            cause: Cause::Length,
            pc: 0,
        });
    }
    // If reading stops, the bytes are read again without memory, so that a refusal doesn't depend on it.
    match slots_of(alloc, bytes) {
        Ok(insns) => Ok(Code::of_slots(insns)),
        Err(stopped) => match refusal_of(bytes) {
            Some(refusal) => Err(refusal),
            None => Err(stopped),
        },
    }
}
