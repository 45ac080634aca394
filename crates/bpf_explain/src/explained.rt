//! What is printed of a refused program.
ghost use Rattle.std.specs.Prelude.{◌≡◌, IfOk, map, option_map, slice_get, string_bytes};
ghost use Rattle.bpf_note.specs.Parts.{facts};
ghost use Rattle.bpf_explain.specs.Explained.{addresses_text, asked_register, below_text, explained_text, is_about_values};
ghost use Rattle.bpf_explain.specs.Explained.{joined_text, operand_of, operand_text, reached_text, undecoded_text, values_text};
ghost use Rattle.bpf_explain.specs.Explained.{verdict_text, was_text};

use crate::access::{access_at, access_of, address_of, base_of};
use crate::advice::{advice_for, cause_advice, joined_advice, lost_advice};
use crate::fields::refused_slot_text;
use crate::listing::add_listing;
use crate::span::{counters_text, span_text, target_text};
use crate::stack::stack_text;
use crate::values::{add_reads, known_text, register_text};
use bpf_insn::{Cause, Code, Insn, Operand, Refusal, Register};
use bpf_note::{MapShape, Note};
use std::alloc::{AllocError, Global};

/// The registers, rising.
const REGISTERS: [Register; 11] = [
    Register::R0,
    Register::R1,
    Register::R2,
    Register::R3,
    Register::R4,
    Register::R5,
    Register::R6,
    Register::R7,
    Register::R8,
    Register::R9,
    Register::R10,
];

/// Returns whether what the instruction reads has to do with the cause.
fn is_about_values(cause: Cause) -> bool
    ensures { result ≡ is_about_values cause }
{
    !matches!(cause, Cause::FramePointer | Cause::Helper)
}

/// Returns what the instruction reaches: the stack's slots, the packet's bytes, or a value's counters, if the cause is about them.
fn reached_text(
    alloc: Global,
    names: &[String],
    shapes: &[MapShape],
    cause: Cause,
    insn: Insn,
    note: &Note,
) -> Result<String, AllocError>
    ensures { IfOk result (λ s. string_bytes s ≡ reached_text (map string_bytes names.now) shapes.now cause insn (facts note.now)) }
{
    match (cause, access_of(insn), access_at(shapes, note, insn)) {
        (Cause::Stack, Some(access), _) => stack_text(alloc, names, note, access),
        (Cause::Argument, _, Some(access)) => stack_text(alloc, names, note, access),
        (Cause::Packet, Some(access), _) => span_text(alloc, address_of(note, insn), access),
        (Cause::MapAccess, _, _) => counters_text(alloc, shapes, address_of(note, insn)),
        _ => Ok(String::new(alloc)),
    }
}

/// The line below the refused one.
fn values_text(
    alloc: Global,
    names: &[String],
    shapes: &[MapShape],
    cause: Cause,
    insn: Insn,
    note: &Note,
) -> Result<String, AllocError>
    ensures { IfOk result (λ s. string_bytes s ≡ values_text (map string_bytes names.now) shapes.now cause insn (facts note.now)) }
{
    if !is_about_values(cause) {
        return Ok(String::new(alloc));
    }
    let mut text = String::from_str(alloc, "     ")?;
    add_reads(alloc, &mut text, names, insn, note, &REGISTERS)?;
    text.push_str(reached_text(alloc, names, shapes, cause, insn, note)?.as_str())?;
    text.push_str("\n")?;
    Ok(text)
}

fn below_text(
    alloc: Global,
    names: &[String],
    shapes: &[MapShape],
    pc: u32,
    cause: Cause,
    insn: Option<Insn>,
    note: Option<&Note>,
) -> Result<String, AllocError>
    ensures { IfOk result (λ s. string_bytes s ≡ below_text (map string_bytes names.now) shapes.now pc cause insn
        (option_map (λ n. facts n.now) note.entry)) }
{
    match (cause, insn, note) {
        (Cause::Target, Some(insn), _) => target_text(alloc, pc, insn),
        (_, Some(insn), Some(note)) => values_text(alloc, names, shapes, cause, insn, note),
        _ => Ok(String::new(alloc)),
    }
}

/// The refusal, and what to write instead.
fn verdict_text(alloc: Global, refusal: Refusal, advice: &str) -> Result<String, AllocError>
    ensures { IfOk result (λ s. string_bytes s ≡ verdict_text refusal advice.now) }
{
    format!(in alloc; "refused {refusal}\nwrite instead: {advice}\n")
}

/// The register of which V9 asks since when it is no address: the one that its access goes through.
pub fn asked_register(code: &Code, refusal: Refusal) -> Option<Register>
    ensures { result ≡ asked_register refusal.cause (slice_get code.now refusal.pc) }
{
    let insn = code.insns().get(refusal.pc as usize)?;
    match refusal.cause {
        Cause::NoPointer => base_of(*insn),
        _ => None,
    }
}

/// The instruction at a slot, if the program has the slot.
fn insn_at(code: &Code, pc: u32) -> Option<Insn>
    ensures { result ≡ slice_get code.now pc }
{
    code.insns().get(pc as usize).copied()
}

/// The register whose value an instruction puts to another register's.
fn operand_of(insn: Option<Insn>) -> Option<Register>
    ensures { result ≡ operand_of insn }
{
    match insn {
        Some(
            Insn::Alu {
                src: Operand::Register(src),
                ..
            },
        ) => Some(src),
        _ => None,
    }
}

fn operand_text(
    alloc: Global,
    names: &[String],
    note: &Note,
    operand: Option<Register>,
) -> Result<String, AllocError>
    ensures { IfOk result (λ s. string_bytes s ≡ operand_text (map string_bytes names.now) (facts note.now) operand) }
{
    match operand {
        None => Ok(String::new(alloc)),
        Some(register) => {
            let text = register_text(alloc, names, note, register.number())?;
            format!(in alloc; " with {text}")
        }
    }
}

/// Since when a register is no address: what a note says of it before slot `pc`, which made it a number, and of the register
/// with which it did.
pub fn was_text(
    alloc: Global,
    names: &[String],
    code: &Code,
    register: Register,
    pc: u32,
    note: &Note,
) -> Result<String, AllocError>
    ensures { IfOk result (λ s. string_bytes s ≡ was_text (map string_bytes names.now) register pc (slice_get code.now pc)
        (facts note.now)) }
{
    let number = register.number();
    let value = note.register(number);
    let known = known_text(alloc, names, note, value)?;
    let with = operand_text(alloc, names, note, operand_of(insn_at(code, pc)))?;
    let advice = lost_advice(value);
    format!(in alloc; "R{number} was {known} before {pc}{with}: {advice}\n")
}

/// On how many of the eight notes at slot `pc` a register is an address.
fn addresses_text(
    alloc: Global,
    register: Register,
    pc: u32,
    addresses: usize,
) -> Result<String, AllocError>
    ensures { IfOk result (λ s. string_bytes s ≡ addresses_text register pc addresses) }
{
    let number = register.number();
    format!(in alloc; "R{number} is an address on {addresses} of the eight notes at {pc}")
}

/// Says that a register is an address on `addresses` of the eight notes at slot `pc`, and a number on the last of them.
pub fn joined_text(
    alloc: Global,
    register: Register,
    pc: u32,
    addresses: usize,
) -> Result<String, AllocError>
    ensures { IfOk result (λ s. string_bytes s ≡ joined_text register pc addresses) }
{
    let text = addresses_text(alloc, register, pc, addresses)?;
    let advice = joined_advice();
    format!(in alloc;
        "{text}, and a number on the last, into which every further one is joined: {advice}\n"
    )
}

/// Returns what is printed of bytes that spell no program: the refused slot by its fields, if they are the cause, and the verdict.
pub fn undecoded_text(alloc: Global, program: &[u8], refusal: Refusal) -> Result<String, AllocError>
    ensures { IfOk result (λ s. string_bytes s ≡ undecoded_text program.now refusal) }
{
    let mut text = refused_slot_text(alloc, program, refusal)?;
    let verdict = verdict_text(alloc, refusal, cause_advice(refusal.cause))?;
    text.push_str(verdict.as_str())?;
    Ok(text)
}

/// Returns what is printed of a refused program: its listing, below the refused slot what is known of the values that it reads, and
/// what to write instead. `names` are those of the maps; a map without a name goes by its number.
pub fn explained_text(
    alloc: Global,
    code: &Code,
    names: &[String],
    shapes: &[MapShape],
    refusal: Refusal,
    note: Option<&Note>,
) -> Result<String, AllocError>
    ensures { IfOk result (λ s. string_bytes s ≡ explained_text code.now (map string_bytes names.now) shapes.now refusal
        (option_map (λ n. facts n.now) note.entry)) }
{
    let insns = code.insns();
    let insn = insn_at(code, refusal.pc);
    let below = below_text(alloc, names, shapes, refusal.pc, refusal.cause, insn, note)?;
    let verdict = verdict_text(
        alloc,
        refusal,
        advice_for(shapes, refusal.cause, insn, note),
    )?;
    let mut text = String::new(alloc);
    add_listing(alloc, &mut text, insns, Some(refusal.pc), below.as_str())?;
    text.push_str(verdict.as_str())?;
    Ok(text)
}
