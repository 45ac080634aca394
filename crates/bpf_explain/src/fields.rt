//! The slot of bytes that spell no program.
ghost use Rattle.std.specs.Prelude.{◌≡◌, ◌+◌, ◌≤◌, IfOk, length, string_bytes};
ghost use Rattle.bpf_explain.specs.Fields.{fields_text, hex_at, is_of_fields, refused_slot_text};

use crate::listing::Slot;
use bpf_insn::{Cause, Refusal};
use std::alloc::{AllocError, Global};

/// The bytes of a slot (RFC 9669 section 3).
const SLOT: usize = 8;

/// Returns whether the cause lies in one slot's fields.
fn is_of_fields(cause: Cause) -> bool
    ensures { result ≡ is_of_fields cause }
{
    matches!(cause, Cause::Opcode | Cause::Register | Cause::Unsupported)
}

fn hex_at(alloc: Global, bytes: &[u8], at: usize, count: usize) -> Result<String, AllocError>
    requires { at + count ≤ length bytes.now }
    ensures { IfOk result (λ s. string_bytes s ≡ hex_at bytes.now at count) }
{
    hex::encode(alloc, &bytes[at..at + count])
}

/// The slot at this byte by its fields: the opcode, the registers, the offset, the constant.
fn fields_text(alloc: Global, program: &[u8], at: usize) -> Result<String, AllocError>
    requires { at + 8 ≤ length program.now }
    ensures { IfOk result (λ s. string_bytes s ≡ fields_text program.now at) }
{
    let opcode = hex_at(alloc, program, at, 1)?;
    let registers = hex_at(alloc, program, at + 1, 1)?;
    let offset = hex_at(alloc, program, at + 2, 2)?;
    let constant = hex_at(alloc, program, at + 4, 4)?;
    format!(in alloc; "{opcode} {registers} {offset} {constant}")
}

/// The line of the refused slot, if its fields are the cause.
pub(crate) fn refused_slot_text(
    alloc: Global,
    program: &[u8],
    refusal: Refusal,
) -> Result<String, AllocError>
    ensures { IfOk result (λ s. string_bytes s ≡ refused_slot_text program.now refusal.pc refusal.cause) }
{
    let at = SLOT * refusal.pc as usize;
    if !is_of_fields(refusal.cause) || program.len() < at + SLOT {
        return Ok(String::new(alloc));
    }
    let fields = fields_text(alloc, program, at)?;
    format!(in alloc; ">{}: {fields}\n", Slot(refusal.pc))
}
