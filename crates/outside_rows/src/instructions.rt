//! Questions about instructions: their text, and what they compute.

use bpf_insn::{Insn, Operand, alu, decode, holds, move_extended, negate, refusal_of, swap};
use std::alloc::{AllocError, Global};

/// The first instruction that the bytes spell, or else the number of the cause.
fn spelled(alloc: Global, hex: &str) -> Result<Result<Insn, u8>, AllocError> {
    let bytes = hex::decode(alloc, hex).unwrap_or_else(|_| Vec::new(alloc));
    if let Some(refusal) = refusal_of(&bytes) {
        return Ok(Err(refusal.cause.number()));
    }
    match decode(alloc, &bytes) {
        Ok(code) => Ok(code.insns().first().copied().ok_or(0)),
        Err(refusal) => Ok(Err(refusal.cause.number())),
    }
}

fn text(alloc: Global, hex: &str) -> Result<String, AllocError> {
    match spelled(alloc, hex)? {
        Ok(insn) => insn.to_string(alloc),
        Err(cause) => format!(in alloc; "V{cause}"),
    }
}

/// Returns what an instruction of arithmetic leaves in a destination that held `dst`, or whether a jump is taken; `src` is in the
/// source register.
fn computed(insn: Insn, dst: u64, src: u64) -> Option<u64> {
    let value = |operand| match operand {
        Operand::Register(_) => src,
        Operand::Immediate(imm) => i64::from(imm).cast_unsigned(),
    };
    match insn {
        Insn::Alu { op, wide, src, .. } => Some(alu(op, wide, dst, value(src))),
        Insn::Neg { wide, .. } => Some(negate(wide, dst)),
        Insn::End { kind, width, .. } => Some(swap(kind, width, dst)),
        Insn::MovSx { wide, bits, .. } => Some(move_extended(wide, bits, src)),
        Insn::Jump {
            cond,
            wide,
            src,
            ..
        } => Some(u64::from(holds(cond, wide, dst, value(src)))),
        _ => None,
    }
}

fn result(alloc: Global, rest: &str) -> Result<String, AllocError> {
    let mut words = rest.split(' ');
    let hex = words.next().unwrap_or("");
    let dst = words.next().and_then(|word| word.parse().ok()).unwrap_or(0);
    let src = words.next().and_then(|word| word.parse().ok()).unwrap_or(0);
    match spelled(alloc, hex)? {
        Ok(insn) => match computed(insn, dst, src) {
            Some(value) => format!(in alloc; "{value}"),
            None => format!(in alloc; "nothing"),
        },
        Err(cause) => format!(in alloc; "V{cause}"),
    }
}

pub fn answer(alloc: Global, kind: &str, rest: &str) -> Result<Option<String>, AllocError> {
    Ok(Some(match kind {
        "text" => text(alloc, rest)?,
        "result" => result(alloc, rest)?,
        _ => return Ok(None),
    }))
}
