//! Questions about programs that load parts of a counter: what they return.

use bpf_insn::decode;
use bpf_note::MapShape;
use bpf_verify::{Verified, verify};
use bpf_vm::{Buffer, PacketBuf, Vm, VmWant};
use std::alloc::{AllocError, Global};

/// The counters of the value that a question names.
const COUNTERS: u32 = 2;

const COUNTER_BYTES: usize = 8;

/// The program of a question, if it is accepted with a map of two values whose counters may be loaded in parts.
fn accepted(alloc: Global, text: &str) -> Option<Verified> {
    let shape = MapShape::of(2, COUNTERS)?.with_parts();
    let bytes = hex::decode(alloc, text).ok()?;
    verify(alloc, decode(alloc, &bytes).ok()?, &[shape]).ok()
}

/// A counter of a value.
fn counter(value: &[u8], j: u32) -> Option<u64> {
    let at = COUNTER_BYTES.checked_mul(j as usize)?;
    let bytes = value.get(at..at.checked_add(COUNTER_BYTES)?)?;
    Some(u64::from_le_bytes(bytes.try_into().ok()?))
}

/// The number at the exit of a program that loads once.
fn ended(alloc: Global, rest: &str) -> Option<u32> {
    let (program, value) = rest.split_once(' ')?;
    let value = hex::decode(alloc, value).ok()?;
    let program = accepted(alloc, program)?;
    let mut buffer = Buffer::make(alloc).ok()?;
    let mut vm = Vm::start(&program, PacketBuf::empty(&mut buffer), 0, 0, &[]);
    match vm.advance() {
        VmWant::Load { m: 0, k: 0, j } => vm.loaded(counter(&value, j)?),
        _ => return None,
    }
    match vm.advance() {
        VmWant::Exit { .. } => Some(vm.finish().0),
        _ => None,
    }
}

/// The answer to a question about a program that loads a part of a counter, if it is one.
pub fn answer(alloc: Global, kind: &str, rest: &str) -> Result<Option<String>, AllocError> {
    match kind {
        "parts" => match ended(alloc, rest) {
            Some(number) => Ok(Some(format!(in alloc; "{number}")?)),
            None => Ok(Some(format!(in alloc; "refused")?)),
        },
        _ => Ok(None),
    }
}
