//! What decoding answers, as plain values.

ghost use Rattle.bpf_insn.specs.Spelling.{HasSpelling};

use bpf_insn::{Insn, Refusal, decode, encode, refusal_of};
use std::alloc::Global;

/// The most bytes of an instruction.
const MAX_BYTES: usize = 16;

/// Returns whether the bytes of an instruction are decoded to it, and the others are 0.
pub fn is_decoded_again(alloc: Global, insn: Insn) -> bool
    requires { HasSpelling insn }
{
    let (bytes, len) = encode(&insn);
    if bytes.len() < len {
        return false;
    }
    match decode(alloc, &bytes[..len]) {
        Ok(code) => code.insns().first().copied() == Some(insn)
            && bytes[len..].iter().all(|byte| *byte == 0),
        Err(_) => false,
    }
}

/// The refusal that decoding answers, and that which the refusals' definition gives.
pub fn refusals(alloc: Global, bytes: &[u8]) -> [Option<Refusal>; 2] {
    [decode(alloc, bytes).err(), refusal_of(bytes)]
}

/// The refusals of a slot before an EXIT.
pub fn refusals_before_exit(alloc: Global, slot: [u8; 8]) -> [Option<Refusal>; 2] {
    let mut bytes = [0; 16];
    bytes[..8].copy_from_slice(&slot);
    bytes[8] = 0x95;
    refusals(alloc, &bytes)
}

/// Returns what decoding `count` EXITs answers: how many slots they are, or a refusal. Nothing without memory for their bytes.
pub fn exits(alloc: Global, count: usize) -> Option<Result<usize, Refusal>> {
    let mut bytes = Vec::new(alloc);
    for _ in 0..count {
        bytes.extend_from_slice(&[0x95, 0, 0, 0, 0, 0, 0, 0]).ok()?;
    }
    match decode(alloc, &bytes) {
        Ok(code) => Some(Ok(code.insns().len())),
        Err(refusal) => Some(Err(refusal)),
    }
}

/// Returns whether the bytes are refused, and the refusal prints as this.
pub fn shows_refusal(alloc: Global, bytes: &[u8], text: &str) -> bool {
    let Err(refusal) = decode(alloc, bytes) else {
        return false;
    };
    refusal
        .to_string(alloc)
        .is_ok_and(|shown| shown.as_str() == text)
}

/// The number of a hexadecimal digit.
fn digit(byte: u8) -> u8 {
    match byte {
        b'0'..=b'9' => byte - b'0',
        b'a'..=b'f' => byte - b'a' + 10,
        _ => 0,
    }
}

/// The bytes of a hexadecimal text, and how many they are.
fn bytes_of(text: &str) -> ([u8; MAX_BYTES], usize) {
    let mut bytes = [0; MAX_BYTES];
    let digits = text.as_bytes();
    for (at, byte) in digits.iter().enumerate() {
        if at / 2 < MAX_BYTES {
            bytes[at / 2] = bytes[at / 2] << 4 | digit(*byte);
        }
    }
    (bytes, digits.len() / 2)
}

/// Returns whether bytes, written as a hexadecimal text, are decoded to as many slots as they have, the first of which prints as
/// this.
pub fn shows(alloc: Global, hex: &str, text: &str) -> bool {
    let (bytes, len) = bytes_of(hex);
    if MAX_BYTES < len {
        return false;
    }
    let Ok(code) = decode(alloc, &bytes[..len]) else {
        return false;
    };
    let Some(insn) = code.insns().first() else {
        return false;
    };
    let has_slots = code.insns().len() == len / 8;
    has_slots
        && insn
            .to_string(alloc)
            .is_ok_and(|shown| shown.as_str() == text)
}
