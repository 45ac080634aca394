//! Which registers are read later, as masks with a bit for each.
ghost use Rattle.std.specs.Prelude.{◌≡◌, ◌≢◌, ◌<◌, ◌≤◌, ◌⊎◌, ℕ, length, true, IsTrue, IsFalse};
ghost use Rattle.bpf_flow.specs.Graph.{reads};
ghost use Rattle.bpf_insn.specs.Register.{number};
ghost use Rattle.bpf_same.specs.Fused.{Leaves, ReadsWithin};
ghost use Rattle.bpf_same.specs.LinearForms.{bit};
ghost use Rattle.bpf_same.specs.Stepped.{alters};

use crate::step::alters;
use bpf_flow::{jump_target, next_slot, reads};
use bpf_insn::{Insn, Register};
use std::alloc::{AllocError, Global};

/// The registers by their numbers.
const REGISTERS: [Register; 11] = [
    Register::R0,
    Register::R1,
    Register::R2,
    Register::R3,
    Register::R4,
    Register::R5,
    Register::R6,
    Register::R7,
    Register::R8,
    Register::R9,
    Register::R10,
];

/// The number of times a program is gone through, from its end, until nothing is added.
const MOST_PASSES: u32 = 64;

/// Returns whether a register is in a mask.
pub(crate) fn is_set(mask: u64, register: u8) -> bool
    requires { register < 64 }
    ensures set { IsTrue result → bit mask register ≡ 1 }
    ensures unset { IsFalse result → bit mask register ≡ 0 }
{
    (mask >> register) & 1 == 1
}

/// A mask with a register.
pub(crate) fn with(mask: u64, register: u8) -> u64
    requires { register < 64 }
    ensures { (k : ℕ) → bit result k ≡ 1 → (k ≡ register) ⊎ (bit mask k ≡ 1) }
{
    mask | (1 << register)
}

/// A mask without a register.
pub(crate) fn without(mask: u64, register: u8) -> u64
    requires { register < 64 }
    ensures others { (k : ℕ) → k < 64 → bit result k ≡ 1 → bit mask k ≡ 1 }
    ensures gone { (k : ℕ) → bit result k ≡ 1 → k ≢ register }
{
    mask & !(1 << register)
}

/// Returns whether a register is in a mask, or isn't read by an instruction.
fn is_within(insn: Insn, mask: u64, register: Register) -> bool
    ensures { IsTrue result → reads insn (number register) ≡ true → bit mask (number register) ≡ 1 }
{
    !reads(insn, register) || is_set(mask, register.number())
}

/// Returns whether an instruction reads registers of a mask alone.
pub(crate) fn reads_within(insn: Insn, mask: u64) -> bool
    ensures { IsTrue result → ReadsWithin insn mask }
{
    for at in 0..REGISTERS.len() {
        if !is_within(insn, mask, REGISTERS[at]) {
            return false;
        }
    }
    true
}

/// Returns whether a register of the mask after an instruction is written by it, or in the mask before it.
fn is_left(before: u64, insn: Insn, after: u64, register: u8) -> bool
    requires { register < 64 }
    ensures { IsTrue result → bit after register ≡ 1 → (bit before register ≡ 1) ⊎ (alters insn register ≡ true) }
{
    !is_set(after, register) || is_set(before, register) || alters(insn, register)
}

/// Returns whether each register of the mask after an instruction is written by it, or in the mask before it.
pub(crate) fn leaves(before: u64, insn: Insn, after: u64) -> bool
    ensures { IsTrue result → Leaves before insn after }
{
    for register in 0..REGISTERS.len() as u8 {
        if !is_left(before, insn, after, register) {
            return false;
        }
    }
    true
}

/// The registers that are read from an instruction on, by those that are read after it.
fn before(insn: Insn, after: u64) -> u64 {
    let mut mask = after;
    for register in REGISTERS {
        if alters(insn, register.number()) {
            mask = without(mask, register.number());
        }
        if reads(insn, register) {
            mask = with(mask, register.number());
        }
    }
    mask
}

fn mask_at(live: &[u64], at: u32) -> u64 {
    if (at as usize) < live.len() {
        live[at as usize]
    } else {
        0
    }
}

/// The registers that are read after an instruction, as far as they are known.
fn after(insn: Insn, at: u32, live: &[u64]) -> u64
    requires { at < 4096 }
{
    match insn {
        Insn::Ja { to, .. } => jump_target(at, to).map_or(0, |to| mask_at(live, to)),
        Insn::Jump { off, .. } => {
            let taken = jump_target(at, i32::from(off)).map_or(0, |to| mask_at(live, to));
            taken | mask_at(live, at + 1)
        }
        Insn::Exit => 0,
        _ => mask_at(live, next_slot(insn, at)),
    }
}

/// Puts another mask at a slot, and answers whether it is another.
fn renewed(live: &mut Vec<u64>, at: usize, mask: u64) -> bool {
    if at >= live.len() || live[at] == mask {
        return false;
    }
    live[at] = mask;
    true
}

/// Goes through a program from its end, and answers whether a mask has changed.
fn is_renewed(code: &[Insn], live: &mut Vec<u64>) -> bool
    requires { length code.now ≤ 4096 }
{
    let mut is_any = false;
    for at in (0..code.len()).rev() {
        let mask = before(code[at], after(code[at], at as u32, live.as_slice()));
        if renewed(live, at, mask) {
            is_any = true;
        }
    }
    is_any
}

/// The registers that are read from each slot on.
pub(crate) fn live_registers(alloc: Global, code: &[Insn]) -> Result<Vec<u64>, AllocError>
    requires { length code.now ≤ 4096 }
{
    let mut live = Vec::new(alloc);
    for _slot in 0..code.len() {
        live.push(0)?;
    }
    for _pass in 0..MOST_PASSES {
        if !is_renewed(code, &mut live) {
            break;
        }
    }
    Ok(live)
}
