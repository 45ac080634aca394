//! Programs in which no jump goes back: every edge goes up, and so does the order in which the second pass takes slots.
ghost use Rattle.std.specs.Prelude.{◌≡◌, ◌<◌, ◌≤◌, ◌↔◌, ◌⊎◌, ℕ, Some, true, length, vec_len, IfOk, IsTrue};
ghost use Rattle.bpf_verify.specs.Edges.{IsPassOrder};
ghost use Rattle.bpf_verify.specs.Marks.{marked};
ghost use Rattle.bpf_verify.specs.Rising.{goes_back, IsRising};

use crate::graph::edges::{fall_to, jump_to};
use crate::slot::jump_of;
use bpf_insn::Insn;
use std::alloc::{AllocError, Global};

/// Returns whether an instruction is a jump that goes back.
fn goes_back(insn: Insn) -> bool
    ensures { result ≡ goes_back insn }
{
    match jump_of(insn) {
        None => false,
        Some(off) => off < 0,
    }
}

/// Returns whether no jump goes back.
pub(crate) fn is_rising(code: &[Insn]) -> bool
    ensures { IsTrue result ↔ IsRising code.now }
{
    for insn in code {
        if goes_back(*insn) {
            return false;
        }
    }
    true
}

/// Marks a slot.
fn mark(marks: &mut Vec<bool>, to: Option<u32>)
    requires { (q : ℕ) → to ≡ Some q → q < vec_len marks.old }
    ensures len { vec_len marks.new ≡ vec_len marks.old }
    ensures marks { (q : ℕ) → (marked marks.new.items q ≡ true) ↔ ((marked marks.old.items q ≡ true) ⊎ (to ≡ Some q)) }
{
    if let Some(at) = to {
        marks[at as usize] = true;
    }
}

/// The slots that are reached from the first, upwards. If no jump goes back, what leads to a slot lies below it.
pub(crate) fn rising_order(alloc: Global, code: &[Insn]) -> Result<Vec<u32>, AllocError>
    requires short { length code.now ≤ 4096 }
    requires some { 0 < length code.now }
    requires rising { IsRising code.now }
    ensures { IfOk result (λ v. IsPassOrder code.now v.items) }
{
    let mut marks = vec![in alloc; false; code.len()]?;
    let mut taken = Vec::with_capacity(alloc, code.len())?;
    mark(&mut marks, Some(0));
    for pc in 0..code.len() as u32 {
        if marks[pc as usize] {
            taken.push(pc)?;
            mark(&mut marks, fall_to(code, pc));
            mark(&mut marks, jump_to(code, pc));
        }
    }
    Ok(taken)
}
