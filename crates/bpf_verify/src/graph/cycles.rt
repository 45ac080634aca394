//! Which jumps close a cycle, and whether any does.
ghost use Rattle.std.specs.Prelude.{◌≡◌, ◌<◌, ◌≤◌, ◌↔◌, ℕ, Some, true, length, map, IfErr, IfOk, IsTrue};
ghost use Rattle.bpf_verify.specs.Consistent.{IsOrdered};
ghost use Rattle.bpf_verify.specs.Edges.{ClosesCycle, JumpsBack};
ghost use Rattle.bpf_verify.specs.Marks.{is_instruction, marked};

use crate::graph::edges::jump_to;
use crate::graph::order::order;
use crate::graph::reach::reached;
use crate::graph::rising::is_rising;
use crate::slot::begins;
use bpf_insn::Insn;
use std::alloc::{AllocError, Global};

/// Returns which slots hold an instruction.
fn instructions(alloc: Global, code: &[Insn]) -> Result<Vec<bool>, AllocError>
    ensures { IfOk result (λ v. v.items ≡ map is_instruction code.now) }
{
    code.iter().map(|insn| is_instruction(*insn)).collect(alloc)
}

#[tactic(auto, unfolding(crate::specs::Marks::is_instruction))]
fn is_instruction(insn: Insn) -> bool
    ensures { result ≡ is_instruction insn }
{
    begins(Some(insn))
}

/// Returns whether nothing is marked.
fn is_clear(marks: &[bool]) -> bool
    ensures { IsTrue result ↔ ((q : ℕ) → marked marks.now q ≡ true → ⊥) }
{
    for mark in marks {
        if *mark {
            return false;
        }
    }
    true
}

/// Returns whether the jump here closes a cycle.
fn closes_cycle(alloc: Global, code: &[Insn], pc: u32) -> Result<bool, AllocError>
    requires short { length code.now ≤ 4096 }
    requires inside { pc < length code.now }
    ensures closes { IfOk result (λ b. IsTrue b ↔ ClosesCycle code.now pc) }
    ensures search { IfErr result (λ _. JumpsBack code.now pc) }
{
    let Some(to) = jump_to(code, pc) else {
        return Ok(false);
    };
    if to > pc {
        return Ok(false);
    }
    let marks = reached(alloc, code, to)?;
    Ok(marks[pc as usize])
}

/// Returns whether all instructions can be ordered. They can if no jump closes a cycle.
pub(crate) fn is_ordered(alloc: Global, code: &[Insn]) -> Result<bool, AllocError>
    requires { length code.now ≤ 4096 }
    ensures ordered { IfOk result (λ b. IsTrue b ↔ IsOrdered code.now) }
    ensures acyclic { IfOk result (λ _. ((q : ℕ) → q < length code.now → ClosesCycle code.now q → ⊥) → IsOrdered code.now) }
{
    if is_rising(code) {
        return Ok(true);
    }
    let all = instructions(alloc, code)?;
    let whole = order(alloc, code, all)?;
    Ok(is_clear(&whole.left))
}

/// Returns whether the jump here closes a cycle. If the program is known to be `ordered`, nothing is searched.
pub(crate) fn closes_cycle_unless(
    alloc: Global,
    code: &[Insn],
    ordered: bool,
    pc: u32,
) -> Result<bool, AllocError>
    requires short { length code.now ≤ 4096 }
    requires inside { pc < length code.now }
    requires ordered { IsTrue ordered ↔ IsOrdered code.now }
    ensures closes { IfOk result (λ b. IsTrue b ↔ ClosesCycle code.now pc) }
    ensures search { IfErr result (λ _. JumpsBack code.now pc) }
    ensures unordered { IfErr result (λ _. IsOrdered code.now → ⊥) }
{
    if ordered {
        return Ok(false);
    }
    closes_cycle(alloc, code, pc)
}
