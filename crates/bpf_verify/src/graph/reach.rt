//! Which slots the flow graph reaches.
ghost use Rattle.std.specs.Prelude.{◌≡◌, ◌<◌, ◌≤◌, ◌↔◌, ℕ, Some, true, length, vec_len, IfOk, OnOk};
ghost use Rattle.bpf_verify.specs.Edges.{Flows};
ghost use Rattle.bpf_verify.specs.Marks.{marked, open_work, Adds};

use crate::graph::edges::{fall_to, jump_to};
use bpf_insn::Insn;
use std::alloc::{AllocError, Global};

/// Marks a slot and puts it on the pile, unless it is marked.
fn visit(marks: &mut Vec<bool>, pile: &mut Vec<u32>, to: Option<u32>) -> Result<(), AllocError>
    requires { (q : ℕ) → to ≡ Some q → q < vec_len marks.old }
    ensures len { OnOk result (vec_len marks.new ≡ vec_len marks.old) }
    ensures adds { OnOk result (Adds marks.old.items pile.old.items to marks.new.items pile.new.items) }
    ensures work { OnOk result (open_work marks.new.items pile.new.items ≡ open_work marks.old.items pile.old.items) }
{
    if let Some(at) = to {
        if !marks[at as usize] {
            pile.push(at)?;
            marks[at as usize] = true;
        }
    }
    Ok(())
}

/// The slots that the flow graph reaches from one, itself among them.
pub(crate) fn reached(alloc: Global, code: &[Insn], from: u32) -> Result<Vec<bool>, AllocError>
    requires short { length code.now ≤ 4096 }
    requires inside { from < length code.now }
    ensures len { IfOk result (λ v. vec_len v ≡ length code.now) }
    ensures exact { IfOk result (λ v. (q : ℕ) → (marked v.items q ≡ true) ↔ Flows code.now from q) }
{
    let mut marks = vec![in alloc; false; code.len()]?;
    let mut pile = Vec::new(alloc);
    visit(&mut marks, &mut pile, Some(from))?;
    while let Some(pc) = pile.pop() {
        let fall = fall_to(code, pc);
        let jump = jump_to(code, pc);
        visit(&mut marks, &mut pile, fall)?;
        visit(&mut marks, &mut pile, jump)?;
    }
    Ok(marks)
}
