//! The first pass: the structure of a program, over all slots, reached or not.
ghost use Rattle.std.specs.Prelude.{◌≡◌, ◌<◌, ◌≤◌, ◌↔◌, Some, false, length, IsTrue, IfOk, IfErr, IfSome, IfNone};
ghost use Rattle.bpf_insn.specs.declared.insn.Insn.{Insn};
ghost use Rattle.bpf_verify.specs.Structure.{jump_of, misses_target, runs_off, lacks_map};
ghost use Rattle.bpf_verify.specs.Consistent.{IsOrdered};
ghost use Rattle.bpf_verify.specs.Edges.{JumpsBack};
ghost use Rattle.bpf_verify.specs.FirstRefusal.{IsFine, IsFault, IsStructured, IsStructureRefusal};

use crate::graph::{closes_cycle_unless, is_ordered};
use crate::out_of_memory::memory_refusal;
use crate::slot::{falls_through, jump_of, landing};
use bpf_flow::{jump_target, next_slot};
use bpf_insn::{Cause, Insn, Refusal};
use std::alloc::{AllocError, Global};

fn misses_target(code: &[Insn], pc: u32, jump: Option<i32>) -> bool
    requires { pc < 4096 }
    ensures { result ≡ misses_target code.now pc jump }
{
    match jump {
        None => false,
        Some(off) => landing(code, jump_target(pc, off)).is_none(),
    }
}

fn runs_off(code: &[Insn], pc: u32, insn: Insn) -> bool
    requires { pc < 4096 }
    ensures { result ≡ runs_off code.now pc insn }
{
    if falls_through(insn) {
        next_slot(insn, pc) as usize >= code.len()
    } else {
        false
    }
}

fn lacks_map(maps: u32, insn: Insn) -> bool
    ensures { result ≡ lacks_map maps insn }
{
    match insn {
        Insn::MapRef { m, .. } => maps <= m,
        _ => false,
    }
}

/// Returns what is wrong first with the structure at a slot, where `insn` stands. `ordered` tells that no jump closes a cycle.
fn fault_of(
    alloc: Global,
    code: &[Insn],
    maps: u32,
    ordered: bool,
    pc: u32,
    insn: Insn,
) -> Result<Option<Cause>, AllocError>
    requires short { length code.now ≤ 4096 }
    requires inside { pc < length code.now }
    requires ordered { IsTrue ordered ↔ IsOrdered code.now }
    ensures none { IfOk result (λ o. IfNone o (IsFine code.now maps pc insn)) }
    ensures some { IfOk result (λ o. IfSome o (IsFault code.now maps pc insn)) }
    ensures target { IfErr result (λ _. misses_target code.now pc (jump_of insn) ≡ false) }
    ensures search { IfErr result (λ _. JumpsBack code.now pc) }
    ensures unordered { IfErr result (λ _. IsOrdered code.now → ⊥) }
{
    if misses_target(code, pc, jump_of(insn)) {
        return Ok(Some(Cause::Target));
    }
    if closes_cycle_unless(alloc, code, ordered, pc)? {
        return Ok(Some(Cause::BackJump));
    }
    if runs_off(code, pc, insn) {
        return Ok(Some(Cause::End));
    }
    if lacks_map(maps, insn) {
        return Ok(Some(Cause::MapNumber));
    }
    Ok(None)
}

/// The lowest slot at which something is wrong with the structure; a program without such a slot is ordered. Out of
/// memory is V0 at the slot being checked, or at 0 before the first.
pub fn first_fault(alloc: Global, code: &[Insn], maps: u32) -> Option<Refusal>
    requires short { length code.now ≤ 4096 }
    requires some { 0 < length code.now }
    ensures none { IfNone result (IsStructured code.now maps) }
    ensures ordered { IfNone result (IsOrdered code.now) }
    ensures some { IfSome result (λ r. IsStructureRefusal code.now maps r.pc r.cause) }
{
    let ordered = match is_ordered(alloc, code) {
        Ok(ordered) => ordered,
        Err(error) => return Some(memory_refusal(error, 0)),
    };
    for pc in 0..code.len() as u32 {
        match fault_of(alloc, code, maps, ordered, pc, code[pc as usize]) {
            Ok(None) => {}
            Ok(Some(cause)) => return Some(Refusal { cause, pc }),
            Err(error) => return Some(memory_refusal(error, pc)),
        }
    }
    None
}
