//! Where a register was an address last.
ghost use Rattle.std.specs.Prelude.{◌≡◌, ◌<◌, ◌≤◌, ◌↔◌, ℕ, true, length, map, slice_get, IsTrue, IfOk, IfErr, IfSome, IfNone};
ghost use Rattle.std.specs.Prelude.{Contains};
ghost use Rattle.bpf_insn.specs.Code.{IsCode};
ghost use Rattle.bpf_insn.specs.Register.{number};
ghost use Rattle.bpf_insn.specs.declared.refusal.Cause.TheVariants.{Memory};
ghost use Rattle.bpf_note.specs.Facts.{Facts};
ghost use Rattle.bpf_note.specs.Parts.{facts};
ghost use Rattle.bpf_flow.specs.Gives.{edges_of};
ghost use Rattle.bpf_verify.specs.Consistent.{IsOrdered};
ghost use Rattle.bpf_verify.specs.FirstRefusal.{IsStructured};
ghost use Rattle.bpf_verify.specs.Lost.{is_address, is_number, MakesNumber, IsLastWrite, Loses, IsLost};
ghost use Rattle.bpf_verify.specs.Structure.{begins};

use crate::notes::notes_at;
use crate::stopped::is_rule_cause;
use bpf_flow::{Successor, Successors, after, writes};
use bpf_insn::{Cause, Code, Insn, Register};
use bpf_note::{MapShape, Note, Val};
use std::alloc::Global;

/// The last slot before a refusal that made an address a number, and a note there.
#[derive(Drop)]
pub struct Lost {
    pub pc: u32,
    pub note: Note,
}

pub(crate) fn is_address(value: Val) -> bool
    ensures { result ≡ is_address value }
{
    match value {
        Val::Pkt { .. }
        | Val::PktEnd
        | Val::Stack { .. }
        | Val::Ctx
        | Val::MaybeValue { .. }
        | Val::Value { .. } => true,
        Val::Unset | Val::Num { .. } | Val::Map { .. } => false,
    }
}

pub(crate) fn is_number(value: Val) -> bool
    ensures { result ≡ is_number value }
{
    matches!(value, Val::Num { .. })
}

/// Returns whether a register is a number at a successor.
fn is_number_at(successor: &Successor, register: Register) -> bool
    ensures { result ≡ is_number ((facts successor.now.note.value).reg (number register)) }
{
    is_number(successor.note.register(register.number()))
}

fn makes_number(successors: &Successors, register: Register) -> bool
    ensures { IsTrue result ↔ MakesNumber (number register) (edges_of successors.now) }
{
    match successors {
        Successors::None => false,
        Successors::One(next) => is_number_at(next, register),
        Successors::Two(next, target) => {
            is_number_at(next, register) || is_number_at(target, register)
        }
    }
}

/// The last slot below `pc` whose instruction writes the register.
fn last_write(code: &[Insn], pc: u32, register: Register) -> Option<u32>
    requires short { length code.now ≤ 4096 }
    ensures some { IfSome result (λ p. IsLastWrite code.now (number register) pc p) }
    ensures none { IfNone result ((p : ℕ) → IsLastWrite code.now (number register) pc p → ⊥) }
{
    let end = pc.min(code.len() as u32);
    for at in (0..end).rev() {
        if writes(code[at as usize], register) {
            return Some(at);
        }
    }
    None
}

/// Returns whether the rule makes a register a number if a note gives it an address.
fn loses(
    alloc: Global,
    code: &[Insn],
    shapes: &[MapShape],
    at: u32,
    register: Register,
    note: &Note,
) -> Result<bool, Cause>
    requires laid { IsCode code.now }
    requires structured { IsStructured code.now (length shapes.now) }
    requires there { at < length code.now }
    requires begins { begins (slice_get code.now at) ≡ true }
    ensures ok { IfOk result (λ b. IsTrue b ↔ Loses code.now shapes.now at (number register) (facts note.now)) }
    ensures err { IfErr result (λ c. c ≡ Memory) }
{
    if !is_address(note.register(register.number())) {
        return Ok(false);
    }
    match after(alloc, &code[at as usize], at, note, shapes) {
        Ok(successors) => Ok(makes_number(&successors, register)),
        Err(cause) => {
            if is_rule_cause(cause) {
                Ok(false)
            } else {
                Err(cause)
            }
        }
    }
}

/// The first note of a list that loses the register's address.
fn first_lost(
    alloc: Global,
    code: &[Insn],
    shapes: &[MapShape],
    at: u32,
    register: Register,
    mut notes: Vec<Box<Note>>,
) -> Result<Option<Note>, Cause>
    requires laid { IsCode code.now }
    requires structured { IsStructured code.now (length shapes.now) }
    requires there { at < length code.now }
    requires begins { begins (slice_get code.now at) ≡ true }
    ensures there { IfOk result (λ o. IfSome o (λ n. Contains (map (λ b. facts b.value) notes.items) (facts n))) }
    ensures loses { IfOk result (λ o. IfSome o (λ n. Loses code.now shapes.now at (number register) (facts n))) }
    ensures none { IfOk result (λ o. IfNone o ((n : Facts) → Contains (map (λ b. facts b.value) notes.items) n →
        Loses code.now shapes.now at (number register) n → ⊥)) }
    ensures err { IfErr result (λ c. c ≡ Memory) }
{
    for (i, note) in notes.iter().enumerate() {
        if loses(alloc, code, shapes, at, register, note)? {
            return Ok(Some(Box::into_inner(notes.swap_remove(i))));
        }
    }
    Ok(None)
}

/// Returns where a register was an address last: the last slot below `pc` that writes the register, if the second pass comes to it
/// and the rule makes an address there a number. It follows the notes again up to that slot, and an `Err` is out of memory.
pub fn lost_at(
    alloc: Global,
    code: &Code,
    shapes: &[MapShape],
    pc: u32,
    register: Register,
) -> Result<Option<Lost>, Cause>
    requires structured { IsStructured code.now (length shapes.now) }
    requires ordered { IsOrdered code.now }
    ensures some { IfOk result (λ o. IfSome o (λ l. IsLost code.now shapes.now pc (number register) l.pc (facts l.note))) }
    ensures none { IfOk result (λ o. IfNone o ((p : ℕ) (n : Facts) → IsLost code.now shapes.now pc (number register) p n → ⊥)) }
    ensures err { IfErr result (λ c. c ≡ Memory) }
    ensures written { IfErr result (λ _. (p : ℕ) × IsLastWrite code.now (number register) pc p) }
{
    let insns = code.insns();
    let Some(at) = last_write(insns, pc, register) else {
        return Ok(None);
    };
    let Some(list) = notes_at(alloc, insns, shapes, at)? else {
        return Ok(None);
    };
    match first_lost(alloc, insns, shapes, at, register, list)? {
        None => Ok(None),
        Some(note) => Ok(Some(Lost { pc: at, note })),
    }
}
