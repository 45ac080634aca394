//! Where the ways that meet at a slot are too many for a register to stay an address.
ghost use Rattle.std.specs.Prelude.{◌≡◌, ℕ, length, map, count_by, IfOk, IfErr, IfSome, IfNone};
ghost use Rattle.bpf_insn.specs.Register.{number};
ghost use Rattle.bpf_insn.specs.declared.refusal.Cause.TheVariants.{Memory};
ghost use Rattle.bpf_note.specs.Parts.{facts};
ghost use Rattle.bpf_verify.specs.Consistent.{IsOrdered};
ghost use Rattle.bpf_verify.specs.FirstRefusal.{IsStructured};
ghost use Rattle.bpf_verify.specs.Joined.{IsJoined, IsJoinedIn};
ghost use Rattle.bpf_verify.specs.Lost.{is_address};

use crate::lost::{is_address, is_number};
use crate::note_list::MOST_NOTES;
use crate::notes::notes_at;
use bpf_insn::{Cause, Code, Register};
use bpf_note::{MapShape, Note};
use std::alloc::Global;

/// On how many of the notes a register is an address.
fn addresses(notes: &[Box<Note>], register: Register) -> usize
    ensures { result ≡ count_by (λ n. is_address (n.reg (number register))) (map (λ b. facts b.value) notes.now) }
{
    notes
        .iter()
        .filter(|note| is_address(note.register(register.number())))
        .count()
}

/// On how many of eight notes a register is an address, if it is one on some and a number on the last.
fn joined_in(notes: &[Box<Note>], register: Register) -> Option<usize>
    ensures some { IfSome result (IsJoinedIn (map (λ b. facts b.value) notes.now) (number register)) }
    ensures none { IfNone result ((addresses : ℕ) → IsJoinedIn (map (λ b. facts b.value) notes.now) (number register) addresses → ⊥) }
{
    let [first @ .., last] = notes else {
        return None;
    };
    if notes.len() != MOST_NOTES || !is_number(last.register(register.number())) {
        return None;
    }
    let addresses = addresses(first, register);
    (addresses > 0).then_some(addresses)
}

/// On how many of the eight notes with which the second pass comes to a slot a register is an address, if it is one on some
/// and a number on the last, into which each further note is joined. It follows the notes again up to that slot, and an `Err`
/// is out of memory.
pub fn joined_at(
    alloc: Global,
    code: &Code,
    shapes: &[MapShape],
    pc: u32,
    register: Register,
) -> Result<Option<usize>, Cause>
    requires structured { IsStructured code.now (length shapes.now) }
    requires ordered { IsOrdered code.now }
    ensures some { IfOk result (λ o. IfSome o (IsJoined code.now shapes.now (number register) pc)) }
    ensures none { IfOk result (λ o. IfNone o ((addresses : ℕ) → IsJoined code.now shapes.now (number register) pc addresses → ⊥)) }
    ensures err { IfErr result (λ c. c ≡ Memory) }
{
    match notes_at(alloc, code.insns(), shapes, pc)? {
        None => Ok(None),
        Some(list) => Ok(joined_in(&list, register)),
    }
}
