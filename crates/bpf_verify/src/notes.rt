//! The second pass: what is known at each slot that the flow graph reaches.
ghost use Rattle.std.specs.Prelude.{◌≡◌, ◌≢◌, ◌<◌, ◌∷◌, [], ℕ, List, true, length, slice_get, vec_len, Ok, OnErr, OnOk, IfOk};
ghost use Rattle.std.specs.Prelude.{IfErr, IsSome, IfSome, IfNone, ◌↔◌, map};
ghost use Rattle.bpf_insn.specs.Code.{IsCode};
ghost use Rattle.bpf_insn.specs.declared.refusal.Cause.TheVariants.{Memory};
ghost use Rattle.bpf_flow.specs.Causes.{IsRuleCause};
ghost use Rattle.bpf_flow.specs.Edges.{Edges};
ghost use Rattle.bpf_flow.specs.Gives.{Fails, edges_along, WantsMemory};
ghost use Rattle.bpf_note.specs.Facts.{Facts};
ghost use Rattle.bpf_note.specs.Parts.{facts};
ghost use Rattle.bpf_verify.specs.Consistent.{IsOrdered};
ghost use Rattle.bpf_verify.specs.FirstRefusal.{IsStructured, IsPassed, IsHalted, IsStoppedBy};
ghost use Rattle.bpf_verify.specs.Gathered.{Hears, rule_at, told, first_notes, AreAllowed, TakesMemory, IsFirstCause, IsFirstRefused};
ghost use Rattle.bpf_verify.specs.Lost.{ComesWith};
ghost use Rattle.bpf_verify.specs.Structure.{begins};
ghost use Rattle.bpf_verify.specs.Tables.{facts_at, LeadInside, IsMet};

use crate::graph::pass_order;
use crate::note_list::NoteList;
use crate::out_of_memory::memory_refusal;
use crate::stopped::{Stopped, is_rule_cause};
use bpf_flow::{Ways, transfer};
use bpf_insn::{Cause, Insn};
use bpf_note::{MapShape, Note, Spares};
use std::alloc::{AllocError, Global};
use std::mem;

/// The notes at each slot, and memory that is used again: that of the list that was followed last, which the next list
/// without notes takes over, and that of notes.
#[derive(Drop)]
struct Table {
    lists: Vec<NoteList>,
    spare: NoteList,
    spares: Spares,
}

/// Brings a note to a slot.
fn tell(table: &mut Table, pc: u32, note: Box<Note>) -> Result<(), AllocError>
    requires { pc < vec_len table.old.lists }
    ensures size { OnOk result (vec_len table.new.lists ≡ vec_len table.old.lists) }
    ensures hears { OnOk result ((q : ℕ) → Hears (facts_at table.old.lists.items q) q ((pc, facts note.value) ∷ [])
        (facts_at table.new.lists.items q)) }
{
    let list = &mut table.lists[pc as usize];
    list.take_over(&mut table.spare);
    list.arrive(note, &mut table.spares)
}

/// Brings notes to the slots that an instruction leads to: this one to the first of them.
fn spread(table: &mut Table, note: Box<Note>, ways: Ways) -> Result<(), AllocError>
    requires { LeadInside (edges_along ways (facts note.value)) (vec_len table.old.lists) }
    ensures size { OnOk result (vec_len table.new.lists ≡ vec_len table.old.lists) }
    ensures hears { OnOk result ((q : ℕ) → Hears (facts_at table.old.lists.items q) q (edges_along ways (facts note.value))
        (facts_at table.new.lists.items q)) }
    ensures err { OnErr result (WantsMemory (Ok (edges_along ways (facts note.value)))) }
{
    match ways {
        Ways::None => Ok(()),
        Ways::One(next) => tell(table, next, note),
        Ways::Two(next, target) => {
            tell(table, next, note)?;
            tell(table, target.pc, target.note)
        }
    }
}

/// Takes one note of a slot along its edges. A refused note comes back as it was.
fn follow_note(
    code: &[Insn],
    shapes: &[MapShape],
    table: &mut Table,
    pc: u32,
    mut note: Box<Note>,
) -> Result<(), Stopped>
    requires laid { IsCode code.now }
    requires structured { IsStructured code.now (length shapes.now) }
    requires there { pc < length code.now }
    requires begins { begins (slice_get code.now pc) ≡ true }
    requires size { vec_len table.old.lists ≡ length code.now }
    ensures size { OnOk result (vec_len table.new.lists ≡ length code.now) }
    ensures hears { OnOk result ((es : Edges) × (rule_at code.now shapes.now pc (facts note.value) ≡ Ok es) ×
        ((q : ℕ) → Hears (facts_at table.old.lists.items q) q es (facts_at table.new.lists.items q))) }
    ensures slot { IfErr result (λ s. s.refusal.pc ≡ pc) }
    ensures err { IfErr result (λ s. Fails s.refusal.cause (rule_at code.now shapes.now pc (facts note.value))) }
    ensures there { IfErr result (λ s. IsSome s.note ↔ IsRuleCause s.refusal.cause) }
    ensures kept { IfErr result (λ s. IfSome s.note (λ n. n.value ≡ note.value)) }
{
    match transfer(&mut table.spares, &code[pc as usize], pc, &mut note, shapes) {
        Ok(ways) => match spread(table, note, ways) {
            Ok(()) => Ok(()),
            Err(error) => Err(Stopped::from(memory_refusal(error, pc))),
        },
        Err(cause) => Err(Stopped::at_note(cause, pc, note)),
    }
}

/// Takes the notes of one slot along its edges. No slot after it asks for them, so the notes themselves go.
fn follow(
    alloc: Global,
    code: &[Insn],
    shapes: &[MapShape],
    table: &mut Table,
    pc: u32,
) -> Result<(), Stopped>
    requires laid { IsCode code.now }
    requires structured { IsStructured code.now (length shapes.now) }
    requires there { pc < length code.now }
    requires begins { begins (slice_get code.now pc) ≡ true }
    requires size { vec_len table.old.lists ≡ length code.now }
    ensures size { OnOk result (vec_len table.new.lists ≡ length code.now) }
    ensures hears { OnOk result ((q : ℕ) → q ≢ pc →
        Hears (facts_at table.old.lists.items q) q (told code.now shapes.now pc (facts_at table.old.lists.items pc))
        (facts_at table.new.lists.items q)) }
    ensures allowed { OnOk result (AreAllowed code.now shapes.now pc (facts_at table.old.lists.items pc)) }
    ensures slot { IfErr result (λ s. s.refusal.pc ≡ pc) }
    ensures err { IfErr result (λ s. IsMet s.refusal.cause (TakesMemory code.now shapes.now pc (facts_at table.old.lists.items pc))
        (IsFirstCause code.now shapes.now pc (facts_at table.old.lists.items pc) s.refusal.cause)) }
    ensures there { IfErr result (λ s. IsSome s.note ↔ IsRuleCause s.refusal.cause) }
    ensures note { IfErr result (λ s. IfSome s.note
        (λ n. IsFirstRefused code.now shapes.now pc (facts_at table.old.lists.items pc) s.refusal.cause (facts n.value))) }
{
    let mut list = mem::replace(&mut table.lists[pc as usize], NoteList::empty(alloc));
    list.reverse();
    while let Some(note) = list.take_last() {
        follow_note(code, shapes, table, pc, note)?;
    }
    table.spare = list;
    Ok(())
}

/// Returns what is known at the first slot, and nothing at the others.
fn blank(alloc: Global, slots: usize) -> Result<Table, AllocError>
    requires { 0 < slots }
    ensures size { IfOk result (λ t. vec_len t.lists ≡ slots) }
    ensures first { IfOk result (λ t. (q : ℕ) → facts_at t.lists.items q ≡ first_notes q) }
{
    let mut lists = Vec::with_capacity(alloc, slots)?;
    lists.push(NoteList::at_entry(alloc)?)?;
    for _slot in 1..slots {
        lists.push(NoteList::empty(alloc))?;
    }
    Ok(Table {
        lists,
        spare: NoteList::empty(alloc),
        spares: Spares::none(alloc),
    })
}

/// The second pass: over the reached slots in their order, or up to the first refusal. Out of memory is V0 at the slot being
/// checked, or at 0 before the first.
pub(crate) fn second_pass(alloc: Global, code: &[Insn], shapes: &[MapShape]) -> Result<(), Stopped>
    requires laid { IsCode code.now }
    requires structured { IsStructured code.now (length shapes.now) }
    requires ordered { IsOrdered code.now }
    ensures passed { IfOk result (λ _. (notes : ℕ → List Facts) × IsPassed code.now shapes.now notes) }
    ensures halted { IfErr result (λ s. IsHalted code.now shapes.now s.refusal.pc s.refusal.cause) }
    ensures there { IfErr result (λ s. IsSome s.note ↔ IsRuleCause s.refusal.cause) }
    ensures note { IfErr result (λ s. IfSome s.note (λ n. IsStoppedBy code.now shapes.now s.refusal.pc s.refusal.cause (facts n.value))) }
{
    let order = match pass_order(alloc, code) {
        Ok(order) => order,
        Err(error) => return Err(Stopped::from(memory_refusal(error, 0))),
    };
    let mut table = match blank(alloc, code.len()) {
        Ok(table) => table,
        Err(error) => return Err(Stopped::from(memory_refusal(error, 0))),
    };
    for &pc in &order {
        follow(alloc, code, shapes, &mut table, pc)?;
    }
    Ok(())
}

/// The notes of a slot as the second pass comes to it, if it does. An `Err` is out of memory.
pub(crate) fn notes_at(
    alloc: Global,
    code: &[Insn],
    shapes: &[MapShape],
    at: u32,
) -> Result<Option<Vec<Box<Note>>>, Cause>
    requires laid { IsCode code.now }
    requires structured { IsStructured code.now (length shapes.now) }
    requires ordered { IsOrdered code.now }
    ensures some { IfOk result (λ o. IfSome o (λ v. ComesWith code.now shapes.now at (map (λ b. facts b.value) v.items))) }
    ensures none { IfOk result (λ o. IfNone o ((list : List Facts) → ComesWith code.now shapes.now at list → ⊥)) }
    ensures err { IfErr result (λ c. c ≡ Memory) }
{
    let order = pass_order(alloc, code)?;
    let mut table = blank(alloc, code.len())?;
    for &pc in &order {
        if pc == at {
            let list = mem::replace(&mut table.lists[at as usize], NoteList::empty(alloc));
            return Ok(Some(list.into_notes()));
        }
        if let Err(stopped) = follow(alloc, code, shapes, &mut table, pc) {
            if is_rule_cause(stopped.refusal.cause) {
                return Ok(None);
            }
            return Err(stopped.refusal.cause);
        }
    }
    Ok(None)
}
