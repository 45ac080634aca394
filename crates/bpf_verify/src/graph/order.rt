//! The order in which slots are taken: each time the lowest to which no slot leads that isn't taken.
ghost use Rattle.std.specs.Prelude.{◌≡◌, ◌<◌, ◌≤◌, ◌+◌, ◌^◌, ◌⊎◌, ℕ, Some, true, length, vec_len, slice_index, IfOk, IfSome, IfNone};
ghost use Rattle.bpf_verify.specs.Consistent.{IsOrdered};
ghost use Rattle.bpf_verify.specs.Edges.{Edge, IsPassOrder};
ghost use Rattle.bpf_verify.specs.Marks.{marked, IsLeft};
ghost use Rattle.bpf_verify.specs.Orders.{Takes};
ghost use Rattle.bpf_verify.specs.Waits.{one, into, IsFree};

use crate::graph::edges::{fall_to, jump_to};
use crate::graph::reach::reached;
use crate::graph::rising::{is_rising, rising_order};
use bpf_insn::Insn;
use std::alloc::{AllocError, Global};

/// One more edge to a slot.
fn add(waits: &mut Vec<u32>, to: Option<u32>)
    requires inside { (q : ℕ) → to ≡ Some q → q < vec_len waits.old }
    requires room { (q : ℕ) → slice_index waits.old.items q + 1 < 2 ^ 32 }
    ensures len { vec_len waits.new ≡ vec_len waits.old }
    ensures more { (q : ℕ) → slice_index waits.new.items q ≡ slice_index waits.old.items q + one to q }
{
    if let Some(at) = to {
        waits[at as usize] += 1;
    }
}

/// One edge fewer to a slot.
fn release(waits: &mut Vec<u32>, to: Option<u32>)
    requires inside { (q : ℕ) → to ≡ Some q → q < vec_len waits.old }
    requires some { (q : ℕ) → one to q ≤ slice_index waits.old.items q }
    ensures len { vec_len waits.new ≡ vec_len waits.old }
    ensures fewer { (q : ℕ) → slice_index waits.new.items q + one to q ≡ slice_index waits.old.items q }
{
    if let Some(at) = to {
        waits[at as usize] -= 1;
    }
}

/// Returns the number of edges that lead to each slot from live slots.
fn waits_of(alloc: Global, code: &[Insn], live: &[bool]) -> Result<Vec<u32>, AllocError>
    requires short { length code.now ≤ 4096 }
    requires len { length live.now ≡ length code.now }
    ensures len { IfOk result (λ v. vec_len v ≡ length code.now) }
    ensures counts { IfOk result (λ v. (q : ℕ) → slice_index v.items q ≡ into code.now (marked live.now) (length code.now) q) }
{
    let mut waits = vec![in alloc; 0u32; code.len()]?;
    for pc in 0..code.len() as u32 {
        if live[pc as usize] {
            let fall = fall_to(code, pc);
            let jump = jump_to(code, pc);
            add(&mut waits, fall);
            add(&mut waits, jump);
        }
    }
    Ok(waits)
}

/// The lowest slot from one on that is live and waits for nothing.
fn first_free(live: &[bool], waits: &[u32], from: u32) -> Option<u32>
    requires same { length live.now ≡ length waits.now }
    requires short { length live.now ≤ 4096 }
    ensures from { IfSome result (λ p. from ≤ p) }
    ensures free { IfSome result (λ p. IsFree live.now waits.now p) }
    ensures first { IfSome result (λ p. (q : ℕ) → from ≤ q → q < p → IsFree live.now waits.now q → ⊥) }
    ensures none { IfNone result ((q : ℕ) → from ≤ q → IsFree live.now waits.now q → ⊥) }
{
    for pc in from..live.len() as u32 {
        if live[pc as usize] && waits[pc as usize] == 0 {
            return Some(pc);
        }
    }
    None
}

/// The slots taken, in order, and which are left.
#[derive(Drop)]
pub(crate) struct Taken {
    pub(crate) taken: Vec<u32>,
    pub(crate) left: Vec<bool>,
}

/// The lower of the two.
fn lower(pc: u32, jump: Option<u32>) -> u32
    ensures low { result ≤ pc }
    ensures jump { IfSome jump (λ to. result ≤ to) }
    ensures one { (result ≡ pc) ⊎ (jump ≡ Some result) }
{
    match jump {
        Some(to) if to < pc => to,
        _ => pc,
    }
}

/// Takes each time the lowest live slot to which no live slot leads, until there is none. At the start the marked slots
/// are live.
pub(crate) fn order(alloc: Global, code: &[Insn], start: Vec<bool>) -> Result<Taken, AllocError>
    requires short { length code.now ≤ 4096 }
    requires len { vec_len start ≡ length code.now }
    ensures takes { IfOk result (λ v. Takes (Edge code.now) (λ q. marked start.items q ≡ true) v.taken.items) }
    ensures left { IfOk result (λ v. IsLeft (Edge code.now) start.items v.taken.items v.left.items) }
{
    let mut waits = waits_of(alloc, code, &start)?;
    let mut live = start;
    let mut taken = Vec::new(alloc);
    let mut from: u32 = 0;
    while let Some(pc) = first_free(&live, &waits, from) {
        taken.push(pc)?;
        live[pc as usize] = false;
        let fall = fall_to(code, pc);
        let jump = jump_to(code, pc);
        release(&mut waits, fall);
        release(&mut waits, jump);
        from = lower(pc, jump);
    }
    Ok(Taken { taken, left: live })
}

/// The slots that are reached from the first, in the order in which the second pass takes them.
pub fn pass_order(alloc: Global, code: &[Insn]) -> Result<Vec<u32>, AllocError>
    requires short { length code.now ≤ 4096 }
    requires some { 0 < length code.now }
    requires ordered { IsOrdered code.now }
    ensures { IfOk result (λ v. IsPassOrder code.now v.items) }
{
    if is_rising(code) {
        return rising_order(alloc, code);
    }
    let start = reached(alloc, code, 0)?;
    let order = order(alloc, code, start)?;
    Ok(order.taken)
}
