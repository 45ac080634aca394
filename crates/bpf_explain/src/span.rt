//! Numbers that decide a refusal: which bytes of the packet an access reaches, how many counters a value has, and where a
//! jump goes.
ghost use Rattle.std.specs.Prelude.{◌≡◌, ◌≤◌, IfOk, Option, string_bytes};
ghost use Rattle.bpf_explain.specs.Span.{counters_text, jump_of, span_text, target_text};

use crate::access::Access;
use bpf_insn::Insn;
use bpf_note::{MapShape, Val};
use std::alloc::{AllocError, Global};

/// The bytes of an access to the packet, counted from the base of the address's id: the first, and the one past the
/// last.
pub(crate) fn span_text(alloc: Global, address: Val, access: Access) -> Result<String, AllocError>
    requires { access.bytes ≤ 8 }
    ensures { IfOk result (λ s. string_bytes s ≡ span_text address (Option.Some access)) }
{
    let Val::Pkt { off, .. } = address else {
        return Ok(String::new(alloc));
    };
    let first = i64::from(off) + i64::from(access.off);
    let end = first + i64::from(access.bytes);
    format!(in alloc; "  access={first}..{end}")
}

/// Returns the number of counters that each value of a map has, if the address is one of a value.
pub(crate) fn counters_text(
    alloc: Global,
    shapes: &[MapShape],
    address: Val,
) -> Result<String, AllocError>
    ensures { IfOk result (λ s. string_bytes s ≡ counters_text shapes.now address) }
{
    let Val::Value { m } = address else {
        return Ok(String::new(alloc));
    };
    match shapes.get(m as usize) {
        None => Ok(String::new(alloc)),
        Some(shape) => {
            let counters = shape.counters();
            format!(in alloc; "  counters={counters}")
        }
    }
}

/// By how much a jump goes on from the next slot.
fn jump_of(insn: Insn) -> Option<i32>
    ensures { result ≡ jump_of insn }
{
    match insn {
        Insn::Ja { to, .. } => Some(to),
        Insn::Jump { off, .. } => Some(i32::from(off)),
        _ => None,
    }
}

/// The slot to which the jump at slot `pc` goes.
pub(crate) fn target_text(alloc: Global, pc: u32, insn: Insn) -> Result<String, AllocError>
    ensures { IfOk result (λ s. string_bytes s ≡ target_text pc (jump_of insn)) }
{
    match jump_of(insn) {
        None => Ok(String::new(alloc)),
        Some(off) => {
            let target = i64::from(pc) + 1 + i64::from(off);
            format!(in alloc; "       to {target}\n")
        }
    }
}
