//! Through which register an instruction reaches memory.
ghost use Rattle.std.specs.Prelude.{◌≡◌, ◌≤◌, IfSome};
ghost use Rattle.bpf_insn.specs.Size.{size_bytes};
ghost use Rattle.bpf_note.specs.Parts.{facts};
ghost use Rattle.bpf_explain.specs.Accesses.{access_at, access_of, address_of, base_of, key_of};

use bpf_insn::{Insn, Register, Size};
use bpf_note::{MapShape, Note, Val};

/// An access to `bytes` bytes, `off` bytes past the address in `base`.
#[derive(Clone, Copy)]
pub(crate) struct Access {
    pub base: Register,
    pub off: i16,
    pub bytes: u32,
}

/// The number of bytes that a counter has.
const COUNTER: u32 = 8;

/// The number of bytes that a key has, unless the map in r1 says otherwise.
const KEY: u32 = 4;

fn sized(base: Register, off: i16, size: Size) -> Access
    ensures base { result.base ≡ base }
    ensures off { result.off ≡ off }
    ensures bytes { result.bytes ≡ size_bytes size }
{
    Access {
        base,
        off,
        bytes: size.bytes() as u32,
    }
}

/// The access of a load, a store, an add or a lookup.
pub(crate) fn access_of(insn: Insn) -> Option<Access>
    ensures value { result ≡ access_of insn }
    ensures some { IfSome result (λ a. 1 ≤ a.bytes) }
    ensures few { IfSome result (λ a. a.bytes ≤ 8) }
{
    match insn {
        Insn::Ldx { size, src, off, .. } => Some(sized(src, off, size)),
        Insn::St { size, dst, off, .. } => Some(sized(dst, off, size)),
        Insn::Stx { size, dst, off, .. } => Some(sized(dst, off, size)),
        Insn::AddCounter { dst, off, .. } => Some(Access {
            base: dst,
            off,
            bytes: COUNTER,
        }),
        Insn::Call { .. } => Some(Access {
            base: Register::R2,
            off: 0,
            bytes: KEY,
        }),
        _ => None,
    }
}

/// Returns the number of bytes that a lookup's key has, r1 having this value.
fn key_of(shapes: &[MapShape], map: Val) -> u32
    ensures value { result ≡ key_of shapes.now map }
    ensures some { 1 ≤ result }
    ensures few { result ≤ 512 }
{
    let Val::Map { m } = map else {
        return KEY;
    };
    match shapes.get(m as usize) {
        None => KEY,
        Some(shape) => shape.key().size(),
    }
}

/// The access of an instruction, a lookup's with all bytes of its key.
pub(crate) fn access_at(shapes: &[MapShape], note: &Note, insn: Insn) -> Option<Access>
    ensures value { result ≡ access_at shapes.now (facts note.now) insn }
    ensures some { IfSome result (λ a. 1 ≤ a.bytes) }
    ensures few { IfSome result (λ a. a.bytes ≤ 512) }
{
    match insn {
        Insn::Call { .. } => Some(Access {
            base: Register::R2,
            off: 0,
            bytes: key_of(shapes, note.register(1)),
        }),
        _ => access_of(insn),
    }
}

/// The register through which an instruction reaches memory.
pub(crate) fn base_of(insn: Insn) -> Option<Register>
    ensures { result ≡ base_of insn }
{
    let access = access_of(insn)?;
    Some(access.base)
}

/// Returns what is known of the address through which an instruction reaches memory.
pub(crate) fn address_of(note: &Note, insn: Insn) -> Val
    ensures { result ≡ address_of (facts note.now) insn }
{
    match access_of(insn) {
        None => Val::Unset,
        Some(access) => note.register(access.base.number()),
    }
}
