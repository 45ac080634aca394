//! Bytes that are a program's.
ghost use Rattle.std.specs.Prelude.{◌≡◌, ◌↔◌, ◌⊎◌, ◌++◌, ℕ, List, IfNone, IfSome, IsTrue};
ghost use Rattle.bpf_insn.specs.Code.{IsCode, Spells};
ghost use Rattle.bpf_insn.specs.Spelling.{HasSpelling, spelling};

use bpf_insn::{Insn, encode};

/// Returns what follows the bytes of an instruction, if these bytes begin with them. The second slot of a wide load has none of its
/// own.
fn after<'b>(insn: &Insn, bytes: &'b [u8]) -> Option<&'b [u8]>
    requires { HasSpelling insn.now ⊎ (insn.now ≡ Insn.Second) }
    ensures some { IfSome result (λ rest. bytes.now ≡ spelling insn.now ++ rest.now) }
    ensures none { IfNone result ((rest : List ℕ) → bytes.now ≡ spelling insn.now ++ rest → ⊥) }
{
    if let Insn::Second = insn {
        return Some(bytes);
    }
    let (spelled, length) = encode(insn);
    bytes.strip_prefix(&spelled[..length])
}

/// Returns whether these bytes spell these instructions. It takes no memory.
pub(crate) fn spells(insns: &[Insn], bytes: &[u8]) -> bool
    requires { IsCode insns.now }
    ensures { IsTrue result ↔ Spells insns.now bytes.now }
{
    let mut rest = bytes;
    for insn in insns {
        match after(insn, rest) {
            Some(more) => rest = more,
            None => return false,
        }
    }
    rest.is_empty()
}
