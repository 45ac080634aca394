//! Why a program is refused, with the note at fault.
ghost use Rattle.std.specs.Prelude.{◌≡◌, ◌↔◌, IsTrue, IsSome, IfSome};
ghost use Rattle.bpf_flow.specs.Causes.{IsRuleCause};

use bpf_insn::{Cause, Refusal};
use bpf_note::Note;

/// A refusal, with the note that the rule refuses if its cause is one of the rule.
#[derive(Drop)]
pub(crate) struct Stopped {
    pub(crate) refusal: Refusal,
    pub(crate) note: Option<Box<Note>>,
}

impl From<Refusal> for Stopped {
    ghost use Rattle.std.specs.Prelude.{◌≡◌, None};

    ghost from_gives = { λ r s. (s.refusal ≡ r) × (s.note ≡ None) };

    fn from(refusal: Refusal) -> Stopped {
        Stopped {
            refusal,
            note: None,
        }
    }
}

/// Returns whether the rule for an instruction may answer the cause.
pub(crate) fn is_rule_cause(cause: Cause) -> bool
    ensures { IsTrue result ↔ IsRuleCause cause }
{
    matches!(
        cause,
        Cause::Unset
            | Cause::FramePointer
            | Cause::NoPointer
            | Cause::Packet
            | Cause::Stack
            | Cause::Context
            | Cause::MayBeNull
            | Cause::MapAccess
            | Cause::Helper
            | Cause::Argument
    )
}

impl Stopped {
    /// A note of a slot could not be followed. When memory ran out the note is dropped.
    pub(crate) fn at_note(cause: Cause, pc: u32, note: Box<Note>) -> Stopped
        ensures cause { result.refusal.cause ≡ cause }
        ensures slot { result.refusal.pc ≡ pc }
        ensures there { IsSome result.note ↔ IsRuleCause cause }
        ensures same { IfSome result.note (λ n. n ≡ note) }
    {
        Stopped {
            refusal: Refusal { cause, pc },
            note: if is_rule_cause(cause) {
                Some(note)
            } else {
                None
            },
        }
    }
}
