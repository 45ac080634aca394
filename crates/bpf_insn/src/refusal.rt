//! Refusals and their causes.
use std::alloc::AllocError;
use std::fmt;

/// The reason why a program is refused. A cause prints as its number, as `V7`; there is no V18.
#[derive(Clone, Copy, Debug, PartialEq, Eq, Drop)]
pub enum Cause {
    /// V0: memory ran out.
    Memory,
    /// V1: the length is no positive multiple of 8, or above 32,768 bytes.
    Length,
    /// V2: an opcode that stands for nothing, or a field that isn't as its instruction wants it.
    Opcode,
    /// V3: a register above 10.
    Register,
    /// V4: a jump out of the program, or into a wide load.
    Target,
    /// V5: a jump that closes a cycle.
    BackJump,
    /// V6: the program can run past its end.
    End,
    /// V7: a register is read that may be unset.
    Unset,
    /// V8: a write to `r10`.
    FramePointer,
    /// V9: an access through a number.
    NoPointer,
    /// V10: an access to the packet that may lie outside it.
    Packet,
    /// V11: an access to the stack outside it, or a load of bytes that may be unset.
    Stack,
    /// V12: an access to the context that isn't the load of a field.
    Context,
    /// V13: an access through a map lookup's result that may be 0.
    MayBeNull,
    /// V14: an access to a map that isn't one of a counter.
    MapAccess,
    /// V15: a call of an unknown helper.
    Helper,
    /// V16: a map number at or past the number of maps.
    MapNumber,
    /// V17: a helper's argument of the wrong kind.
    Argument,
    /// V19: an instruction that this profile leaves out.
    Unsupported,
}

impl Cause {
    ghost use Rattle.std.specs.Prelude.{◌≡◌};
    ghost use Rattle.bpf_insn.specs.Cause.{cause_number};

    /// The number after the V.
    pub fn number(self) -> u8
        ensures { result ≡ cause_number self }
    {
        match self {
            Cause::Memory => 0,
            Cause::Length => 1,
            Cause::Opcode => 2,
            Cause::Register => 3,
            Cause::Target => 4,
            Cause::BackJump => 5,
            Cause::End => 6,
            Cause::Unset => 7,
            Cause::FramePointer => 8,
            Cause::NoPointer => 9,
            Cause::Packet => 10,
            Cause::Stack => 11,
            Cause::Context => 12,
            Cause::MayBeNull => 13,
            Cause::MapAccess => 14,
            Cause::Helper => 15,
            Cause::MapNumber => 16,
            Cause::Argument => 17,
            Cause::Unsupported => 19,
        }
    }
}

impl From<AllocError> for Cause {
    ghost use Rattle.std.specs.Prelude.{◌≡◌};
    ghost use Rattle.bpf_insn.specs.declared.refusal.Cause.TheVariants.{Memory};

    ghost from_gives = { λ _ e. e ≡ Memory };

    fn from(_error: AllocError) -> Cause {
        Cause::Memory
    }
}

impl fmt::Display for Cause {
    ghost use Rattle.std.specs.Prelude.{Some};
    ghost use Rattle.bpf_insn.specs.Cause.{cause_text};

    ghost output = { λ c. Some (cause_text c) };

    fn fmt<W: fmt::Write>(&self, f: &mut fmt::Formatter<W>) -> fmt::Result {
        let number = self.number();
        write!(f, "V{number}")
    }
}

/// A program refused at a slot, counted in 8-byte slots from 0.
#[derive(Clone, Copy, Debug, PartialEq, Eq, Drop)]
pub struct Refusal {
    pub cause: Cause,
    pub pc: u32,
}

impl fmt::Display for Refusal {
    ghost use Rattle.std.specs.Prelude.{Some};
    ghost use Rattle.bpf_insn.specs.Cause.{refusal_text};

    ghost output = { λ r. Some (refusal_text r) };

    fn fmt<W: fmt::Write>(&self, f: &mut fmt::Formatter<W>) -> fmt::Result {
        let cause = self.cause;
        let pc = self.pc;
        write!(f, "{cause} at {pc}")
    }
}
