//! Instructions.
use crate::alu_op::AluOp;
use crate::condition::Condition;
use crate::operand::Operand;
use crate::register::Register;
use crate::size::Size;
use crate::swap_kind::SwapKind;
use crate::width::Width;

/// An instruction. `wide` says that it works on 64 bits, else on the low 32; `off` is an offset in bytes for an
/// access, and in 8-byte slots from the next instruction for a jump.
#[derive(Clone, Copy, Debug, PartialEq, Eq, Drop)]
pub enum Insn {
    /// `dst = dst op src`; without `wide` the upper half of `dst` becomes 0.
    Alu {
        op: AluOp,
        wide: bool,
        dst: Register,
        src: Operand,
    },
    /// `dst = -dst`.
    Neg {
        wide: bool,
        dst: Register,
    },
    /// Changes the order of the low bytes of `dst`.
    End {
        kind: SwapKind,
        width: Width,
        dst: Register,
    },
    /// Moves the low bytes of `src`, read as signed. Spelled only for bytes, halves and, if `wide`, words.
    MovSx {
        wide: bool,
        bits: Size,
        dst: Register,
        src: Register,
    },
    /// A wide load of a 64-bit constant. It takes two slots.
    Const {
        dst: Register,
        value: u64,
    },
    /// A wide load of a reference to the map numbered `m`. It takes two slots.
    MapRef {
        dst: Register,
        m: u32,
    },
    /// Loads from `src + off`. `signed` is spelled only below eight bytes.
    Ldx {
        size: Size,
        signed: bool,
        dst: Register,
        src: Register,
        off: i16,
    },
    /// Stores a constant at `dst + off`.
    St {
        size: Size,
        dst: Register,
        off: i16,
        imm: i32,
    },
    /// Stores the low bytes of `src` at `dst + off`.
    Stx {
        size: Size,
        dst: Register,
        src: Register,
        off: i16,
    },
    /// Adds `src` to the eight bytes at `dst + off` in one step; with `fetch` the old number goes to `src`.
    AddCounter {
        fetch: bool,
        dst: Register,
        src: Register,
        off: i16,
    },
    /// Jumps by `to`, spelled in the 32-bit field if `wide_offset`, else in the 16-bit one.
    Ja {
        wide_offset: bool,
        to: i32,
    },
    /// Jumps by `off` if `dst cond src` holds.
    Jump {
        cond: Condition,
        wide: bool,
        dst: Register,
        src: Operand,
        off: i16,
    },
    /// Calls the helper of that number.
    Call {
        helper: i32,
    },
    /// Ends the program with `r0`.
    Exit,
    /// The second slot of a wide load. It is no instruction of its own.
    Second,
}

impl Insn {
    ghost use Rattle.std.specs.Prelude.{◌≡◌, length};
    ghost use Rattle.bpf_insn.specs.Code.{takes};

    /// Returns the number of slots that the instruction takes: 2 for a wide load, else 1.
    pub fn slot_count(self) -> usize
        ensures { result ≡ length (takes self) }
    {
        match self {
            Insn::Const { .. } | Insn::MapRef { .. } => 2,
            _ => 1,
        }
    }
}
