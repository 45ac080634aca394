//! The slots of loads, stores and adds.
ghost use Rattle.std.specs.Prelude.{◌≡◌, ◌%◌, Bool, ℤ, [], ◌∷◌, IfNone, IfSome};
ghost use Rattle.bpf_insn.specs.Spelling.{slots};
ghost use Rattle.bpf_insn.specs.declared.fields.Fields.{Fields};
ghost use Rattle.bpf_insn.specs.declared.insn.Insn.{Insn};
ghost use Rattle.bpf_insn.specs.declared.register.Register.{Register};
ghost use Rattle.bpf_insn.specs.declared.size.Size.{Size};

use crate::fields::Fields;
use crate::insn::Insn;
use crate::register::Register;
use crate::size::Size;

/// An LDX instruction.
pub(crate) fn load(f: Fields) -> Option<Insn>
    requires { f.op % 8 ≡ 1 }
    ensures some { IfSome result (λ i. slots i ≡ f ∷ []) }
    ensures none { IfNone result ((size : Size) (signed : Bool) (dst src : Register) (off : ℤ) →
        slots (Insn.Ldx size signed dst src off) ≡ f ∷ [] → ⊥) }
{
    let dst = Register::of_number(f.dst)?;
    let src = Register::of_number(f.src)?;
    if f.imm != 0 {
        return None;
    }
    let (size, signed) = match f.op {
        0x61 => (Size::Word, false),
        0x69 => (Size::Half, false),
        0x71 => (Size::Byte, false),
        0x79 => (Size::Double, false),
        0x81 => (Size::Word, true),
        0x89 => (Size::Half, true),
        0x91 => (Size::Byte, true),
        _ => return None,
    };
    Some(Insn::Ldx {
        size,
        signed,
        dst,
        src,
        off: f.off,
    })
}

/// An ST instruction.
pub(crate) fn store_constant(f: Fields) -> Option<Insn>
    requires { f.op % 8 ≡ 2 }
    ensures some { IfSome result (λ i. slots i ≡ f ∷ []) }
    ensures none { IfNone result ((size : Size) (dst : Register) (off imm : ℤ) → slots (Insn.St size dst off imm) ≡ f ∷ [] → ⊥) }
{
    let dst = Register::of_number(f.dst)?;
    if f.src != 0 {
        return None;
    }
    let size = match f.op {
        0x62 => Size::Word,
        0x6a => Size::Half,
        0x72 => Size::Byte,
        0x7a => Size::Double,
        _ => return None,
    };
    Some(Insn::St {
        size,
        dst,
        off: f.off,
        imm: f.imm,
    })
}

/// An STX instruction.
pub(crate) fn store(f: Fields) -> Option<Insn>
    requires { f.op % 8 ≡ 3 }
    ensures some { IfSome result (λ i. slots i ≡ f ∷ []) }
    ensures plain { IfNone result ((size : Size) (dst src : Register) (off : ℤ) → slots (Insn.Stx size dst src off) ≡ f ∷ [] → ⊥) }
    ensures atomic { IfNone result ((fetch : Bool) (dst src : Register) (off : ℤ) →
        slots (Insn.AddCounter fetch dst src off) ≡ f ∷ [] → ⊥) }
{
    let dst = Register::of_number(f.dst)?;
    let src = Register::of_number(f.src)?;
    let off = f.off;
    let size = match (f.op, f.imm) {
        (0x63, 0) => Size::Word,
        (0x6b, 0) => Size::Half,
        (0x73, 0) => Size::Byte,
        (0x7b, 0) => Size::Double,
        (0xdb, 0 | 1) => {
            return Some(Insn::AddCounter {
                fetch: f.imm == 1,
                dst,
                src,
                off,
            });
        }
        _ => return None,
    };
    Some(Insn::Stx {
        size,
        dst,
        src,
        off,
    })
}
