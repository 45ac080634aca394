//! How instructions print, in three parts: each is empty for the others' instructions.

use crate::insn::Insn;
use crate::text_parts::{Addition, Cell, Kind, Name, Signed, Source, Test};
use std::fmt;

/// The text of arithmetic.
#[derive(Clone, Copy)]
struct Arithmetic(Insn);

impl fmt::Display for Arithmetic {
    ghost use Rattle.std.specs.Prelude.{Some};
    ghost use Rattle.bpf_insn.specs.Text.{arithmetic_text};

    ghost output = { λ i. Some (arithmetic_text i.0) };

    fn fmt<W: fmt::Write>(&self, f: &mut fmt::Formatter<W>) -> fmt::Result {
        match self.0 {
            Insn::Alu { op, wide, dst, src } => {
                let source = Source { wide, operand: src };
                write!(f, "{} {op} {source}", Name::new(wide, dst))
            }
            Insn::Neg { wide, dst } => {
                let dst = Name::new(wide, dst);
                write!(f, "{dst} = -{dst}")
            }
            Insn::End { kind, width, dst } => {
                let dst = Name::new(true, dst);
                write!(f, "{dst} = {kind}{} {dst}", width.bits())
            }
            Insn::MovSx {
                wide,
                bits,
                dst,
                src,
            } => {
                let kind = Kind {
                    signed: true,
                    size: bits,
                };
                let dst = Name::new(wide, dst);
                write!(f, "{dst} = ({kind}){}", Name::new(wide, src))
            }
            Insn::Const { dst, value } => write!(f, "{} = 0x{value:x}", Name::new(true, dst)),
            Insn::MapRef { dst, m } => write!(f, "{} = map {m}", Name::new(true, dst)),
            _ => Ok(()),
        }
    }
}

/// The text of accesses.
#[derive(Clone, Copy)]
struct Access(Insn);

impl fmt::Display for Access {
    ghost use Rattle.std.specs.Prelude.{Some};
    ghost use Rattle.bpf_insn.specs.Text.{access_text};

    ghost output = { λ i. Some (access_text i.0) };

    fn fmt<W: fmt::Write>(&self, f: &mut fmt::Formatter<W>) -> fmt::Result {
        match self.0 {
            Insn::Ldx {
                size,
                signed,
                dst,
                src,
                off,
            } => {
                let cell = Cell::new(signed, size, src, off);
                write!(f, "{} = {cell}", Name::new(true, dst))
            }
            Insn::St {
                size,
                dst,
                off,
                imm,
            } => write!(f, "{} = {imm}", Cell::new(false, size, dst, off)),
            Insn::Stx {
                size,
                dst,
                src,
                off,
            } => {
                let cell = Cell::new(false, size, dst, off);
                write!(f, "{cell} = {}", Name::new(true, src))
            }
            Insn::AddCounter {
                fetch,
                dst,
                src,
                off,
            } => write!(f, "{}", Addition::new(fetch, dst, off, src)),
            _ => Ok(()),
        }
    }
}

/// The text of jumps, calls and the exit.
#[derive(Clone, Copy)]
struct Control(Insn);

impl fmt::Display for Control {
    ghost use Rattle.std.specs.Prelude.{Some};
    ghost use Rattle.bpf_insn.specs.Text.{control_text};

    ghost output = { λ i. Some (control_text i.0) };

    fn fmt<W: fmt::Write>(&self, f: &mut fmt::Formatter<W>) -> fmt::Result {
        match self.0 {
            Insn::Ja { wide_offset, to } => {
                let to = Signed(to);
                if wide_offset {
                    write!(f, "gotol pc{to}")
                } else {
                    write!(f, "goto pc{to}")
                }
            }
            Insn::Jump {
                cond,
                wide,
                dst,
                src,
                off,
            } => {
                let test = Test {
                    cond,
                    wide,
                    dst,
                    src,
                };
                write!(f, "if {test} goto pc{}", Signed(i32::from(off)))
            }
            Insn::Call { helper } => write!(f, "call {helper}"),
            Insn::Exit => f.write_str("exit"),
            Insn::Second => f.write_str("second slot"),
            _ => Ok(()),
        }
    }
}

impl fmt::Display for Insn {
    ghost use Rattle.std.specs.Prelude.{Some};
    ghost use Rattle.bpf_insn.specs.Text.{insn_text};

    ghost output = { λ i. Some (insn_text i) };

    fn fmt<W: fmt::Write>(&self, f: &mut fmt::Formatter<W>) -> fmt::Result {
        let insn = *self;
        write!(f, "{}{}{}", Arithmetic(insn), Access(insn), Control(insn))
    }
}
