//! Jumps, the exit, and what the edges of a conditional jump say.
ghost use Rattle.std.specs.Prelude.{◌≡◌, ◌<◌, OnOk, IfOk, IsSome, true};
ghost use Rattle.bpf_insn.specs.Register.{number};
ghost use Rattle.bpf_insn.specs.declared.insn.Insn.{Insn};
ghost use Rattle.bpf_note.specs.Parts.{facts};
ghost use Rattle.bpf_flow.specs.Alu.{operand_value};
ghost use Rattle.bpf_flow.specs.Branch.{opposite, raise, narrowed, without, compared, against_end, end_against, is_null};
ghost use Rattle.bpf_flow.specs.Branch.{checked, refined};
ghost use Rattle.bpf_flow.specs.Effect.{Allocates, Decides, edges_by, met, missed};
ghost use Rattle.bpf_flow.specs.Gives.{edges_along};
ghost use Rattle.bpf_flow.specs.declared.effect.Effect.TheVariants.{Branches};
ghost use Rattle.bpf_flow.specs.Rule.{after_of};
ghost use Rattle.bpf_flow.specs.Step.{target};

use crate::alu::operand_value;
use crate::effect::Effect;
use crate::graph::jump_target;
use crate::point::{Point, is_unset};
use crate::successors::{Successor, Ways};
use bpf_insn::{Cause, Condition, Operand, Register};
use bpf_note::{Note, Spares, Val};
use std::alloc::AllocError;

/// The test of a conditional jump.
#[derive(Clone, Copy, Drop)]
pub(crate) struct Test {
    pub cond: Condition,
    pub wide: bool,
    pub dst: Register,
    pub src: Operand,
}

/// Returns what holds if a condition doesn't, for those that teach.
fn opposite(cond: Condition) -> Option<Condition>
    ensures { result ≡ opposite cond }
{
    match cond {
        Condition::Equal => Some(Condition::NotEqual),
        Condition::NotEqual => Some(Condition::Equal),
        Condition::Greater => Some(Condition::LessOrEqual),
        Condition::LessOrEqual => Some(Condition::Greater),
        Condition::GreaterOrEqual => Some(Condition::Less),
        Condition::Less => Some(Condition::GreaterOrEqual),
        _ => None,
    }
}

/// Raises the safe bound of an id.
fn raise(note: &mut Note, id: u16, safe: u32) -> Result<(), AllocError>
    ensures { OnOk result (facts note.new ≡ raise (facts note.old) id safe) }
{
    let raised = match note.safe(id) {
        None => safe,
        Some(old) => old.max(safe),
    };
    note.set_safe(id, Some(raised))
}

/// A register lies from `lo` to `hi`, unless nothing does.
fn narrow(note: &mut Note, number: u8, lo: u64, hi: u64)
    requires { number < 11 }
    ensures { facts note.new ≡ narrowed (facts note.old) number lo hi }
{
    if lo <= hi {
        note.set_register(number, Val::Num { lo, hi });
    }
}

/// A register that lies from `lo` to `hi` isn't `not`.
fn leave_out(note: &mut Note, number: u8, lo: u64, hi: u64, not: u64)
    requires { number < 11 }
    ensures { facts note.new ≡ without (facts note.old) number lo hi not }
{
    if not == lo {
        if lo < hi {
            narrow(note, number, lo + 1, hi);
        }
    } else if not == hi && 0 < hi {
        narrow(note, number, lo, hi - 1);
    }
}

/// A register that lies from `lo` to `hi` stands in this condition to a constant.
fn compare(note: &mut Note, cond: Condition, number: u8, lo: u64, hi: u64, with: u64)
    requires { number < 11 }
    ensures { facts note.new ≡ compared cond (facts note.old) number lo hi with }
{
    match cond {
        Condition::Equal => narrow(note, number, lo.max(with), hi.min(with)),
        Condition::NotEqual => leave_out(note, number, lo, hi, with),
        Condition::Greater => if with < u64::MAX {
            narrow(note, number, lo.max(with + 1), hi)
        },
        Condition::GreaterOrEqual => narrow(note, number, lo.max(with), hi),
        Condition::Less => if 0 < with {
            narrow(note, number, lo, hi.min(with - 1))
        },
        Condition::LessOrEqual => narrow(note, number, lo, hi.min(with)),
        _ => {}
    }
}

/// An address in the packet stands in this condition to the packet's end.
fn against_end(note: &mut Note, cond: Condition, id: u16, off: u16) -> Result<(), AllocError>
    ensures { OnOk result (facts note.new ≡ against_end cond (facts note.old) id off) }
{
    match cond {
        Condition::LessOrEqual => raise(note, id, u32::from(off)),
        Condition::Less => raise(note, id, u32::from(off) + 1),
        _ => Ok(()),
    }
}

/// The packet's end stands in this condition to an address in it.
fn end_against(note: &mut Note, cond: Condition, id: u16, off: u16) -> Result<(), AllocError>
    ensures { OnOk result (facts note.new ≡ end_against cond (facts note.old) id off) }
{
    match cond {
        Condition::GreaterOrEqual => raise(note, id, u32::from(off)),
        Condition::Greater => raise(note, id, u32::from(off) + 1),
        _ => Ok(()),
    }
}

fn is_null(operand: Operand) -> bool
    ensures { result ≡ is_null operand }
{
    match operand {
        Operand::Immediate(number) => number == 0,
        Operand::Register(_) => false,
    }
}

/// A lookup's result stands in this condition to 0.
fn check(note: &mut Note, cond: Condition, m: u32, id: u16)
    ensures { facts note.new ≡ checked cond (facts note.old) m id }
{
    match cond {
        Condition::Equal => note.resolve(id, Val::Num { lo: 0, hi: 0 }),
        Condition::NotEqual => note.resolve(id, Val::Value { m }),
        _ => {}
    }
}

/// The first operand of a comparison stands in this condition to the second.
fn refine(note: &mut Note, cond: Condition, dst: Register, src: Operand) -> Result<(), AllocError>
    ensures { OnOk result (facts note.new ≡ refined cond (facts note.old) (number dst) src ((facts note.old).reg (number dst))
        (operand_value (facts note.old) src)) }
{
    let first = note.register(dst.number());
    let second = operand_value(note, src);
    match (first, second) {
        (Val::Pkt { id, off }, Val::PktEnd) => against_end(note, cond, id, off)?,
        (Val::PktEnd, Val::Pkt { id, off }) => end_against(note, cond, id, off)?,
        (
            Val::Num { lo, hi },
            Val::Num {
                lo: least,
                hi: most,
            },
        ) => if least == most {
            compare(note, cond, dst.number(), lo, hi, least);
        },
        (Val::MaybeValue { m, id }, _) => if is_null(src) {
            check(note, cond, m, id);
        },
        _ => {}
    }
    Ok(())
}

impl Test {
    /// Makes what is known that which is known if the test is met.
    fn meet(self, note: &mut Note) -> Result<(), AllocError>
        ensures { OnOk result (facts note.new ≡ met self (facts note.old)) }
    {
        if self.wide {
            refine(note, self.cond, self.dst, self.src)?;
        }
        Ok(())
    }

    /// Makes what is known that which is known if the test isn't met.
    fn miss(self, note: &mut Note) -> Result<(), AllocError>
        ensures { OnOk result (facts note.new ≡ missed self (facts note.old)) }
    {
        if self.wide {
            if let Some(cond) = opposite(self.cond) {
                refine(note, cond, self.dst, self.src)?;
            }
        }
        Ok(())
    }
}

/// Takes a note to the next slot, and a copy to a jump's target.
pub(crate) fn branch(
    spares: &mut Spares,
    pc: u32,
    to: u32,
    note: &mut Note,
    test: Test,
) -> Result<Ways, AllocError>
    requires { pc < 4096 }
    ensures { IfOk result (λ w. edges_along w (facts note.new) ≡ edges_by (Branches to test) pc (facts note.old)) }
{
    let mut there = spares.copy(note)?;
    test.meet(&mut there)?;
    test.miss(note)?;
    Ok(Ways::Two(
        pc + 1,
        Successor {
            pc: to,
            note: there,
        },
    ))
}

impl Point<'_> {
    pub fn ja(&self, to: i32) -> Result<Effect, Cause>
        requires small { self.now.pc < 4096 }
        requires there { IsSome (target self.now.pc to) }
        ensures gives { Decides result self.now.pc (facts self.now.note.now)
            (after_of (Insn.Ja true to) self.now.pc (facts self.now.note.now) self.now.shapes.now) }
        ensures spare { IfOk result (λ e. Allocates e → ⊥) }
    {
        let Some(pc) = jump_target(self.pc, to) else {
            return Err(Cause::Target);
        };
        self.goes_to(pc)
    }

    pub fn jump(
        &self,
        cond: Condition,
        wide: bool,
        dst: Register,
        src: Operand,
        off: i16,
    ) -> Result<Effect, Cause>
        requires small { self.now.pc < 4096 }
        requires there { IsSome (target self.now.pc off) }
        ensures gives { Decides result self.now.pc (facts self.now.note.now)
            (after_of (Insn.Jump cond wide dst src off) self.now.pc (facts self.now.note.now) self.now.shapes.now) }
    {
        if is_unset(self.note.register(dst.number())) || is_unset(operand_value(self.note, src)) {
            return Err(Cause::Unset);
        }
        let Some(to) = jump_target(self.pc, i32::from(off)) else {
            return Err(Cause::Target);
        };
        let test = Test {
            cond,
            wide,
            dst,
            src,
        };
        Ok(Effect::Branches { to, test })
    }

    pub fn exit(&self) -> Result<Effect, Cause>
        ensures gives { Decides result self.now.pc (facts self.now.note.now)
            (after_of Insn.Exit self.now.pc (facts self.now.note.now) self.now.shapes.now) }
        ensures spare { IfOk result (λ e. Allocates e → ⊥) }
    {
        if is_unset(self.note.register(0)) {
            Err(Cause::Unset)
        } else {
            Ok(Effect::Ends)
        }
    }
}
