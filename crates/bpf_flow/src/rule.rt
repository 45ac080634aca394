//! The verifier's rule for one instruction.
ghost use Rattle.std.specs.Prelude.{◌≡◌, ◌≢◌, ◌<◌, IfOk, IfErr, Ok, length};
ghost use Rattle.bpf_insn.specs.Form.{IsAccess};
ghost use Rattle.bpf_insn.specs.declared.insn.Insn.{Insn};
ghost use Rattle.bpf_insn.specs.declared.refusal.Cause.TheVariants.{Memory};
ghost use Rattle.bpf_note.specs.Describes.{Describes};
ghost use Rattle.bpf_note.specs.Parts.{facts};
ghost use Rattle.bpf_note.specs.State.{State};
ghost use Rattle.bpf_flow.specs.Effect.{Allocates, Decides, MayAllocate};
ghost use Rattle.bpf_flow.specs.Gives.{Fails, Gives, edges_along, edges_of};
ghost use Rattle.bpf_flow.specs.Rule.{after_of, IsRuled};
ghost use Rattle.bpf_flow.specs.Sound.{Accounts, HasWords};
ghost use Rattle.bpf_flow.specs.Step.{exec};

use crate::alu::exactly;
use crate::effect::Effect;
use crate::point::Point;
use crate::successors::{Successors, Ways};
use bpf_insn::{Cause, Insn};
use bpf_note::{MapShape, Note, Spares, Val};
use std::alloc::Global;

impl Point<'_> {
    /// Returns what an access does from this point.
    fn decide_access(&self, insn: Insn) -> Result<Effect, Cause>
        requires small { self.now.pc < 4096 }
        requires access { IsAccess insn }
        ensures gives { Decides result self.now.pc (facts self.now.note.now)
            (after_of insn self.now.pc (facts self.now.note.now) self.now.shapes.now) }
        ensures spare { IfOk result (λ e. Allocates e → ⊥) }
    {
        match insn {
            Insn::Ldx {
                size,
                signed,
                dst,
                src,
                off,
            } => self.ldx(size, signed, dst, src, off),
            Insn::St {
                size,
                dst,
                off,
                imm,
            } => self.st(size, dst, off, imm),
            Insn::Stx {
                size,
                dst,
                src,
                off,
            } => self.stx(size, dst, src, off),
            Insn::AddCounter {
                fetch,
                dst,
                src,
                off,
            } => self.add_counter(fetch, dst, src, off),
            _ => unreachable!(),
        }
    }

    /// Returns what an instruction does from this point.
    fn decide(&self, insn: Insn) -> Result<Effect, Cause>
        requires small { self.now.pc < 4096 }
        requires ruled { IsRuled insn self.now.pc (length self.now.shapes.now) }
        ensures gives { Decides result self.now.pc (facts self.now.note.now)
            (after_of insn self.now.pc (facts self.now.note.now) self.now.shapes.now) }
        ensures spare { IfOk result (λ e. Allocates e → MayAllocate insn (facts self.now.note.now)) }
    {
        match insn {
            Insn::Alu { op, wide, dst, src } => self.alu(op, wide, dst, src),
            Insn::Neg { wide, dst } => self.neg(wide, dst),
            Insn::End { kind, width, dst } => self.end(kind, width, dst),
            Insn::MovSx {
                wide,
                bits,
                dst,
                src,
            } => self.mov_sx(wide, bits, dst, src),
            Insn::Const { dst, value } => self.sets(self.pc + 2, dst, exactly(value)),
            Insn::MapRef { dst, m } => self.sets(self.pc + 2, dst, Val::Map { m }),
            Insn::Ldx { .. } | Insn::St { .. } | Insn::Stx { .. } | Insn::AddCounter { .. } => {
                self.decide_access(insn)
            }
            Insn::Ja { to, .. } => self.ja(to),
            Insn::Jump {
                cond,
                wide,
                dst,
                src,
                off,
            } => self.jump(cond, wide, dst, src, off),
            Insn::Call { helper } => self.call(helper),
            Insn::Exit => self.exit(),
            Insn::Second => unreachable!(),
        }
    }
}

/// Returns what an instruction does at a slot, or the first cause against it.
fn decide(insn: &Insn, pc: u32, note: &Note, shapes: &[MapShape]) -> Result<Effect, Cause>
    requires small { pc < 4096 }
    requires ruled { IsRuled insn.now pc (length shapes.now) }
    ensures gives { Decides result pc (facts note.now) (after_of insn.now pc (facts note.now) shapes.now) }
    ensures spare { IfOk result (λ e. Allocates e → MayAllocate insn.now (facts note.now)) }
{
    Point { pc, note, shapes }.decide(*insn)
}

/// An instruction's constant has 64 bits. A law, empty at run time.
fn has_words(insn: Insn)
    ensures { HasWords insn }
{}

/// Returns where an instruction leads from slot `pc`, at which `note` says what is known, or the first cause against it. Want of
/// memory is [`Cause::Memory`].
pub fn after(
    alloc: Global,
    insn: &Insn,
    pc: u32,
    note: &Note,
    shapes: &[MapShape],
) -> Result<Successors, Cause>
    requires small { pc < 4096 }
    requires ruled { IsRuled insn.now pc (length shapes.now) }
    ensures gives { Gives result (after_of insn.now pc (facts note.now) shapes.now) }
    ensures sound { IfOk result (λ e. (s : State) → Describes (facts note.now) s → s.pc ≡ pc → s.shapes ≡ shapes.now →
        Accounts (edges_of e) (exec insn.now s)) }
{
    has_words(*insn);
    let effect = decide(insn, pc, note, shapes)?;
    Ok(effect.applied(alloc, pc, note)?)
}

/// [`after`] in place: the note becomes what is known where the first way leads. A refused note stays as it is; when memory
/// runs out, as it can at arithmetic that makes an address with a base of its own, a conditional jump or a call alone, it may
/// be changed. A jump's target takes over the memory of a spare note.
pub fn transfer(
    spares: &mut Spares,
    insn: &Insn,
    pc: u32,
    note: &mut Note,
    shapes: &[MapShape],
) -> Result<Ways, Cause>
    requires small { pc < 4096 }
    requires ruled { IsRuled insn.now pc (length shapes.now) }
    ensures ok { IfOk result (λ w. after_of insn.now pc (facts note.old) shapes.now ≡ Ok (edges_along w (facts note.new))) }
    ensures err { IfErr result (λ c. Fails c (after_of insn.now pc (facts note.old) shapes.now)) }
    ensures kept { IfErr result (λ c. c ≢ Memory → note.new ≡ note.old) }
    ensures spare { IfErr result (λ c. c ≡ Memory → MayAllocate insn.now (facts note.old)) }
    ensures sound { IfOk result (λ w. (s : State) → Describes (facts note.old) s → s.pc ≡ pc → s.shapes ≡ shapes.now →
        Accounts (edges_along w (facts note.new)) (exec insn.now s)) }
{
    has_words(*insn);
    let effect = decide(insn, pc, note, shapes)?;
    Ok(effect.apply(spares, pc, note)?)
}
