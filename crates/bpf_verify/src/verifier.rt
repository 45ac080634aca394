//! Both passes.
ghost use Rattle.std.specs.Prelude.{◌≡◌, ◌≤◌, ◌↔◌, length, IfOk, IfErr, IsSome, IfSome};
ghost use Rattle.bpf_insn.specs.Code.{IsCode};
ghost use Rattle.bpf_note.specs.Parts.{facts};
ghost use Rattle.bpf_note.specs.Shape.{AreShapes, most_maps};
ghost use Rattle.bpf_flow.specs.Causes.{IsRuleCause};
ghost use Rattle.bpf_verify.specs.Consistent.{IsConsistent, IsOrdered};
ghost use Rattle.bpf_verify.specs.Flat.{AreFlat};
ghost use Rattle.bpf_verify.specs.FirstRefusal.{IsRefusal, IsFaultless, IsStoppedBy, IsStructured};

use crate::flat::{FlatInsn, flats_of};
use crate::notes::second_pass;
use crate::out_of_memory::memory_refusal;
use crate::stopped::Stopped;
use crate::structure::first_fault;
use crate::verified::Verified;
use bpf_insn::{Code, Insn, Refusal};
use bpf_note::{MapShape, Note};
use std::alloc::{AllocError, Global};

/// Every shape is within the limits. A law, empty at run time.
fn are_shapes(shapes: &[MapShape])
    ensures { AreShapes shapes.now }
{
    for shape in shapes {
        let _entries = shape.entries();
    }
}

/// A copy of a program's maps, and its flat form.
#[derive(Drop)]
struct Kept {
    shapes: Vec<MapShape>,
    flats: Vec<FlatInsn>,
}

fn to_keep(alloc: Global, code: &[Insn], shapes: &[MapShape]) -> Result<Kept, AllocError>
    ensures maps { IfOk result (λ k. k.shapes.items ≡ shapes.now) }
    ensures flats { IfOk result (λ k. AreFlat k.flats.items code.now) }
{
    Ok(Kept {
        shapes: shapes.to_vec(alloc)?,
        flats: flats_of(alloc, code)?,
    })
}

/// Both passes. Gives what an accepted program keeps beside its code.
fn both_passes(alloc: Global, code: &[Insn], shapes: &[MapShape]) -> Result<Kept, Stopped>
    requires laid { IsCode code.now }
    requires few { length shapes.now ≤ most_maps }
    ensures maps { IfOk result (λ k. k.shapes.items ≡ shapes.now) }
    ensures flats { IfOk result (λ k. AreFlat k.flats.items code.now) }
    ensures consistent { IfOk result (λ _. IsConsistent (record { code = code.now; shapes = shapes.now })) }
    ensures faultless { IfOk result (λ _. IsFaultless code.now shapes.now) }
    ensures refused { IfErr result (λ s. IsRefusal code.now shapes.now s.refusal.cause s.refusal.pc) }
    ensures there { IfErr result (λ s. IsSome s.note ↔ IsRuleCause s.refusal.cause) }
    ensures note { IfErr result (λ s. IfSome s.note (λ n. IsStoppedBy code.now shapes.now s.refusal.pc s.refusal.cause (facts n.value))) }
    ensures structured { IfErr result (λ s. IfSome s.note (λ _. IsStructured code.now (length shapes.now))) }
    ensures ordered { IfErr result (λ s. IfSome s.note (λ _. IsOrdered code.now)) }
{
    let kept = match to_keep(alloc, code, shapes) {
        Ok(kept) => kept,
        Err(error) => return Err(Stopped::from(memory_refusal(error, 0))),
    };
    are_shapes(shapes);
    if let Some(refusal) = first_fault(alloc, code, shapes.len() as u32) {
        return Err(Stopped::from(refusal));
    }
    second_pass(alloc, code, shapes)?;
    Ok(kept)
}

/// A refused program: its code, the refusal, and the note that the rule refuses. There is a note for V7 to V15 and V17, no
/// note for the others.
#[derive(Drop)]
pub struct Explained {
    pub code: Code,
    pub refusal: Refusal,
    pub note: Option<Note>,
}

/// [`verify`], and on a refusal the code and the note at fault: the first note at the refused slot that the rule
/// refuses.
pub fn explain(alloc: Global, code: Code, shapes: &[MapShape]) -> Result<Verified, Explained>
    requires { length shapes.now ≤ most_maps }
    ensures code { IfOk result (λ v. v.code ≡ code) }
    ensures shapes { IfOk result (λ v. v.shapes ≡ shapes.now) }
    ensures consistent { IfOk result IsConsistent }
    ensures faultless { IfOk result (λ _. IsFaultless code shapes.now) }
    ensures returned { IfErr result (λ e. e.code ≡ code) }
    ensures refused { IfErr result (λ e. IsRefusal code shapes.now e.refusal.cause e.refusal.pc) }
    ensures there { IfErr result (λ e. IsSome e.note ↔ IsRuleCause e.refusal.cause) }
    ensures note { IfErr result (λ e. IfSome e.note (λ n. IsStoppedBy code shapes.now e.refusal.pc e.refusal.cause (facts n))) }
    ensures structured { IfErr result (λ e. IfSome e.note (λ _. IsStructured e.code (length shapes.now))) }
    ensures ordered { IfErr result (λ e. IfSome e.note (λ _. IsOrdered e.code)) }
{
    match both_passes(alloc, code.insns(), shapes) {
        Ok(Kept { shapes, flats }) => Ok(Verified::of(code, shapes, flats)),
        Err(Stopped { refusal, note }) => Err(Explained {
            code,
            refusal,
            note: note.map(Box::into_inner),
        }),
    }
}

/// Accepts a program with its maps, at most 16 of them, or refuses it with the first cause of the first pass that has
/// one. On a refusal the code is dropped. Out of memory is V0.
pub fn verify(alloc: Global, code: Code, shapes: &[MapShape]) -> Result<Verified, Refusal>
    requires { length shapes.now ≤ most_maps }
    ensures code { IfOk result (λ v. v.code ≡ code) }
    ensures shapes { IfOk result (λ v. v.shapes ≡ shapes.now) }
    ensures consistent { IfOk result IsConsistent }
    ensures faultless { IfOk result (λ _. IsFaultless code shapes.now) }
    ensures refused { IfErr result (λ r. IsRefusal code shapes.now r.cause r.pc) }
{
    match explain(alloc, code, shapes) {
        Ok(verified) => Ok(verified),
        Err(explained) => Err(explained.refusal),
    }
}
