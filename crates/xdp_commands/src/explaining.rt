//! What becomes of a program's bytes, with what a refusal rests on.
ghost use Rattle.std.specs.Prelude.{◌≡◌, ◌≤◌, IfOk, IfSome, Some, length, map, string_bytes};
ghost use Rattle.bpf_note.specs.Shape.{most_maps};
ghost use Rattle.bpf_verify.specs.Consistent.{IsOrdered};
ghost use Rattle.bpf_verify.specs.FirstRefusal.{IsStructured};
ghost use Rattle.xdp_commands.specs.Explaining.{IsLossOf, IsOutcome, accepted_text, loss_line, loss_text, lost_register, outcome_status};
ghost use Rattle.xdp_commands.specs.Explaining.{outcome_text, refused_text};

use crate::executing::Accepted;
use crate::lines::checked_text;
use bpf_explain::{
    add_listing, asked_register, explained_text, joined_text, undecoded_text, was_text,
};
use bpf_insn::{Cause, Code, Refusal, Register, decode};
use bpf_verify::{Explained, Lost, MapShape, Verified, explain, joined_at, lost_at};
use std::alloc::{AllocError, Global};

/// The place at which a register lost its address.
#[derive(Drop)]
pub enum Loss {
    /// An instruction made it a number.
    ByInstruction(Lost),
    /// More ways meet than notes keep apart: on that many of the eight the register is an address, on the last a
    /// number.
    ByJoining(usize),
}

/// The answer to a program's bytes.
#[derive(Drop)]
pub enum Outcome {
    /// The program is accepted.
    Accepted(Verified),
    /// The bytes spell no program.
    Undecoded(Refusal),
    /// The program is refused; for V9 with where its register's address went.
    Refused {
        explained: Explained,
        loss: Option<Loss>,
    },
}

/// The register of which V9 asks where it was an address last.
fn lost_register(explained: &Explained) -> Option<Register>
    ensures { result ≡ lost_register explained.now.note explained.now }
{
    match explained.note {
        None => None,
        Some(_) => asked_register(&explained.code, explained.refusal),
    }
}

/// Returns where a register's address went: an instruction took it, or else more ways meet at the refused slot than notes keep
/// apart.
fn register_loss(
    alloc: Global,
    explained: &Explained,
    shapes: &[MapShape],
    register: Register,
) -> Result<Option<Loss>, Cause>
    requires structured { IsStructured explained.now.code (length shapes.now) }
    requires ordered { IsOrdered explained.now.code }
    ensures { IfOk result (IsLossOf (Some register) shapes.now explained.now) }
{
    let code = &explained.code;
    let pc = explained.refusal.pc;
    match lost_at(alloc, code, shapes, pc, register)? {
        Some(lost) => Ok(Some(Loss::ByInstruction(lost))),
        None => match joined_at(alloc, code, shapes, pc, register)? {
            Some(addresses) => Ok(Some(Loss::ByJoining(addresses))),
            None => Ok(None),
        },
    }
}

/// For V9 where the address of the refused access's register went.
fn loss_of(
    alloc: Global,
    explained: &Explained,
    shapes: &[MapShape],
) -> Result<Option<Loss>, AllocError>
    requires structured { IfSome explained.now.note (λ _. IsStructured explained.now.code (length shapes.now)) }
    requires ordered { IfSome explained.now.note (λ _. IsOrdered explained.now.code) }
    ensures { IfOk result (IsLossOf (lost_register explained.now.note explained.now) shapes.now explained.now) }
{
    if explained.note.is_none() {
        return Ok(None);
    }
    let Some(register) = lost_register(explained) else {
        return Ok(None);
    };
    match register_loss(alloc, explained, shapes, register) {
        Ok(loss) => Ok(loss),
        Err(_) => Err(AllocError),
    }
}

/// Accepts a program with its maps, or says what its refusal rests on.
pub fn outcome_of(alloc: Global, program: &[u8], shapes: &[MapShape]) -> Result<Outcome, AllocError>
    requires { length shapes.now ≤ most_maps }
    ensures { IfOk result (IsOutcome program.now shapes.now) }
{
    match decode(alloc, program) {
        Err(refusal) => Ok(Outcome::Undecoded(refusal)),
        Ok(code) => match explain(alloc, code, shapes) {
            Ok(verified) => Ok(Outcome::Accepted(verified)),
            Err(explained) => {
                let loss = loss_of(alloc, &explained, shapes)?;
                Ok(Outcome::Refused { explained, loss })
            }
        },
    }
}

/// The listing of an accepted program, and the line of a check.
fn accepted_text(alloc: Global, verified: &Verified) -> Result<String, AllocError>
    ensures { IfOk result (λ s. string_bytes s ≡ accepted_text verified.now.code) }
{
    let accepted = Accepted {
        instructions: verified.instructions(),
        slots: verified.slots(),
    };
    let line = checked_text(alloc, &Ok(accepted))?;
    let mut text = String::new(alloc);
    add_listing(alloc, &mut text, verified.insns(), None, "")?;
    text.push_str(line.as_str())?;
    Ok(text)
}

/// The line that says where a register's address went, of a program that is refused at slot `pc`.
fn loss_line(
    alloc: Global,
    names: &[String],
    code: &Code,
    pc: u32,
    register: Register,
    loss: &Loss,
) -> Result<String, AllocError>
    ensures { IfOk result (λ s. string_bytes s ≡ loss_line (map string_bytes names.now) code.now pc register loss.now) }
{
    match loss {
        Loss::ByInstruction(lost) => { was_text(alloc, names, code, register, lost.pc, &lost.note) }
        Loss::ByJoining(addresses) => joined_text(alloc, register, pc, *addresses),
    }
}

/// Returns that line, if there is one.
fn loss_text(
    alloc: Global,
    names: &[String],
    explained: &Explained,
    loss: &Option<Loss>,
) -> Result<String, AllocError>
    ensures { IfOk result (λ s. string_bytes s ≡ loss_text (map string_bytes names.now) explained.now
        (lost_register explained.now.note explained.now) loss.now) }
{
    match (lost_register(explained), loss) {
        (Some(register), Some(loss)) => {
            let pc = explained.refusal.pc;
            loss_line(alloc, names, &explained.code, pc, register, loss)
        }
        _ => Ok(String::new(alloc)),
    }
}

/// The explanation of a refusal, and where its register's address went.
fn refused_text(
    alloc: Global,
    names: &[String],
    shapes: &[MapShape],
    explained: &Explained,
    loss: &Option<Loss>,
) -> Result<String, AllocError>
    ensures { IfOk result (λ s. string_bytes s ≡ refused_text (map string_bytes names.now) shapes.now explained.now loss.now) }
{
    let line = loss_text(alloc, names, explained, loss)?;
    let mut text = explained_text(
        alloc,
        &explained.code,
        names,
        shapes,
        explained.refusal,
        explained.note.as_ref(),
    )?;
    text.push_str(line.as_str())?;
    Ok(text)
}

/// The lines of `explain` for a program of these bytes, whose maps have these names and shapes.
pub fn outcome_text(
    alloc: Global,
    program: &[u8],
    names: &[String],
    shapes: &[MapShape],
    outcome: &Outcome,
) -> Result<String, AllocError>
    ensures { IfOk result (λ s. string_bytes s ≡ outcome_text program.now (map string_bytes names.now) shapes.now outcome.now) }
{
    match outcome {
        Outcome::Accepted(verified) => accepted_text(alloc, verified),
        Outcome::Undecoded(refusal) => undecoded_text(alloc, program, *refusal),
        Outcome::Refused { explained, loss } => refused_text(alloc, names, shapes, explained, loss),
    }
}

/// The status of a check.
pub fn outcome_status(outcome: &Outcome) -> u8
    ensures { result ≡ outcome_status outcome.now }
{
    match outcome {
        Outcome::Accepted(_) => 0,
        Outcome::Undecoded(_) => 1,
        Outcome::Refused { .. } => 1,
    }
}
