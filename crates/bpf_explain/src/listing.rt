//! The listing of a program.
ghost use Rattle.std.specs.Prelude.{◌≡◌, ◌++◌, ◌<◌, ◌≤◌, IfOk, OnOk, length, string_bytes};
ghost use Rattle.bpf_explain.specs.Listing.{is_marked, is_second, line_text, listing_text, slot_text};

use bpf_insn::Insn;
use std::alloc::{AllocError, Global};
use std::fmt;

/// A slot's number in three columns, or in the four that it takes.
#[derive(Clone, Copy)]
pub(crate) struct Slot(pub u32);

impl fmt::Display for Slot {
    ghost use Rattle.std.specs.Prelude.{Some};
    ghost use Rattle.bpf_explain.specs.Listing.{pc_text};

    ghost output = { λ s. Some (pc_text s.0) };

    fn fmt<W: fmt::Write>(&self, f: &mut fmt::Formatter<W>) -> fmt::Result {
        let pc = self.0;
        if pc < 10 {
            write!(f, "  {pc}")
        } else if pc < 100 {
            write!(f, " {pc}")
        } else {
            write!(f, "{pc}")
        }
    }
}

fn line_text(alloc: Global, mark: &str, pc: u32, insn: Insn) -> Result<String, AllocError>
    ensures { IfOk result (λ s. string_bytes s ≡ line_text mark.now pc insn) }
{
    format!(in alloc; "{mark}{}: {insn}\n", Slot(pc))
}

fn is_marked(marked: Option<u32>, pc: u32) -> bool
    ensures { result ≡ is_marked marked pc }
{
    match marked {
        None => false,
        Some(at) => at == pc,
    }
}

fn is_second(insn: Insn) -> bool
    ensures { result ≡ is_second insn }
{
    matches!(insn, Insn::Second)
}

/// The line of a slot; the marked one has more below it.
fn slot_text(
    alloc: Global,
    marked: Option<u32>,
    below: &str,
    pc: u32,
    insn: Insn,
) -> Result<String, AllocError>
    ensures { IfOk result (λ s. string_bytes s ≡ slot_text marked below.now pc insn) }
{
    if is_second(insn) {
        return Ok(String::new(alloc));
    }
    if is_marked(marked, pc) {
        let line = line_text(alloc, ">", pc, insn)?;
        format!(in alloc; "{line}{below}")
    } else {
        line_text(alloc, " ", pc, insn)
    }
}

/// Adds a line per slot, the first of which is slot 0. The line of the marked slot begins with `>`, and `below` is added below it;
/// the second slot of a wide load has no line.
pub fn add_listing(
    alloc: Global,
    text: &mut String,
    code: &[Insn],
    marked: Option<u32>,
    below: &str,
) -> Result<(), AllocError>
    requires { length code.now ≤ 4096 }
    ensures { OnOk result (string_bytes text.new ≡ string_bytes text.old ++ listing_text marked below.now 0 code.now) }
{
    let mut pc = 0u32;
    for insn in code {
        let line = slot_text(alloc, marked, below, pc, *insn)?;
        text.push_str(line.as_str())?;
        pc += 1;
    }
    Ok(())
}
