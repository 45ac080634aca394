//! What is known of registers.
ghost use Rattle.std.specs.Prelude.{◌≡◌, ◌++◌, IfOk, OnOk, map, slice_get, string_bytes};
ghost use Rattle.bpf_insn.specs.Register.{number};
ghost use Rattle.bpf_note.specs.Parts.{facts};
ghost use Rattle.bpf_explain.specs.Values.{bound_of, known_text, map_text, read_text, reads_text, register_text, safe_number, value_text};

use bpf_flow::reads;
use bpf_insn::{Insn, Register};
use bpf_note::{Note, PACKET_ID, Val};
use std::alloc::{AllocError, Global};
use std::fmt;

/// The id of an address: 0 for the packet's start, else the slot that made it.
#[derive(Clone, Copy)]
struct Id(u16);

impl fmt::Display for Id {
    ghost use Rattle.std.specs.Prelude.{Some};
    ghost use Rattle.bpf_explain.specs.Values.{id_text};

    ghost output = { λ i. Some (id_text i.0) };

    fn fmt<W: fmt::Write>(&self, f: &mut fmt::Formatter<W>) -> fmt::Result {
        let id = self.0;
        if id == PACKET_ID {
            write!(f, "0")
        } else {
            write!(f, "{id}")
        }
    }
}

/// The numbers from `lo` to `hi`.
#[derive(Clone, Copy)]
struct Range {
    lo: u64,
    hi: u64,
}

impl fmt::Display for Range {
    ghost use Rattle.std.specs.Prelude.{Some};
    ghost use Rattle.bpf_explain.specs.Values.{range_text};

    ghost output = { λ r. Some (range_text r.lo r.hi) };

    fn fmt<W: fmt::Write>(&self, f: &mut fmt::Formatter<W>) -> fmt::Result {
        let lo = self.lo;
        let hi = self.hi;
        if lo == hi {
            write!(f, "{lo}")
        } else if lo == 0 && hi == u64::MAX {
            write!(f, "scalar()")
        } else {
            write!(f, "scalar(umin={lo},umax={hi})")
        }
    }
}

fn safe_number(safe: Option<u32>) -> u32
    ensures { result ≡ safe_number safe }
{
    match safe {
        None => 0,
        Some(bytes) => bytes,
    }
}

/// Map `m` by its name, else by its number.
fn map_text(alloc: Global, names: &[String], m: u32) -> Result<String, AllocError>
    ensures { IfOk result (λ s. string_bytes s ≡ map_text (slice_get (map string_bytes names.now) m) m) }
{
    match names.get(m as usize) {
        None => format!(in alloc; "{m}"),
        Some(name) => String::from_str(alloc, name.as_str()),
    }
}

/// A value, with the safe bound of its id.
fn value_text(
    alloc: Global,
    names: &[String],
    value: Val,
    safe: Option<u32>,
) -> Result<String, AllocError>
    ensures { IfOk result (λ s. string_bytes s ≡ value_text (map string_bytes names.now) value safe) }
{
    match value {
        Val::Unset => String::from_str(alloc, "unset"),
        Val::Num { lo, hi } => format!(in alloc; "{}", Range { lo, hi }),
        Val::Pkt { id, off } => {
            let bytes = safe_number(safe);
            format!(in alloc; "pkt(id={},off={off},r={bytes})", Id(id))
        }
        Val::PktEnd => String::from_str(alloc, "pkt_end"),
        Val::Stack { off } => format!(in alloc; "fp{off}"),
        Val::Ctx => String::from_str(alloc, "ctx"),
        Val::Map { m } => {
            let map = map_text(alloc, names, m)?;
            format!(in alloc; "map_ptr(map={map})")
        }
        Val::MaybeValue { m, id } => {
            let map = map_text(alloc, names, m)?;
            format!(in alloc; "map_value_or_null(id={id},map={map})")
        }
        Val::Value { m } => {
            let map = map_text(alloc, names, m)?;
            format!(in alloc; "map_value(map={map})")
        }
    }
}

/// The safe bound of the id that an address in the packet carries.
fn bound_of(note: &Note, value: Val) -> Option<u32>
    ensures { result ≡ bound_of (facts note.now) value }
{
    match value {
        Val::Pkt { id, .. } => note.safe(id),
        _ => None,
    }
}

/// A value by what else is known.
pub(crate) fn known_text(
    alloc: Global,
    names: &[String],
    note: &Note,
    value: Val,
) -> Result<String, AllocError>
    ensures { IfOk result (λ s. string_bytes s ≡ known_text (map string_bytes names.now) (facts note.now) value) }
{
    value_text(alloc, names, value, bound_of(note, value))
}

/// Returns what is known of a register.
pub(crate) fn register_text(
    alloc: Global,
    names: &[String],
    note: &Note,
    number: u8,
) -> Result<String, AllocError>
    ensures { IfOk result (λ s. string_bytes s ≡ register_text (map string_bytes names.now) (facts note.now) number) }
{
    let known = known_text(alloc, names, note, note.register(number))?;
    format!(in alloc; "R{number}={known}")
}

/// A register, if the instruction reads it.
fn read_text(
    alloc: Global,
    names: &[String],
    insn: Insn,
    note: &Note,
    register: Register,
) -> Result<String, AllocError>
    ensures { IfOk result (λ s. string_bytes s ≡ read_text (map string_bytes names.now) insn (facts note.now) register) }
{
    if !reads(insn, register) {
        return Ok(String::new(alloc));
    }
    let text = register_text(alloc, names, note, register.number())?;
    format!(in alloc; "  {text}")
}

/// Adds those of some registers that the instruction reads.
pub(crate) fn add_reads(
    alloc: Global,
    text: &mut String,
    names: &[String],
    insn: Insn,
    note: &Note,
    registers: &[Register],
) -> Result<(), AllocError>
    ensures { OnOk result (string_bytes text.new ≡ string_bytes text.old
        ++ reads_text (map string_bytes names.now) insn (facts note.now) registers.now) }
{
    for register in registers {
        let read = read_text(alloc, names, insn, note, *register)?;
        text.push_str(read.as_str())?;
    }
    Ok(())
}
