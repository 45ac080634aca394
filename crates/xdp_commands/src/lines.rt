//! The lines that the program prints.
ghost use Rattle.std.specs.Prelude.{◌≡◌, ◌≤◌, IfOk, length, map, string_bytes, vec_len};
ghost use Rattle.bpf_maps.specs.Layout.{total};
ghost use Rattle.bpf_note.specs.Shape.{most_maps};
ghost use Rattle.xdp_commands.specs.Filtering.{filtered_text};
ghost use Rattle.xdp_commands.specs.Lines.{checked_text, ended_text, executed_text, ran_text, refused_text, report_text, settings_text};

use crate::counter_lines::add_counters;
use crate::executing::Accepted;
use crate::filtering::Filtered;
use crate::numbers::Words;
use crate::turn_lines::add_queues;
use bpf_insn::Refusal;
use bpf_note::MapShape;
use bpf_vm::{Action, Ended};
use std::alloc::{AllocError, Global};
use xdp_load::TextFault;
use xdp_world::Report;

/// The two lines of a run.
fn ended_text(alloc: Global, ended: &Ended<'_>) -> Result<String, AllocError>
    ensures { IfOk result (λ s. string_bytes s ≡ ended_text ended.now) }
{
    let number = ended.number;
    let instructions = ended.instructions;
    let name = Action::of(number).name();
    let packet = hex::encode(alloc, ended.packet.bytes())?;
    format!(in alloc;
        "action {name} number {number} instructions {instructions}\npacket {packet}\n"
    )
}

/// The line of a refused program.
pub fn refused_text(alloc: Global, refusal: &Refusal) -> Result<String, AllocError>
    ensures { IfOk result (λ s. string_bytes s ≡ refused_text refusal.now) }
{
    format!(in alloc; "refused {refusal}\n")
}

/// The lines of `exec`.
pub fn executed_text(
    alloc: Global,
    executed: &Result<Ended<'_>, Refusal>,
) -> Result<String, AllocError>
    ensures { IfOk result (λ s. string_bytes s ≡ executed_text executed.now) }
{
    match executed {
        Ok(ended) => ended_text(alloc, ended),
        Err(refusal) => refused_text(alloc, refusal),
    }
}

/// The line of `check` for a program.
pub fn checked_text(
    alloc: Global,
    checked: &Result<Accepted, Refusal>,
) -> Result<String, AllocError>
    ensures { IfOk result (λ s. string_bytes s ≡ checked_text checked.now) }
{
    match checked {
        Ok(accepted) => {
            let instructions = accepted.instructions;
            let slots = accepted.slots;
            format!(in alloc; "accepted, {instructions} instructions, {slots} slots\n")
        }
        Err(refusal) => refused_text(alloc, refusal),
    }
}

/// The line of refused settings.
pub fn settings_text(alloc: Global, fault: TextFault) -> Result<String, AllocError>
    ensures { IfOk result (λ s. string_bytes s ≡ settings_text fault) }
{
    let number = fault.number();
    format!(in alloc; "settings refused L{number}\n")
}

/// The lines of a run of queues whose maps have these names and shapes.
fn report_text(
    alloc: Global,
    names: &[String],
    shapes: &[MapShape],
    report: &Report,
) -> Result<String, AllocError>
    requires named { length names.now ≡ length shapes.now }
    requires few { length shapes.now ≤ most_maps }
    requires shapes { report.now.totals.shapes ≡ shapes.now }
    ensures { IfOk result (λ s. string_bytes s ≡ report_text (map string_bytes names.now) report.now) }
{
    let mut text = String::new(alloc);
    add_queues(alloc, &mut text, report.turns.as_slice())?;
    add_counters(alloc, &mut text, names, shapes, &report.totals)?;
    Ok(text)
}

/// The lines of `run`.
pub fn ran_text(
    alloc: Global,
    names: &[String],
    shapes: &[MapShape],
    ran: &Result<Report, Refusal>,
) -> Result<String, AllocError>
    requires named { length names.now ≡ length shapes.now }
    requires few { length shapes.now ≤ most_maps }
    requires shapes { IfOk ran.now (λ r. r.totals.shapes ≡ shapes.now) }
    ensures { IfOk result (λ s. string_bytes s ≡ ran_text (map string_bytes names.now) ran.now) }
{
    match ran {
        Ok(report) => report_text(alloc, names, shapes, report),
        Err(refusal) => refused_text(alloc, refusal),
    }
}

/// The lines of `filter`.
pub fn filtered_text(
    alloc: Global,
    names: &[String],
    shapes: &[MapShape],
    filtered: Result<Filtered, Refusal>,
) -> Result<String, AllocError>
    requires named { length names.now ≡ length shapes.now }
    requires few { length shapes.now ≤ most_maps }
    requires words { IfOk filtered (λ f. vec_len f.words ≡ total shapes.now) }
    ensures { IfOk result (λ s. string_bytes s ≡ filtered_text (map string_bytes names.now) shapes.now filtered) }
{
    match filtered {
        Ok(Filtered { mut lines, words }) => {
            let words = Words::of(shapes, words.as_slice());
            add_counters(alloc, &mut lines, names, shapes, &words)?;
            Ok(lines)
        }
        Err(refusal) => refused_text(alloc, &refusal),
    }
}
