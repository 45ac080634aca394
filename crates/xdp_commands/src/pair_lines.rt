//! The lines of queues that ran on threads.
ghost use Rattle.std.specs.Prelude.{◌≡◌, ◌≤◌, ◌++◌, IfOk, OnOk, length, map, string_bytes};
ghost use Rattle.bpf_note.specs.Shape.{most_maps};
ghost use Rattle.xdp_commands.specs.PairLines.{delivered_text, ends_text, halted_number, pair_text, paired_status, paired_text};
ghost use Rattle.xdp_commands.specs.PairLines.{queue_text, row_text, rows_text};
ghost use Rattle.xdp_commands.specs.Pairing.{HasCounters};

use crate::counter_lines::add_counters;
use crate::lines::refused_text;
use crate::output::FAILED;
use crate::pairing::Paired;
use bpf_note::MapShape;
use std::alloc::{AllocError, Global};
use thread_pair::{Deliveries, OnPass, PairReport, PairRow};
use xen_back::Halt;

/// The number of a queue's halt, 0 if it wasn't halted.
fn halted_number(halted: Option<Halt>) -> u8
    ensures { result ≡ halted_number halted }
{
    match halted {
        Some(halt) => halt.number(),
        None => 0,
    }
}

/// The end of a queue's line.
fn ends_text(alloc: Global, row: &PairRow) -> Result<String, AllocError>
    ensures { IfOk result (λ s. string_bytes s ≡ ends_text row.now) }
{
    let refused = row.refused;
    let halted = halted_number(row.halted);
    let received = row.received;
    format!(in alloc; " refused {refused} halted {halted} received {received}\n")
}

fn row_text(alloc: Global, queue: usize, row: &PairRow) -> Result<String, AllocError>
    ensures { IfOk result (λ s. string_bytes s ≡ row_text queue row.now) }
{
    let sent = row.sent;
    let copied = row.copied;
    let ends = ends_text(alloc, row)?;
    format!(in alloc; "queue {queue} sent {sent} copied {copied}{ends}")
}

/// The line of what became of the answers of a host that answers.
fn delivered_text(
    alloc: Global,
    host: OnPass,
    queue: usize,
    deliveries: &Deliveries,
) -> Result<String, AllocError>
    ensures { IfOk result (λ s. string_bytes s ≡ delivered_text host queue deliveries.now) }
{
    let sent = deliveries.sent;
    let few = deliveries.few;
    let refused = deliveries.refused;
    match host {
        OnPass::Takes => Ok(String::new(alloc)),
        OnPass::Answers => {
            format!(in alloc; "queue {queue} delivered {sent} few {few} refused {refused}\n")
        }
    }
}

/// The lines of a queue.
fn queue_text(
    alloc: Global,
    host: OnPass,
    queue: usize,
    row: &PairRow,
) -> Result<String, AllocError>
    ensures { IfOk result (λ s. string_bytes s ≡ queue_text host queue row.now) }
{
    let line = row_text(alloc, queue, row)?;
    let delivered = delivered_text(alloc, host, queue, &row.deliveries)?;
    format!(in alloc; "{line}{delivered}")
}

/// Adds the lines of all queues.
fn add_rows(
    alloc: Global,
    text: &mut String,
    host: OnPass,
    rows: &[PairRow],
) -> Result<(), AllocError>
    ensures { OnOk result (string_bytes text.new ≡ string_bytes text.old ++ rows_text host 0 rows.now) }
{
    let mut queue = 0usize;
    for row in rows {
        let line = queue_text(alloc, host, queue, row)?;
        text.push_str(line.as_str())?;
        queue += 1;
    }
    Ok(())
}

/// The lines of a report, whose maps have these names and shapes.
fn report_text(
    alloc: Global,
    host: OnPass,
    names: &[String],
    shapes: &[MapShape],
    report: &PairReport,
) -> Result<String, AllocError>
    requires named { length names.now ≡ length shapes.now }
    requires few { length shapes.now ≤ most_maps }
    requires shapes { report.now.totals.shapes ≡ shapes.now }
    ensures { IfOk result (λ s. string_bytes s ≡ pair_text host (map string_bytes names.now) report.now) }
{
    let mut text = String::new(alloc);
    add_rows(alloc, &mut text, host, report.rows.as_slice())?;
    add_counters(alloc, &mut text, names, shapes, &report.totals)?;
    Ok(text)
}

/// The lines of `pair`, beside a host that does so.
pub fn paired_text(
    alloc: Global,
    host: OnPass,
    names: &[String],
    shapes: &[MapShape],
    paired: &Paired,
) -> Result<String, AllocError>
    requires named { length names.now ≡ length shapes.now }
    requires few { length shapes.now ≤ most_maps }
    requires shapes { HasCounters shapes.now paired.now }
    ensures { IfOk result (λ s. string_bytes s ≡ paired_text host (map string_bytes names.now) paired.now) }
{
    match paired {
        Paired::Ran(report) => report_text(alloc, host, names, shapes, report),
        Paired::Refused(refusal) => refused_text(alloc, refusal),
        Paired::NotMapped => String::from_str(alloc, "mapping refused\n"),
        Paired::NotStarted => String::from_str(alloc, "threads refused\n"),
    }
}

/// The status of what became of a setup.
pub fn paired_status(paired: &Paired) -> u8
    ensures { result ≡ paired_status paired.now }
{
    match paired {
        Paired::Ran(_) => 0,
        Paired::Refused(_) => 1,
        Paired::NotMapped | Paired::NotStarted => FAILED,
    }
}
