//! Every order in which two queues' last nine events of a turn can fall.
ghost use Rattle.std.specs.Prelude.{◌≡◌, ◌≤◌, Some, length, slice_get, false};
ghost use Rattle.bpf_note.specs.declared.key.MapKey.TheVariants.{Index};

use super::programs::{READ_AND_ADD, accepted, add_turn, buffers, report_of};
use bpf_maps::Op;
use bpf_verify::Verified;
use bpf_vm::Buffer;
use std::alloc::{AllocError, Global};
use xdp_world::{Kept, Layout, Report};

/// The number of a turn's events that come before the nine that are merged.
const BEFORE: usize = 16;

/// The number with which a queue's only turn ended.
fn number_of(report: &Report, queue: usize) -> Option<u32> {
    match report.turns.get(queue)?.as_slice() {
        [Kept::Ran { number, .. }] => Some(*number),
        _ => None,
    }
}

/// The sum that the history leaves, if each operation found the sum before it.
fn sum_of(history: &[(usize, Op)]) -> Option<u64> {
    let mut sum = 0u64;
    for (queue, op) in history {
        match op {
            Op::Load { v, .. } => if *v != sum {
                return None;
            },
            Op::Add { delta, old, .. } => {
                if *old != sum || *delta != (*queue as u64).wrapping_add(1) {
                    return None;
                }
                sum = sum.wrapping_add(*delta);
            }
        }
    }
    Some(sum)
}

/// Returns what a queue's load found.
fn found_by(history: &[(usize, Op)], queue: usize) -> Option<u64> {
    for (number, op) in history {
        if let Op::Load { v, .. } = op {
            if *number == queue {
                return Some(*v);
            }
        }
    }
    None
}

/// The steps of one order: both queues' beginnings, and then their last nine events, a bit of the order per event.
fn set_steps(steps: &mut Vec<(usize, u32)>, order: u32) -> Result<(), AllocError> {
    steps.clear();
    add_turn(steps, 0, 1, BEFORE - 10)?;
    add_turn(steps, 1, 1, BEFORE - 10)?;
    let mut queues = order;
    for _event in 0..18 {
        steps.push(((queues % 2) as usize, 0u32))?;
        queues /= 2;
    }
    Ok(())
}

/// Returns whether the operations are one history of four that leaves 3, and each queue's number is what its load found.
fn is_one_history(report: &Report) -> bool {
    let history = report.history.as_slice();
    history.len() == 4
        && sum_of(history) == Some(3)
        && number_of(report, 0).map(u64::from) == found_by(history, 0)
        && number_of(report, 1).map(u64::from) == found_by(history, 1)
}

/// The counter after the steps, if they are one history.
fn sum_after(
    alloc: Global,
    layout: &Layout,
    buffers: &mut [Buffer],
    program: &Verified,
    steps: &[(usize, u32)],
) -> Option<u64>
    requires layout { layout.now.queues ≡ 2 }
    requires buffers { 2 ≤ length buffers.now }
    requires shape { slice_get program.now.shapes 0 ≡ Some (record { entries = 2; counters = 1; key = Index; parts = false }) }
{
    let report = report_of(alloc, layout, buffers, program, 2, 0, steps)?;
    is_one_history(&report).then_some(report.totals.at(0, 0, 0))
}

/// Returns the number of orders that are one history that leaves 3, or the first that isn't.
fn orders_of(
    alloc: Global,
    layout: &Layout,
    buffers: &mut [Buffer],
    program: &Verified,
    steps: &mut Vec<(usize, u32)>,
) -> Result<u32, u32>
    requires layout { layout.now.queues ≡ 2 }
    requires buffers { 2 ≤ length buffers.old }
    requires shape { slice_get program.now.shapes 0 ≡ Some (record { entries = 2; counters = 1; key = Index; parts = false }) }
{
    let mut orders = 0u32;
    for order in 0u32..1 << 18 {
        if order.count_ones() == 9 {
            if set_steps(steps, order).is_err() {
                return Err(order);
            }
            if sum_after(alloc, layout, buffers, program, steps.as_slice()) != Some(3) {
                return Err(order);
            }
            orders = orders.saturating_add(1);
        }
    }
    Ok(orders)
}

/// The orders of a new layout's queues.
fn orders(alloc: Global) -> Result<u32, u32> {
    let Some(program) = accepted(alloc, READ_AND_ADD) else {
        return Err(0);
    };
    let Ok(layout) = Layout::make(alloc, 2) else {
        return Err(0);
    };
    match buffers(alloc, 2) {
        Ok(mut buffers) => {
            let mut steps = Vec::new(alloc);
            orders_of(alloc, &layout, buffers.as_mut_slice(), &program, &mut steps)
        }
        Err(_) => Err(0),
    }
}

#[test]
fn every_order_is_one_history(rt: HostRuntime) {
    assert_eq!(rt; orders(rt.alloc()), Ok(48_620));
}
