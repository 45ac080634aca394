//! One queue's reads, answered from a list.
ghost use Rattle.std.specs.Prelude.{◌≡◌, ◌<◌, ◌≤◌, ◌↔◌, IfOk, IsTrue, OnOk, [], slice_index_or, vec_len};
ghost use Rattle.xen_back.specs.Queues.{rest};
ghost use Rattle.xen_back.specs.declared.queue.Queue.{Queue};
ghost use Rattle.xen_steps.specs.Steps.{want_of};
ghost use Rattle.xen_steps.specs.declared.want.Want.TheVariants as want;
ghost use Rattle.xdp_world.specs.Replay.{IsReplay};
ghost use Rattle.xdp_world.specs.Replays.{IsEnough, Pauses, Replays, Took};
ghost use Rattle.xdp_world.specs.Stands.{IsFree};

use crate::layout::Layout;
use crate::making::buffers;
use crate::report::Report;
use crate::world::World;
use bpf_verify::Verified;
use std::alloc::{AllocError, Global};
use xen_back::Want;

/// More events than a turn has apart from those of its program. It ends a loop, and is no tight bound.
const MAX_EVENTS: u64 = 287_383;

impl World<'_, '_> {
    /// Returns whether a queue wants to read, or has halted.
    fn has_paused(&self, queue: usize) -> bool
        requires { queue < vec_len self.now.queues }
        ensures { (d : Queue) → IsTrue result ↔ Pauses (want_of (rest (slice_index_or self.now.queues.items queue d))) }
    {
        matches!(self.queues[queue].want(), Want::Read(_) | Want::Done)
    }

    /// Returns whether a queue has halted.
    fn has_halted(&self, queue: usize) -> bool
        requires { queue < vec_len self.now.queues }
        ensures { (d : Queue) → IsTrue result ↔ (want_of (rest (slice_index_or self.now.queues.items queue d)) ≡ want.Done) }
    {
        matches!(self.queues[queue].want(), Want::Done)
    }

    /// Steps a queue until it wants to read or has halted. `most` steps are enough.
    fn go_on(&mut self, queue: usize, most: u64) -> Result<(), AllocError>
        requires queue { queue < vec_len self.old.queues }
        requires free { IsFree self.old queue }
        requires enough { (d : Queue) → IsEnough most (slice_index_or self.old.queues.items queue d) }
        ensures size { vec_len self.new.queues ≡ vec_len self.old.queues }
        ensures shapes { self.new.counters.shapes ≡ self.old.counters.shapes }
        ensures free { OnOk result (IsFree self.new queue) }
        ensures enough { OnOk result ((d : Queue) → IsEnough most (slice_index_or self.new.queues.items queue d)) }
        ensures pauses { OnOk result ((d : Queue) → Pauses (want_of (rest (slice_index_or self.new.queues.items queue d)))) }
        ensures replays { OnOk result (Replays self.old self.new queue []) }
    {
        for _event in 0..most {
            if self.has_paused(queue) {
                return Ok(());
            }
            self.step(queue, 0)?;
        }
        Ok(())
    }

    /// Gives each read of a queue the next answer, until a read finds none or the queue has halted. `most` steps are
    /// enough for a turn.
    fn give(&mut self, queue: usize, answers: &[u32], most: u64) -> Result<(), AllocError>
        requires queue { queue < vec_len self.old.queues }
        requires free { IsFree self.old queue }
        requires enough { (d : Queue) → IsEnough most (slice_index_or self.old.queues.items queue d) }
        ensures size { vec_len self.new.queues ≡ vec_len self.old.queues }
        ensures shapes { self.new.counters.shapes ≡ self.old.counters.shapes }
        ensures took { OnOk result (Took self.old self.new queue answers.now) }
    {
        self.go_on(queue, most)?;
        for answer in answers {
            if self.has_halted(queue) {
                return Ok(());
            }
            self.step(queue, *answer)?;
            self.go_on(queue, most)?;
        }
        Ok(())
    }
}

/// Makes a world, steps one of its queues, and reports. Each read takes the next answer; it ends as a read finds none or the
/// queue has halted. The report is `World::run`'s for the steps that it made.
pub fn replay(
    alloc: Global,
    program: &Verified,
    queues: usize,
    ifindex: u32,
    start: u32,
    queue: usize,
    answers: &[u32],
) -> Result<Report, AllocError>
    requires queues { (1 ≤ queues) × (queues ≤ 8) }
    requires queue { queue < queues }
    ensures { IfOk result (IsReplay program.now queues ifindex start queue answers.now) }
{
    let most = MAX_EVENTS + u64::from(program.instructions());
    let layout = Layout::make(alloc, queues)?;
    let mut buffers = buffers(alloc, queues)?;
    let mut world = World::make(
        alloc,
        &layout,
        program,
        &[],
        &[],
        buffers.as_mut_slice(),
        queues,
        ifindex,
        start,
    )?;
    world.give(queue, answers, most)?;
    Ok(world.report())
}
