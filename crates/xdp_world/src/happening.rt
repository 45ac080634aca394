//! Runs with deliveries and waits.
ghost use Rattle.std.specs.Prelude.{◌≡◌, ◌≤◌, ◌<◌, All, IfOk, OnOk, [], ◌∷◌, vec_len};
ghost use Rattle.xdp_world.specs.Asked.{GoesBy, IsWorldRun, queue_of};

use crate::layout::Layout;
use crate::making::buffers;
use crate::report::Report;
use crate::world::World;
use bpf_verify::Verified;
use std::alloc::{AllocError, Global};

/// An event of a world that is run.
#[derive(Debug, PartialEq, Eq, Drop)]
pub enum WorldEvent {
    /// A step of a queue. The answer serves a read.
    Step { queue: usize, answer: u32 },
    /// A packet of the host's own is to be delivered on a queue. Inside a turn, another delivery or a wait nothing happens.
    Deliver { queue: usize, packet: Vec<u8> },
    /// The host waits for `pages` rx slots on a queue. Inside a turn, a delivery or another wait nothing happens.
    Await { queue: usize, pages: u32 },
}

impl<'p, 'b> World<'p, 'b> {
    /// One event.
    fn happen(&mut self, event: &'b WorldEvent) -> Result<(), AllocError>
        requires { queue_of event.now < vec_len self.old.queues }
        ensures size { vec_len self.new.queues ≡ vec_len self.old.queues }
        ensures shapes { self.new.counters.shapes ≡ self.old.counters.shapes }
        ensures goes { OnOk result (GoesBy self.old self.new (event.now ∷ [])) }
    {
        match event {
            WorldEvent::Step { queue, answer } => {
                self.step(*queue, *answer)?;
                Ok(())
            }
            WorldEvent::Deliver { queue, packet } => {
                self.deliver(*queue, packet.as_slice())?;
                Ok(())
            }
            WorldEvent::Await { queue, pages } => {
                self.await_slots(*queue, *pages)?;
                Ok(())
            }
        }
    }

    /// Events in order.
    fn happen_all(&mut self, events: &'b [WorldEvent]) -> Result<(), AllocError>
        requires { All (λ e. queue_of e < vec_len self.old.queues) events.now }
        ensures size { vec_len self.new.queues ≡ vec_len self.old.queues }
        ensures shapes { self.new.counters.shapes ≡ self.old.counters.shapes }
        ensures goes { OnOk result (GoesBy self.old self.new events.now) }
    {
        for event in events {
            self.happen(event)?;
        }
        Ok(())
    }
}

impl World<'_, '_> {
    /// Makes a world, has it do these events in order, and reports.
    pub fn run_events(
        alloc: Global,
        program: &Verified,
        queues: usize,
        ifindex: u32,
        start: u32,
        events: &[WorldEvent],
    ) -> Result<Report, AllocError>
        requires queues { (1 ≤ queues) × (queues ≤ 8) }
        requires events { All (λ e. queue_of e < queues) events.now }
        ensures { IfOk result (IsWorldRun program.now queues ifindex start events.now) }
    {
        let layout = Layout::make(alloc, queues)?;
        let mut buffers = buffers(alloc, queues)?;
        let mut world = World::make(
            alloc,
            &layout,
            program,
            &[],
            &[],
            buffers.as_mut_slice(),
            queues,
            ifindex,
            start,
        )?;
        world.happen_all(events)?;
        Ok(world.report())
    }
}
