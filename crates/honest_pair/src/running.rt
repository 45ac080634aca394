//! Runs of a pair.
ghost use Rattle.std.specs.Prelude.{IfOk, OnOk};
ghost use Rattle.honest_pair.specs.Events.{events_in};
ghost use Rattle.honest_pair.specs.Runs.{IsPairRun};
ghost use Rattle.honest_pair.specs.Shows.{HasDone};

use crate::calling::Calling;
use crate::event::PairEvent;
use crate::laws::{pair_law, reads_are_faithful};
use crate::making::front;
use crate::memory::Memory;
use crate::pair::Pair;
use bpf_verify::Verified;
use bpf_vm::Buffer;
use std::alloc::{AllocError, Global};
use xdp_world::{Layout, Report, World, buffers_from};

/// The outcome of a run of a pair: the back's report, and the packets that the front received.
#[derive(Drop)]
pub struct PairRun {
    pub report: Report,
    pub received: Vec<Vec<u8>>,
}

impl<'b> Pair<'_, 'b, '_> {
    /// Events in order.
    fn steps(&mut self, events: &'b [PairEvent]) -> Result<(), AllocError>
        ensures { OnOk result (HasDone self.old self.new (events_in events.now)) }
    {
        for event in events {
            self.step(event)?;
        }
        Ok(())
    }
}

impl Pair<'_, '_, '_> {
    /// Makes a front and a back over one memory, both between activities, and has them do these events. Both rings begin at the index
    /// `start`.
    pub fn run(
        alloc: Global,
        program: &Verified,
        start: u32,
        events: &[PairEvent],
    ) -> Result<PairRun, AllocError>
        ensures { IfOk result (IsPairRun program.now start (events_in events.now)) }
    {
        // Only the proof uses what these calls ensure: an accepted program is consistent, reads answer what was last written, and
        // the pair is honest.
        program.instructions();
        reads_are_faithful();
        pair_law();
        let layout = Layout::make(alloc, 1)?;
        let mut room = [Buffer::make(alloc)?];
        let world = World::make(alloc, &layout, program, &[], &[], &mut room, 1, 0, start)?;
        let tx = buffers_from(alloc, 2)?;
        let rx = buffers_from(alloc, 258)?;
        let front = front(alloc, &layout, tx.as_slice(), rx.as_slice(), start)?;
        let memory = Memory::make(alloc, start)?;
        let mut pair = Pair {
            world,
            front,
            memory,
            asleep: true,
            calling: Calling::Nothing,
            received: Vec::new(alloc),
        };
        pair.steps(events)?;
        let Pair {
            world,
            front: _,
            memory: _,
            asleep: _,
            calling: _,
            received,
        } = pair;
        Ok(PairRun {
            report: world.report(),
            received,
        })
    }
}
