//! What is said of all packets of a turn of several: the push of their responses, and that they are over.

ghost use Rattle.std.specs.Prelude.{◌≡◌, ◌<◌, ◌≤◌, ◌+◌, ◌++◌, ◌∷◌, [], drop, length, map, take};
ghost use Rattle.xen_host.specs.Asks.{op_of};
ghost use Rattle.xen_host.specs.Queues.{wired_to, wiring};
ghost use Rattle.xen_host.specs.Results.{several_op};
ghost use Rattle.xen_host.specs.Severals.{AreTogether, Group, IsHaltedNext, SettledTogether, notice_of, push_of, result_in, stages_of};
ghost use Rattle.xen_host.specs.declared.several.Phase.TheVariants as phases;
ghost use Rattle.xen_host.specs.declared.stage.Stage.TheVariants as stages;

use crate::lane::Lane;
use crate::op::HostOp;
use crate::queue::Queue;
use crate::room::Room;
use crate::several::Phase;
use crate::stage::Stage;
use crate::turn_result::TurnResult;
use crate::wires::Wires;
use xen_ring::{RSP_EVENT, RSP_PROD};
use xen_steps::header;
use xen_turns::State;

impl Queue {
    /// Pushes the responses if all are answered, or the next has halted the queue. `said` ops are said.
    #[inline(always)]
    pub(crate) fn settle(
        &mut self,
        said: usize,
        ops: &mut [HostOp],
        results: &mut [TurnResult],
    ) -> usize
        requires several { self.old.engine.stage ≡ stages.Several }
        requires phase { self.old.several.phase ≡ phases.Lanes }
        requires said { said ≤ length ops.old }
        requires room { 18 ≤ length ops.old }
        requires results { 16 ≤ length results.old }
        ensures settled { (g : Group) → AreTogether self.old g →
            SettledTogether self.old self.new ops.old ops.new said result results.old results.new g }
        ensures stages { stages_of self.new ≡ stages_of self.old }
        ensures wires { wired_to self.new ≡ wired_to self.old }
        ensures share { self.new.share ≡ self.old.share }
    {
        let held = self.several.held;
        if held < self.several.count {
            if !self.several.lanes[held].is_halted() || said + 2 > ops.len() {
                return said;
            }
            return self.halt_lanes(said, ops, results);
        }
        if held == 0 || said >= ops.len() {
            return said;
        }
        self.several.after = State {
            tx_index: self.several.lanes[held - 1].end(),
            rx_index: self.several.rx_index,
            halt: None,
        };
        self.push_all(said, ops)
    }

    /// The responses of all are pushed.
    #[inline(always)]
    fn push_all(&mut self, said: usize, ops: &mut [HostOp]) -> usize
        requires numbers { self.old.several.count ≤ 16 }
        requires room { said < length ops.old }
        ensures several { self.new.several ≡ record self.old.several { phase = phases.Push } }
        ensures engine { self.new.engine ≡ self.old.engine }
        ensures wires { wired_to self.new ≡ wired_to self.old }
        ensures share { self.new.share ≡ self.old.share }
        ensures ops { ops.new ≡ take said ops.old ++ op_of (push_of (wiring self.old) self.old.several.after.tx_index) ∷ drop (said + 1) ops.old }
        ensures counted { result ≡ said + 1 }
    {
        self.several.phase = Phase::Push;
        ops[said] = HostOp::push(
            header(self.wires.tx(), RSP_PROD),
            self.several.after.tx_index,
            RSP_EVENT,
        );
        said + 1
    }

    /// One has halted: those before it are pushed, and those behind it are dropped.
    #[inline(never)]
    fn halt_lanes(&mut self, said: usize, ops: &mut [HostOp], results: &mut [TurnResult]) -> usize
        requires several { self.old.engine.stage ≡ stages.Several }
        requires phase { self.old.several.phase ≡ phases.Lanes }
        requires halted { IsHaltedNext self.old }
        requires room { said + 2 ≤ length ops.old }
        requires results { 16 ≤ length results.old }
        ensures settled { (g : Group) → AreTogether self.old g →
            SettledTogether self.old self.new ops.old ops.new said result results.old results.new g }
        ensures stages { stages_of self.new ≡ stages_of self.old }
        ensures wires { wired_to self.new ≡ wired_to self.old }
        ensures share { self.new.share ≡ self.old.share }
    {
        let held = self.several.held;
        self.several.end_at(held);
        if held == 0 {
            self.end_lanes(false, said, ops, results)
        } else {
            self.push_all(said, ops)
        }
    }

    /// Writes what became of each packet.
    #[inline(always)]
    fn write_results(&self, results: &mut [TurnResult])
        requires numbers { self.now.several.count ≤ 16 }
        requires results { 16 ≤ length results.old }
        ensures { results.new ≡ map result_in (take self.now.several.count self.now.several.lanes) ++ drop self.now.several.count results.old }
    {
        for k in 0..self.several.count {
            let Lane { engine, packet } = &self.several.lanes[k];
            results[k].set(
                &engine.work.answer.kind,
                packet.bytes().len(),
                &engine.offload,
            );
        }
    }

    /// All are over.
    #[inline(always)]
    pub(crate) fn end_lanes(
        &mut self,
        is_due: bool,
        said: usize,
        ops: &mut [HostOp],
        results: &mut [TurnResult],
    ) -> usize
        requires numbers { self.old.several.count ≤ 16 }
        requires room { said + 2 ≤ length ops.old }
        requires results { 16 ≤ length results.old }
        ensures stage { self.new.engine.stage ≡ stages.Ready }
        ensures state { self.new.engine.state ≡ self.old.several.after }
        ensures several { self.new.several ≡ self.old.several }
        ensures wires { wired_to self.new ≡ wired_to self.old }
        ensures share { self.new.share ≡ self.old.share }
        ensures results { results.new ≡ map result_in (take self.old.several.count self.old.several.lanes) ++ drop self.old.several.count results.old }
        ensures ops { ops.new ≡ take said ops.old ++ (map op_of (notice_of (wiring self.old) is_due) ++ several_op self.old.several.count ∷ []) ++ drop result ops.old }
        ensures counted { result ≡ said + length (map op_of (notice_of (wiring self.old) is_due)) + 1 }
    {
        self.write_results(results);
        self.engine.stage = Stage::Ready;
        self.engine.state = self.several.after;
        let over = HostOp::several(self.several.count as u32);
        if is_due {
            ops[said] = HostOp::notify(self.wires.port());
            ops[said + 1] = over;
            said + 2
        } else {
            ops[said] = over;
            said + 1
        }
    }
}
