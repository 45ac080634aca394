//! A turn of several packets, for a host in C: what each of its turns asks stands in the ops of all.

ghost use Rattle.std.specs.Prelude.{◌≡◌, ◌≤◌, ◌+◌, ◌*◌, ◌^◌, List, Option, length};
ghost use Rattle.bpf_note.specs.declared.op.Op.{Op as Operation};
ghost use Rattle.xdp_program.specs.Tallies.{Went};
ghost use Rattle.xen_host.specs.LentWords.{lent_words};
ghost use Rattle.xen_host.specs.Queues.{wired_to, wiring};
ghost use Rattle.xen_host.specs.Severals.{AreTogether, GoneTogether, Group};
ghost use Rattle.xen_host.specs.Sweeps.{KeepsRoom};
ghost use Rattle.xen_host.specs.declared.several.Phase.TheVariants as phases;
ghost use Rattle.xen_host.specs.declared.stage.Stage.TheVariants as stages;

use crate::lane_host::{Ahead, LaneHost, NONE_AHEAD};
use crate::op::HostOp;
use crate::queue::Queue;
use crate::several::AHEAD_WORDS;
use crate::wires::Wires;
use crate::words::{LentWord, are_words};
use xdp_program::Tallies;

impl Queue {
    /// Each turn begins, over a host that has said nothing yet.
    #[inline(always)]
    fn begin_over<T: Tallies>(&mut self, counters: &mut T, host: &mut LaneHost<'_>)
        requires several { self.old.engine.stage ≡ stages.Several }
        requires phase { self.old.several.phase ≡ phases.Slots }
        requires pages { 48 + 1024 * 16 ≤ length host.old.words.now }
        requires serving { (labels : List (Option Operation)) (after : T) → Went (T.did (wired_to self.old).program.shapes) counters.old after
            labels → T.serves (wired_to self.old).program.shapes after }
        requires room { 18 ≤ length host.old.ops.now }
        requires none { host.old.count ≡ 0 }
        requires start { host.old.ahead.start ≡ self.old.engine.state.tx_index }
        requires ahead { host.old.ahead.count ≡ self.old.several.ahead }
        requires taken { host.old.ahead.taken ≡ 0 }
        requires tx { host.old.tx ≡ (wiring self.old).vif.tx }
        ensures gone { (g : Group) → AreTogether self.old g →
            GoneTogether (Went (T.did (wired_to self.old).program.shapes) counters.old counters.new) self.old self.new (lent_words
            host.old.words.now) (lent_words host.new.words.now) host.old.ops.now host.new.ops.now host.new.count g }
        ensures phase { self.new.several.phase ≡ phases.Lanes }
        ensures stage { self.new.engine.stage ≡ stages.Several }
        ensures wires { wired_to self.new ≡ wired_to self.old }
        ensures share { self.new.share ≡ self.old.share }
        ensures went { (labels : List (Option Operation)) × Went (T.did (wired_to self.old).program.shapes) counters.old counters.new labels }
        ensures room { host.new.count ≤ length host.old.ops.now }
        ensures keeps { KeepsRoom host.old host.new }
    {
        // Only the proof uses what this call ensures: an index is below 2^32.
        are_words(&[self.engine.state.tx_index]);
        self.several
            .begin_each(&self.engine.state, &self.wires, counters, host)
    }

    /// Each turn begins, with the slots that were read ahead. How many ops are said.
    #[inline(always)]
    pub(crate) fn say_begun<T: Tallies>(
        &mut self,
        words: &mut [LentWord],
        counters: &mut T,
        ops: &mut [HostOp],
    ) -> usize
        requires several { self.old.engine.stage ≡ stages.Several }
        requires phase { self.old.several.phase ≡ phases.Slots }
        requires pages { 48 + 1024 * 16 ≤ length words.old }
        requires serving { (labels : List (Option Operation)) (after : T) → Went (T.did (wired_to self.old).program.shapes) counters.old after
            labels → T.serves (wired_to self.old).program.shapes after }
        requires room { 18 ≤ length ops.old }
        ensures words { length words.new ≡ length words.old }
        ensures went { (labels : List (Option Operation)) × Went (T.did (wired_to self.old).program.shapes) counters.old counters.new labels }
        ensures share { self.new.share ≡ self.old.share }
        ensures gone { (g : Group) → AreTogether self.old g →
            GoneTogether (Went (T.did (wired_to self.old).program.shapes) counters.old counters.new) self.old self.new (lent_words words.old)
            (lent_words words.new) ops.old ops.new result g }
        ensures phase { self.new.several.phase ≡ phases.Lanes }
        ensures stage { self.new.engine.stage ≡ stages.Several }
        ensures room { result ≤ length ops.old }
        ensures wires { wired_to self.new ≡ wired_to self.old }
    {
        let room = ops.len();
        let mut host = LaneHost {
            ops,
            count: 0,
            base: 0,
            limit: room,
            words,
            own: AHEAD_WORDS,
            ahead: Ahead {
                start: self.engine.state.tx_index,
                count: self.several.ahead as usize,
                taken: 0,
            },
            tx: self.wires.tx(),
        };
        self.begin_over(counters, &mut host);
        host.count
    }

    /// Each turn goes on, over a host that has said nothing yet.
    #[inline(always)]
    fn step_over<T: Tallies>(&mut self, counters: &mut T, host: &mut LaneHost<'_>)
        requires several { self.old.engine.stage ≡ stages.Several }
        requires phase { self.old.several.phase ≡ phases.Lanes }
        requires pages { 48 + 1024 * 16 ≤ length host.old.words.now }
        requires serving { (labels : List (Option Operation)) (after : T) → Went (T.did (wired_to self.old).program.shapes) counters.old after
            labels → T.serves (wired_to self.old).program.shapes after }
        requires room { 18 ≤ length host.old.ops.now }
        requires none { host.old.count ≡ 0 }
        requires limit { host.old.limit ≡ length host.old.ops.now }
        requires low { host.old.own ≤ 2 ^ 31 }
        requires tx { host.old.tx ≡ (wiring self.old).vif.tx }
        ensures gone { (g : Group) → AreTogether self.old g →
            GoneTogether (Went (T.did (wired_to self.old).program.shapes) counters.old counters.new) self.old self.new (lent_words
            host.old.words.now) (lent_words host.new.words.now) host.old.ops.now host.new.ops.now host.new.count g }
        ensures phase { self.new.several.phase ≡ phases.Lanes }
        ensures stage { self.new.engine.stage ≡ stages.Several }
        ensures wires { wired_to self.new ≡ wired_to self.old }
        ensures share { self.new.share ≡ self.old.share }
        ensures went { (labels : List (Option Operation)) × Went (T.did (wired_to self.old).program.shapes) counters.old counters.new labels }
        ensures room { host.new.count ≤ length host.old.ops.now }
        ensures keeps { KeepsRoom host.old host.new }
    {
        self.several.step_each(&self.wires, counters, host)
    }

    /// Each turn goes on. How many ops are said.
    #[inline(always)]
    pub(crate) fn say_stepped<T: Tallies>(
        &mut self,
        words: &mut [LentWord],
        counters: &mut T,
        ops: &mut [HostOp],
    ) -> usize
        requires several { self.old.engine.stage ≡ stages.Several }
        requires phase { self.old.several.phase ≡ phases.Lanes }
        requires pages { 48 + 1024 * 16 ≤ length words.old }
        requires serving { (labels : List (Option Operation)) (after : T) → Went (T.did (wired_to self.old).program.shapes) counters.old after
            labels → T.serves (wired_to self.old).program.shapes after }
        requires room { 18 ≤ length ops.old }
        ensures words { length words.new ≡ length words.old }
        ensures went { (labels : List (Option Operation)) × Went (T.did (wired_to self.old).program.shapes) counters.old counters.new labels }
        ensures share { self.new.share ≡ self.old.share }
        ensures gone { (g : Group) → AreTogether self.old g →
            GoneTogether (Went (T.did (wired_to self.old).program.shapes) counters.old counters.new) self.old self.new (lent_words words.old)
            (lent_words words.new) ops.old ops.new result g }
        ensures phase { self.new.several.phase ≡ phases.Lanes }
        ensures stage { self.new.engine.stage ≡ stages.Several }
        ensures room { result ≤ length ops.old }
        ensures wires { wired_to self.new ≡ wired_to self.old }
    {
        let room = ops.len();
        let mut host = LaneHost {
            ops,
            count: 0,
            base: 0,
            limit: room,
            words,
            own: AHEAD_WORDS,
            ahead: NONE_AHEAD,
            tx: self.wires.tx(),
        };
        self.step_over(counters, &mut host);
        host.count
    }
}
