//! How one of several turns begins, with slots that were read ahead.

ghost use Rattle.std.specs.Prelude.{◌≡◌, ◌<◌, ◌≤◌, ◌+◌, ◌-◌, ◌^◌, [], List, None, Option, false, length};
ghost use Rattle.bpf_note.specs.declared.op.Op.{Op as Operation};
ghost use Rattle.xdp_program.specs.Tallies.{Went};
ghost use Rattle.xen_netif.specs.Chain.{extra_info, more_data};
ghost use Rattle.xen_rx_fill.specs.Wired.{IsWired};
ghost use Rattle.xen_steps.specs.Places.{add32};
ghost use Rattle.xen_turns.specs.Within.{TurnsComplete};
ghost use Rattle.xen_host.specs.LaneSteps.{IsSameLane, IsShown, KeepsLoans, LaneBegins, begins_at, lane_at, slot_at};
ghost use Rattle.xen_host.specs.LentWords.{lent_words};
ghost use Rattle.xen_host.specs.Stands.{Stands};
ghost use Rattle.xen_host.specs.Wired.{wiring_of};

use crate::gathering::Gathered;
use crate::lane::Lane;
use crate::lane_host::{Ahead, LaneHost};
use crate::op::HostOp;
use crate::wires::{OwnedWiring, Wires};
use crate::words::{LentWord, are_words};
use xdp_program::Tallies;
use xen_netif::is_alone;
use xen_turns::{Halt, State};

impl Lane {
    /// The turn begins with the next slot that was read ahead. `shown` slots are shown from the first of those on.
    #[inline(always)]
    pub(crate) fn begin<T: Tallies>(
        &mut self,
        rx_index: u32,
        shown: u32,
        wires: &OwnedWiring,
        counters: &mut T,
        host: &mut LaneHost<'_>,
    )
        requires wired { IsWired (wiring_of wires.now).vif }
        requires turns { TurnsComplete (wiring_of wires.now) }
        requires counts { T.serves (wiring_of wires.now).program.now.shapes counters.old }
        requires more { host.old.ahead.taken < host.old.ahead.count }
        requires few { host.old.ahead.count ≤ 16 }
        requires all { host.old.ahead.count ≤ shown }
        requires shown { IsShown (add32 host.old.ahead.start host.old.ahead.taken) (shown - host.old.ahead.taken) }
        requires room { host.old.count < length host.old.ops.now }
        requires front { 48 ≤ host.old.own }
        requires words { host.old.own + 1024 ≤ length host.old.words.now }
        requires low { host.old.own ≤ 2 ^ 31 }
        requires tx { host.old.tx ≡ (wiring_of wires.now).vif.tx }
        ensures stands { Stands (lane_at (wiring_of wires.now) self.new) }
        ensures went { (labels : List (Option Operation)) × Went (T.did (wiring_of wires.now).program.now.shapes) counters.old counters.new
            labels }
        ensures begun { LaneBegins (Went (T.did (wiring_of wires.now).program.now.shapes) counters.old counters.new)
            (begins_at host.old.ahead rx_index) (shown - host.old.ahead.taken) host.old.ahead.taken host.old.ahead.count
            host.new.ahead.taken host.old.own (host.old.count + 1) (lane_at (wiring_of wires.now) self.new) host.old.ops.now
            host.new.ops.now host.old.count host.new.count (lent_words host.old.words.now) (lent_words host.new.words.now) }
        ensures most { host.new.count ≤ host.old.count + 1 }
        ensures ahead { host.new.ahead ≡ record host.old.ahead { taken = host.new.ahead.taken } }
        ensures keeps { KeepsLoans host.old host.new }
    {
        self.engine.state = State {
            tx_index: host.ahead.index(),
            rx_index,
            halt: None,
        };
        let slot = host.next_slot();
        if is_alone(slot) {
            self.begin_alone(shown, slot, wires, host)
        } else {
            let (said, taken) = self.begin_chain(
                shown, wires, counters, host.words, host.own, host.ops, host.count, host.ahead,
            );
            host.count = said;
            host.ahead.taken = taken;
        }
    }

    /// The turn begins with a slot that is all of its chain.
    #[inline(always)]
    fn begin_alone(
        &mut self,
        shown: u32,
        slot: [u32; 3],
        wires: &OwnedWiring,
        host: &mut LaneHost<'_>,
    )
        requires plain { extra_info slot ≡ false }
        requires alone { more_data slot ≡ false }
        requires next { slot ≡ slot_at (lent_words host.old.words.now) host.old.ahead.taken }
        requires live { self.old.engine.state.halt ≡ None }
        requires wired { IsWired (wiring_of wires.now).vif }
        requires turns { TurnsComplete (wiring_of wires.now) }
        requires more { host.old.ahead.taken < host.old.ahead.count }
        requires few { host.old.ahead.count ≤ 16 }
        requires all { host.old.ahead.count ≤ shown }
        requires shown { IsShown self.old.engine.state.tx_index (shown - host.old.ahead.taken) }
        requires room { host.old.count < length host.old.ops.now }
        requires front { 48 ≤ length host.old.words.now }
        requires low { host.old.own ≤ 2 ^ 31 }
        requires tx { host.old.tx ≡ (wiring_of wires.now).vif.tx }
        ensures stands { Stands (lane_at (wiring_of wires.now) self.new) }
        ensures begun { LaneBegins (λ labels. labels ≡ []) self.old.engine.state (shown -
            host.old.ahead.taken) host.old.ahead.taken host.old.ahead.count host.new.ahead.taken host.old.own (host.old.count + 1)
            (lane_at (wiring_of wires.now) self.new) host.old.ops.now host.new.ops.now host.old.count host.new.count
            (lent_words host.old.words.now) (lent_words host.new.words.now) }
        ensures most { host.new.count ≤ host.old.count + 1 }
        ensures ahead { host.new.ahead ≡ record host.old.ahead { taken = host.new.ahead.taken } }
        ensures keeps { KeepsLoans host.old host.new }
    {
        // Only the proof uses what this call ensures: a word is below 2^32.
        are_words(&slot);
        host.ahead.taken += 1;
        host.base = host.count;
        host.limit = host.count + 1;
        self.engine
            .after_only_slot(slot, wires, &mut self.packet, host)
    }

    /// The turn begins with a slot that isn't all of its chain, and takes more of those that were read ahead. Returns the number of ops, and
    /// that of the slots that are taken. It takes what its host has, so that this needn't lie in memory.
    #[inline(never)]
    fn begin_chain<T: Tallies>(
        &mut self,
        shown: u32,
        wires: &OwnedWiring,
        counters: &mut T,
        words: &mut [LentWord],
        own: usize,
        ops: &mut [HostOp],
        count: usize,
        ahead: Ahead,
    ) -> (usize, usize)
        requires live { self.old.engine.state.halt ≡ None }
        requires wired { IsWired (wiring_of wires.now).vif }
        requires turns { TurnsComplete (wiring_of wires.now) }
        requires counts { T.serves (wiring_of wires.now).program.now.shapes counters.old }
        requires more { ahead.taken < ahead.count }
        requires few { ahead.count ≤ 16 }
        requires all { ahead.count ≤ shown }
        requires shown { IsShown self.old.engine.state.tx_index (shown - ahead.taken) }
        requires room { count < length ops.old }
        requires front { 48 ≤ length words.old }
        requires low { own ≤ 2 ^ 31 }
        ensures stands { Stands (lane_at (wiring_of wires.now) self.new) }
        ensures went { (labels : List (Option Operation)) × Went (T.did (wiring_of wires.now).program.now.shapes) counters.old counters.new
            labels }
        ensures begun { LaneBegins (Went (T.did (wiring_of wires.now).program.now.shapes) counters.old counters.new)
            self.old.engine.state (shown - ahead.taken) ahead.taken ahead.count result.1 own (count + 1) (lane_at (wiring_of
            wires.now) self.new) ops.old ops.new count result.0 (lent_words words.old) (lent_words words.new) }
        ensures most { result.0 ≤ count + 1 }
        ensures room { length ops.new ≡ length ops.old }
        ensures width { length words.new ≡ length words.old }
    {
        let mut host = LaneHost {
            ops,
            count,
            base: count,
            limit: count + 1,
            words,
            own,
            ahead,
            tx: wires.tx(),
        };
        let taken = self.begin_slots(shown, wires, counters, &mut host);
        (host.count, taken)
    }

    /// The turn begins with slots that were read ahead, over a host that says one op at most. Returns the number of the slot behind those that
    /// it takes.
    #[inline(always)]
    fn begin_slots<T: Tallies>(
        &mut self,
        shown: u32,
        wires: &OwnedWiring,
        counters: &mut T,
        host: &mut LaneHost<'_>,
    ) -> usize
        requires live { self.old.engine.state.halt ≡ None }
        requires wired { IsWired (wiring_of wires.now).vif }
        requires turns { TurnsComplete (wiring_of wires.now) }
        requires counts { T.serves (wiring_of wires.now).program.now.shapes counters.old }
        requires more { host.old.ahead.taken < host.old.ahead.count }
        requires few { host.old.ahead.count ≤ 16 }
        requires all { host.old.ahead.count ≤ shown }
        requires shown { IsShown self.old.engine.state.tx_index (shown - host.old.ahead.taken) }
        requires base { host.old.count ≡ host.old.base }
        requires limit { host.old.limit ≡ host.old.count + 1 }
        requires room { host.old.count < length host.old.ops.now }
        requires front { 48 ≤ length host.old.words.now }
        requires low { host.old.own ≤ 2 ^ 31 }
        requires tx { host.old.tx ≡ (wiring_of wires.now).vif.tx }
        ensures stands { Stands (lane_at (wiring_of wires.now) self.new) }
        ensures went { (labels : List (Option Operation)) × Went (T.did (wiring_of wires.now).program.now.shapes) counters.old counters.new
            labels }
        ensures begun { LaneBegins (Went (T.did (wiring_of wires.now).program.now.shapes) counters.old counters.new)
            self.old.engine.state (shown - host.old.ahead.taken) host.old.ahead.taken host.old.ahead.count result host.old.own
            (host.old.count + 1) (lane_at (wiring_of wires.now) self.new) host.old.ops.now host.new.ops.now host.old.count
            host.new.count (lent_words host.old.words.now) (lent_words host.new.words.now) }
        ensures most { host.new.count ≤ host.old.count + 1 }
        ensures room { length host.new.ops.now ≡ length host.old.ops.now }
        ensures width { length host.new.words.now ≡ length host.old.words.now }
        ensures loan { IsSameLane host.old host.new }
    {
        let Lane { engine, packet } = self;
        let from = host.ahead.taken;
        let all = host.ahead.count;
        match engine.gather(host.all_words(), from, all) {
            Gathered::Broken { fault, end } => {
                engine.halt(Halt::Chain(fault), packet, host);
                end
            }
            Gathered::Whole { end } => {
                engine.after_chain(wires, packet, counters, host);
                end
            }
            Gathered::Wanting => {
                engine.more_slots(shown - all as u32, wires, packet, host);
                all
            }
        }
    }
}
