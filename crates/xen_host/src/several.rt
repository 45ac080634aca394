//! Several turns in one: engines side by side, each a turn of the table, over hosts that join what they say.

ghost use Rattle.std.specs.Prelude.{◌≡◌, ◌<◌, ◌≤◌, ◌+◌, ◌-◌, ◌^◌, ℕ, IfOk, List, Option, Some, length, set, slice_get};
ghost use Rattle.bpf_note.specs.declared.op.Op.{Op as Operation};
ghost use Rattle.xdp_program.specs.Tallies.{Went};
ghost use Rattle.xen_rx_fill.specs.Wired.{IsWired};
ghost use Rattle.xen_steps.specs.Places.{add32};
ghost use Rattle.xen_turns.specs.Within.{TurnsComplete};
ghost use Rattle.xen_host.specs.LaneSteps.{IsShown, answered_by};
ghost use Rattle.xen_host.specs.Lanes.{own};
ghost use Rattle.xen_host.specs.Ended.{halted_lane, kind_behind};
ghost use Rattle.xen_host.specs.SeveralFits.{AllFit, SeveralFits, WorkFits};
ghost use Rattle.xen_host.specs.Sweeps.{BeginsLane, HaveBegun, HaveStepped, KeepsRoom, StepsLane, sweep_at};
ghost use Rattle.xen_host.specs.Wired.{wiring_of};
ghost use Rattle.xen_host.specs.declared.lane.Lane.{Lane as LaneView};
ghost use Rattle.xen_host.specs.declared.several.Phase.TheVariants as phases;

use crate::host::Host;
use crate::lane::{Lane, Next};
use crate::lane_host::LaneHost;
use crate::wires::OwnedWiring;
use std::alloc::{AllocError, Global};
use std::array;
use xdp_program::Tallies;
use xen_turns::{Halt, Kind, State};

/// The most packets of a turn.
pub const MOST_LANES: usize = 16;
/// The words of slots that are read ahead, in front of the lanes' own.
pub(crate) const AHEAD_WORDS: usize = 48;
/// The words of a lane's own.
pub(crate) const LANE_WORDS: usize = 1024;

/// Where several turns are.
#[derive(Clone, Copy, Debug, PartialEq, Eq)]
pub enum Phase {
    /// Slots are read ahead.
    Slots,
    /// The turns are under way.
    Lanes,
    /// The responses are pushed, and the event index is read.
    Push,
}

/// Several turns in one. Its phase counts while the queue's own engine says that several are under way.
#[derive(Drop)]
pub struct Several {
    pub(crate) lanes: [Lane; 16],
    pub(crate) phase: Phase,
    /// The number of slots that are read ahead, and of those that were shown.
    pub(crate) ahead: u32,
    pub(crate) shown: u32,
    /// The number that are under way or over.
    pub(crate) count: usize,
    /// The number of those, from the first on, that are answered but for the push.
    pub(crate) held: usize,
    /// The index of the rx slot behind those that were used.
    pub(crate) rx_index: u32,
    /// The queue's state behind all of them.
    pub(crate) after: State,
}

/// The state of a queue that has done nothing.
const NOTHING_DONE: State = State {
    tx_index: 0,
    rx_index: 0,
    halt: None,
};

/// The kind of a turn, once it may have halted.
fn kind_after(halt: Option<Halt>, kind: Kind) -> Kind
    ensures { result ≡ kind_behind halt kind }
{
    match halt {
        Some(cause) => Kind::Halted { cause },
        None => kind,
    }
}

impl Several {
    /// No turn.
    pub(crate) fn make(alloc: Global) -> Result<Several, AllocError>
        ensures { IfOk result (λ v. SeveralFits v) }
    {
        Ok(Several {
            lanes: array::try_from_fn(
                |_|
                    ensures { IfOk result (λ l. WorkFits l) }
                { Lane::make(alloc) },
            )?,
            phase: Phase::Push,
            ahead: 0,
            shown: 0,
            count: 0,
            held: 0,
            rx_index: 0,
            after: NOTHING_DONE,
        })
    }

    /// The k-th begins, at the next slot that was read ahead.
    #[inline(always)]
    fn begin_lane<T: Tallies>(
        &mut self,
        k: usize,
        wires: &OwnedWiring,
        counters: &mut T,
        host: &mut LaneHost<'_>,
    )
        requires lane { k < 16 }
        requires fits { AllFit self.old.lanes }
        requires wired { IsWired (wiring_of wires.now).vif }
        requires turns { TurnsComplete (wiring_of wires.now) }
        requires counts { T.serves (wiring_of wires.now).program.now.shapes counters.old }
        requires more { host.old.ahead.taken < host.old.ahead.count }
        requires few { host.old.ahead.count ≤ 16 }
        requires all { host.old.ahead.count ≤ self.old.shown }
        requires shown { IsShown (add32 host.old.ahead.start host.old.ahead.taken) (self.old.shown - host.old.ahead.taken) }
        requires room { host.old.count < length host.old.ops.now }
        requires words { own (k + 1) ≤ length host.old.words.now }
        requires tx { host.old.tx ≡ (wiring_of wires.now).vif.tx }
        ensures fits { AllFit self.new.lanes }
        ensures same { self.new ≡ record self.old { lanes = self.new.lanes } }
        ensures begun { (s : State) → s.tx_index ≡ host.old.ahead.start → s.rx_index ≡ self.old.rx_index →
            BeginsLane (T.did (wiring_of wires.now).program.now.shapes) (wiring_of wires.now) s self.old.shown host.old.ahead.count k
            (sweep_at self.old 0 counters.old host.old) (sweep_at self.new 0 counters.new host.new) }
        ensures taken { host.old.ahead.taken < host.new.ahead.taken }
        ensures few { host.new.ahead.taken ≤ host.old.ahead.count }
        ensures most { host.new.count ≤ host.old.count + 1 }
        ensures ahead { host.new.ahead ≡ record host.old.ahead { taken = host.new.ahead.taken } }
        ensures went { (labels : List (Option Operation)) × Went (T.did (wiring_of wires.now).program.now.shapes) counters.old counters.new
            labels }
        ensures keeps { KeepsRoom host.old host.new }
    {
        host.own = AHEAD_WORDS + LANE_WORDS * k;
        self.lanes[k].begin(self.rx_index, self.shown, wires, counters, host)
    }

    /// Each begins, with the slots that were read ahead.
    #[inline(always)]
    pub(crate) fn begin_each<T: Tallies>(
        &mut self,
        state: &State,
        wires: &OwnedWiring,
        counters: &mut T,
        host: &mut LaneHost<'_>,
    )
        requires fits { AllFit self.old.lanes }
        requires wired { IsWired (wiring_of wires.now).vif }
        requires turns { TurnsComplete (wiring_of wires.now) }
        requires serving { (labels : List (Option Operation)) (after : T) → Went (T.did (wiring_of wires.now).program.now.shapes)
            counters.old after labels → T.serves (wiring_of wires.now).program.now.shapes after }
        requires none { (host.old.ahead.taken ≡ 0) × (host.old.count ≡ 0) }
        requires start { host.old.ahead.start ≡ state.now.tx_index }
        requires few { host.old.ahead.count ≤ 16 }
        requires all { host.old.ahead.count ≤ self.old.shown }
        requires shown { self.old.shown ≤ 256 }
        requires room { 18 ≤ length host.old.ops.now }
        requires words { own 16 ≤ length host.old.words.now }
        requires tx { host.old.tx ≡ (wiring_of wires.now).vif.tx }
        ensures fits { SeveralFits self.new }
        ensures phase { self.new.phase ≡ phases.Lanes }
        ensures held { self.new.held ≡ 0 }
        ensures begun { HaveBegun (T.did (wiring_of wires.now).program.now.shapes) (wiring_of wires.now) state.now self.old.shown
            host.old.ahead.count self.new.count (sweep_at (record self.old { rx_index = state.now.rx_index }) 0 counters.old host.old) (sweep_at self.new
            0 counters.new host.new) }
        ensures taken { host.new.ahead.taken ≡ host.old.ahead.count }
        ensures went { (labels : List (Option Operation)) × Went (T.did (wiring_of wires.now).program.now.shapes) counters.old counters.new
            labels }
        ensures room { host.new.count ≤ length host.old.ops.now }
        ensures keeps { KeepsRoom host.old host.new }
    {
        self.rx_index = state.rx_index;
        let mut k = 0;
        'each: while host.ahead.has_more() {
            self.begin_lane(k, wires, counters, host);
            k += 1;
        }
        self.count = k;
        self.held = 0;
        self.phase = Phase::Lanes;
    }

    /// The k-th goes on, if `answered` of those before it are answered: one that would run the program waits for all of them.
    #[inline(always)]
    fn step_lane<T: Tallies>(
        &mut self,
        k: usize,
        answered: usize,
        wires: &OwnedWiring,
        counters: &mut T,
        host: &mut LaneHost<'_>,
    ) -> Next
        requires lane { k < 16 }
        requires fits { AllFit self.old.lanes }
        requires counts { T.serves (wiring_of wires.now).program.now.shapes counters.old }
        requires room { host.old.count < length host.old.ops.now }
        requires limit { host.old.limit ≡ length host.old.ops.now }
        requires words { own (k + 1) ≤ length host.old.words.now }
        requires tx { host.old.tx ≡ (wiring_of wires.now).vif.tx }
        ensures fits { AllFit self.new.lanes }
        ensures same { self.new ≡ record self.old { lanes = self.new.lanes; rx_index = self.new.rx_index } }
        ensures stepped { StepsLane (T.did (wiring_of wires.now).program.now.shapes) (wiring_of wires.now) (length host.old.ops.now) k
            (sweep_at self.old answered counters.old host.old) (sweep_at self.new (answered_by result k answered) counters.new host.new) }
        ensures own { host.new.own ≡ own k }
        ensures most { host.new.count ≤ length host.old.ops.now }
        ensures ahead { host.new.ahead ≡ host.old.ahead }
        ensures limit { host.new.limit ≡ host.old.limit }
        ensures went { (labels : List (Option Operation)) × Went (T.did (wiring_of wires.now).program.now.shapes) counters.old counters.new
            labels }
        ensures keeps { KeepsRoom host.old host.new }
    {
        host.own = AHEAD_WORDS + LANE_WORDS * k;
        let lane = &mut self.lanes[k];
        let is_next = answered == k;
        lane.step(is_next, &mut self.rx_index, wires, counters, host);
        lane.next(is_next)
    }

    /// Each goes on that isn't answered, as far as there is room. Behind one that sends its packet back none does.
    #[inline(always)]
    pub(crate) fn step_each<T: Tallies>(
        &mut self,
        wires: &OwnedWiring,
        counters: &mut T,
        host: &mut LaneHost<'_>,
    )
        requires fits { SeveralFits self.old }
        requires phase { self.old.phase ≡ phases.Lanes }
        requires serving { (labels : List (Option Operation)) (after : T) → Went (T.did (wiring_of wires.now).program.now.shapes)
            counters.old after labels → T.serves (wiring_of wires.now).program.now.shapes after }
        requires none { host.old.count ≡ 0 }
        requires limit { host.old.limit ≡ length host.old.ops.now }
        requires low { host.old.own ≤ 2 ^ 31 }
        requires words { own 16 ≤ length host.old.words.now }
        requires tx { host.old.tx ≡ (wiring_of wires.now).vif.tx }
        ensures fits { SeveralFits self.new }
        ensures same { self.new ≡ record self.old { lanes = self.new.lanes; rx_index = self.new.rx_index; held = self.new.held } }
        ensures stepped { (n : ℕ) × (self.old.held + n ≤ self.old.count) × HaveStepped (T.did (wiring_of wires.now).program.now.shapes) (wiring_of wires.now)
            (length host.old.ops.now) self.old.held n (sweep_at self.old self.old.held counters.old host.old) (sweep_at self.new self.new.held
            counters.new host.new) }
        ensures went { (labels : List (Option Operation)) × Went (T.did (wiring_of wires.now).program.now.shapes) counters.old counters.new
            labels }
        ensures room { host.new.count ≤ length host.old.ops.now }
        ensures keeps { KeepsRoom host.old host.new }
    {
        let mut answered = self.held;
        'each: for k in self.held..self.count {
            if !host.has_room() {
                break;
            }
            match self.step_lane(k, answered, wires, counters, host) {
                Next::Goes => {}
                Next::Held => answered = k + 1,
                Next::Sends => break,
            }
        }
        self.held = answered;
    }

    /// They end with the k-th, which has halted.
    #[inline(always)]
    pub(crate) fn end_at(&mut self, k: usize)
        requires lane { k < 16 }
        requires fits { SeveralFits self.old }
        requires phase { self.old.phase ≡ phases.Lanes }
        requires held { self.old.held ≤ k + 1 }
        ensures fits { SeveralFits self.new }
        ensures few { self.new.count ≤ 16 }
        ensures ended { (l : LaneView) → slice_get self.old.lanes k ≡ Some l → self.new ≡ record self.old {
          lanes = set self.old.lanes k (halted_lane l);
          count = k + 1;
          after = record l.engine.state { rx_index = self.old.rx_index };
        } }
    {
        let lane = &mut self.lanes[k];
        let state = lane.engine.state;
        lane.engine.work.answer.kind = kind_after(state.halt, lane.engine.work.answer.kind);
        self.count = k + 1;
        self.after = State {
            rx_index: self.rx_index,
            ..state
        };
    }
}
