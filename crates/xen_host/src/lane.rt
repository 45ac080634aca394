//! One of several turns: an engine with a packet of its own, over a host that joins what it says with what the others say.

ghost use Rattle.std.specs.Prelude.{◌≡◌, ◌<◌, ◌≤◌, ◌+◌, ◌^◌, ◌↔◌, ◌==◌, ◌&&◌, ℕ, IfOk, IsTrue, List, Option, false, length, true, if◌then◌else◌};
ghost use Rattle.bpf_note.specs.declared.op.Op.{Op as Operation};
ghost use Rattle.xdp_program.specs.Tallies.{Went};
ghost use Rattle.xen_steps.specs.Places.{add32};
ghost use Rattle.xen_host.specs.Fits.{Fits};
ghost use Rattle.xen_host.specs.LaneSteps.{IsSameLane, KeepsLoans, LaneGoes, LaneStepped, LaneSteps, answered_by, indexed, is_going, lane_at, may_run, sends_at};
ghost use Rattle.xen_host.specs.Lanes.{held_at};
ghost use Rattle.xen_host.specs.LentWords.{lent_words};
ghost use Rattle.xen_host.specs.EngineAt.{work_at};
ghost use Rattle.xen_host.specs.Stands.{Stands};
ghost use Rattle.xen_host.specs.Wired.{wiring_of};
ghost use Rattle.xen_host.specs.declared.stage.Stage.TheVariants as stage;

use crate::engine::Engine;
use crate::lane_host::{LaneHost, NONE_AHEAD};
use crate::op::HostOp;
use crate::packet::Packet;
use crate::stage::Stage;
use crate::wires::{OwnedWiring, Wires};
use crate::words::LentWord;
use std::alloc::{AllocError, Global};
use xdp_program::Tallies;
use xen_netif::Fragment;
use xen_page::Place;
use xen_turns::State;

/// Where the first turn that isn't answered has come to.
#[derive(Clone, Copy, Debug, PartialEq, Eq)]
pub(crate) enum Next {
    /// It goes on.
    Goes,
    /// It is answered, but for the push.
    Held,
    /// Its packet is on its way back: those behind it wait for that.
    Sends,
}

/// A turn of several, with its packet.
#[derive(Drop)]
pub struct Lane {
    pub(crate) engine: Engine,
    pub(crate) packet: Packet,
}

const NOWHERE: State = State {
    tx_index: 0,
    rx_index: 0,
    halt: None,
};

/// The index behind the rx slots that are used: what the one that sends has used, if it does.
#[inline(always)]
fn index_behind(sends: bool, before: u32, used: u32) -> u32
    ensures { result ≡ (if sends then used else before) }
{
    if sends { used } else { before }
}

impl Lane {
    /// One that isn't under way.
    pub(crate) fn make(alloc: Global) -> Result<Lane, AllocError>
        ensures { IfOk result (λ l. l.engine.stage ≡ stage.Ready) }
    {
        Ok(Lane {
            engine: Engine::new(NOWHERE),
            packet: Packet::make(alloc)?,
        })
    }
}

impl Lane {
    /// The turn goes on, unless it is answered or over. One that would run the program waits until it is the next, and begins to use rx
    /// slots at an index then.
    #[inline(always)]
    pub(crate) fn step<T: Tallies>(
        &mut self,
        is_next: bool,
        rx_index: &mut u32,
        wires: &OwnedWiring,
        counters: &mut T,
        host: &mut LaneHost<'_>,
    )
        requires fits { Fits self.old.engine.stage (work_at self.old.packet self.old.engine.work) }
        requires counts { T.serves (wiring_of wires.now).program.now.shapes counters.old }
        requires room { host.old.count < length host.old.ops.now }
        requires limit { host.old.limit ≡ length host.old.ops.now }
        requires words { host.old.own + 1024 ≤ length host.old.words.now }
        requires low { host.old.own ≤ 2 ^ 31 }
        requires tx { host.old.tx ≡ (wiring_of wires.now).vif.tx }
        ensures fits { Fits self.new.engine.stage (work_at self.new.packet self.new.engine.work) }
        ensures went { (labels : List (Option Operation)) × Went (T.did (wiring_of wires.now).program.now.shapes) counters.old counters.new
            labels }
        ensures stands { Stands (lane_at (wiring_of wires.now) self.old) → Stands (lane_at (wiring_of wires.now) self.new) }
        ensures stepped { Stands (lane_at (wiring_of wires.now) self.old) → LaneSteps (Went (T.did (wiring_of
            wires.now).program.now.shapes) counters.old counters.new) is_next rx_index.old rx_index.new host.old.own (length
            host.old.ops.now) (lane_at (wiring_of wires.now) self.old) (lane_at (wiring_of wires.now) self.new) host.old.ops.now
            host.new.ops.now host.old.count host.new.count (lent_words host.old.words.now) (lent_words host.new.words.now) }
        ensures most { host.new.count ≤ length host.old.ops.now }
        ensures ahead { host.new.ahead ≡ host.old.ahead }
        ensures limit { host.new.limit ≡ host.old.limit }
        ensures keeps { KeepsLoans host.old host.new }
    {
        if let Stage::Entry { i, at } = self.engine.stage {
            if self.engine.work.fragment(i).size > 0 || is_next {
                self.take_entry(i, at, *rx_index, wires, counters, host)
            }
        } else if let Stage::Page { i, fragment, frame } = self.engine.stage {
            if i < self.engine.work.fragment_count() || is_next {
                self.take_page(i, fragment, frame, *rx_index, wires, counters, host)
            }
        } else {
            host.count = self.step_rest(
                rx_index, wires, counters, host.words, host.own, host.ops, host.count,
            );
        }
    }

    /// After an entry.
    #[inline(always)]
    fn take_entry<T: Tallies>(
        &mut self,
        i: usize,
        at: Place,
        rx_index: u32,
        wires: &OwnedWiring,
        counters: &mut T,
        host: &mut LaneHost<'_>,
    )
        requires at { self.old.engine.stage ≡ stage.Entry i at }
        requires fits { Fits self.old.engine.stage (work_at self.old.packet self.old.engine.work) }
        requires counts { T.serves (wiring_of wires.now).program.now.shapes counters.old }
        requires room { host.old.count < host.old.limit }
        requires limit { host.old.limit ≤ length host.old.ops.now }
        requires words { host.old.own + 1024 ≤ length host.old.words.now }
        requires low { host.old.own ≤ 2 ^ 31 }
        requires tx { host.old.tx ≡ (wiring_of wires.now).vif.tx }
        ensures fits { Fits self.new.engine.stage (work_at self.new.packet self.new.engine.work) }
        ensures went { (labels : List (Option Operation)) × Went (T.did (wiring_of wires.now).program.now.shapes) counters.old counters.new
            labels }
        ensures stands { Stands (lane_at (wiring_of wires.now) self.old) → Stands (lane_at (wiring_of wires.now) self.new) }
        ensures goes { Stands (lane_at (wiring_of wires.now) self.old) → LaneGoes (Went (T.did (wiring_of
            wires.now).program.now.shapes) counters.old counters.new) host.old.own host.old.limit (indexed rx_index (lane_at (wiring_of
            wires.now) self.old)) (lane_at (wiring_of wires.now) self.new) host.old.ops.now host.new.ops.now host.old.count
            host.new.count (lent_words host.old.words.now) (lent_words host.new.words.now) }
        ensures most { host.new.count ≤ host.old.limit }
        ensures ahead { host.new.ahead ≡ host.old.ahead }
        ensures limit { host.new.limit ≡ host.old.limit }
        ensures keeps { KeepsLoans host.old host.new }
    {
        host.base = host.count;
        let Lane { engine, packet } = self;
        engine.state.rx_index = rx_index;
        engine.step_entry(i, at, wires, packet, counters, host)
    }

    /// After a page.
    #[inline(always)]
    fn take_page<T: Tallies>(
        &mut self,
        i: usize,
        fragment: Fragment,
        frame: u32,
        rx_index: u32,
        wires: &OwnedWiring,
        counters: &mut T,
        host: &mut LaneHost<'_>,
    )
        requires at { self.old.engine.stage ≡ stage.Page i fragment frame }
        requires fits { Fits self.old.engine.stage (work_at self.old.packet self.old.engine.work) }
        requires counts { T.serves (wiring_of wires.now).program.now.shapes counters.old }
        requires room { host.old.count < host.old.limit }
        requires limit { host.old.limit ≤ length host.old.ops.now }
        requires words { host.old.own + 1024 ≤ length host.old.words.now }
        requires low { host.old.own ≤ 2 ^ 31 }
        requires tx { host.old.tx ≡ (wiring_of wires.now).vif.tx }
        ensures fits { Fits self.new.engine.stage (work_at self.new.packet self.new.engine.work) }
        ensures went { (labels : List (Option Operation)) × Went (T.did (wiring_of wires.now).program.now.shapes) counters.old counters.new
            labels }
        ensures stands { Stands (lane_at (wiring_of wires.now) self.old) → Stands (lane_at (wiring_of wires.now) self.new) }
        ensures goes { Stands (lane_at (wiring_of wires.now) self.old) → LaneGoes (Went (T.did (wiring_of
            wires.now).program.now.shapes) counters.old counters.new) host.old.own host.old.limit (indexed rx_index (lane_at (wiring_of
            wires.now) self.old)) (lane_at (wiring_of wires.now) self.new) host.old.ops.now host.new.ops.now host.old.count
            host.new.count (lent_words host.old.words.now) (lent_words host.new.words.now) }
        ensures most { host.new.count ≤ host.old.limit }
        ensures ahead { host.new.ahead ≡ host.old.ahead }
        ensures limit { host.new.limit ≡ host.old.limit }
        ensures keeps { KeepsLoans host.old host.new }
    {
        host.base = host.count;
        let Lane { engine, packet } = self;
        engine.state.rx_index = rx_index;
        engine.step_page(i, fragment, frame, wires, packet, counters, host)
    }

    /// A step that few turns take. Returns the number of ops.
    #[inline(never)]
    fn step_rest<T: Tallies>(
        &mut self,
        rx_index: &mut u32,
        wires: &OwnedWiring,
        counters: &mut T,
        words: &mut [LentWord],
        own: usize,
        ops: &mut [HostOp],
        count: usize,
    ) -> usize
        requires other { may_run self.old.engine.stage ≡ false }
        requires fits { Fits self.old.engine.stage (work_at self.old.packet self.old.engine.work) }
        requires counts { T.serves (wiring_of wires.now).program.now.shapes counters.old }
        requires room { count < length ops.old }
        requires words { own + 1024 ≤ length words.old }
        requires low { own ≤ 2 ^ 31 }
        ensures fits { Fits self.new.engine.stage (work_at self.new.packet self.new.engine.work) }
        ensures went { (labels : List (Option Operation)) × Went (T.did (wiring_of wires.now).program.now.shapes) counters.old counters.new
            labels }
        ensures stands { Stands (lane_at (wiring_of wires.now) self.old) → Stands (lane_at (wiring_of wires.now) self.new) }
        ensures stepped { LaneStepped (Went (T.did (wiring_of wires.now).program.now.shapes) counters.old counters.new) rx_index.old rx_index.new own (length ops.old) (lane_at
            (wiring_of wires.now) self.old) (lane_at (wiring_of wires.now) self.new) ops.old ops.new count result
            (lent_words words.old) (lent_words words.new) }
        ensures most { result ≤ length ops.old }
        ensures room { length ops.new ≡ length ops.old }
        ensures width { length words.new ≡ length words.old }
    {
        if !self.goes() {
            return count;
        }
        let limit = ops.len();
        let mut host = LaneHost {
            ops,
            count,
            base: count,
            limit,
            words,
            own,
            ahead: NONE_AHEAD,
            tx: wires.tx(),
        };
        self.step_engine(rx_index, wires, counters, &mut host);
        host.count
    }

    /// Its engine takes a step, and uses rx slots up to an index, if it does.
    #[inline(always)]
    fn step_engine<T: Tallies>(
        &mut self,
        rx_index: &mut u32,
        wires: &OwnedWiring,
        counters: &mut T,
        host: &mut LaneHost<'_>,
    )
        requires other { may_run self.old.engine.stage ≡ false }
        requires going { is_going self.old.engine.stage ≡ true }
        requires fits { Fits self.old.engine.stage (work_at self.old.packet self.old.engine.work) }
        requires counts { T.serves (wiring_of wires.now).program.now.shapes counters.old }
        requires base { host.old.count ≡ host.old.base }
        requires room { host.old.count < host.old.limit }
        requires limit { host.old.limit ≡ length host.old.ops.now }
        requires words { host.old.own + 1024 ≤ length host.old.words.now }
        requires low { host.old.own ≤ 2 ^ 31 }
        requires tx { host.old.tx ≡ (wiring_of wires.now).vif.tx }
        ensures fits { Fits self.new.engine.stage (work_at self.new.packet self.new.engine.work) }
        ensures went { (labels : List (Option Operation)) × Went (T.did (wiring_of wires.now).program.now.shapes) counters.old counters.new
            labels }
        ensures stands { Stands (lane_at (wiring_of wires.now) self.old) → Stands (lane_at (wiring_of wires.now) self.new) }
        ensures stepped { LaneStepped (Went (T.did (wiring_of wires.now).program.now.shapes) counters.old counters.new) rx_index.old rx_index.new host.old.own (length
            host.old.ops.now) (lane_at (wiring_of wires.now) self.old) (lane_at (wiring_of wires.now) self.new) host.old.ops.now
            host.new.ops.now host.old.count host.new.count (lent_words host.old.words.now) (lent_words host.new.words.now) }
        ensures most { host.new.count ≤ length host.old.ops.now }
        ensures room { length host.new.ops.now ≡ length host.old.ops.now }
        ensures width { length host.new.words.now ≡ length host.old.words.now }
        ensures loan { IsSameLane host.old host.new }
    {
        let sends = self.is_sending();
        let Lane { engine, packet } = self;
        engine.step(wires, packet, counters, host);
        *rx_index = index_behind(sends, *rx_index, engine.state.rx_index);
    }

    /// Returns whether it is neither answered nor over.
    #[inline(always)]
    fn goes(&self) -> bool
        ensures { result ≡ is_going self.now.engine.stage }
    {
        match self.engine.stage {
            Stage::Ready => false,
            Stage::Several => false,
            Stage::Push => false,
            _ => true,
        }
    }

    /// Where it has come to, if it is the first that isn't answered.
    #[inline(always)]
    pub(crate) fn next(&self, is_next: bool) -> Next
        ensures { (k answered : ℕ) → is_next ≡ (answered == k) →
            answered_by result k answered ≡ (if (answered == k) && held_at self.now.engine.stage then k + 1 else answered) }
    {
        if !is_next {
            Next::Goes
        } else if self.is_held() {
            Next::Held
        } else if self.is_sending() {
            Next::Sends
        } else {
            Next::Goes
        }
    }

    /// Returns whether it is answered, but for the push.
    #[inline(always)]
    fn is_held(&self) -> bool
        ensures { result ≡ held_at self.now.engine.stage }
    {
        matches!(self.engine.stage, Stage::Push)
    }

    /// Returns whether its packet is on its way back.
    #[inline(always)]
    fn is_sending(&self) -> bool
        ensures { result ≡ sends_at self.now.engine.stage }
    {
        matches!(self.engine.stage, Stage::Fill { .. })
    }

    /// Returns whether it has halted the queue.
    #[inline(always)]
    pub(crate) fn is_halted(&self) -> bool
        ensures { IsTrue result ↔ (self.now.engine.stage ≡ stage.Ready) }
    {
        matches!(self.engine.stage, Stage::Ready)
    }

    /// The index behind its chain.
    #[inline(always)]
    pub(crate) fn end(&self) -> u32
        ensures { result ≡ add32 self.now.engine.state.tx_index (length self.now.engine.work.chain) }
    {
        self.engine
            .state
            .tx_index
            .wrapping_add(self.engine.work.chain.len() as u32)
    }
}
