//! A queue's turns of several packets.

ghost use Rattle.std.specs.Prelude.{◌≡◌, ◌≢◌, ◌<◌, ◌≤◌, ◌+◌, ◌*◌, ◌⊎◌, ◌++◌, ◌↔◌, [], IsSome, IsTrue, MatchOption, None, Some, drop, false, length, map, slice_get, take, true};
ghost use Rattle.xen_host.specs.Lanes.{ahead_ops};
ghost use Rattle.xen_host.specs.LentWords.{lent_words};
ghost use Rattle.xen_host.specs.Queues.{AreEnough, AreFew, HasBegun, HasStepped, IsNothing, resting};
ghost use Rattle.xen_host.specs.Severals.{AreEnoughTogether, AreFewTogether, HasBegunTogether, HasSteppedTogether, IsNothingTogether, MayTogether, packet_in, packets_of};
ghost use Rattle.xen_host.specs.declared.several.Phase.TheVariants as phases;
ghost use Rattle.xen_host.specs.declared.stage.Stage.TheVariants as stages;

use crate::lane::Lane;
use crate::op::HostOp;
use crate::queue::Queue;
use crate::room::Room;
use crate::several::Phase;
use crate::stage::Stage;
use crate::together::lacks_room;
use crate::turn_result::TurnResult;
use crate::wires::Wires;
use crate::words::LentWord;
use xdp_program::CounterWords;
use xen_page::Place;
use xen_steps::tx_entry;
use xen_turns::Kind;

/// The first word behind those of slots in a ring's page, and the first of them.
const SLOTS_END: u32 = 784;

const FIRST_SLOT: u32 = 16;

/// Asks for slots ahead, from an index on, in two ops at the ring's end.
#[inline(always)]
fn read_ahead(tx: u32, index: u32, slots: u32, ops: &mut [HostOp]) -> usize
    requires few { slots ≤ 16 }
    requires room { 2 ≤ length ops.old }
    ensures said { ops.new ≡ ahead_ops tx index slots ++ drop result ops.old }
    ensures counted { result ≡ length (ahead_ops tx index slots) }
{
    let first = tx_entry(tx, index, 0);
    let words = 3 * slots;
    let to_end = SLOTS_END - first.word;
    if words <= to_end {
        ops[0] = HostOp::read(first, words);
        return 1;
    }
    ops[0] = HostOp::read(first, to_end);
    let start = Place {
        frame: tx,
        word: FIRST_SLOT,
    };
    ops[1] = HostOp {
        lent: to_end,
        ..HostOp::read(start, words - to_end)
    };
    2
}

/// A turn's packet, if the program ran on it.
fn packet_ran(lane: &Lane) -> &[u8]
    ensures same { result.now ≡ packet_in lane.now }
    ensures short { length result.now ≤ 65535 }
{
    match lane.engine.work.answer.kind {
        Kind::Ran { .. } => lane.packet.bytes(),
        _ => &[],
    }
}

impl Queue {
    /// Begins a turn of up to `most` packets, and of 16, with what was read of the tx producer, and says its first ops. It is a turn of one,
    /// as [`Queue::turn`] begins it, if fewer than two slots are shown, or more than a ring has, or there is room for fewer than two ops.
    #[inline(always)]
    pub fn turns(&mut self, producer: u32, most: u32, ops: &mut [HostOp]) -> usize
        ensures together { MayTogether self.old producer most → 2 ≤ length ops.old →
            HasBegunTogether self.old self.new producer most ops.old ops.new result }
        ensures alone { IsSome (resting self.old) → 1 ≤ length ops.old → (MayTogether self.old producer most → 2 ≤ length ops.old → ⊥) →
            HasBegun self.old self.new producer ops.old ops.new result }
        ensures none { (resting self.old ≡ None) ⊎ (length ops.old ≡ 0) → (result ≡ 0) × (ops.new ≡ ops.old) × (self.new ≡ self.old) }
    {
        if self.takes_several(producer, most) && ops.len() >= 2 {
            self.say_ahead(producer, most, ops)
        } else {
            self.turn_alone(producer, ops)
        }
    }

    /// Returns whether a turn of several can begin.
    #[inline(always)]
    fn takes_several(&self, producer: u32, most: u32) -> bool
        ensures { IsTrue result ↔ MayTogether self.now producer most }
    {
        let shown = producer.wrapping_sub(self.engine.state.tx_index);
        most >= 2
            && shown >= 2
            && shown <= 256
            && self.engine.state.halt.is_none()
            && matches!(self.engine.stage, Stage::Ready)
    }

    /// Slots are read ahead.
    #[inline(always)]
    fn say_ahead(&mut self, producer: u32, most: u32, ops: &mut [HostOp]) -> usize
        requires may { MayTogether self.old producer most }
        requires room { 2 ≤ length ops.old }
        ensures { HasBegunTogether self.old self.new producer most ops.old ops.new result }
    {
        let index = self.engine.state.tx_index;
        let shown = producer.wrapping_sub(index);
        let ahead = shown.min(most).min(16);
        self.engine.stage = Stage::Several;
        self.several.phase = Phase::Slots;
        self.several.ahead = ahead;
        self.several.shown = shown;
        read_ahead(self.wires.tx(), index, ahead, ops)
    }

    /// A turn of one begins.
    #[inline(never)]
    fn turn_alone(&mut self, producer: u32, ops: &mut [HostOp]) -> usize
        ensures begun { IsSome (resting self.old) → 1 ≤ length ops.old → HasBegun self.old self.new producer ops.old ops.new result }
        ensures none { (resting self.old ≡ None) ⊎ (length ops.old ≡ 0) → (result ≡ 0) × (ops.new ≡ ops.old) × (self.new ≡ self.old) }
    {
        self.turn(producer, ops)
    }

    /// Goes on with what `turns` has begun, with the words that were read, and says what is next, as far as there is room. Nothing is said,
    /// and nothing is done, if there are fewer words than 48 and 1,024 for each of 16 packets, fewer counters than the program has, or room for
    /// fewer than 18 ops or 16 results.
    #[inline(always)]
    pub fn step_turns(
        &mut self,
        words: &mut [LentWord],
        counters: &mut [u64],
        ops: &mut [HostOp],
        results: &mut [TurnResult],
    ) -> usize
        ensures words { length words.new ≡ length words.old }
        ensures counters { length counters.new ≡ length counters.old }
        ensures share { self.new.share ≡ self.old.share }
        ensures stepped { AreEnoughTogether self.old (lent_words words.old) counters.old ops.old results.old →
            HasSteppedTogether self.old self.new (lent_words words.old) (lent_words words.new) counters.old counters.new ops.old ops.new
            results.old results.new result }
        ensures few { self.old.engine.stage ≡ stages.Several → AreFewTogether self.old (lent_words words.old) counters.old ops.old results.old →
            IsNothingTogether self.old self.new (lent_words words.old) (lent_words words.new) counters.old counters.new ops.old ops.new
            results.old results.new result }
        ensures alone { AreEnough self.old (lent_words words.old) counters.old ops.old → (results.new ≡ results.old) ×
            HasStepped self.old self.new (lent_words words.old) (lent_words words.new) counters.old counters.new ops.old ops.new result }
        ensures none { self.old.engine.stage ≢ stages.Several → AreFew self.old (lent_words words.old) counters.old ops.old →
            (results.new ≡ results.old) ×
            IsNothing self.old self.new (lent_words words.old) (lent_words words.new) counters.old counters.new ops.old ops.new result }
    {
        match self.engine.stage {
            Stage::Several => match self.several.phase {
                Phase::Slots => self.begin_lanes(words, counters, ops, results),
                Phase::Lanes => self.step_lanes(words, counters, ops, results),
                Phase::Push => self.after_push(words, counters, ops, results),
            },
            _ => self.step_alone(words, counters, ops),
        }
    }

    /// Returns whether there is less room than a turn of several wants.
    #[inline(always)]
    fn wants_more(
        &self,
        words: &[LentWord],
        counters: &[u64],
        ops: &[HostOp],
        results: &[TurnResult],
    ) -> bool
        requires several { self.now.engine.stage ≡ stages.Several }
        ensures less { result ≡ true → AreFewTogether self.now (lent_words words.now) counters.now ops.now results.now }
        ensures enough { result ≡ false → AreEnoughTogether self.now (lent_words words.now) counters.now ops.now results.now }
    {
        lacks_room(words, ops, results) || counters.len() < self.counters()
    }

    /// A turn of one goes on.
    #[inline(never)]
    fn step_alone(
        &mut self,
        words: &mut [LentWord],
        counters: &mut [u64],
        ops: &mut [HostOp],
    ) -> usize
        ensures words { length words.new ≡ length words.old }
        ensures counters { length counters.new ≡ length counters.old }
        ensures share { self.new.share ≡ self.old.share }
        ensures stepped { AreEnough self.old (lent_words words.old) counters.old ops.old →
            HasStepped self.old self.new (lent_words words.old) (lent_words words.new) counters.old counters.new ops.old ops.new result }
        ensures few { AreFew self.old (lent_words words.old) counters.old ops.old →
            IsNothing self.old self.new (lent_words words.old) (lent_words words.new) counters.old counters.new ops.old ops.new result }
    {
        self.step(words, counters, ops)
    }

    /// Each turn begins, with the slots that were read ahead.
    #[inline(never)]
    fn begin_lanes(
        &mut self,
        words: &mut [LentWord],
        counters: &mut [u64],
        ops: &mut [HostOp],
        results: &mut [TurnResult],
    ) -> usize
        requires several { self.old.engine.stage ≡ stages.Several }
        requires phase { self.old.several.phase ≡ phases.Slots }
        ensures words { length words.new ≡ length words.old }
        ensures counters { length counters.new ≡ length counters.old }
        ensures share { self.new.share ≡ self.old.share }
        ensures stepped { AreEnoughTogether self.old (lent_words words.old) counters.old ops.old results.old →
            HasSteppedTogether self.old self.new (lent_words words.old) (lent_words words.new) counters.old counters.new ops.old ops.new
            results.old results.new result }
        ensures few { AreFewTogether self.old (lent_words words.old) counters.old ops.old results.old →
            IsNothingTogether self.old self.new (lent_words words.old) (lent_words words.new) counters.old counters.new ops.old ops.new
            results.old results.new result }
    {
        if self.wants_more(words, counters, ops, results) {
            return 0;
        }
        let mut own = CounterWords { words: counters };
        self.go_in_words(Phase::Slots, words, &mut own, ops, results)
    }

    /// Each turn goes on. One that would run the program waits for those before it.
    #[inline(never)]
    fn step_lanes(
        &mut self,
        words: &mut [LentWord],
        counters: &mut [u64],
        ops: &mut [HostOp],
        results: &mut [TurnResult],
    ) -> usize
        requires several { self.old.engine.stage ≡ stages.Several }
        requires phase { self.old.several.phase ≡ phases.Lanes }
        ensures words { length words.new ≡ length words.old }
        ensures counters { length counters.new ≡ length counters.old }
        ensures share { self.new.share ≡ self.old.share }
        ensures stepped { AreEnoughTogether self.old (lent_words words.old) counters.old ops.old results.old →
            HasSteppedTogether self.old self.new (lent_words words.old) (lent_words words.new) counters.old counters.new ops.old ops.new
            results.old results.new result }
        ensures few { AreFewTogether self.old (lent_words words.old) counters.old ops.old results.old →
            IsNothingTogether self.old self.new (lent_words words.old) (lent_words words.new) counters.old counters.new ops.old ops.new
            results.old results.new result }
    {
        if self.wants_more(words, counters, ops, results) {
            return 0;
        }
        let mut own = CounterWords { words: counters };
        self.go_in_words(Phase::Lanes, words, &mut own, ops, results)
    }

    /// The responses are pushed, and the event index is read.
    #[inline(never)]
    fn after_push(
        &mut self,
        words: &mut [LentWord],
        counters: &mut [u64],
        ops: &mut [HostOp],
        results: &mut [TurnResult],
    ) -> usize
        requires several { self.old.engine.stage ≡ stages.Several }
        requires phase { self.old.several.phase ≡ phases.Push }
        ensures words { length words.new ≡ length words.old }
        ensures counters { length counters.new ≡ length counters.old }
        ensures share { self.new.share ≡ self.old.share }
        ensures stepped { AreEnoughTogether self.old (lent_words words.old) counters.old ops.old results.old →
            HasSteppedTogether self.old self.new (lent_words words.old) (lent_words words.new) counters.old counters.new ops.old ops.new
            results.old results.new result }
        ensures few { AreFewTogether self.old (lent_words words.old) counters.old ops.old results.old →
            IsNothingTogether self.old self.new (lent_words words.old) (lent_words words.new) counters.old counters.new ops.old ops.new
            results.old results.new result }
    {
        if self.wants_more(words, counters, ops, results) {
            return 0;
        }
        self.end_together(words, ops, results)
    }

    /// The packet of the k-th turn of the last turn of several, if the program ran on it. It has no bytes while something is under way.
    pub fn packet_of_turn(&self, k: usize) -> &[u8]
        ensures same { MatchOption (slice_get (packets_of self.now) k) (result.now ≡ []) (λ p. result.now ≡ p) }
        ensures short { length result.now ≤ 65535 }
    {
        match self.engine.stage {
            Stage::Ready => self.packet_over(k),
            _ => &[],
        }
    }

    /// The packet of the k-th turn, which is over.
    fn packet_over(&self, k: usize) -> &[u8]
        ensures same { MatchOption (slice_get (map packet_in (take self.now.several.count self.now.several.lanes)) k) (result.now ≡ [])
            (λ p. result.now ≡ p) }
        ensures short { length result.now ≤ 65535 }
    {
        if k >= self.several.count {
            return &[];
        }
        match self.several.lanes.get(k) {
            Some(lane) => packet_ran(lane),
            None => &[],
        }
    }
}
