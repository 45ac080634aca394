//! A step of several turns in one, with the program's counters where they are: in words of the host's, or at a seat.

ghost use Rattle.std.specs.Prelude.{◌≡◌, ◌≢◌, ◌≤◌, ◌+◌, ◌*◌, List, [], IsSome, Option, false, length, true};
ghost use Rattle.bpf_maps.specs.Seats.{IsSeatOf};
ghost use Rattle.bpf_note.specs.declared.op.Op.{Op as Operation};
ghost use Rattle.xdp_program.specs.Tallies.{HasWords, IsSeated, Went};
ghost use Rattle.xen_host.specs.LentWords.{lent_words};
ghost use Rattle.xen_host.specs.Queues.{AreEnoughAtSeat, AreFewAtSeat, HasSteppedAtSeat, IsNothingAtSeat, wired_to};
ghost use Rattle.xen_host.specs.Severals.{AreEnoughTogetherAtSeat, AreFewTogetherAtSeat, AreTogether, Group, HasSteppedTogether, HasSteppedTogetherAtSeat, IsNothingTogetherAtSeat, SteppedTogether};
ghost use Rattle.xen_host.specs.Sharing.{TurnsShared};
ghost use Rattle.xen_host.specs.declared.several.Phase.TheVariants as phases;
ghost use Rattle.xen_host.specs.declared.stage.Stage.TheVariants as stages;

use crate::op::HostOp;
use crate::queue::Queue;
use crate::several::{AHEAD_WORDS, LANE_WORDS, MOST_LANES, Phase};
use crate::sharing::Share;
use crate::stage::Stage;
use crate::turn_result::TurnResult;
use crate::words::LentWord;
use bpf_maps::{CounterSeat, Counters};
use xdp_program::{CounterWords, Seated, Tallies};
use xen_ring::due;

/// Returns whether there is less room than a turn of several wants.
#[inline(always)]
pub(crate) fn lacks_room(words: &[LentWord], ops: &[HostOp], results: &[TurnResult]) -> bool
    ensures less { result ≡ true → AreFewTogetherAtSeat (lent_words words.now) ops.now results.now }
    ensures pages { result ≡ false → 48 + 1024 * 16 ≤ length words.now }
    ensures some { result ≡ false → 18 ≤ length ops.now }
    ensures room { result ≡ false → 16 ≤ length results.now }
{
    words.len() < AHEAD_WORDS + LANE_WORDS * MOST_LANES
        || ops.len() < MOST_LANES + 2
        || results.len() < MOST_LANES
}

impl Queue {
    /// Each turn begins, with the slots that were read ahead.
    #[inline(always)]
    fn begin_together<T: Tallies>(
        &mut self,
        words: &mut [LentWord],
        counters: &mut T,
        ops: &mut [HostOp],
        results: &mut [TurnResult],
    ) -> usize
        requires several { self.old.engine.stage ≡ stages.Several }
        requires phase { self.old.several.phase ≡ phases.Slots }
        requires pages { 48 + 1024 * 16 ≤ length words.old }
        requires serving { (labels : List (Option Operation)) (after : T) → Went (T.did (wired_to self.old).program.shapes) counters.old after
            labels → T.serves (wired_to self.old).program.shapes after }
        requires room { 18 ≤ length ops.old }
        requires results { 16 ≤ length results.old }
        ensures words { length words.new ≡ length words.old }
        ensures stepped { (g : Group) → AreTogether self.old g →
            SteppedTogether (Went (T.did (wired_to self.old).program.shapes) counters.old counters.new) self.old self.new (lent_words words.old)
            (lent_words words.new) ops.old ops.new results.old results.new result g }
        ensures went { (labels : List (Option Operation)) × Went (T.did (wired_to self.old).program.shapes) counters.old counters.new labels }
        ensures wires { wired_to self.new ≡ wired_to self.old }
        ensures share { self.new.share ≡ self.old.share }
    {
        let said = self.say_begun(words, counters, ops);
        if said == 0 {
            self.settle(said, ops, results)
        } else {
            said
        }
    }

    /// Each turn goes on. One that would run the program waits for those before it.
    #[inline(always)]
    fn step_together<T: Tallies>(
        &mut self,
        words: &mut [LentWord],
        counters: &mut T,
        ops: &mut [HostOp],
        results: &mut [TurnResult],
    ) -> usize
        requires several { self.old.engine.stage ≡ stages.Several }
        requires phase { self.old.several.phase ≡ phases.Lanes }
        requires pages { 48 + 1024 * 16 ≤ length words.old }
        requires serving { (labels : List (Option Operation)) (after : T) → Went (T.did (wired_to self.old).program.shapes) counters.old after
            labels → T.serves (wired_to self.old).program.shapes after }
        requires room { 18 ≤ length ops.old }
        requires results { 16 ≤ length results.old }
        ensures words { length words.new ≡ length words.old }
        ensures stepped { (g : Group) → AreTogether self.old g →
            SteppedTogether (Went (T.did (wired_to self.old).program.shapes) counters.old counters.new) self.old self.new (lent_words words.old)
            (lent_words words.new) ops.old ops.new results.old results.new result g }
        ensures went { (labels : List (Option Operation)) × Went (T.did (wired_to self.old).program.shapes) counters.old counters.new labels }
        ensures wires { wired_to self.new ≡ wired_to self.old }
        ensures share { self.new.share ≡ self.old.share }
    {
        let said = self.say_stepped(words, counters, ops);
        self.settle(said, ops, results)
    }

    /// The responses are pushed, and the event index is read: all are over.
    #[inline(always)]
    pub(crate) fn end_together(
        &mut self,
        words: &[LentWord],
        ops: &mut [HostOp],
        results: &mut [TurnResult],
    ) -> usize
        requires several { self.old.engine.stage ≡ stages.Several }
        requires phase { self.old.several.phase ≡ phases.Push }
        requires some { 1 ≤ length words.now }
        requires room { 18 ≤ length ops.old }
        requires results { 16 ≤ length results.old }
        ensures stepped { (g : Group) → AreTogether self.old g →
            SteppedTogether (λ labels. labels ≡ []) self.old self.new (lent_words words.now) (lent_words words.now) ops.old ops.new results.old
            results.new result g }
        ensures wires { wired_to self.new ≡ wired_to self.old }
        ensures share { self.new.share ≡ self.old.share }
    {
        let event = u32::from_le_bytes(words[0]);
        let is_due = due(
            self.engine.state.tx_index,
            self.several.after.tx_index,
            event,
        );
        self.end_lanes(is_due, 0, ops, results)
    }

    /// Each turn begins or goes on, or all are over, as the phase says.
    #[inline(always)]
    fn go_together<T: Tallies>(
        &mut self,
        phase: Phase,
        words: &mut [LentWord],
        counters: &mut T,
        ops: &mut [HostOp],
        results: &mut [TurnResult],
    ) -> usize
        requires several { self.old.engine.stage ≡ stages.Several }
        requires phase { self.old.several.phase ≡ phase }
        requires pages { 48 + 1024 * 16 ≤ length words.old }
        requires serving { (labels : List (Option Operation)) (after : T) → Went (T.did (wired_to self.old).program.shapes) counters.old after
            labels → T.serves (wired_to self.old).program.shapes after }
        requires room { 18 ≤ length ops.old }
        requires results { 16 ≤ length results.old }
        ensures words { length words.new ≡ length words.old }
        ensures stepped { (g : Group) → AreTogether self.old g →
            SteppedTogether (Went (T.did (wired_to self.old).program.shapes) counters.old counters.new) self.old self.new (lent_words words.old)
            (lent_words words.new) ops.old ops.new results.old results.new result g }
        ensures went { (labels : List (Option Operation)) × Went (T.did (wired_to self.old).program.shapes) counters.old counters.new labels }
        ensures wires { wired_to self.new ≡ wired_to self.old }
        ensures share { self.new.share ≡ self.old.share }
    {
        match phase {
            Phase::Slots => self.begin_together(words, counters, ops, results),
            Phase::Lanes => self.step_together(words, counters, ops, results),
            Phase::Push => self.end_together(words, ops, results),
        }
    }

    /// As `go_together`, with the counters in words that are lent.
    #[inline(always)]
    pub(crate) fn go_in_words(
        &mut self,
        phase: Phase,
        words: &mut [LentWord],
        counters: &mut CounterWords<'_>,
        ops: &mut [HostOp],
        results: &mut [TurnResult],
    ) -> usize
        requires several { self.old.engine.stage ≡ stages.Several }
        requires phase { self.old.several.phase ≡ phase }
        requires pages { 48 + 1024 * 16 ≤ length words.old }
        requires counts { HasWords (wired_to self.old).program.shapes counters.old }
        requires room { 18 ≤ length ops.old }
        requires results { 16 ≤ length results.old }
        ensures words { length words.new ≡ length words.old }
        ensures counters { length counters.new.words.now ≡ length counters.old.words.now }
        ensures stepped { HasSteppedTogether self.old self.new (lent_words words.old) (lent_words words.new) counters.old.words.now
            counters.new.words.now ops.old ops.new results.old results.new result }
        ensures share { self.new.share ≡ self.old.share }
        ensures loan { counters.new.words.ghost_name ≡ counters.old.words.ghost_name }
    {
        self.go_together(phase, words, counters, ops, results)
    }

    /// As `go_together`, at a seat that is lent.
    #[inline(always)]
    fn go_seated(
        &mut self,
        phase: Phase,
        words: &mut [LentWord],
        counters: &mut Seated<'_>,
        ops: &mut [HostOp],
        results: &mut [TurnResult],
    ) -> usize
        requires several { self.old.engine.stage ≡ stages.Several }
        requires phase { self.old.several.phase ≡ phase }
        requires pages { 48 + 1024 * 16 ≤ length words.old }
        requires counts { IsSeated (wired_to self.old).program.shapes counters.old }
        requires room { 18 ≤ length ops.old }
        requires results { 16 ≤ length results.old }
        ensures words { length words.new ≡ length words.old }
        ensures stepped { HasSteppedTogetherAtSeat self.old self.new (lent_words words.old) (lent_words words.new) counters.old.seat.now
            counters.new.seat.now ops.old ops.new results.old results.new result }
        ensures wires { wired_to self.new ≡ wired_to self.old }
        ensures share { self.new.share ≡ self.old.share }
        ensures same { counters.new.seat.now ≡ record counters.old.seat.now { ops = counters.new.seat.now.ops } }
        ensures loan { counters.new.seat.ghost_name ≡ counters.old.seat.ghost_name }
    {
        self.go_together(phase, words, counters, ops, results)
    }

    /// Several turns go on, with the program's counters at a seat.
    #[inline(never)]
    fn step_lanes_at_seat(
        &mut self,
        words: &mut [LentWord],
        counters: &Counters,
        seat: &mut CounterSeat,
        ops: &mut [HostOp],
        results: &mut [TurnResult],
    ) -> usize
        requires several { self.old.engine.stage ≡ stages.Several }
        requires shapes { counters.now.shapes ≡ (wired_to self.old).program.shapes }
        requires seat { IsSeatOf counters.now seat.old }
        ensures words { length words.new ≡ length words.old }
        ensures stepped { AreEnoughTogetherAtSeat self.old (lent_words words.old) ops.old results.old →
            HasSteppedTogetherAtSeat self.old self.new (lent_words words.old) (lent_words words.new) seat.old seat.new ops.old ops.new results.old
            results.new result }
        ensures few { AreFewTogetherAtSeat (lent_words words.old) ops.old results.old →
            IsNothingTogetherAtSeat self.old self.new (lent_words words.old) (lent_words words.new) seat.old seat.new ops.old ops.new results.old
            results.new result }
        ensures wires { wired_to self.new ≡ wired_to self.old }
        ensures share { self.new.share ≡ self.old.share }
        ensures same { seat.new ≡ record seat.old { ops = seat.new.ops } }
    {
        if lacks_room(words, ops, results) {
            return 0;
        }
        let phase = self.several.phase;
        let mut own = Seated { counters, seat };
        self.go_seated(phase, words, &mut own, ops, results)
    }

    /// As [`Queue::step_turns`], with the program's counters at a seat.
    #[inline(always)]
    pub(crate) fn step_turns_at_seat(
        &mut self,
        words: &mut [LentWord],
        counters: &Counters,
        seat: &mut CounterSeat,
        ops: &mut [HostOp],
        results: &mut [TurnResult],
    ) -> usize
        requires shapes { counters.now.shapes ≡ (wired_to self.old).program.shapes }
        requires seat { IsSeatOf counters.now seat.old }
        ensures words { length words.new ≡ length words.old }
        ensures stepped { AreEnoughTogetherAtSeat self.old (lent_words words.old) ops.old results.old →
            HasSteppedTogetherAtSeat self.old self.new (lent_words words.old) (lent_words words.new) seat.old seat.new ops.old ops.new results.old
            results.new result }
        ensures few { self.old.engine.stage ≡ stages.Several → AreFewTogetherAtSeat (lent_words words.old) ops.old results.old →
            IsNothingTogetherAtSeat self.old self.new (lent_words words.old) (lent_words words.new) seat.old seat.new ops.old ops.new results.old
            results.new result }
        ensures alone { AreEnoughAtSeat self.old (lent_words words.old) ops.old → (results.new ≡ results.old) ×
            HasSteppedAtSeat self.old self.new (lent_words words.old) (lent_words words.new) seat.old seat.new ops.old ops.new result }
        ensures none { self.old.engine.stage ≢ stages.Several → AreFewAtSeat self.old (lent_words words.old) ops.old →
            (results.new ≡ results.old) ×
            IsNothingAtSeat self.old self.new (lent_words words.old) (lent_words words.new) seat.old seat.new ops.old ops.new result }
        ensures wires { wired_to self.new ≡ wired_to self.old }
        ensures share { self.new.share ≡ self.old.share }
        ensures same { seat.new ≡ record seat.old { ops = seat.new.ops } }
    {
        match self.engine.stage {
            Stage::Several => self.step_lanes_at_seat(words, counters, seat, ops, results),
            _ => self.step_at_seat(words, counters, seat, ops),
        }
    }

    /// As [`Queue::step_turns`], with the counters that it shares.
    #[inline(never)]
    pub fn step_turns_shared(
        &mut self,
        words: &mut [LentWord],
        ops: &mut [HostOp],
        results: &mut [TurnResult],
    ) -> usize
        requires { IsSome self.old.share }
        ensures words { length words.new ≡ length words.old }
        ensures steps { TurnsShared self.old self.new (lent_words words.old) (lent_words words.new) ops.old ops.new results.old results.new result }
    {
        let Some(share) = self.share.take() else {
            unreachable!()
        };
        let Share { counters, mut seat } = share;
        let count = self.step_turns_at_seat(words, &counters, &mut seat, ops, results);
        self.share = Some(Share { counters, seat });
        count
    }
}
