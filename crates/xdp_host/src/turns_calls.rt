//! Turns of several packets.
ghost use Rattle.std.specs.Prelude.{◌≡◌, ◌⊎◌, ◌≤◌, ◌++◌, IfNone, IfSome, IsSome, None, drop, length, slice_get, take};
ghost use Rattle.xen_host.specs.LentWords.{lent_words};
ghost use Rattle.xen_host.specs.Queues.{HasBegun, resting};
ghost use Rattle.xen_host.specs.Severals.{HasBegunTogether, MayTogether, packets_of};
ghost use Rattle.xen_host.specs.Sharing.{TurnsShared};
ghost use Rattle.xdp_host.specs.Stepped.{IsUnsaid, TurnsStepped};

use crate::queue_calls::copied;
use crate::queue_handle::XdpQueue;
use xen_host::{HostOp, LentWord, Queue, TurnResult};

/// Begins a turn of up to `most` packets, and of 16, with what was read of the tx producer, and says its first ops. It is a turn of one,
/// as `laxonje_queue_turn` begins it, if fewer than two slots are shown, or more than a ring has, or there is room for one op alone. How
/// many: none if there is no queue, something is under way, or there is no room, and nothing changes then.
#[unsafe(no_mangle)]
pub extern "C" fn laxonje_queue_turns(
    queue: &mut XdpQueue,
    producer: u32,
    most: u32,
    ops: &mut [HostOp],
) -> usize
    ensures there { IfNone queue.old.slot.held (queue.new.slot.held ≡ None) }
    ensures none { IfNone queue.old.slot.held ((result ≡ 0) × (ops.new ≡ ops.old)) }
    ensures together { IfSome queue.old.slot.held (λ q. MayTogether q producer most → 2 ≤ length ops.old →
        IfSome queue.new.slot.held (λ r. HasBegunTogether q r producer most ops.old ops.new result)) }
    ensures alone { IfSome queue.old.slot.held (λ q. IsSome (resting q) → 1 ≤ length ops.old → (MayTogether q producer most → 2 ≤ length ops.old → ⊥) →
        IfSome queue.new.slot.held (λ r. HasBegun q r producer ops.old ops.new result)) }
    ensures unbegun { IfSome queue.old.slot.held (λ q. (resting q ≡ None) ⊎ (length ops.old ≡ 0) →
        IfSome queue.new.slot.held (λ r. (result ≡ 0) × (ops.new ≡ ops.old) × (r ≡ q))) }
    ensures kept { IfSome queue.old.slot.held (λ _. IsSome queue.new.slot.held) }
{
    match queue.held_mut() {
        Some(held) => held.turns(producer, most, ops),
        None => 0,
    }
}

/// A queue's step with the counters that it shares: out of line, since a step with counters of its own would keep more registers beside it.
#[inline(never)]
fn stepped_at_seat(
    queue: &mut Queue,
    words: &mut [LentWord],
    ops: &mut [HostOp],
    results: &mut [TurnResult],
) -> usize
    requires { IsSome queue.old.share }
    ensures words { length words.new ≡ length words.old }
    ensures steps { TurnsShared queue.old queue.new (lent_words words.old) (lent_words words.new) ops.old ops.new results.old results.new result }
{
    queue.step_turns_shared(words, ops, results)
}

/// A queue's step, of several turns or of one, with its counters where they are.
#[inline(always)]
fn turns_stepped(
    queue: &mut Queue,
    words: &mut [LentWord],
    counters: &mut [u64],
    ops: &mut [HostOp],
    results: &mut [TurnResult],
) -> usize
    ensures stepped { queue.old.share ≡ None → TurnsStepped queue.old queue.new (lent_words words.old) (lent_words words.new) counters.old
        counters.new ops.old ops.new results.old results.new result }
    ensures shared { IsSome queue.old.share → TurnsShared queue.old queue.new (lent_words words.old) (lent_words words.new) ops.old ops.new
        results.old results.new result × (counters.new ≡ counters.old) }
    ensures own { queue.old.share ≡ None → queue.new.share ≡ None }
    ensures words { length words.new ≡ length words.old }
    ensures counters { length counters.new ≡ length counters.old }
{
    if queue.is_shared() {
        stepped_at_seat(queue, words, ops, results)
    } else {
        queue.step_turns(words, counters, ops, results)
    }
}

/// Goes on after the ops before, and says the next, as far as there is room; behind the last op the first results say what became of each
/// packet. How many ops. With no queue, nothing under way, fewer words, fewer counters, room for fewer ops or results than it wants, nothing
/// is asked and nothing changes.
#[unsafe(no_mangle)]
pub extern "C" fn laxonje_queue_turns_step(
    queue: &mut XdpQueue,
    words: &mut [LentWord],
    counters: &mut [u64],
    ops: &mut [HostOp],
    results: &mut [TurnResult],
) -> usize
    ensures there { IfNone queue.old.slot.held (queue.new.slot.held ≡ None) }
    ensures none { IfNone queue.old.slot.held (IsUnsaid result (lent_words words.old) (lent_words words.new) counters.old counters.new ops.old ops.new ×
        (results.new ≡ results.old)) }
    ensures stepped { IfSome queue.old.slot.held (λ q. q.share ≡ None → IfSome queue.new.slot.held (λ r. TurnsStepped q r (lent_words words.old)
        (lent_words words.new) counters.old counters.new ops.old ops.new results.old results.new result)) }
    ensures shared { IfSome queue.old.slot.held (λ q. IsSome q.share → IfSome queue.new.slot.held (λ r. TurnsShared q r (lent_words words.old)
        (lent_words words.new) ops.old ops.new results.old results.new result × (counters.new ≡ counters.old))) }
    ensures own { IfSome queue.old.slot.held (λ q. q.share ≡ None → IfSome queue.new.slot.held (λ r. r.share ≡ None)) }
    ensures kept { IfSome queue.old.slot.held (λ _. IsSome queue.new.slot.held) }
    ensures words { length words.new ≡ length words.old }
    ensures counters { length counters.new ≡ length counters.old }
{
    match queue.held_mut() {
        Some(held) => turns_stepped(held, words, counters, ops, results),
        None => 0,
    }
}

/// Copies the packet of one of the turns that were over together, as far as there is room. How many bytes it has: none with no queue,
/// while something is under way, behind the last of them, and of one on which the program didn't run.
#[unsafe(no_mangle)]
pub extern "C" fn laxonje_queue_turns_packet(
    queue: &mut XdpQueue,
    number: usize,
    out: &mut [u8],
) -> usize
    ensures kept { queue.new.slot.held ≡ queue.old.slot.held }
    ensures there { IfSome queue.old.slot.held (λ q. IfSome (slice_get (packets_of q) number)
        (λ p. (result ≡ length p) × (out.new ≡ take (length out.old) p ++ drop (length p) out.old))) }
    ensures none { IfSome queue.old.slot.held (λ q. IfNone (slice_get (packets_of q) number) ((result ≡ 0) × (out.new ≡ out.old))) }
    ensures no_queue { IfNone queue.old.slot.held ((result ≡ 0) × (out.new ≡ out.old)) }
{
    match queue.held_mut() {
        Some(held) => copied(held.packet_of_turn(number), out),
        None => 0,
    }
}
