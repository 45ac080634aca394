//! A library for hosts that are not written in Rattle: a program is verified once, and runs on their packets and
//! counters. No call has a condition. `include/laxonje.h` has the calls as C sees them.
//!
//! - `abi`, `queue_abi`: what crosses to C, as in the header
//! - `handle`, `loaded_program`, `raw_box`: a program that C holds; `fault`, `advice`: why there is none, and what to write
//!   instead
//! - `object_calls`, `object_fault`: a program of an object
//! - `runs`, `batch`, `maps`: runs on one packet and on many in one call, and what C asks of counters and of maps
//! - `queue_handle`, `queue_extents`, `queue_fault`: a queue that C holds, for a guest of one range of frames or of several
//! - `queue_calls`, `queue_waits`: a queue's calls; `turns_calls`: its turns of several packets; `segment_calls`: what it offers, and how a packet is to be segmented; `offload_calls`: what
//!   its guest takes, and packets that leave something to it
//! - `relisting`: lists of maps that become others
//! - `counters_handle`, `shared_fault`, `shared_calls`: counters that queues share, as C holds them
#![tactic(auto)]

ghost use Rattle.std.specs.Prelude.{◌≡◌, ◌⊎◌, ◌++◌, ◌≤◌, List, IfNone, IfSome, IsSome, MatchOption, [], None, drop, length, take};
ghost use Rattle.bpf_insn.specs.Code.{Spells};
ghost use Rattle.bpf_insn.specs.declared.insn.Insn.{Insn};
ghost use Rattle.bpf_verify.specs.Consistent.{Accepted, instructions};
ghost use Rattle.bpf_verify.specs.FirstRefusal.{IsFaultless};
ghost use Rattle.xdp_load.specs.Listed.{ListedView};
ghost use Rattle.xdp_program.specs.Settings.{AreListsOf, AreNamesOf, IsSetupOf};
ghost use Rattle.xdp_host.specs.Answers.{Accepts, AcceptsText, AcceptsUnlessOutOfMemory, AreWithin, Refuses, RefusesText, shapes_of};
ghost use Rattle.xdp_host.specs.Verdict.{accepting, verdict_of, out_of_memory};
ghost use Rattle.xen_host.specs.Frames.{list_limits};
ghost use Rattle.xen_host.specs.LentWords.{lent_words};
ghost use Rattle.xen_host.specs.Queues.{AreEnough, AreFew, HasBegun, HasStepped, IsNothing, packet_of, resting};
ghost use Rattle.xen_host.specs.Sharing.{StepsShared};
ghost use Rattle.xdp_host.specs.Made.{MakesOr, fault_number, given};
ghost use Rattle.xdp_host.specs.Ops.{no_state, state_or};
ghost use Rattle.xdp_host.specs.Stepped.{IsUnsaid};
ghost use Rattle.xdp_host.specs.Begins.{DeliverAnswers, no_queue};

mod abi;
mod advice;
mod batch;
mod counters_handle;
mod fault;
mod handle;
mod loaded_program;
mod maps;
mod object_calls;
mod object_fault;
mod offload_calls;
mod queue_abi;
mod queue_calls;
mod queue_extents;
mod queue_fault;
mod queue_handle;
mod queue_waits;
mod raw_box;
mod relisting;
mod runs;
mod segment_calls;
mod shared_calls;
mod shared_fault;
mod turns_calls;

pub use abi::{XdpMap, XdpRun, XdpVerdict};
pub use advice::laxonje_advice;
pub use batch::XdpPacket;
pub use counters_handle::{XdpCounters, counters_cross_threads};
pub use fault::Fault;
pub use handle::{XdpProgram, programs_cross_threads};
pub use loaded_program::LoadedProgram;
pub use maps::{laxonje_map_count, laxonje_map_name, laxonje_map_named, laxonje_map_size};
pub use object_calls::laxonje_load_object;
pub use object_fault::ObjectFault;
pub use offload_calls::{laxonje_queue_accept, laxonje_queue_deliver_as};
use queue_abi::NO_QUEUE;
pub use queue_abi::{XdpQueueDesc, XdpQueueState};
use queue_calls::{boxed, copied, given_packet, stepped};
pub use queue_extents::{XdpExtent, laxonje_queue_make_extents};
pub use queue_fault::QueueFault;
pub use queue_handle::{XdpQueue, queues_cross_threads};
pub use queue_waits::{laxonje_queue_await, laxonje_queue_counters, laxonje_queue_flags};
pub use relisting::{laxonje_queue_relist, laxonje_relist};
pub use runs::{laxonje_counters, laxonje_place, laxonje_run_batch, laxonje_run_into};
pub use segment_calls::{
    laxonje_queue_offer, laxonje_queue_segment_size, laxonje_queue_segment_type,
};
pub use shared_calls::{
    laxonje_counters_add, laxonje_counters_at, laxonje_counters_free, laxonje_counters_make,
    laxonje_queue_pass, laxonje_queue_share,
};
use std::alloc::Global;
use xen_host::{FrameOwners, HostOp, LentWord, RxOffload};

/// The version of `include/laxonje.h`.
const VERSION: u32 = 4;

/// Returns whether a program is accepted with its maps.
#[unsafe(no_mangle)]
pub extern "C" fn laxonje_check(alloc: Global, program: &[u8], maps: &[XdpMap]) -> XdpVerdict
    ensures answers { ((p : Accepted) × Accepts program.now maps.now p result) ⊎ Refuses program.now maps.now result }
    ensures accepted { (code : List Insn) → Spells code program.now → IsFaultless code (shapes_of maps.now) → AreWithin maps.now →
        AcceptsUnlessOutOfMemory result }
{
    match LoadedProgram::load(alloc, program, maps) {
        Ok(held) => held.verdict(),
        Err(fault) => XdpVerdict::from(fault),
    }
}

/// Accepts a program with its maps, in place of what the handle held. A program that is refused leaves none.
#[unsafe(no_mangle)]
pub extern "C" fn laxonje_load(
    alloc: Global,
    program: &[u8],
    maps: &[XdpMap],
    out: &mut XdpProgram,
) -> XdpVerdict
    ensures answers { MatchOption out.new.slot.held (Refuses program.now maps.now result)
        (λ h. Accepts program.now maps.now h.program result) }
    ensures unnamed { IfSome out.new.slot.held (λ h. h.names ≡ []) }
    ensures unlisted { IfSome out.new.slot.held (λ h. h.lists ≡ []) }
    ensures accepted { (code : List Insn) → Spells code program.now → IsFaultless code (shapes_of maps.now) → AreWithin maps.now →
        AcceptsUnlessOutOfMemory result }
{
    let loaded = LoadedProgram::load(alloc, program, maps);
    out.set(alloc, loaded)
}

/// Accepts the program of a settings text with its maps, in place of what the handle held. One that is refused leaves none.
#[unsafe(no_mangle)]
pub extern "C" fn laxonje_load_settings(
    alloc: Global,
    text: &[u8],
    out: &mut XdpProgram,
) -> XdpVerdict
    ensures answers { MatchOption out.new.slot.held (RefusesText text.now result) (λ h. AcceptsText text.now h.program result) }
    ensures named { IfSome out.new.slot.held (λ h. AreNamesOf text.now h.names) }
    ensures listed { IfSome out.new.slot.held (λ h. AreListsOf text.now h.lists) }
    ensures accepted { (x : ListedView) (code : List Insn) → IsSetupOf text.now x → Spells code x.setup.program →
        IsFaultless code x.setup.shapes → AcceptsUnlessOutOfMemory result }
{
    let loaded = LoadedProgram::load_settings(alloc, text);
    out.set(alloc, loaded)
}

/// The same program for another handle, as in another thread, in place of what `out` held. Nothing is verified or copied.
#[unsafe(no_mangle)]
pub extern "C" fn laxonje_again(
    alloc: Global,
    program: &mut XdpProgram,
    out: &mut XdpProgram,
) -> XdpVerdict
    ensures kept { program.new.slot.held ≡ program.old.slot.held }
    ensures again { IfSome out.new.slot.held (λ h. (program.old.slot.held ≡ Some h) × (result ≡ accepting (instructions h.program.code))) }
    ensures none { IfNone out.new.slot.held (MatchOption program.old.slot.held (result ≡ verdict_of Fault.Empty)
        (λ _. result ≡ verdict_of out_of_memory)) }
{
    let again = match program.held_mut() {
        Some(held) => held.again(alloc),
        None => Err(Fault::Empty),
    };
    out.set(alloc, again)
}

/// Drops a program, if there is one.
#[unsafe(no_mangle)]
pub extern "C" fn laxonje_free(alloc: Global, program: &mut XdpProgram)
    ensures { program.new.slot.held ≡ None }
{
    drop(program.take(alloc));
}

/// Makes a queue, which has the program and its lists too, in place of what `out` held. The answer is 0, or which of the values is wrong;
/// then `out` holds what it held.
#[unsafe(no_mangle)]
pub extern "C" fn laxonje_queue_make(
    alloc: Global,
    program: &mut XdpProgram,
    owners: &[u16],
    table: &[u32],
    desc: &XdpQueueDesc,
    out: &mut XdpQueue,
) -> u32
    ensures kept { program.new.slot.held ≡ program.old.slot.held }
    ensures made { IfSome program.old.slot.held (λ h.
        MakesOr h.program h.lists (given owners.now list_limits table.now desc.now) out.old.slot.held out.new.slot.held result) }
    ensures none { IfNone program.old.slot.held ((result ≡ fault_number QueueFault.Empty) × (out.new.slot.held ≡ out.old.slot.held)) }
{
    match program.held_mut() {
        Some(held) => {
            let made = boxed(
                alloc,
                &held.program,
                &held.lists,
                FrameOwners::Each(owners),
                table,
                desc,
            );
            out.set(made)
        }
        None => QueueFault::Empty.number(),
    }
}

/// Begins a turn, with what was read of the tx producer, and says its first ops. How many: none if there is no queue,
/// something is under way, or there is no room, and nothing changes then.
#[unsafe(no_mangle)]
pub extern "C" fn laxonje_queue_turn(
    queue: &mut XdpQueue,
    producer: u32,
    ops: &mut [HostOp],
) -> usize
    ensures there { IfNone queue.old.slot.held (queue.new.slot.held ≡ None) }
    ensures none { IfNone queue.old.slot.held ((result ≡ 0) × (ops.new ≡ ops.old)) }
    ensures begun { IfSome queue.old.slot.held (λ q. IsSome (resting q) → 1 ≤ length ops.old →
        IfSome queue.new.slot.held (λ r. HasBegun q r producer ops.old ops.new result)) }
    ensures unbegun { IfSome queue.old.slot.held (λ q. (resting q ≡ None) ⊎ (length ops.old ≡ 0) →
        IfSome queue.new.slot.held (λ r. (result ≡ 0) × (ops.new ≡ ops.old) × (r ≡ q))) }
    ensures kept { IfSome queue.old.slot.held (λ _. IsSome queue.new.slot.held) }
{
    match queue.held_mut() {
        Some(held) => held.turn(producer, ops),
        None => 0,
    }
}

/// Goes on after the ops before, and says the next, as far as there is room: up to the first that has to be answered. How many. With
/// no queue, nothing under way, fewer words than a page has, or fewer counters than the program has, nothing is asked and nothing changes.
#[unsafe(no_mangle)]
pub extern "C" fn laxonje_queue_step(
    queue: &mut XdpQueue,
    words: &mut [LentWord],
    counters: &mut [u64],
    ops: &mut [HostOp],
) -> usize
    ensures there { IfNone queue.old.slot.held (queue.new.slot.held ≡ None) }
    ensures none { IfNone queue.old.slot.held (IsUnsaid result (lent_words words.old) (lent_words words.new) counters.old counters.new ops.old ops.new) }
    ensures few { IfSome queue.old.slot.held (λ q. q.share ≡ None → AreFew q (lent_words words.old) counters.old ops.old → IfSome queue.new.slot.held (λ r.
        IsNothing q r (lent_words words.old) (lent_words words.new) counters.old counters.new ops.old ops.new result)) }
    ensures shared { IfSome queue.old.slot.held (λ q. IsSome q.share → IfSome queue.new.slot.held (λ r.
        StepsShared q r (lent_words words.old) (lent_words words.new) ops.old ops.new result × (counters.new ≡ counters.old))) }
    ensures stepped { IfSome queue.old.slot.held (λ q. q.share ≡ None → AreEnough q (lent_words words.old) counters.old ops.old → IfSome queue.new.slot.held (λ r.
        HasStepped q r (lent_words words.old) (lent_words words.new) counters.old counters.new ops.old ops.new result)) }
    ensures own { IfSome queue.old.slot.held (λ q. q.share ≡ None → IfSome queue.new.slot.held (λ r. r.share ≡ None)) }
    ensures kept { IfSome queue.old.slot.held (λ _. IsSome queue.new.slot.held) }
    ensures words { length words.new ≡ length words.old }
    ensures counters { length counters.new ≡ length counters.old }
{
    match queue.held_mut() {
        Some(held) => stepped(held, words, counters, ops),
        None => 0,
    }
}

/// Begins to deliver a packet of the host's own to the guest, with what was read of the rx producer. It is copied, and leaves
/// nothing to the guest; the
/// steps that follow are of its delivery, until the op that says what became of it. The answer is 0; or, if nothing is
/// begun, there is no queue, a turn or another delivery is under way, or the packet has fewer than 14 bytes or more
/// than 65,535.
#[unsafe(no_mangle)]
pub extern "C" fn laxonje_queue_deliver(queue: &mut XdpQueue, producer: u32, packet: &[u8]) -> u32
    ensures none { IfNone queue.old.slot.held ((result ≡ no_queue) × (queue.new.slot.held ≡ None)) }
    ensures kept { IfSome queue.old.slot.held (λ _. IsSome queue.new.slot.held) }
    ensures taken { IfSome queue.old.slot.held (λ q. IfSome queue.new.slot.held (λ r. DeliverAnswers q r producer RxOffload.Whole packet.now result)) }
{
    match queue.held_mut() {
        Some(held) => given_packet(held, producer, packet, RxOffload::Whole),
        None => NO_QUEUE,
    }
}

/// Copies the packet of the turn that ran or of the delivery that is over, as far as there is room. How many bytes it has: none with no
/// queue, inside a turn and before the first, and after one that was idle, was refused or halted.
#[unsafe(no_mangle)]
pub extern "C" fn laxonje_queue_packet(queue: &mut XdpQueue, out: &mut [u8]) -> usize
    ensures kept { queue.new.slot.held ≡ queue.old.slot.held }
    ensures count { MatchOption queue.old.slot.held (result ≡ 0) (λ q. result ≡ length (packet_of q)) }
    ensures copied { MatchOption queue.old.slot.held (out.new ≡ out.old)
        (λ q. out.new ≡ take (length out.old) (packet_of q) ++ drop (length (packet_of q)) out.old) }
{
    match queue.held_mut() {
        Some(held) => copied(held.packet(), out),
        None => 0,
    }
}

/// Returns where a queue stands between two turns. None if there is no queue, or inside a turn.
#[unsafe(no_mangle)]
pub extern "C" fn laxonje_queue_state(queue: &mut XdpQueue) -> XdpQueueState
    ensures kept { queue.new.slot.held ≡ queue.old.slot.held }
    ensures state { MatchOption queue.old.slot.held (result ≡ no_state) (λ q. result ≡ state_or (resting q)) }
{
    match queue.held_mut() {
        Some(held) => match held.state() {
            Some(state) => XdpQueueState::of(state),
            None => XdpQueueState::none(),
        },
        None => XdpQueueState::none(),
    }
}

/// Drops a queue, if there is one.
#[unsafe(no_mangle)]
pub extern "C" fn laxonje_queue_free(alloc: Global, queue: &mut XdpQueue)
    ensures { queue.new.slot.held ≡ None }
{
    drop(queue.take(alloc));
}

/// The version of the header that fits this library.
#[unsafe(no_mangle)]
pub extern "C" fn laxonje_version() -> u32
    ensures { result ≡ 4 }
{
    VERSION
}
