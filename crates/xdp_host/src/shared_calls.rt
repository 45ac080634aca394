//! What C asks of counters that queues share.
ghost use Rattle.std.specs.Prelude.{◌≡◌, ◌<◌, ◌⊎◌, IfErr, IfNone, IfOk, IfSome, IsSome, None};
ghost use Rattle.xen_host.specs.Sharing.{AreNewFor};
ghost use Rattle.xdp_host.specs.Shared.{AddsShared, MakesShared, PassAnswers, ReadsShared, ShareAnswers, no_counter, nothing_to_share};

use crate::counters_handle::XdpCounters;
use crate::handle::XdpProgram;
use crate::queue_handle::XdpQueue;
use crate::shared_fault::{ADDED, NO_COUNTER, NOTHING_TO_SHARE, SHARED, share_number};
use std::alloc::Global;
use xen_host::{Program, Queue, SharedCounters, SharedFault};

/// Counters of a program's maps, in a box.
fn boxed(
    alloc: Global,
    program: &Program,
    queues: usize,
) -> Result<Box<SharedCounters>, SharedFault>
    ensures made { IfOk result (λ b. AreNewFor program.now queues b.value) }
    ensures fault { IfErr result (λ f. f ≡ SharedFault.Seats → (queues ≡ 0) ⊎ (63 < queues)) }
{
    let counters = SharedCounters::make(alloc, program, queues)?;
    Ok(Box::new(alloc, counters)?)
}

/// Makes counters of a program's maps, all 0, that so many queues may share, in place of what `out` held. The answer is 0, or why there are
/// none; then `out` holds what it held.
#[unsafe(no_mangle)]
pub extern "C" fn laxonje_counters_make(
    alloc: Global,
    program: &mut XdpProgram,
    queues: usize,
    out: &mut XdpCounters,
) -> u32
    ensures kept { program.new.slot.held ≡ program.old.slot.held }
    ensures made { IfSome program.old.slot.held (λ h. MakesShared h.program queues out.old.slot.held out.new.slot.held result) }
    ensures none { IfNone program.old.slot.held ((result ≡ nothing_to_share) × (out.new.slot.held ≡ out.old.slot.held)) }
{
    match program.held_mut() {
        Some(held) => {
            let made = boxed(alloc, &held.program, queues);
            out.set(made)
        }
        None => NOTHING_TO_SHARE,
    }
}

/// A shared counter, by one atomic load: 0 if there is no such counter, or there are none.
#[unsafe(no_mangle)]
pub extern "C" fn laxonje_counters_at(
    counters: &mut XdpCounters,
    map: u32,
    entry: u32,
    counter: u32,
) -> u64
    ensures none { IfNone counters.old.slot.held ((result ≡ 0) × (counters.new.slot.held ≡ None)) }
    ensures read { IfSome counters.old.slot.held (λ c. IfSome counters.new.slot.held (λ d. ReadsShared c d map entry counter result)) }
    ensures kept { IfSome counters.old.slot.held (λ _. IsSome counters.new.slot.held) }
{
    match counters.held_mut() {
        Some(held) => held.at(map, entry, counter).unwrap_or(0),
        None => 0,
    }
}

/// An amount added to a counter.
fn add(counters: &mut SharedCounters, map: u32, entry: u32, counter: u32, amount: u64) -> u32
    ensures { AddsShared counters.old counters.new map entry counter amount result }
{
    match counters.add(map, entry, counter, amount) {
        Some(_) => ADDED,
        None => NO_COUNTER,
    }
}

/// Adds to a shared counter, by one atomic step. The sum wraps. The answer is 0, or 1 if there is no such counter, or there are none.
#[unsafe(no_mangle)]
pub extern "C" fn laxonje_counters_add(
    counters: &mut XdpCounters,
    map: u32,
    entry: u32,
    counter: u32,
    amount: u64,
) -> u32
    ensures none { IfNone counters.old.slot.held ((result ≡ no_counter) × (counters.new.slot.held ≡ None)) }
    ensures added { IfSome counters.old.slot.held (λ c. IfSome counters.new.slot.held (λ d. AddsShared c d map entry counter amount result)) }
    ensures kept { IfSome counters.old.slot.held (λ _. IsSome counters.new.slot.held) }
{
    match counters.held_mut() {
        Some(held) => add(held, map, entry, counter, amount),
        None => NO_COUNTER,
    }
}

/// Drops shared counters, if there are any. Queues that share them go on with them.
#[unsafe(no_mangle)]
pub extern "C" fn laxonje_counters_free(alloc: Global, counters: &mut XdpCounters)
    ensures { counters.new.slot.held ≡ None }
{
    drop(counters.take(alloc));
}

/// Has a queue share counters.
fn share(queue: &mut Queue, counters: &mut SharedCounters) -> u32
    ensures { ShareAnswers queue.old queue.new counters.old counters.new result }
{
    match queue.share(counters) {
        Ok(()) => SHARED,
        Err(fault) => share_number(fault),
    }
}

/// Has a queue share counters, from its next step on. The answer is 0, or why it doesn't; then nothing has changed of it.
#[unsafe(no_mangle)]
pub extern "C" fn laxonje_queue_share(queue: &mut XdpQueue, counters: &mut XdpCounters) -> u32
    ensures shared { IfSome queue.old.slot.held (λ q. IfSome counters.old.slot.held (λ c. IfSome queue.new.slot.held (λ r.
        IfSome counters.new.slot.held (λ d. ShareAnswers q r c d result)))) }
    ensures none { IfNone queue.old.slot.held ((result ≡ nothing_to_share) × (queue.new.slot.held ≡ None) ×
        (counters.new.slot.held ≡ counters.old.slot.held)) }
    ensures without { IfNone counters.old.slot.held ((result ≡ nothing_to_share) × (queue.new.slot.held ≡ queue.old.slot.held) ×
        (counters.new.slot.held ≡ None)) }
    ensures kept { IfSome queue.old.slot.held (λ _. IsSome queue.new.slot.held) }
    ensures counters { IfSome counters.old.slot.held (λ _. IsSome counters.new.slot.held) }
{
    let Some(counters) = counters.held_mut() else {
        return NOTHING_TO_SHARE;
    };
    match queue.held_mut() {
        Some(queue) => share(queue, counters),
        None => NOTHING_TO_SHARE,
    }
}

/// Has a queue give its share to another.
fn pass(queue: &mut Queue, to: &mut Queue) -> u32
    ensures { PassAnswers queue.old queue.new to.old to.new result }
{
    match queue.pass_share(to) {
        Ok(()) => SHARED,
        Err(fault) => share_number(fault),
    }
}

/// Has a queue give its share in counters to another, as to the one that follows it. The answer is 0, or why it doesn't; then nothing has
/// changed of either.
#[unsafe(no_mangle)]
pub extern "C" fn laxonje_queue_pass(queue: &mut XdpQueue, to: &mut XdpQueue) -> u32
    ensures passed { IfSome queue.old.slot.held (λ q. IfSome to.old.slot.held (λ t. IfSome queue.new.slot.held (λ r.
        IfSome to.new.slot.held (λ u. PassAnswers q r t u result)))) }
    ensures none { IfNone queue.old.slot.held ((result ≡ nothing_to_share) × (queue.new.slot.held ≡ None) ×
        (to.new.slot.held ≡ to.old.slot.held)) }
    ensures without { IfNone to.old.slot.held ((result ≡ nothing_to_share) × (queue.new.slot.held ≡ queue.old.slot.held) ×
        (to.new.slot.held ≡ None)) }
    ensures kept { IfSome queue.old.slot.held (λ _. IsSome queue.new.slot.held) }
    ensures to { IfSome to.old.slot.held (λ _. IsSome to.new.slot.held) }
{
    let Some(queue) = queue.held_mut() else {
        return NOTHING_TO_SHARE;
    };
    match to.held_mut() {
        Some(to) => pass(queue, to),
        None => NOTHING_TO_SHARE,
    }
}
