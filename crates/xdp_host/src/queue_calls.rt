//! A queue's calls, on what a handle holds.
ghost use Rattle.std.specs.Prelude.{◌≡◌, ◌++◌, None, drop, length, take, IfErr, IfOk, IsSome};
ghost use Rattle.xen_host.specs.LentWords.{lent_words};
ghost use Rattle.xen_host.specs.Queues.{AreEnough, AreFew, HasStepped, IsNothing};
ghost use Rattle.xen_host.specs.Sharing.{StepsShared};
ghost use Rattle.xen_host.specs.Frames.{limits_of, owners_in};
ghost use Rattle.xen_host.specs.Making.{IsFaultOf, IsMadeOf};
ghost use Rattle.xdp_host.specs.Made.{given};
ghost use Rattle.xdp_host.specs.Begins.{DeliverAnswers};

use crate::queue_abi::{XdpQueueDesc, begin_number};
use std::alloc::Global;
use xen_host::{
    FrameOwners, HostOp, LentWord, Lists, MakeFault, Program, Queue, QueueParts, RxOffload,
};
use xen_netif::{ACCEPTS_WHOLE, NO_OFFERS};

/// A queue of what C gives, in a box.
pub fn boxed(
    alloc: Global,
    program: &Program,
    lists: &Lists,
    owners: FrameOwners<'_>,
    table: &[u32],
    desc: &XdpQueueDesc,
) -> Result<Box<Queue>, MakeFault>
    ensures made { IfOk result (λ b.
        IsMadeOf program.now lists.now (given (owners_in owners.entry) (limits_of owners.entry) table.now desc.now) b.value) }
    ensures fault { IfErr result (IsFaultOf (given (owners_in owners.entry) (limits_of owners.entry) table.now desc.now)) }
{
    let parts = QueueParts {
        owners,
        table,
        tx: desc.tx,
        rx: desc.rx,
        granter: desc.granter,
        user: desc.user,
        port: desc.port,
        offers: NO_OFFERS,
        accepts: ACCEPTS_WHOLE,
        ifindex: desc.ifindex,
        queue: desc.queue,
        tx_index: desc.tx_index,
        rx_index: desc.rx_index,
    };
    let queue = Queue::make(alloc, program, lists, &parts)?;
    Ok(Box::new(alloc, queue)?)
}

/// A queue's step, with its counters where they are.
#[inline(always)]
pub fn stepped(
    queue: &mut Queue,
    words: &mut [LentWord],
    counters: &mut [u64],
    ops: &mut [HostOp],
) -> usize
    ensures few { queue.old.share ≡ None → AreFew queue.old (lent_words words.old) counters.old ops.old →
        IsNothing queue.old queue.new (lent_words words.old) (lent_words words.new) counters.old counters.new ops.old ops.new result }
    ensures stepped { queue.old.share ≡ None → AreEnough queue.old (lent_words words.old) counters.old ops.old →
        HasStepped queue.old queue.new (lent_words words.old) (lent_words words.new) counters.old counters.new ops.old ops.new result }
    ensures shared { IsSome queue.old.share → StepsShared queue.old queue.new (lent_words words.old) (lent_words words.new) ops.old ops.new result ×
        (counters.new ≡ counters.old) }
    ensures own { queue.old.share ≡ None → queue.new.share ≡ None }
    ensures words { length words.new ≡ length words.old }
    ensures counters { length counters.new ≡ length counters.old }
{
    if queue.is_shared() {
        queue.step_shared(words, ops)
    } else {
        queue.step(words, counters, ops)
    }
}

/// Gives a queue a packet to deliver, which leaves this to the guest.
pub fn given_packet(queue: &mut Queue, producer: u32, packet: &[u8], offload: RxOffload) -> u32
    ensures { DeliverAnswers queue.old queue.new producer offload packet.now result }
{
    begin_number(queue.deliver(producer, packet, offload))
}

/// Copies bytes as far as there is room. How many there are.
pub fn copied(bytes: &[u8], out: &mut [u8]) -> usize
    ensures count { result ≡ length bytes.now }
    ensures copied { out.new ≡ take (length out.old) bytes.now ++ drop (length bytes.now) out.old }
{
    let count = bytes.len().min(out.len());
    out[..count].copy_from_slice(&bytes[..count]);
    bytes.len()
}
