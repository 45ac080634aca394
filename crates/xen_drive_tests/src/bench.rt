//! The shipped queue, and what a host has beside it.

ghost use Rattle.std.specs.Prelude.{◌≡◌, ◌≤◌, IfSome, IsSome, length};
ghost use Rattle.bpf_maps.specs.Layout.{total};
ghost use Rattle.xen_host.specs.Queues.{resting, wired_to};

use bpf_note::MapShape;
use std::alloc::Global;
use xen_back_tests::bench::{IFINDEX, QUEUE};
use xen_host::{FrameOwners, LentWord, Lists, Program, Queue, QueueParts};
use xen_netif::{Accepts, NO_OFFERS, Offers};

/// The packets that its frontend accepts: blank checksums, and packets to segment over IPv4.
pub const ACCEPTS: Accepts = Accepts {
    blank_checksums: true,
    segments: Offers {
        gso_tcpv4: true,
        gso_tcpv6: false,
    },
};

/// The queue between two turns, of which both rings are at `start`. It is wired as that of `xen_back_tests`: the backend, domain 0, owns
/// frame 0, and the frontend the others; frame 1 is its grant table, frame 17 its tx ring and frame 18 its rx ring.
pub fn shipped(alloc: Global, bytes: &[u8], shapes: &[MapShape], start: u32) -> Option<Queue>
    ensures rests { IfSome result (λ q. IsSome (resting q)) }
    ensures owners { IfSome result (λ q. length (wired_to q).owners ≡ 20) }
    ensures program { IfSome result (λ q. (wired_to q).program.shapes ≡ shapes.now) }
{
    let mut domains = [1; 20];
    domains[0] = 0;
    let program = Program::load(alloc, bytes, shapes).ok()?;
    let lists = Lists::none(alloc).ok()?;
    let parts = QueueParts {
        owners: FrameOwners::Each(&domains),
        table: &[1],
        tx: 17,
        rx: 18,
        granter: 1,
        user: 0,
        port: 1,
        offers: NO_OFFERS,
        accepts: ACCEPTS,
        ifindex: IFINDEX,
        queue: QUEUE,
        tx_index: start,
        rx_index: start,
    };
    match Queue::make(alloc, &program, &lists, &parts) {
        Ok(queue) => Some(queue),
        Err(_) => None,
    }
}

/// The words that a host lends.
pub fn page(alloc: Global) -> Option<Vec<LentWord>>
    ensures { IfSome result (λ words. length words.items ≡ 1024) }
{
    vec![in alloc; [0u8; 4]; 1024].ok()
}

/// The counters of a queue's program, which are 0.
pub fn counters(alloc: Global, queue: &Queue) -> Option<Vec<u64>>
    ensures { IfSome result (λ words. length words.items ≡ total (wired_to queue.now).program.shapes) }
{
    vec![in alloc; 0u64; queue.counters()].ok()
}
