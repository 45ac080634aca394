//! What the threads are given, all of it made before the first of them starts.
ghost use Rattle.std.specs.Prelude.{◌≡◌, ◌<◌, ◌≤◌, ◌*◌, ◌+◌, All, map, length, vec_len, IfOk};
ghost use Rattle.bpf_maps.specs.Seats.{CountersView, new_seats};
ghost use Rattle.xdp_world.specs.Frames.{frame_of, owners_of};
ghost use Rattle.xdp_world.specs.Buffers.{granted_from};
ghost use Rattle.xen_front.specs.Fronts.{state_of, wiring_of};
ghost use Rattle.thread_pair.specs.Resources.{IsBackOf, IsFrontOf, falling, seat_number};

use crate::answer::Answer;
use crate::fault::PairFault;
use crate::rings::{FIRST_GRANTED, make_ring};
use crate::shared::Shared;
use bpf_maps::CounterSeat;
use bpf_vm::Buffer;
use crossbeam_utils::sync::Parker;
use std::alloc::{AllocError, Global};
use xdp_world::{BACK, REFERENCES, buffers_from};
use xen_front::{ACCEPTS_WHOLE, Front, FrontDesc, GrantedPage};
use xen_page::Mapped;
use xen_ring::Port;

/// The first buffers' references of a queue, after those of its two rings.
const TX_BUFFERS: u32 = 2;

const RX_BUFFERS: u32 = 258;

/// The resources of a queue's back thread: its rings, room for a packet and for an answer, what it sleeps on, and its seat at the
/// counters.
#[derive(Drop)]
pub(crate) struct BackResources {
    pub queue: usize,
    pub tx: Mapped,
    pub rx: Mapped,
    pub room: Buffer,
    pub answer: Answer,
    pub parker: Parker,
    pub seat: CounterSeat,
}

/// The resources of a queue's front thread.
#[derive(Drop)]
pub(crate) struct FrontResources<'p> {
    pub queue: usize,
    pub front: Front<'p>,
    pub parker: Parker,
}

/// The buffers of a queue's front.
#[derive(Drop)]
pub(crate) struct FrontPages {
    pub queue: usize,
    pub tx: Vec<GrantedPage>,
    pub rx: Vec<GrantedPage>,
    ghost tx_granted: { tx.items ≡ granted_from (514 * queue + 2) },
    ghost rx_granted: { rx.items ≡ granted_from (514 * queue + 258) },
}

/// Returns what each back is given. Its rings are mapped.
pub(crate) fn make_backs(
    alloc: Global,
    shared: &Shared,
    mut seats: Vec<CounterSeat>,
    mut parkers: Vec<Parker>,
) -> Result<Vec<BackResources>, PairFault>
    requires seats { vec_len seats ≡ shared.now.layout.queues }
    requires parkers { vec_len parkers ≡ shared.now.layout.queues }
    ensures own { (c : CountersView) → seats.items ≡ new_seats c shared.now.layout.queues →
        IfOk result (λ v. All (IsBackOf c shared.now.layout.queues) v.items × (map seat_number v.items ≡ falling shared.now.layout.queues)) }
    ensures count { IfOk result (λ v. vec_len v ≡ shared.now.layout.queues) }
{
    let mut backs = Vec::with_capacity(alloc, seats.len())?;
    while let Some(seat) = seats.pop() {
        let queue = seats.len();
        let Some(parker) = parkers.pop() else {
            unreachable!()
        };
        let first = REFERENCES * queue as u32;
        let tx = make_ring(shared, first)?;
        let rx = make_ring(shared, first + 1)?;
        let room = Buffer::make(alloc)?;
        let answer = Answer::make(alloc)?;
        backs.push(BackResources {
            queue,
            tx,
            rx,
            room,
            answer,
            parker,
            seat,
        })?;
    }
    Ok(backs)
}

/// The buffers of each front, in the queues' order.
pub(crate) fn make_pages(alloc: Global, count: usize) -> Result<Vec<FrontPages>, AllocError>
    requires { count ≤ 8 }
    ensures count { IfOk result (λ v. vec_len v ≡ count) }
    ensures below { IfOk result (λ v. All (λ p. p.queue < count) v.items) }
{
    let mut pages = Vec::with_capacity(alloc, count)?;
    for queue in 0..count {
        let first = REFERENCES * queue as u32;
        let tx = buffers_from(alloc, first + TX_BUFFERS)?;
        let rx = buffers_from(alloc, first + RX_BUFFERS)?;
        pages.push(FrontPages { queue, tx, rx })?;
    }
    Ok(pages)
}

/// A front over these buffers.
fn make_front<'p>(
    alloc: Global,
    shared: &'p Shared,
    pages: &'p FrontPages,
) -> Result<Front<'p>, AllocError>
    requires { pages.now.queue < shared.now.layout.queues }
    ensures frames { IfOk result (λ f. (wiring_of f).frames ≡ length (owners_of shared.now.layout.queues)) }
    ensures rings { IfOk result (λ f. ((wiring_of f).tx_frame ≡ frame_of (514 * pages.now.queue)) ×
        ((wiring_of f).rx_frame ≡ frame_of (514 * pages.now.queue + 1))) }
    ensures back { IfOk result (λ f. ((wiring_of f).back ≡ 0) × ((wiring_of f).port ≡ 2 * pages.now.queue)) }
    ensures start { IfOk result (λ f. ((state_of f).tx.prod ≡ shared.now.start) × ((state_of f).rx.prod ≡ shared.now.start)) }
{
    let first = FIRST_GRANTED + REFERENCES * pages.queue as u32;
    let Some(port) = Port::of(2 * pages.queue as u32) else {
        unreachable!()
    };
    let desc = FrontDesc {
        frames: shared.frames.count(),
        tx_frame: first,
        rx_frame: first + 1,
        table: shared.layout.table(),
        tx: pages.tx.as_slice(),
        rx: pages.rx.as_slice(),
        back: BACK,
        port,
        start: shared.start,
    };
    Front::make(alloc, desc, ACCEPTS_WHOLE)
}

/// Returns what each front is given.
pub(crate) fn make_fronts<'p>(
    alloc: Global,
    shared: &'p Shared,
    pages: &'p [FrontPages],
    mut parkers: Vec<Parker>,
) -> Result<Vec<FrontResources<'p>>, AllocError>
    requires count { vec_len parkers ≤ length pages.now }
    requires below { All (λ p. p.queue < shared.now.layout.queues) pages.now }
    ensures resources { IfOk result (λ v. All (IsFrontOf shared.now.layout.queues) v.items) }
    ensures count { IfOk result (λ v. vec_len v ≡ vec_len parkers) }
{
    let mut fronts = Vec::with_capacity(alloc, parkers.len())?;
    while let Some(parker) = parkers.pop() {
        let pages = &pages[parkers.len()];
        let front = make_front(alloc, shared, pages)?;
        fronts.push(FrontResources {
            queue: pages.queue,
            front,
            parker,
        })?;
    }
    Ok(fronts)
}
