//! A back thread.
ghost use Rattle.std.specs.Prelude.{◌≡◌, ◌+◌, ◌<◌, ◌*◌, length};
ghost use Rattle.xdp_world.specs.Frames.{frame_of, owners_of};
ghost use Rattle.xdp_world.specs.Core.{started_at};
ghost use Rattle.xen_back.specs.Queues.{IsReady, rx_ring_of, state_of, tx_ring_of, wiring_of};
ghost use Rattle.xen_page.specs.Mapping.{IsMappedBy};
ghost use Rattle.xen_page.specs.declared.entry.Rights.TheVariants.{ReadWrite};
ghost use Rattle.bpf_maps.specs.Seats.{IsSeatOf};
ghost use Rattle.thread_pair.specs.Resources.{IsBackOf};
ghost use Rattle.thread_pair.specs.Working.{IsWiredFor, IsWork, IsWorkOver, task_of};

use crate::gate::Gate;
use crate::host::OnPass;
use crate::next::Next;
use crate::report::BackRow;
use crate::resources::BackResources;
use crate::round::{Round, drive_round};
use crate::shared::Shared;
use bpf_lists::MapList;
use bpf_maps::{CounterSeat, Counters};
use bpf_verify::Verified;
use bpf_vm::Buffer;
use std::snapshot::Snapshot;
use std::sync::Wait;
use std::thread::{Promise, PromisedHandle};
use xdp_load::Listed;
use xdp_world::{BACK, FRONT};
use xen_back::{Queue, QueueDesc};
use xen_netif::{ACCEPTS_WHOLE, NO_OFFERS};
use xen_page::{Bus, Mapped};
use xen_ring::Port;

/// A back's seat, and what it did.
#[derive(Drop)]
pub(crate) struct BackDone {
    pub seat: CounterSeat,
    pub row: BackRow,
}

/// The promise that a seat comes back. It is of the same counters, with its number and with what rounds of its queue
/// did, which the row counts.
#[derive(Drop)]
pub(crate) struct SeatBack {
    pub seat: Snapshot<CounterSeat>,
    pub program: Snapshot<Verified>,
    pub lists: Snapshot<Vec<Option<MapList>>>,
    pub queues: usize,
    pub ifindex: u32,
    pub start: u32,
    pub host: OnPass,
    pub turns: u32,
}

impl SeatBack {
    pub fn of(
        seat: &CounterSeat,
        program: &Verified,
        listed: &Listed,
        shared: &Shared,
        turns: u32,
    ) -> SeatBack
        ensures seat { result.seat.value ≡ seat.now }
        ensures program { result.program.value ≡ program.now }
        ensures lists { result.lists.value ≡ listed.now.lists }
        ensures queues { result.queues ≡ shared.now.layout.queues }
        ensures numbers { (result.ifindex ≡ shared.now.ifindex) × (result.start ≡ shared.now.start) × (result.turns ≡ turns) }
        ensures host { result.host ≡ shared.now.host }
    {
        SeatBack {
            seat: Snapshot::of(seat),
            program: Snapshot::of(program),
            lists: Snapshot::of(&listed.lists),
            queues: shared.lanes.len(),
            ifindex: shared.ifindex,
            start: shared.start,
            host: shared.host,
            turns,
        }
    }
}

impl Promise<BackDone> for SeatBack {
    ghost kept_by = { λ p d. (d.seat.table ≡ p.seat.value.table) × (d.seat.shapes ≡ p.seat.value.shapes) ×
        (d.seat.begin ≡ p.seat.value.begin) × (d.seat.number ≡ p.seat.value.number)
        × IsWork (record { program = p.program.value; lists = p.lists.value.items; queues = p.queues; ifindex = p.ifindex; start = p.start; host = p.host })
        p.turns d.row d.seat };
}

/// The thread of a back.
pub(crate) type BackThread = PromisedHandle<BackDone, SeatBack>;

/// A queue before its first turn, over these rings. Its packets lie in the room.
fn make_queue<'p, 'b>(
    program: &'p Verified,
    lists: &'p [Option<MapList>],
    shared: &'p Shared,
    number: usize,
    tx: Mapped,
    rx: Mapped,
    room: &'b mut Buffer,
) -> Queue<'p, 'b>
    requires number { number < shared.now.layout.queues }
    requires tx { IsMappedBy (owners_of shared.now.layout.queues) 1 tx × (tx.rights ≡ ReadWrite) }
    requires rx { IsMappedBy (owners_of shared.now.layout.queues) 1 rx × (rx.rights ≡ ReadWrite) }
    requires frames { (tx.frame ≡ frame_of (514 * number)) × (rx.frame ≡ frame_of (514 * number + 1)) }
    ensures ready { IsReady result }
    ensures wired { IsWiredFor (task_of program.now lists.now shared.now) number (wiring_of result) }
    ensures start { state_of result ≡ started_at shared.now.start }
    ensures rings { (tx_ring_of result ≡ tx) × (rx_ring_of result ≡ rx) }
{
    let Some(port) = Port::of(2 * number as u32 + 1) else {
        unreachable!()
    };
    let desc = QueueDesc {
        tx,
        rx,
        table: shared.layout.table(),
        owners: shared.layout.owners(),
        granter: FRONT,
        user: BACK,
        ifindex: shared.ifindex,
        queue: number as u32,
        port,
        offers: NO_OFFERS,
        accepts: ACCEPTS_WHOLE,
        start: shared.start,
    };
    Queue::make(program, lists, desc, room)
}

/// Drives turns until the front has ended and a later turn is idle, or `turns` turns are done, or the queue has halted,
/// and delivers what the host answers. The front is woken after each turn that took a packet.
pub(crate) fn work_back<R: Wait, G: Gate, B: Bus>(
    rt: &R,
    gate: &G,
    turns: u32,
    program: &Verified,
    lists: &[Option<MapList>],
    shared: &Shared,
    counters: &Counters,
    bus: &mut B,
    own: BackResources,
) -> BackDone
    requires own { IsBackOf counters.now shared.now.layout.queues own }
    requires shapes { counters.now.shapes ≡ program.now.shapes }
    requires size { B.size bus.old ≡ length (owners_of shared.now.layout.queues) }
    ensures own { IsSeatOf counters.entry.now result.seat }
    ensures number { result.seat.number ≡ own.seat.number }
    ensures work { IsWorkOver B.log B.access_gives (task_of program.now lists.now shared.now) turns result.row result.seat bus.old bus.new }
{
    let BackResources {
        queue: number,
        tx,
        rx,
        mut room,
        mut answer,
        parker,
        mut seat,
    } = own;
    let lane = &shared.lanes[number];
    let mut queue = make_queue(program, lists, shared, number, tx, rx, &mut room);
    let mut row = BackRow::new();
    for done in 0..turns {
        let last = lane.has_front_ended();
        gate.pass(number, done + 1);
        let Round { next, slots } = drive_round(
            &mut queue,
            bus,
            counters,
            &mut seat,
            shared,
            &mut answer,
            &mut row,
        );
        lane.settle(slots);
        match next {
            Next::Goes => lane.front.ring(),
            Next::Rests => {
                if last {
                    break;
                }
                lane.back.wait(rt, &parker);
            }
            Next::Ends => break,
        }
    }
    lane.end_back();
    BackDone { seat, row }
}
