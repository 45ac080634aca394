//! A front thread.
ghost use Rattle.std.specs.Prelude.{◌≡◌, ◌≤◌, length};
ghost use Rattle.xen_front.specs.Fronts.{wiring_of};
ghost use Rattle.thread_pair.specs.Resources.{IsFrontOf};

use crate::inbox::Inbox;
use crate::next::Next;
use crate::outbox::Outbox;
use crate::report::FrontRow;
use crate::resources::FrontResources;
use crate::shared::Shared;
use std::sync::Wait;
use std::thread::JoinHandle;
use xdp_load::SentPacket;
use xen_front::{Front, RxTurn};
use xen_page::{Bus, PageBus};
use xen_ring::Ports;

/// The number of rx requests that a front keeps posted.
const POSTED: u32 = 16;

/// The bytes of a page.
const PAGE: usize = 4096;

/// The thread of a front.
pub(crate) type FrontThread = JoinHandle<FrontRow>;

/// The outcome of a poll.
enum Polled {
    Idle,
    Packet,
    Ended,
}

/// A front's own account.
#[derive(Drop)]
struct Desk<'p> {
    queue: usize,
    outbox: Outbox<'p>,
    row: FrontRow,
    /// The number of tx slots that were taken for packets, modulo 2^32.
    taken: u32,
    /// The number of them that were on their way at the last idle poll, and are since then.
    on_way: u32,
    /// Posted rx slots that no packet on its way can need.
    spare: u32,
}

impl<'p> Desk<'p> {
    fn new(queue: usize, packets: &'p [SentPacket]) -> Desk<'p> {
        Desk {
            queue,
            outbox: Outbox::new(queue, packets),
            row: FrontRow {
                sent: 0,
                received: 0,
            },
            taken: 0,
            on_way: 0,
            spare: 0,
        }
    }

    /// Returns what comes after a poll that gave nothing: the end, a rest, or another round. `open` and `posted` are the unanswered
    /// tx requests and the posted rx slots now, `settled` the tx slots that the back had done with before the poll; for the others
    /// a packet may still come.
    fn after_idle(&mut self, open: u32, posted: u32, settled: u32, last: bool) -> Next {
        let on_way = open.max(self.taken.wrapping_sub(settled));
        let spare = posted.saturating_sub(on_way);
        let moved = on_way < self.on_way || spare > self.spare;
        self.on_way = on_way;
        self.spare = spare;
        if last {
            Next::Ends
        } else if moved {
            Next::Goes
        } else if on_way == 0 && self.outbox.next().is_none() {
            Next::Ends
        } else {
            Next::Rests
        }
    }
}

/// Returns the number of slots that a packet takes, in either direction. All of them can be posted.
fn slots_of(packet: &[u8]) -> usize
    ensures { length packet.now ≤ 65535 → result ≤ POSTED }
{
    packet.len().div_ceil(PAGE)
}

/// Begins to post a buffer, if fewer are posted than should be.
fn begin_post(front: &mut Front<'_>, desk: &mut Desk<'_>, posted: u32) -> bool
    ensures { wiring_of front.new ≡ wiring_of front.old }
{
    if posted >= POSTED || front.post_rx().is_err() {
        return false;
    }
    desk.spare = desk.spare.saturating_add(1);
    true
}

/// Begins to send the next packet, if one is left, and if it can come back whole with all that are on their way.
fn begin_send(front: &mut Front<'_>, desk: &mut Desk<'_>) -> bool
    ensures { wiring_of front.new ≡ wiring_of front.old }
{
    let Some(packet) = desk.outbox.next() else {
        return false;
    };
    let slots = slots_of(packet);
    if slots > desk.spare as usize || front.send(packet).is_err() {
        return false;
    }
    desk.outbox.pass();
    desk.taken = desk.taken.wrapping_add(slots as u32);
    desk.on_way = desk.on_way.saturating_add(slots as u32);
    desk.spare -= slots as u32;
    desk.row.sent = desk.row.sent.saturating_add(1);
    true
}

/// Takes what has come.
fn poll<B: Bus, I: Inbox>(
    front: &mut Front<'_>,
    bus: &mut B,
    ports: &Ports,
    inbox: &I,
    desk: &mut Desk<'_>,
) -> Polled
    requires { (wiring_of front.old).frames ≤ B.size bus.old }
    ensures size { B.size bus.new ≡ B.size bus.old }
    ensures same { wiring_of front.new ≡ wiring_of front.old }
{
    if front.poll().is_err() {
        return Polled::Ended;
    }
    match front.drive_front(bus, ports) {
        RxTurn::Packet { bytes, .. } => {
            inbox.take(desk.queue, bytes);
            desk.row.received = desk.row.received.saturating_add(1);
            Polled::Packet
        }
        RxTurn::Refused => Polled::Packet,
        RxTurn::Idle => Polled::Idle,
        RxTurn::Halted { .. } => Polled::Ended,
    }
}

/// One activity: a post, a send, or else a poll. Before it the back had done with `settled` tx slots, and had perhaps
/// ended: then only polls are left.
fn act<B: Bus, I: Inbox>(
    front: &mut Front<'_>,
    bus: &mut B,
    ports: &Ports,
    inbox: &I,
    desk: &mut Desk<'_>,
    settled: u32,
    last: bool,
) -> Next
    requires { (wiring_of front.old).frames ≤ B.size bus.old }
    ensures size { B.size bus.new ≡ B.size bus.old }
    ensures same { wiring_of front.new ≡ wiring_of front.old }
{
    let (_open, posted) = front.unanswered();
    if !last && (begin_post(front, desk, posted) || begin_send(front, desk)) {
        return match front.drive_front(bus, ports) {
            RxTurn::Halted { .. } => Next::Ends,
            _ => Next::Goes,
        };
    }
    match poll(front, bus, ports, inbox, desk) {
        Polled::Packet => Next::Goes,
        Polled::Ended => Next::Ends,
        Polled::Idle => {
            let (open, posted) = front.unanswered();
            desk.after_idle(open, posted, settled, last)
        }
    }
}

/// Sends the packets of its queue, and takes what comes. It ends once the back has done with every tx slot and nothing more is
/// there, or once the back has ended and nothing more is there. The back is woken after each activity that did something.
pub(crate) fn work_front<R: Wait, I: Inbox>(
    rt: &R,
    inbox: &I,
    packets: &[SentPacket],
    shared: &Shared,
    own: FrontResources<'_>,
) -> FrontRow
    requires { IsFrontOf shared.now.layout.queues own }
{
    let FrontResources {
        queue,
        mut front,
        parker,
    } = own;
    let lane = &shared.lanes[queue];
    let mut bus = PageBus::of(&shared.frames);
    let mut desk = Desk::new(queue, packets);
    for _ in rt.forever() {
        let last = lane.has_back_ended();
        let settled = lane.settled();
        let next = act(
            &mut front,
            &mut bus,
            &shared.ports,
            inbox,
            &mut desk,
            settled,
            last,
        );
        match next {
            Next::Goes => lane.back.ring(),
            Next::Rests => lane.front.wait(rt, &parker),
            Next::Ends => break,
        }
    }
    lane.end_front();
    desk.row
}
