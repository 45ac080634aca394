//! What a queue of the tests stands on.
ghost use Rattle.std.specs.Prelude.{◌≡◌, ◌≤◌, length, IfSome};
ghost use Rattle.bpf_maps.specs.Seats.{IsSeatOf};
ghost use Rattle.bpf_note.specs.Shape.{most_maps};
ghost use Rattle.xen_back.specs.Queues.{IsReady, rx_ring_of, tx_ring_of, wiring_of};
ghost use Rattle.xen_page.specs.Mapping.{IsMappedBy};
ghost use Rattle.xen_page.specs.Table.{IsTable};
ghost use Rattle.xen_page.specs.declared.entry.Rights.TheVariants.{ReadWrite};

use bpf_insn::decode;
use bpf_lists::MapList;
use bpf_maps::{CounterSeat, Counters};
use bpf_note::MapShape;
use bpf_verify::{Verified, verify};
use bpf_vm::Buffer;
use std::alloc::Global;
use xen_back::{Queue, QueueDesc, State};
use xen_netif::{ACCEPTS_WHOLE, Accepts, NO_OFFERS, Offers};
use xen_page::{Mapped, Owners, Rights, ScriptBus, Table, map};
use xen_ring::Port;

/// The backend, domain 0, owns frame 0. The frontend, domain 1, owns the others: frame 1 is its grant table, frame 17 its
/// tx ring and frame 18 its rx ring.
pub const FRAMES: u32 = 20;

/// The numbers of the interface and of the queue, as the program sees them.
pub const IFINDEX: u32 = 7;

pub const QUEUE: u32 = 5;

fn owners(alloc: Global) -> Option<Owners>
    ensures { IfSome result (λ owners. length owners ≡ 20) }
{
    let mut domains = [1; 20];
    domains[0] = 0;
    Owners::make(alloc, &domains).ok()
}

fn program(alloc: Global, bytes: &[u8], shapes: &[MapShape]) -> Option<Verified>
    requires { length shapes.now ≤ 4 }
    ensures { IfSome result (λ p. p.shapes ≡ shapes.now) }
{
    match decode(alloc, bytes) {
        Ok(code) => verify(alloc, code, shapes).ok(),
        Err(_) => None,
    }
}

/// The ring under a reference, mapped for writing.
fn ring(alloc: Global, owners: &Owners, table: &Table, gref: u32, frame: u32) -> Option<Mapped>
    requires { IsTable owners.now 1 table.now }
    ensures { IfSome result (λ m. IsMappedBy owners.now 1 m × (m.rights ≡ ReadWrite)) }
{
    if !table.is_within(FRAMES) {
        return None;
    }
    let mut bus = ScriptBus::make(alloc, FRAMES, &[1, frame, 1], 0).ok()?;
    map(&mut bus, table, owners, 1, 0, gref, Rights::ReadWrite).ok()
}

/// The parts under a queue: the frames' owners, the frontend's table, in frame 1, the program and its lists.
#[derive(Drop)]
pub struct Bench {
    owners: Owners,
    table: Table,
    program: Verified,
    lists: Vec<Option<MapList>>,
    offers: Offers,
    accepts: Accepts,
    ghost granted: { IsTable owners 1 table },
    ghost size: { length owners ≡ 20 },
}

impl Bench {
    pub fn make(alloc: Global, bytes: &[u8], shapes: &[MapShape]) -> Option<Bench>
        requires { length shapes.now ≤ 4 }
        ensures { IfSome result (λ bench. bench.program.shapes ≡ shapes.now) }
    {
        let owners = owners(alloc)?;
        let table = Table::make(&owners, 1, &[1])?;
        match program(alloc, bytes, shapes) {
            Some(program) => Some(Bench {
                owners,
                table,
                program,
                lists: Vec::new(alloc),
                offers: NO_OFFERS,
                accepts: ACCEPTS_WHOLE,
            }),
            None => None,
        }
    }

    /// The same, with these lists of the program's maps.
    pub fn with_lists(self, lists: Vec<Option<MapList>>) -> Bench
        ensures { result.program ≡ self.program }
    {
        let Bench {
            owners,
            table,
            program,
            lists: _,
            offers,
            accepts,
        } = self;
        Bench {
            owners,
            table,
            program,
            lists,
            offers,
            accepts,
        }
    }

    /// The same, whose queues make these offers.
    pub fn with_offers(self, offers: Offers) -> Bench
        ensures { result.program ≡ self.program }
    {
        let Bench {
            owners,
            table,
            program,
            lists,
            offers: _,
            accepts,
        } = self;
        Bench {
            owners,
            table,
            program,
            lists,
            offers,
            accepts,
        }
    }

    /// The same, whose frontend accepts so much.
    pub fn with_accepts(self, accepts: Accepts) -> Bench
        ensures { result.program ≡ self.program }
    {
        let Bench {
            owners,
            table,
            program,
            lists,
            offers,
            accepts: _,
        } = self;
        Bench {
            owners,
            table,
            program,
            lists,
            offers,
            accepts,
        }
    }

    /// A queue between turns, of which both rings are at `start`.
    pub fn queue<'p, 'b>(
        &'p self,
        alloc: Global,
        start: u32,
        buffer: &'b mut Buffer,
    ) -> Option<Queue<'p, 'b>>
        ensures ready { IfSome result IsReady }
        ensures owners { IfSome result (λ q. length (wiring_of q).vif.owners.now ≡ 20) }
        ensures program { IfSome result (λ q. (wiring_of q).program.now.shapes ≡ self.now.program.shapes) }
        ensures tx { IfSome result (λ q. IsMappedBy self.now.owners 1 (tx_ring_of q) × ((tx_ring_of q).rights ≡ ReadWrite)) }
        ensures rx { IfSome result (λ q. IsMappedBy self.now.owners 1 (rx_ring_of q) × ((rx_ring_of q).rights ≡ ReadWrite)) }
    {
        let desc = QueueDesc {
            tx: ring(alloc, &self.owners, &self.table, 0, 17)?,
            rx: ring(alloc, &self.owners, &self.table, 1, 18)?,
            table: &self.table,
            owners: &self.owners,
            granter: 1,
            user: 0,
            ifindex: IFINDEX,
            queue: QUEUE,
            port: Port::of(1)?,
            offers: self.offers,
            accepts: self.accepts,
            start,
        };
        Some(Queue::make(&self.program, self.lists.as_slice(), desc, buffer))
    }

    /// A queue that goes on from a state, over the rings of one that has ended.
    pub fn resumed<'p, 'b>(
        &'p self,
        alloc: Global,
        state: State,
        buffer: &'b mut Buffer,
    ) -> Option<Queue<'p, 'b>>
        ensures { IfSome result IsReady }
    {
        let (tx, rx) = self.queue(alloc, 0, &mut *buffer)?.close();
        let desc = QueueDesc {
            tx,
            rx,
            table: &self.table,
            owners: &self.owners,
            granter: 1,
            user: 0,
            ifindex: IFINDEX,
            queue: QUEUE,
            port: Port::of(1)?,
            offers: self.offers,
            accepts: self.accepts,
            start: 0,
        };
        Some(Queue::resume(&self.program, self.lists.as_slice(), desc, state, buffer))
    }
}

/// Returns what a queue stands on, and a buffer for its packets.
pub fn ready(alloc: Global, bytes: &[u8], shapes: &[MapShape]) -> Option<(Bench, Buffer)>
    requires { length shapes.now ≤ 4 }
    ensures { IfSome result (λ r. r.0.program.shapes ≡ shapes.now) }
{
    let bench = Bench::make(alloc, bytes, shapes)?;
    match Buffer::make(alloc) {
        Ok(buffer) => Some((bench, buffer)),
        Err(_) => None,
    }
}

/// Counters that are 0, and their only seat.
pub fn seated(alloc: Global, shapes: &[MapShape]) -> Option<(Counters, CounterSeat)>
    requires { length shapes.now ≤ most_maps }
    ensures shapes { IfSome result (λ r. r.0.shapes ≡ shapes.now) }
    ensures seat { IfSome result (λ r. IsSeatOf r.0 r.1) }
{
    let (counters, mut seats) = Counters::make(alloc, shapes, 1).ok()?;
    match seats.pop() {
        Some(seat) => Some((counters, seat)),
        None => None,
    }
}
