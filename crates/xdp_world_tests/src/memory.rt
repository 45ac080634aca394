//! What one queue of the tests stands on.
ghost use Rattle.std.specs.Prelude.{◌≡◌, ◌≤◌, length, IfSome};
ghost use Rattle.bpf_maps.specs.Seats.{IsSeatOf};
ghost use Rattle.bpf_note.specs.Shape.{most_maps};
ghost use Rattle.xen_back.specs.Queues.{IsReady, wiring_of};
ghost use Rattle.xen_page.specs.Mapping.{IsMappedBy};
ghost use Rattle.xen_page.specs.Table.{IsTable};
ghost use Rattle.xen_page.specs.declared.entry.Rights.TheVariants.{ReadWrite};

use bpf_maps::{CounterSeat, Counters};
use bpf_note::MapShape;
use bpf_verify::Verified;
use bpf_vm::Buffer;
use std::alloc::Global;
use xdp_world::{BACK, FRONT, Layout};
use xen_back::{Queue, QueueDesc};
use xen_netif::{ACCEPTS_WHOLE, NO_OFFERS};
use xen_page::{Frames, Mapped, Owners, Rights, ScriptBus, Table, map};

/// The frames of a world of one queue: frame 0 is the back's, frames 1 to 16 are the front's table, frame 17 its tx ring and
/// frame 18 its rx ring.
pub const FRAMES: u32 = 531;

/// The owners of the frames, and the front's table.
#[derive(Drop)]
pub struct Memory {
    owners: Owners,
    table: Table,
    ghost granted: { IsTable owners 1 table },
    ghost size: { length owners ≡ 531 },
}

/// The domain that owns each frame.
fn domains() -> [u16; 531] {
    let mut domains = [FRONT; 531];
    domains[0] = BACK;
    domains
}

/// The pages, all words 0.
pub fn frames(alloc: Global) -> Option<Frames>
    ensures { IfSome result (λ frames. frames ≡ 531) }
{
    Frames::make(alloc, &domains()).ok()
}

/// The ring under a reference, mapped for writing.
fn ring(alloc: Global, owners: &Owners, table: &Table, gref: u32, frame: u32) -> Option<Mapped>
    requires { IsTable owners.now 1 table.now }
    ensures { IfSome result (λ m. IsMappedBy owners.now 1 m × (m.rights ≡ ReadWrite)) }
{
    if !table.is_within(FRAMES) {
        return None;
    }
    match ScriptBus::make(alloc, FRAMES, &[1, frame, 1], 0) {
        Ok(mut bus) => map(
            &mut bus,
            table,
            owners,
            FRONT,
            BACK,
            gref,
            Rights::ReadWrite,
        )
        .ok(),
        Err(_) => None,
    }
}

impl Memory {
    pub fn make(alloc: Global) -> Option<Memory> {
        let owners = Owners::make(alloc, &domains()).ok()?;
        let table = Table::make(
            &owners,
            FRONT,
            &[1, 2, 3, 4, 5, 6, 7, 8, 9, 10, 11, 12, 13, 14, 15, 16],
        )?;
        Some(Memory { owners, table })
    }

    /// Queue 0 of interface 0 between turns, of which both rings are at `start`.
    pub fn queue<'p, 'b>(
        &'p self,
        alloc: Global,
        program: &'p Verified,
        start: u32,
        buffer: &'b mut Buffer,
    ) -> Option<Queue<'p, 'b>>
        ensures ready { IfSome result IsReady }
        ensures owners { IfSome result (λ q. length (wiring_of q).vif.owners.now ≡ 531) }
        ensures program { IfSome result (λ q. (wiring_of q).program.now.shapes ≡ program.now.shapes) }
    {
        let tx = ring(alloc, &self.owners, &self.table, 0, 17)?;
        let rx = ring(alloc, &self.owners, &self.table, 1, 18)?;
        let desc = QueueDesc {
            tx,
            rx,
            table: &self.table,
            owners: &self.owners,
            granter: FRONT,
            user: BACK,
            ifindex: 0,
            queue: 0,
            port: Layout::back_port(0),
            offers: NO_OFFERS,
            accepts: ACCEPTS_WHOLE,
            start,
        };
        Some(Queue::make(program, &[], desc, buffer))
    }
}

/// Counters that are 0, and their only seat.
pub fn seated(alloc: Global, shapes: &[MapShape]) -> Option<(Counters, CounterSeat)>
    requires { length shapes.now ≤ most_maps }
    ensures shapes { IfSome result (λ r. r.0.shapes ≡ shapes.now) }
    ensures seat { IfSome result (λ r. IsSeatOf r.0 r.1) }
{
    let Ok((counters, mut seats)) = Counters::make(alloc, shapes, 1) else {
        return None;
    };
    match seats.pop() {
        Some(seat) => Some((counters, seat)),
        None => None,
    }
}
