//! Making a world, and running it.
ghost use Rattle.std.specs.Prelude.{◌≡◌, ◌<◌, ◌≤◌, ℕ, List, [], All, IfOk, length, map, slice_index_or, vec_len};
ghost use Rattle.bpf_maps.specs.Beginning.{Beginning};
ghost use Rattle.xen_turns.specs.declared.wiring.Wiring.{Wiring};
ghost use Rattle.xdp_world.specs.Begin.{Begins, IsFresh};
ghost use Rattle.xdp_world.specs.Entries.{Entry};
ghost use Rattle.xdp_world.specs.Calls.{Call};
ghost use Rattle.xdp_world.specs.Report.{IsCoreRun, Reports, Tells};
ghost use Rattle.xdp_world.specs.Stands.{IsFree, Stands, StandsFor, delivered_in, waited_in};
ghost use Rattle.xdp_world.specs.declared.doing.Doing.{Doing as DoingView};

use crate::doing::Doing;
use crate::kept::Kept;
use crate::layout::{BACK, FRONT, Layout};
use crate::report::{Delivered, Report, Waited};
use crate::ring::ring;
use crate::world::World;
use bpf_lists::MapList;
use bpf_maps::Totals;
use bpf_verify::Verified;
use bpf_vm::Buffer;
use std::alloc::{AllocError, Global};
use xen_back::{Queue, QueueDesc};
use xen_netif::{ACCEPTS_WHOLE, NO_OFFERS};

/// A queue before its first turn.
pub(crate) fn queue<'p, 'b>(
    alloc: Global,
    layout: &'p Layout,
    program: &'p Verified,
    lists: &'p [Option<MapList>],
    buffer: &'b mut Buffer,
    number: usize,
    ifindex: u32,
    start: u32,
) -> Result<Queue<'p, 'b>, AllocError>
    requires { number < layout.now.queues }
    ensures { IfOk result (λ q. IsFresh program.now lists.now layout.now.queues ifindex start number q) }
{
    let tx = ring(alloc, layout, Layout::tx_ring(number))?;
    let rx = ring(alloc, layout, Layout::rx_ring(number))?;
    let desc = QueueDesc {
        tx,
        rx,
        table: &layout.table,
        owners: &layout.owners,
        granter: FRONT,
        user: BACK,
        ifindex,
        queue: number as u32,
        port: Layout::back_port(number),
        offers: NO_OFFERS,
        accepts: ACCEPTS_WHOLE,
        start,
    };
    Ok(Queue::make(program, lists, desc, buffer))
}

/// A buffer for each queue.
pub(crate) fn buffers(alloc: Global, queues: usize) -> Result<Vec<Buffer>, AllocError>
    ensures { IfOk result (λ buffers. vec_len buffers ≡ queues) }
{
    let mut buffers = Vec::with_capacity(alloc, queues)?;
    for _queue in 0..queues {
        buffers.push_reserved(Buffer::make(alloc)?);
    }
    Ok(buffers)
}

/// `queues` queues between turns.
fn all_between<'p, 'b>(alloc: Global, queues: usize) -> Result<Vec<Doing<'p, 'b>>, AllocError>
    ensures count { IfOk result (λ v. vec_len v ≡ queues) }
    ensures between { IfOk result (λ v. (i : ℕ) (d : DoingView) → i < queues → slice_index_or v.items i d ≡ Doing.Between) }
{
    let mut doing: Vec<Doing<'p, 'b>> = Vec::with_capacity(alloc, queues)?;
    for _queue in 0..queues {
        doing.push_reserved(Doing::Between);
    }
    Ok(doing)
}

/// No deliveries of `queues` queues.
fn none_delivered(alloc: Global, queues: usize) -> Result<Vec<Vec<Delivered>>, AllocError>
    ensures count { IfOk result (λ v. vec_len v ≡ queues) }
    ensures none { IfOk result (λ v. (i : ℕ) → delivered_in v.items i ≡ []) }
{
    let mut deliveries: Vec<Vec<Delivered>> = Vec::with_capacity(alloc, queues)?;
    for _queue in 0..queues {
        deliveries.push_reserved(Vec::new(alloc));
    }
    Ok(deliveries)
}

/// No waits of `queues` queues.
fn none_waited(alloc: Global, queues: usize) -> Result<Vec<Vec<Waited>>, AllocError>
    ensures count { IfOk result (λ v. vec_len v ≡ queues) }
    ensures none { IfOk result (λ v. (i : ℕ) → waited_in v.items i ≡ []) }
{
    let mut waits: Vec<Vec<Waited>> = Vec::with_capacity(alloc, queues)?;
    for _queue in 0..queues {
        waits.push_reserved(Vec::new(alloc));
    }
    Ok(waits)
}

impl<'p, 'b> World<'p, 'b> {
    /// `queues` queues of a program with lists of its maps, before their first turns, whose counters begin with these numbers.
    /// Their packets lie in the buffers.
    pub fn make(
        alloc: Global,
        layout: &'p Layout,
        program: &'p Verified,
        lists: &'p [Option<MapList>],
        values: &[Vec<u64>],
        buffers: &'b mut [Buffer],
        queues: usize,
        ifindex: u32,
        start: u32,
    ) -> Result<World<'p, 'b>, AllocError>
        requires queues { (1 ≤ queues) × (queues ≤ 8) }
        requires layout { layout.now.queues ≡ queues }
        requires buffers { queues ≤ length buffers.now }
        ensures size { IfOk result (λ w. vec_len w.queues ≡ queues) }
        ensures shapes { IfOk result (λ w. w.counters.shapes ≡ program.now.shapes) }
        ensures free { IfOk result (λ w. (i : ℕ) → IsFree w i) }
        ensures begins { IfOk result (Begins program.now lists.now (map (λ v. v.items) values.now) queues ifindex start) }
    {
        let counters = Totals::begin(alloc, program.shapes(), values)?;
        let mut all = Vec::with_capacity(alloc, queues)?;
        let mut turns: Vec<Vec<Kept>> = Vec::with_capacity(alloc, queues)?;
        let doing = all_between(alloc, queues)?;
        let deliveries = none_delivered(alloc, queues)?;
        let waits = none_waited(alloc, queues)?;
        let mut rest = buffers;
        for number in 0..queues {
            let (head, tail) = rest.split_at_mut(1);
            let made = queue(
                alloc,
                layout,
                program,
                lists,
                &mut head[0],
                number,
                ifindex,
                start,
            )?;
            all.push_reserved(made);
            turns.push_reserved(Vec::new(alloc));
            rest = tail;
        }
        Ok(World {
            queues: all,
            doing,
            turns,
            deliveries,
            waits,
            history: Vec::new(alloc),
            counters,
            spare: Vec::new(alloc),
        })
    }

    /// Returns what was done so far. It takes no memory.
    pub fn report(self) -> Report
        ensures count { vec_len result.turns ≡ vec_len self.entry.queues }
        ensures delivered { vec_len result.deliveries ≡ vec_len self.entry.queues }
        ensures waited { vec_len result.waits ≡ vec_len self.entry.queues }
        ensures turns { result.turns.items ≡ self.entry.turns.items }
        ensures deliveries { result.deliveries.items ≡ self.entry.deliveries.items }
        ensures waits { result.waits.items ≡ self.entry.waits.items }
        ensures shapes { result.totals.shapes ≡ self.entry.counters.shapes }
        ensures reports { (wirings : ℕ → Wiring) (start : ℕ) (begin : Beginning) (es : List Entry) → Stands self.entry wirings start begin es →
            Reports wirings start begin es result }
        ensures tells { (wirings : ℕ → Wiring) (start : ℕ) (begin : Beginning) (cs : List Call) → StandsFor self.entry wirings start begin cs →
            Tells wirings start begin cs result }
    {
        let World {
            queues: _,
            doing: _,
            turns,
            deliveries,
            waits,
            history,
            counters,
            spare: _,
        } = self;
        Report {
            turns,
            deliveries,
            waits,
            history,
            totals: counters,
        }
    }
}

impl World<'_, '_> {
    /// Makes a world, steps it, and reports.
    pub fn run(
        alloc: Global,
        program: &Verified,
        lists: &[Option<MapList>],
        values: &[Vec<u64>],
        queues: usize,
        ifindex: u32,
        start: u32,
        steps: &[(usize, u32)],
    ) -> Result<Report, AllocError>
        requires queues { (1 ≤ queues) × (queues ≤ 8) }
        requires steps { All (λ s. s.0 < queues) steps.now }
        ensures { IfOk result (IsCoreRun program.now lists.now (map (λ v. v.items) values.now) queues ifindex start steps.now) }
    {
        let layout = Layout::make(alloc, queues)?;
        let mut buffers = buffers(alloc, queues)?;
        let mut world = World::make(
            alloc,
            &layout,
            program,
            lists,
            values,
            buffers.as_mut_slice(),
            queues,
            ifindex,
            start,
        )?;
        world.steps(steps)?;
        Ok(world.report())
    }
}
