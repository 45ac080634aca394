//! What all workers share.
ghost use Rattle.std.specs.Prelude.{◌≡◌, ◌≤◌, IfOk, length, vec_len};
ghost use Rattle.xdp_world.specs.Frames.{owners_of};
ghost use Rattle.thread_pair.specs.declared.fault.PairFault.TheVariants.{Thread};

use crate::fault::PairFault;
use crate::host::OnPass;
use crate::lane::Lane;
use crossbeam_utils::sync::Parker;
use std::alloc::{AllocError, Global};
use xdp_load::Setup;
use xdp_world::Layout;
use xen_page::Frames;
use xen_ring::Ports;

/// The memory of both domains with its owners and grants, the event ports, and what the two workers of each queue tell
/// each other.
#[derive(Drop)]
pub struct Shared {
    pub layout: Layout,
    pub frames: Frames,
    pub ports: Ports,
    pub(crate) lanes: Vec<Lane>,
    /// The number of the interface, which programs see.
    pub ifindex: u32,
    /// The index at which each ring begins.
    pub start: u32,
    pub host: OnPass,
    ghost sized: { frames ≡ length (owners_of layout.queues) },
    ghost laned: { vec_len lanes ≡ layout.queues },
}

/// The parkers on which the workers sleep, in the queues' order.
#[derive(Drop)]
pub struct Parkers {
    pub fronts: Vec<Parker>,
    pub backs: Vec<Parker>,
}

/// The two flags and unparkers of each queue, with the parkers.
fn make_lanes(alloc: Global, count: usize) -> Result<(Vec<Lane>, Parkers), AllocError>
    ensures lanes { IfOk result (λ r. vec_len r.0 ≡ count) }
    ensures parkers { IfOk result (λ r. (vec_len r.1.fronts ≡ count) × (vec_len r.1.backs ≡ count)) }
{
    let mut lanes = Vec::with_capacity(alloc, count)?;
    let mut fronts = Vec::with_capacity(alloc, count)?;
    let mut backs = Vec::with_capacity(alloc, count)?;
    for _queue in 0..count {
        let front = Parker::new(alloc)?;
        let back = Parker::new(alloc)?;
        lanes.push(Lane::new(front.unparker().clone()?, back.unparker().clone()?))?;
        fronts.push(front)?;
        backs.push(back)?;
    }
    Ok((lanes, Parkers { fronts, backs }))
}

impl Shared {
    /// Pages of zeros for the setup's queues, and what their workers sleep on.
    pub fn make(alloc: Global, setup: &Setup, host: OnPass) -> Result<(Shared, Parkers), AllocError>
        requires { setup.now.queues ≤ 8 }
        ensures queues { IfOk result (λ r. r.0.layout.queues ≡ setup.now.queues) }
        ensures numbers { IfOk result (λ r. (r.0.ifindex ≡ setup.now.ifindex) × (r.0.start ≡ setup.now.start)) }
        ensures host { IfOk result (λ r. r.0.host ≡ host) }
        ensures parkers { IfOk result (λ r. (vec_len r.1.fronts ≡ setup.now.queues) × (vec_len r.1.backs ≡ setup.now.queues)) }
    {
        let (lanes, parkers) = make_lanes(alloc, setup.queues)?;
        let layout = Layout::make(alloc, setup.queues)?;
        let frames = layout.frames(alloc)?;
        let shared = Shared {
            layout,
            frames,
            ports: Ports::new(),
            lanes,
            ifindex: setup.ifindex,
            start: setup.start,
            host,
        };
        Ok((shared, parkers))
    }

    /// Returns whether the back of this queue has ended. It never has if there is no such queue.
    pub fn has_back_ended(&self, queue: usize) -> bool {
        match self.lanes.get(queue) {
            Some(lane) => lane.has_back_ended(),
            None => false,
        }
    }

    /// Tells both workers of each queue to end.
    pub(crate) fn end_all(&self) -> AllEnd {
        for lane in self.lanes.iter() {
            lane.end_front();
            lane.end_back();
        }
        AllEnd { _told: () }
    }
}

/// All workers were told to end, since a thread couldn't be started: nothing but `Shared::end_all` makes one.
#[derive(Drop)]
pub(crate) struct AllEnd {
    _told: (),
}

impl From<AllEnd> for PairFault {
    ghost from_gives = { λ _ e. e ≡ Thread };

    fn from(_end: AllEnd) -> PairFault {
        PairFault::Thread
    }
}
