//! A world of back queues.
ghost use Rattle.std.specs.Prelude.{◌≡◌, ◌<◌, ℕ, length, slice_index_or, vec_len};
ghost use Rattle.xen_back.specs.Queues.{wiring_of};
ghost use Rattle.xen_back.specs.declared.queue.Queue.{Queue};
ghost use Rattle.xdp_world.specs.Doings.{AllFit, AllFit-prop};

use crate::doing::Doing;
use crate::kept::Kept;
use crate::report::{Delivered, Waited};
use bpf_maps::{Op, Totals};
use xen_back::Queue;

/// Back queues of one program, the counters that they share, the turns, deliveries and waits that each has done, and all counter
/// operations in order. A packet that is being delivered is lent until the delivery is over.
#[derive(Drop)]
pub struct World<'p, 'b> {
    pub(crate) queues: Vec<Queue<'p, 'b>>,
    pub(crate) doing: Vec<Doing<'p, 'b>>,
    pub(crate) turns: Vec<Vec<Kept>>,
    pub(crate) deliveries: Vec<Vec<Delivered>>,
    pub(crate) waits: Vec<Vec<Waited>>,
    pub(crate) history: Vec<(usize, Op)>,
    pub(crate) counters: Totals,
    /// Room for the packet of the next turn.
    pub(crate) spare: Vec<u8>,
    ghost size: { vec_len turns ≡ vec_len queues },
    ghost all_doing: { vec_len doing ≡ vec_len queues },
    ghost all_delivered: { vec_len deliveries ≡ vec_len queues },
    ghost all_waited: { vec_len waits ≡ vec_len queues },
    ghost empty: { vec_len spare ≡ 0 },
    ghost shapes: { (i : ℕ) (d : Queue) → i < length queues.items →
        (wiring_of (slice_index_or queues.items i d)).program.now.shapes ≡ counters.shapes },
    ghost fits: { AllFit doing.items queues.items } by { AllFit-prop doing.items queues.items },
}
