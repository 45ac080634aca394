//! Counters that queues share, on whatever threads these are.

ghost use Rattle.std.specs.Prelude.{◌≡◌, ◌<◌, ◌⊎◌, [], All, IfErr, IfNone, IfOk, IfSome};
ghost use Rattle.std.specs.Arc.{arc_value};
ghost use Rattle.bpf_maps.specs.Seats.{IsSeatOf};
ghost use Rattle.bpf_note.specs.Shape.{IsCounter};

use bpf_maps::{CounterSeat, Counters};
use std::alloc::{AllocError, AllocFailed, Global};
use std::sync::Arc;
use xdp_program::Program;

/// The most queues that share counters: a seat more reads them.
pub const MOST_SHARES: usize = 63;

/// A queue's seat at counters that it shares.
#[derive(Drop)]
pub struct Share {
    pub(crate) counters: Arc<Counters>,
    pub(crate) seat: CounterSeat,
    ghost mine: { IsSeatOf (arc_value counters) seat },
}

/// Counters of a program's maps, with the seats that no queue has.
#[derive(Drop)]
pub struct SharedCounters {
    pub(crate) program: Program,
    pub(crate) counters: Arc<Counters>,
    pub(crate) reader: CounterSeat,
    pub(crate) seats: Vec<CounterSeat>,
    ghost shapes: { (arc_value counters).shapes ≡ program.shapes },
    ghost reads: { IsSeatOf (arc_value counters) reader },
    ghost free: { All (IsSeatOf (arc_value counters)) seats.items },
}

/// The reason why there are no shared counters.
#[derive(Clone, Copy, Debug, PartialEq, Eq, Drop)]
pub enum SharedFault {
    Memory,
    /// For no queue, or for more than [`MOST_SHARES`].
    Seats,
}

impl From<AllocError> for SharedFault {
    ghost use Rattle.std.specs.Prelude.{◌≡◌};
    ghost use Rattle.xen_host.specs.declared.sharing.SharedFault.TheVariants as faults;

    ghost from_gives = { λ _ fault. fault ≡ faults.Memory };

    fn from(_error: AllocError) -> SharedFault {
        SharedFault::Memory
    }
}

impl<T: Drop> From<AllocFailed<T>> for SharedFault {
    ghost use Rattle.std.specs.Prelude.{◌≡◌};
    ghost use Rattle.xen_host.specs.declared.sharing.SharedFault.TheVariants as faults;

    ghost from_gives = { λ _ fault. fault ≡ faults.Memory };

    fn from(_error: AllocFailed<T>) -> SharedFault {
        SharedFault::Memory
    }
}

/// The reason why a queue doesn't share counters.
#[derive(Clone, Copy, Debug, PartialEq, Eq, Drop)]
pub enum ShareFault {
    Memory,
    /// A turn, a delivery or a wait is under way.
    Busy,
    /// It shares counters already.
    Shared,
    /// Its program's maps have other sizes.
    Maps,
    /// Each seat has been given out.
    Seats,
}

impl From<AllocError> for ShareFault {
    ghost use Rattle.std.specs.Prelude.{◌≡◌};
    ghost use Rattle.xen_host.specs.declared.sharing.ShareFault.TheVariants as faults;

    ghost from_gives = { λ _ fault. fault ≡ faults.Memory };

    fn from(_error: AllocError) -> ShareFault {
        ShareFault::Memory
    }
}

impl SharedCounters {
    ghost use Rattle.xen_host.specs.Sharing.{AreNewFor, HasAdded, HasRead, IsGivenBy};

    /// Counters for a program's maps, all 0, for so many queues.
    pub fn make(
        alloc: Global,
        program: &Program,
        queues: usize,
    ) -> Result<SharedCounters, SharedFault>
        ensures made { IfOk result (AreNewFor program.now queues) }
        ensures fault { IfErr result (λ f. f ≡ SharedFault.Seats → (queues ≡ 0) ⊎ (63 < queues)) }
    {
        if queues == 0 || queues > MOST_SHARES {
            return Err(SharedFault::Seats);
        }
        let (counters, mut seats) = Counters::make(alloc, program.verified().shapes(), queues + 1)?;
        let Some(reader) = seats.pop() else {
            unreachable!()
        };
        Ok(SharedCounters {
            program: program.again()?,
            counters: Arc::new(alloc, counters)?,
            reader,
            seats,
        })
    }

    /// Counter `j` of value `k` of map `m`, by one atomic load, if there is such a counter.
    pub fn at(&mut self, m: u32, k: u32, j: u32) -> Option<u64>
        ensures read { IfSome result (HasRead self.old self.new m k j) }
        ensures none { IfNone result ((IsCounter self.old.program.shapes m k j → ⊥) × (self.new ≡ self.old)) }
    {
        self.program.place(m, k, j)?;
        Some(self.counters.load(&mut self.reader, m, k, j))
    }

    /// Adds to counter `j` of value `k` of map `m` by one atomic step, if there is such a counter, and answers what it was. The sum wraps.
    pub fn add(&mut self, m: u32, k: u32, j: u32, amount: u64) -> Option<u64>
        ensures added { IfSome result (HasAdded self.old self.new m k j amount) }
        ensures none { IfNone result ((IsCounter self.old.program.shapes m k j → ⊥) × (self.new ≡ self.old)) }
    {
        self.program.place(m, k, j)?;
        Some(self.counters.add(&mut self.reader, m, k, j, amount))
    }

    /// A seat for a queue.
    pub(crate) fn share(&mut self) -> Result<Share, ShareFault>
        ensures given { IfOk result (IsGivenBy self.old self.new) }
        ensures fault { IfErr result (λ f. ((f ≡ ShareFault.Memory) ⊎ ((f ≡ ShareFault.Seats) × (self.old.seats.items ≡ []))) ×
            (self.new ≡ self.old)) }
    {
        if self.seats.is_empty() {
            return Err(ShareFault::Seats);
        }
        let counters = Arc::try_clone(&self.counters)?;
        let Some(seat) = self.seats.pop() else {
            unreachable!()
        };
        Ok(Share { counters, seat })
    }

    /// The program whose maps these counters are of.
    pub(crate) fn program(&self) -> &Program
        ensures { result.now ≡ self.now.program }
    {
        &self.program
    }
}

fn assert_send<T: Send>() {}

/// Shared counters, and a seat at them, may be handed to another thread, or this call isn't proved.
pub fn shared_counters_cross_threads() {
    assert_send::<SharedCounters>();
    assert_send::<Share>()
}
