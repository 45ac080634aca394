//! Why a handle has no queue.
ghost use Rattle.std.specs.Prelude.{◌≡◌};
ghost use Rattle.xdp_host.specs.Made.{fault_number};

use xen_host::MakeFault;

/// The answer of `laxonje_queue_make` if a queue was made.
pub const MADE: u32 = 0;

/// The reason why no queue was made.
#[derive(Clone, Copy, Drop)]
pub enum QueueFault {
    /// Memory ran out, or a part is wrong.
    Make(MakeFault),
    /// There is no program.
    Empty,
}

impl QueueFault {
    /// The number that C gets.
    pub fn number(self) -> u32
        ensures { result ≡ fault_number self }
    {
        match self {
            QueueFault::Make(MakeFault::Memory) => 1,
            QueueFault::Make(MakeFault::Frames) => 2,
            QueueFault::Make(MakeFault::Table) => 3,
            QueueFault::Make(MakeFault::Ring) => 4,
            QueueFault::Make(MakeFault::Domain) => 5,
            QueueFault::Empty => 6,
        }
    }
}
