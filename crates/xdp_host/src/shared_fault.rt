//! Why counters aren't shared, in the numbers of `include/laxonje.h`.
ghost use Rattle.std.specs.Prelude.{◌≡◌};
ghost use Rattle.xdp_host.specs.Shared.{share_number, shared_number};

use xen_host::{ShareFault, SharedFault};

/// The answer if a queue shares counters.
pub const SHARED: u32 = 0;

/// The answer if there is no queue, no program, or no counters.
pub const NOTHING_TO_SHARE: u32 = 6;

/// The answer if an amount was added.
pub const ADDED: u32 = 0;

/// The answer if there is no such counter.
pub const NO_COUNTER: u32 = 1;

/// The number of a fault of making them.
pub fn shared_number(fault: SharedFault) -> u32
    ensures { result ≡ shared_number fault }
{
    match fault {
        SharedFault::Memory => 1,
        SharedFault::Seats => 2,
    }
}

/// The number of a fault of a queue's share in them.
pub fn share_number(fault: ShareFault) -> u32
    ensures { result ≡ share_number fault }
{
    match fault {
        ShareFault::Memory => 1,
        ShareFault::Seats => 2,
        ShareFault::Busy => 3,
        ShareFault::Shared => 4,
        ShareFault::Maps => 5,
    }
}
