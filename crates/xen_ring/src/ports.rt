//! The event ports of a domain, as the two bit fields of its shared information page.

ghost use Rattle.std.specs.Prelude.{◌≡◌, ◌^◌};

use crate::port::Port;
use std::sync::atomic::{AtomicU64, Ordering};

/// 64 event ports, each with a pending bit and a mask bit. Threads share them by reference: each bit is set
/// or cleared in one step.
///
/// Sends to a port that is still pending merge into one.
#[derive(Drop)]
pub struct Ports {
    pending: AtomicU64,
    masked: AtomicU64,
}

impl Ports {
    /// No port is pending and none is masked.
    pub const fn new() -> Ports {
        Ports {
            pending: AtomicU64::new(0),
            masked: AtomicU64::new(0),
        }
    }

    /// Sends an event: the port is pending from now on, even if it is masked.
    pub fn notify(&self, port: Port) {
        self.pending.fetch_or(bit(port), Ordering::SeqCst);
    }

    /// Returns whether the port was unmasked and pending; if so, it is no longer pending.
    pub fn take(&self, port: Port) -> bool {
        let bit = bit(port);
        if self.masked.load(Ordering::SeqCst) & bit != 0 {
            return false;
        }
        self.pending.fetch_and(!bit, Ordering::SeqCst) & bit != 0
    }

    /// Keeps the port from being taken. What is pending stays pending.
    pub fn mask(&self, port: Port) {
        self.masked.fetch_or(bit(port), Ordering::SeqCst);
    }

    /// Lets the port be taken again.
    pub fn unmask(&self, port: Port) {
        self.masked.fetch_and(!bit(port), Ordering::SeqCst);
    }
}

fn bit(port: Port) -> u64
    ensures { result ≡ 2 ^ port }
{
    1 << port.number()
}
