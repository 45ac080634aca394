//! Times, and their text.
ghost use Rattle.std.specs.Prelude.{◌≡◌, IfOk, string_bytes};
ghost use Rattle.xdp_bench.specs.Report.{report};

use crate::fault::Fault;
use std::alloc::{AllocError, Global};
use std::time::{Clock, Instant};

/// The number of times something was done, and the nanoseconds that it took; none if nothing was timed.
#[derive(Clone, Copy, Debug, PartialEq, Eq)]
pub struct Timed {
    pub done: u32,
    pub nanoseconds: Option<u64>,
}

/// The time since `start`, in nanoseconds.
pub fn since<R: Clock>(rt: &R, start: &Instant) -> Result<u64, Fault> {
    let elapsed = start.elapsed(rt).map_err(|_| Fault::Clock)?;
    u64::try_from(elapsed.as_nanos()).map_err(|_| Fault::Clock)
}

/// `done 1000 in 251000 ns`, or `done 1`: one that was done once isn't timed, so that it prints the same each time.
pub fn report(alloc: Global, done: u32, nanoseconds: Option<u64>) -> Result<String, AllocError>
    ensures { IfOk result (λ s. string_bytes s ≡ report done nanoseconds) }
{
    match nanoseconds {
        Some(nanoseconds) => format!(in alloc; "done {done} in {nanoseconds} ns"),
        None => format!(in alloc; "done {done}"),
    }
}
