//! Runs queues of a program in threads: a front thread and a back thread for each queue, over shared pages and counters.
//!
//! - `pairing`, `job`, `report`, `fault`: a run, what it is given, and what it gives
//! - `resources`, `rings`, `shared`: what is made before the first thread starts, and what all workers share
//! - `starting`, `joining`: threads
//! - `front`, `outbox`, `inbox`: a front thread, and the packets that go out and come in
//! - `back`, `round`, `answer`, `host`, `gate`: a back thread: a turn, and what its host does
//! - `lane`, `bell`, `next`, `counting`: how two workers wait for each other, and what they count
#![tactic(auto)]

mod answer;
mod back;
mod bell;
mod counting;
mod fault;
mod front;
mod gate;
mod host;
mod inbox;
mod job;
mod joining;
mod lane;
mod next;
mod outbox;
mod pairing;
mod report;
mod resources;
mod rings;
mod round;
mod shared;
mod starting;

pub use fault::PairFault;
pub use gate::{Gate, Open};
pub use host::OnPass;
pub use inbox::{Discard, Inbox};
pub use job::Job;
pub use pairing::{STACK, pair_over, pair_with};
pub use report::{Deliveries, PairReport, PairRow};
pub use shared::{Parkers, Shared};
