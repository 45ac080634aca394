//! One front and one back queue over one memory, event by event.
//!
//! - `pair`, `making`, `memory`: a front, a back, and the words between them
//! - `event`, `stepping`: what may happen to a pair, and what becomes of it
//! - `hosting`, `calling`: what the back does for its host: deliveries and waits
//! - `running`: whole runs
#![tactic(auto)]

mod awaits;
mod calling;
mod event;
mod hosting;
pub mod laws;
mod making;
mod memory;
mod pair;
mod running;
mod stepping;

pub use event::PairEvent;
pub use pair::Pair;
pub use running::PairRun;
