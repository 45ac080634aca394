//! What a turn of netback's queue is, and a delivery and a wait. Whoever makes them is proved of this: `xen_back`'s queue in its two
//! ways, and `xen_host`'s engine.
//!
//! - `state`, `turn`, `wiring`, `delivery`: what a queue is between two, is wired to, and what becomes of each
//! - `decisions`: what is decided on the way, whichever way it goes
//! - `laws`: what holds of every turn, delivery and wait; `several`: of turns of several packets
//!
//! Among the definitions, `Turns` is the authority, the table of turns; `Tree` is the computation that makes them.
#![tactic(auto)]

pub mod decisions;
mod delivery;
pub mod laws;
pub mod several;
mod state;
mod turn;
mod wiring;

pub use delivery::delivering::Delivery;
pub use delivery::wait::Awaited;
pub use state::State;
pub use turn::{Halt, Kind, PacketRefusal, Turn};
pub use wiring::Wiring;
