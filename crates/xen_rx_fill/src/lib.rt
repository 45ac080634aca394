//! A packet sent back to the frontend: it is copied into posted buffers of the rx ring, one event at a time.
//!
//! - `transmit`: a transmit under way: what it wants, and what it does with an answer
//! - `by_event`: what it wants (`wanting`), what it does with an answer (`feeding`): `reading` slots and grants, `writing`
//!   buffers and responses
//! - `vif`, `packet`, `target`, `words`: what these work on; `laws`: what holds of every transmit
//!
//! Among the definitions, `Sending` is the authority, the trace of a transmit; `Transmit` is the computation that makes
//! it.
#![tactic(auto)]

mod by_event;
pub mod laws;
mod packet;
mod target;
mod transmit;
mod vif;
mod words;

pub use by_event::phase::TransmitOutcome;
pub use packet::RxPacket;
pub use target::{Grants, Target, Targets};
pub use transmit::{Progress, Transmit};
pub use vif::Vif;
pub use words::{buffer_frame, packet_word, response, slots_of, takes_extra, words_of};
