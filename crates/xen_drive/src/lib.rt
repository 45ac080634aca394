//! Whole turns, deliveries and waits of `xen_host`'s queue over a bus, and what a host's loop comes to.
//!
//! - `whole`: a whole turn, a whole delivery, a whole wait
//! - `laws`: whoever makes the accesses of each op has made the whole
#![tactic(auto)]

mod laws;
mod whole;

pub use laws::{deliveries_are_made, turns_are_made, waits_are_made};
pub use whole::{await_slots, deliver, drive};
