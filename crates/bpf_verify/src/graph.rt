//! The flow graph of a program.

mod cycles;
mod edges;
mod laws;
mod order;
mod reach;
mod rising;

pub(crate) use cycles::{closes_cycle_unless, is_ordered};
pub use laws::{pass_order_is_unique, pass_order_rises, runs_are_short};
pub use order::pass_order;
