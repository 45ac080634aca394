//! Counters that threads share. Each load and each add is one atomic step.
//!
//! - `counters`, `seat`: the counters, and what a thread steps with
//! - `totals`: counters of one owner
//! - `layout`: where a counter lies among the words
//! - `laws`: what holds of counters that begin with 0
//! - `rule`, `plays`, `view`: what holds between two steps, what each step tells, and what a seat knows
#![tactic(auto)]

mod counters;
mod laws;
mod layout;
mod plays;
mod rule;
mod seat;
mod totals;
mod view;

pub use bpf_note::{MapShape, Op};
pub use counters::Counters;
pub use laws::counters_begin_with_zero;
pub use layout::{place, total};
pub use seat::CounterSeat;
pub use totals::Totals;
