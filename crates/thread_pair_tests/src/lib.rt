//! Tests of [`thread_pair`] by what it makes public. They are a crate of their own so that the gate proves thread_pair once.
//!
//! - `bench`: setups and programs, and the memory that a run is over
//! - `tests`: `rows` of counters, `lists`, `counts`, `comparing` packets, `answering`, `opening`, `meeting` and `ending` of runs,
//!   `fixtures`, and `growth`
#![tactic(auto)]

pub mod bench;
#[cfg(test)]
mod tests;
