//! Tests of [`honest_pair`] by what it makes public. They are a crate of their own so that the gate proves honest_pair once.
//!
//! - `plan`: lists of events for pairs
//! - `tests`: short runs (`rows`), `deliveries`, `waits`, more packets than entries (`wrapped`), what a run `looks` at;
//!   `random` and `joined` runs; `programs` and `growth`
#![tactic(auto)]

pub mod plan;
#[cfg(test)]
mod tests;
