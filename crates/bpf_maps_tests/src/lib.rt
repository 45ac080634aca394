//! Tests of [`bpf_maps`] by what it makes public. They are a crate of their own so that the gate proves bpf_maps once.
//!
//! - `tests`: `totals` of one owner, `seats`, what counters `beginning` with given numbers leave, `two_threads`, `eight_threads` by one
//!   `worker`, and `growth`
#![tactic(auto)]

#[cfg(test)]
mod tests;
