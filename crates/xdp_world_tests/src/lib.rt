//! Tests of [`xdp_world`] by what it makes public. They are a crate of their own so that the gate proves xdp_world once.
//!
//! - `memory`: what one queue of the tests stands on
//! - `tests`: `runs` of a few steps, random `scripts`, all `merges` of two queues, the `second_queue`, `deliveries`, `waits`;
//!   pages that are rewritten (`pages`, `rewrites`, `random_rewrites`); `programs`, `kind` and `growth`
#![tactic(auto)]

pub mod memory;
#[cfg(test)]
mod tests;
