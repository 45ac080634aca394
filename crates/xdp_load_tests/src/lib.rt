//! Tests of [`xdp_load`] by what it makes public. They are a crate of their own so that the gate proves xdp_load once.
//!
//! - `loading`: what settings give, as plain values
//! - `tests`: `setups`, `originals`, `functions`, `lists`, the `spots` of faults, `beginnings` of texts, and `growth`
#![tactic(auto)]

pub mod loading;
#[cfg(test)]
mod tests;
