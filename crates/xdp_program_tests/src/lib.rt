//! Tests of [`xdp_program`] by what it makes public. They are a crate of their own so that the gate proves xdp_program once.
//!
//! - `loading`: what loads and runs give, as plain values
//! - `tests`: `loads`, `runs`, and `growth`
#![tactic(auto)]

pub mod loading;
#[cfg(test)]
mod tests;
