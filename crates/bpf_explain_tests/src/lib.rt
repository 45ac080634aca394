//! Tests of [`bpf_explain`] by what it makes public. They are a crate of their own so that the gate proves bpf_explain once.
//!
//! - `printed`: what is printed of refused programs, compared with what it should be
//! - `tests`: refused programs (`programs`); each value's text and each cause's advice (`texts`)
#![tactic(auto)]

pub mod printed;
#[cfg(test)]
mod tests;
