//! Tests of [`bpf_verify`] and [`bpf_vm`] by what they make public. They are a crate of their own so that the gate proves
//! these two once.
//!
//! - `programs`: what verifier and interpreter answer, as plain values
//! - `tests`, of the verifier: `small` programs, `flow` with backward jumps, causes `far` down, the `notes` of refusals, `full`
//!   programs
//! - `tests`, of the interpreter: `beginnings`, `runs`, `ends`, `flat` forms, `keys`, `packets`, `actions`
//! - `tests`, of memory that is refused: `growth`
#![tactic(auto)]

pub mod programs;
#[cfg(test)]
mod tests;
