//! Tests of [`xen_netif`] by what it makes public. They are a crate of their own so that the gate proves xen_netif once.
//!
//! - `answers`: what chains and fragments answer, as plain values
//! - `tests`: `slots`, `chains`, `fragments`, `segments` and `offloads`
#![tactic(auto)]

pub mod answers;
#[cfg(test)]
mod tests;
