//! Tests of [`xen_ring`] by what it makes public. They are a crate of their own so that the gate proves xen_ring once.
//!
//! - `tests`: an `index`, the `layout` of a ring's page, event `ports`, and ports that `threads` share
#![tactic(auto)]

#[cfg(test)]
mod tests;
