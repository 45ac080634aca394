//! Tests of [`xen_front`], [`xen_buffers`] and [`xen_steps`] by what they make public. They are a crate of their own so that the gate
//! proves these once.
//!
//! - `bench`: what fronts of the tests stand on
//! - `tests`, of a front: `sends`, `steps` in a row, a `hostile` back, `random` calls beside a `model`, the `example` of
//!   docs/NETFRONT.md, `growth`
//! - `tests`, of the crates below it: `buffers`, `wired`, `words`; `fixtures` is for all of them
#![tactic(auto)]

pub mod bench;
#[cfg(test)]
mod tests;
