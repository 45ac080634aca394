//! Tests of [`xen_back`] and [`xen_rx_fill`] by what they make public. They are a crate of their own so that the gate proves
//! these once.
//!
//! - `bench`: what a queue of the tests stands on
//! - `tests`, of turns: `chains`, `slots`, `copies`, `programs`, `transmits`, `later_turns`, `driving`, and answers at random
//!   (`bounds`)
//! - `tests`, of what a host does: `deliveries` and `awaits` by their tables, and what the frontend sees (`delivered`)
//!   or is left to do (`offloads`)
//! - `tests`, of a transmit by itself: `sending`; of a queue that goes on where another one ended: `resumed`; `fixtures` and `kind`
//!   are for all of them
#![tactic(auto)]

pub mod bench;
#[cfg(test)]
mod tests;
