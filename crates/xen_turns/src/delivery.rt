//! A packet of the host's own, and a wait for slots: what becomes of them.

pub mod delivering;
pub mod wait;
