//! Packets of the host's own, delivered to the frontend between two turns.

pub(crate) mod by_event;
pub(crate) mod moving;
pub(crate) mod underway;
pub(crate) mod wait_by_event;
pub(crate) mod wait_stage;
