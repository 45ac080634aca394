//! A whole activity over a bus and ports.

pub(crate) mod drive;
pub(crate) mod straight;
