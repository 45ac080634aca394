//! An activity one event at a time: where it is, what it wants, and what it does with an answer.

pub(crate) mod extras;
pub(crate) mod feeding;
pub(crate) mod ids;
pub(crate) mod phase;
pub(crate) mod places;
pub(crate) mod posting;
pub(crate) mod receiving;
pub(crate) mod sending;
pub(crate) mod taking;
