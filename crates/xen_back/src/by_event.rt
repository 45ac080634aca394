//! A turn one event at a time: where it is, what it wants, and what it does with an answer.

pub(crate) mod answering;
pub(crate) mod copy;
pub(crate) mod copying;
pub(crate) mod ending;
pub(crate) mod executing;
pub(crate) mod feeding;
pub(crate) mod looking;
pub(crate) mod phase;
pub(crate) mod sent;
pub(crate) mod stage;
pub(crate) mod wanting;
