//! A transmit one event at a time.

pub(crate) mod feeding;
pub(crate) mod phase;
pub(crate) mod reading;
pub(crate) mod wanting;
pub(crate) mod writing;
