//! A wait that is under way.

use xen_turns::{Awaited, State};

/// The stage of a wait.
#[derive(Clone, Copy, Debug, PartialEq, Eq)]
pub enum Looking {
    /// The event index is to be stored.
    Index,
    /// The producer is to be read.
    Producer,
    Over { after: State, awaited: Awaited },
}

/// A wait for rx slots that is taken one event at a time: [`Queue::begin_wait`](crate::Queue::begin_wait) makes it, and
/// [`Queue::end_wait`](crate::Queue::end_wait) ends it.
#[derive(Clone, Copy, Debug, PartialEq, Eq)]
pub struct Awaiting {
    /// The frame of the rx ring's page.
    pub(crate) rx: u32,
    /// The queue as it was begun.
    pub(crate) state: State,
    /// The number of slots that are awaited.
    pub(crate) wanted: u32,
    pub(crate) looking: Looking,
}
