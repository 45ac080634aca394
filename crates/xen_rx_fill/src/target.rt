//! The posted rx slots that a transmit has read, and whether their grants passed.

use arrayvec::ArrayVec;
use std::marker::Model;

/// A posted slot: its id, and the frame that its grant lends for writing, unless it was refused, or the slot takes the extra.
#[derive(Clone, Copy, Debug, Default, PartialEq, Eq)]
pub struct Target {
    pub id: u16,
    pub frame: Option<u32>,
}

/// The outcome of the checks of a packet's grants.
#[derive(Clone, Copy, Debug, PartialEq, Eq)]
pub enum Grants {
    /// All did. The packet is sent, and the responses say how long it is.
    Passed,
    /// The last didn't. The responses say ERROR.
    Refused,
}

/// At most 17 slots, one for each page of a packet and one for an extra. Contracts see the list of them.
#[derive(Drop)]
pub struct Targets {
    slots: ArrayVec<Target, 17>,
}

impl Model for Targets {
    ghost use Rattle.std.specs.Prelude.{List, length, ◌≤◌};
    ghost use Rattle.xen_rx_fill.specs.declared.target.Target.{Target};

    ghost Value = { List Target };

    ghost view = { λ c. c.slots.items };

    ghost invariant = { λ c. length c.slots.items ≤ 17 };
}

impl Targets {
    ghost use Rattle.std.specs.Prelude.{◌≡◌, ◌<◌, ◌≤◌, ◌++◌, length, [], ◌∷◌};

    pub fn new() -> Targets
        ensures { result ≡ [] }
    {
        Targets {
            slots: ArrayVec::new(),
        }
    }

    pub fn push(&mut self, target: Target)
        requires { length self.old < 17 }
        ensures { self.new ≡ self.old ++ target ∷ [] }
    {
        self.slots.push(target);
    }

    pub fn len(&self) -> u32
        ensures value { result ≡ length self.now }
        ensures few { result ≤ 17 }
    {
        self.slots.len() as u32
    }

    pub fn slots(&self) -> &[Target]
        ensures { result.now ≡ self.now }
    {
        self.slots.as_slice()
    }
}
