//! Lists of a queue's maps that become others between two turns.

use crate::queue::Queue;
use crate::stage::Stage;
use xdp_program::Lists;

/// The answer to lists that are to become a queue's.
#[derive(Clone, Copy, Debug, PartialEq, Eq)]
pub enum Relist {
    /// The next turn looks up in them.
    Relisted,
    /// A turn, a delivery or a wait is under way.
    Busy,
}

impl Queue {
    ghost use Rattle.xen_host.specs.Relisted.{IsRelist};

    /// Has these lists in place of its own, between two turns. Nothing is verified.
    pub fn relist(&mut self, lists: Lists) -> Relist
        ensures { IsRelist self.old self.new lists result }
    {
        match self.engine.stage {
            Stage::Ready => {
                self.wires.set_lists(lists);
                Relist::Relisted
            }
            _ => Relist::Busy,
        }
    }
}
