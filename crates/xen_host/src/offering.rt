//! What a queue offers, and what its frontend accepts, which become others between two turns.

use crate::queue::Queue;
use crate::stage::Stage;
use xen_netif::{Accepts, Offers};

/// The answer to offers that are to become a queue's.
#[derive(Clone, Copy, Debug, PartialEq, Eq)]
pub enum Offering {
    /// The next turn takes what they allow.
    Offered,
    /// A turn, a delivery or a wait is under way.
    Busy,
}

/// The answer to what a frontend accepts, which is to become a queue's.
#[derive(Clone, Copy, Debug, PartialEq, Eq)]
pub enum Accepting {
    /// The next delivery may leave it to the frontend.
    Accepted,
    /// A turn, a delivery or a wait is under way.
    Busy,
}

impl Queue {
    ghost use Rattle.xen_host.specs.Accepted.{IsAccepting};
    ghost use Rattle.xen_host.specs.Offered.{IsOffering};

    /// Makes these offers in place of its own, between two turns.
    pub fn offer(&mut self, offers: Offers) -> Offering
        ensures { IsOffering self.old self.new offers result }
    {
        match self.engine.stage {
            Stage::Ready => {
                self.wires.set_offers(offers);
                Offering::Offered
            }
            _ => Offering::Busy,
        }
    }

    /// Has the frontend accept this in place of what it accepted, between two turns.
    pub fn accept(&mut self, accepts: Accepts) -> Accepting
        ensures { IsAccepting self.old self.new accepts result }
    {
        match self.engine.stage {
            Stage::Ready => {
                self.wires.set_accepts(accepts);
                Accepting::Accepted
            }
            _ => Accepting::Busy,
        }
    }
}
