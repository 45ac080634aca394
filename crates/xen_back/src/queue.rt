//! A back queue, and all of its calls: how it is made (`making`), its turns (`driving`), its `deliveries` and its `waits`.

mod deliveries;
mod driving;
mod making;
mod waits;

ghost use Rattle.std.specs.Prelude.{IsSome, IsTrue, is_some};
ghost use Rattle.xen_back.specs.Rest.{rest_of_stage};
ghost use Rattle.xen_host.specs.UnderWay.{between};
ghost use Rattle.xen_turns.specs.Within.{Completes, Completes-prop, TurnsComplete, TurnsComplete-prop};
ghost use Rattle.xen_rx_fill.specs.Wired.{IsWired};

use crate::by_event::stage::Stage;
use xen_host::Engine;
use xen_page::Mapped;
use xen_turns::Wiring;

/// Netback's queue. It takes a turn one event at a time, or in one go over a bus.
#[derive(Drop)]
pub struct Queue<'p, 'b> {
    pub(crate) wiring: Wiring<'p>,
    pub(crate) tx_ring: Mapped,
    pub(crate) rx_ring: Mapped,
    /// Its state, and what takes it through whole turns, deliveries and waits.
    pub(crate) engine: Engine,
    /// It is out only while the next stage is made of it.
    pub(crate) stage: Option<Stage<'p, 'b>>,
    ghost here: { IsTrue (is_some stage) },
    ghost rests: { IsSome (between engine.state engine.stage) },
    ghost wired: { IsWired wiring.vif },
    ghost turns: { TurnsComplete wiring } by { TurnsComplete-prop wiring },
    ghost left: { Completes wiring (rest_of_stage wiring engine.state stage) } by { Completes-prop wiring (rest_of_stage wiring engine.state stage) },
}
