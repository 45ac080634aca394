//! A round of a back: a turn, and the host's answer to its packet.
ghost use Rattle.std.specs.Prelude.{◌≡◌, ◌<◌, ◌*◌, length};
ghost use Rattle.bpf_maps.specs.Seats.{IsSeatOf};
ghost use Rattle.xen_back.specs.Queues.{IsReady, wiring_of};
ghost use Rattle.thread_pair.specs.Rounds.{CanCount, IsRoundOver, slots_in};

use crate::answer::Answer;
use crate::next::Next;
use crate::report::BackRow;
use crate::shared::Shared;
use bpf_maps::{CounterSeat, Counters};
use xen_back::{Queue, Turn};
use xen_netif::RxOffload;
use xen_page::Bus;

/// The next act after a round, and the number of tx slots that it answered.
pub(crate) struct Round {
    pub next: Next,
    pub slots: u32,
}

/// The tx slots that a turn answered.
fn slots_of(turn: &Turn<'_>) -> u32
    ensures { result ≡ slots_in turn.now }
{
    match turn {
        Turn::Ran { slots, .. } | Turn::Refused { slots, .. } => *slots,
        Turn::Idle | Turn::Halted { .. } => 0,
    }
}

/// A turn, and the delivery of what the host answers to it, if it answers.
pub(crate) fn drive_round<B: Bus>(
    queue: &mut Queue<'_, '_>,
    bus: &mut B,
    counters: &Counters,
    seat: &mut CounterSeat,
    shared: &Shared,
    answer: &mut Answer,
    row: &mut BackRow,
) -> Round
    requires ready { IsReady queue.old }
    requires size { B.size bus.old ≡ length (wiring_of queue.old).vif.owners.now }
    requires shapes { counters.now.shapes ≡ (wiring_of queue.old).program.now.shapes }
    requires seat { IsSeatOf counters.now seat.old }
    requires turns { (row.old.copied < 4294967295) × (row.old.refused < 4294967295) }
    requires deliveries { CanCount row.old.deliveries }
    ensures size { B.size bus.new ≡ B.size bus.old }
    ensures seat { seat.new ≡ record seat.old { ops = seat.new.ops } }
    ensures over { IsRoundOver B.log B.access_gives shared.now.host queue.old queue.new row.old row.new result.next result.slots
        bus.old bus.new seat.old.ops seat.new.ops }
{
    let turn = queue.drive_turn(bus, counters, seat, &shared.ports);
    let slots = slots_of(&turn);
    let next = row.count(&turn);
    if !answer.write(shared.host, &turn) {
        return Round { next, slots };
    }
    let delivery = queue.deliver(answer.bytes(), RxOffload::Whole, bus, &shared.ports);
    row.note(delivery);
    Round { next, slots }
}
