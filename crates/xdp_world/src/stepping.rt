//! Steps of a world.
ghost use Rattle.std.specs.Prelude.{◌≡◌, ◌<◌, ◌≤◌, ◌++◌, ℕ, All, OnOk, OnErr, vec_len, vec_capacity, slice_get};
ghost use Rattle.xdp_world.specs.Carries.{delivered_list, waited_list};
ghost use Rattle.xdp_world.specs.Entries.{tagged};
ghost use Rattle.xdp_world.specs.Happens.{kept_list, op_list};
ghost use Rattle.xdp_world.specs.Stands.{GoesOn, HasRoom, IsFree, IsSame, IsStep};

use crate::kept::{Kept, ROOM};
use crate::report::{Delivered, Waited};
use crate::serving::{Served, serve};
use crate::world::World;
use bpf_maps::Op;
use std::alloc::AllocError;
use xen_back::{Awaited, Delivery};

/// Keeps what became of a packet, if its delivery is over, after `turns` turns. There is room.
pub(crate) fn note_delivery(delivered: &mut Vec<Delivered>, turns: usize, over: Option<Delivery>)
    requires { vec_len delivered.old < vec_capacity delivered.old }
    ensures { delivered.new.items ≡ delivered.old.items ++ delivered_list turns over }
{
    if let Some(delivery) = over {
        delivered.push_reserved(Delivered { turns, delivery });
    }
}

/// Keeps the answer of a wait, if it is over, after `turns` turns and `deliveries` deliveries. There is room.
pub(crate) fn note_wait(
    waited: &mut Vec<Waited>,
    turns: usize,
    deliveries: usize,
    over: Option<Awaited>,
)
    requires { vec_len waited.old < vec_capacity waited.old }
    ensures { waited.new.items ≡ waited.old.items ++ waited_list turns deliveries over }
{
    if let Some(awaited) = over {
        waited.push_reserved(Waited {
            turns,
            deliveries,
            awaited,
        });
    }
}

/// Keeps what a step gave. There is room.
fn note(
    kept: &mut Vec<Kept>,
    delivered: &mut Vec<Delivered>,
    waited: &mut Vec<Waited>,
    history: &mut Vec<(usize, Op)>,
    queue: usize,
    served: Served,
)
    requires kept { vec_len kept.old < vec_capacity kept.old }
    requires delivered { vec_len delivered.old < vec_capacity delivered.old }
    requires waited { vec_len waited.old < vec_capacity waited.old }
    requires history { vec_len history.old < vec_capacity history.old }
    ensures kept { kept.new.items ≡ kept.old.items ++ kept_list served.kept }
    ensures delivered { delivered.new.items ≡ delivered.old.items ++ delivered_list (vec_len kept.old) served.delivery }
    ensures waited { waited.new.items ≡ waited.old.items ++ waited_list (vec_len kept.old) (vec_len delivered.old) served.awaited }
    ensures history { history.new.items ≡ history.old.items ++ tagged queue (op_list served.op) }
{
    let Served {
        op,
        kept: turn,
        delivery,
        awaited,
    } = served;
    note_wait(waited, kept.len(), delivered.len(), awaited);
    note_delivery(delivered, kept.len(), delivery);
    if let Some(turn) = turn {
        kept.push_reserved(turn);
    }
    if let Some(op) = op {
        history.push_reserved((queue, op));
    }
}

impl<'p, 'b> World<'p, 'b> {
    /// Takes the room that a step of this queue may want.
    fn make_room(&mut self, queue: usize) -> Result<(), AllocError>
        requires { queue < vec_len self.old.queues }
        ensures same { IsSame self.old self.new }
        ensures room { OnOk result ((vec_len self.new.history < vec_capacity self.new.history) × (65535 ≤ vec_capacity self.new.spare)) }
        ensures kept { OnOk result (HasRoom (slice_get self.new.turns.items queue)) }
        ensures delivered { OnOk result (HasRoom (slice_get self.new.deliveries.items queue)) }
        ensures waited { OnOk result (HasRoom (slice_get self.new.waits.items queue)) }
    {
        self.turns[queue].reserve(1)?;
        self.deliveries[queue].reserve(1)?;
        self.waits[queue].reserve(1)?;
        self.history.reserve(1)?;
        self.spare.reserve(ROOM)?;
        Ok(())
    }

    /// One event of a queue: of the delivery or the wait that is under way, else of its turn; or nothing if it has
    /// halted. The answer serves a read, and is ignored else. A turn that is over by it is kept, and the next begins.
    /// If a delivery is over, what became of its packet is kept; if a wait is over, its answer.
    pub fn step(&mut self, queue: usize, answer: u32) -> Result<(), AllocError>
        requires { queue < vec_len self.old.queues }
        ensures size { vec_len self.new.queues ≡ vec_len self.old.queues }
        ensures shapes { self.new.counters.shapes ≡ self.old.counters.shapes }
        ensures free { (i : ℕ) → IsFree self.old i → IsFree self.new i }
        ensures ok { OnOk result (IsStep self.old self.new queue answer) }
        ensures err { OnErr result (IsSame self.old self.new) }
    {
        self.make_room(queue)?;
        let served = serve(
            &mut self.queues[queue],
            &mut self.doing[queue],
            &mut self.counters,
            answer,
            &mut self.spare,
        );
        note(
            &mut self.turns[queue],
            &mut self.deliveries[queue],
            &mut self.waits[queue],
            &mut self.history,
            queue,
            served,
        );
        Ok(())
    }

    /// Steps in order.
    pub(crate) fn steps(&mut self, steps: &[(usize, u32)]) -> Result<(), AllocError>
        requires { All (λ s. s.0 < vec_len self.old.queues) steps.now }
        ensures size { vec_len self.new.queues ≡ vec_len self.old.queues }
        ensures shapes { self.new.counters.shapes ≡ self.old.counters.shapes }
        ensures goes { OnOk result (GoesOn self.old self.new steps.now) }
    {
        for (queue, answer) in steps {
            self.step(*queue, *answer)?;
        }
        Ok(())
    }
}
