//! One step of a queue, with the turn, the delivery or the wait that it ends.
ghost use Rattle.std.specs.Prelude.{◌≡◌, ◌≢◌, ◌≤◌, Option, Some, false, vec_len, vec_capacity};
ghost use Rattle.xen_back.specs.Queues.{rest, wiring_of};
ghost use Rattle.xen_steps.specs.Event.{Event};
ghost use Rattle.xen_steps.specs.Steps.{want_of};
ghost use Rattle.xdp_world.specs.Carries.{Moves, TurnMoves, after_turn as after_turn_spec};
ghost use Rattle.xdp_world.specs.Doings.{Fits, is_call};
ghost use Rattle.xdp_world.specs.Happens.{Settles};

use crate::carrying::carried;
use crate::doing::Doing;
use crate::event::event;
use crate::kept::{Kept, keep};
use crate::wait_event::waited;
use bpf_maps::{Op, Totals};
use std::mem;
use xen_back::{Awaited, Delivery, Queue, Want};

/// The outcome of a step: the counter operation, and the turn, the delivery or the wait that it ended.
#[derive(Drop)]
pub(crate) struct Served {
    pub op: Option<Op>,
    pub kept: Option<Kept>,
    pub delivery: Option<Delivery>,
    pub awaited: Option<Awaited>,
}

/// One step: the next event of the delivery or the wait that is under way, else of the turn.
pub(crate) fn serve<'p, 'b>(
    queue: &mut Queue<'p, 'b>,
    doing: &mut Doing<'p, 'b>,
    counters: &mut Totals,
    answer: u32,
    spare: &mut Vec<u8>,
) -> Served
    requires shapes { (wiring_of queue.old).program.now.shapes ≡ counters.old.shapes }
    requires fits { Fits doing.old queue.old }
    requires empty { vec_len spare.old ≡ 0 }
    requires room { 65535 ≤ vec_capacity spare.old }
    ensures same { wiring_of queue.new ≡ wiring_of queue.old }
    ensures shapes { counters.new.shapes ≡ counters.old.shapes }
    ensures fits { Fits doing.new queue.new }
    ensures empty { vec_len spare.new ≡ 0 }
    ensures moves { (e : Option Event) × Moves queue.old queue.new doing.old doing.new counters.old counters.new answer
        e result.op result.kept result.delivery result.awaited }
{
    match mem::replace(doing, Doing::Between) {
        Doing::Delivery(delivering) => {
            let (after, delivery) = carried(queue, delivering, answer);
            *doing = after;
            Served {
                op: None,
                kept: None,
                delivery,
                awaited: None,
            }
        }
        Doing::Wait(awaiting) => {
            let (after, awaited) = waited(queue, awaiting, answer);
            *doing = after;
            Served {
                op: None,
                kept: None,
                delivery: None,
                awaited,
            }
        }
        before => {
            let (after, served) = in_turn(queue, before, counters, answer, spare);
            *doing = after;
            served
        }
    }
}

/// The next event of a turn. A queue that has halted does nothing.
fn in_turn<'p, 'b>(
    queue: &mut Queue<'p, 'b>,
    before: Doing<'p, 'b>,
    counters: &mut Totals,
    answer: u32,
    spare: &mut Vec<u8>,
) -> (Doing<'p, 'b>, Served)
    requires shapes { (wiring_of queue.old).program.now.shapes ≡ counters.old.shapes }
    requires turn { is_call (Some before) ≡ false }
    requires fits { Fits before queue.old }
    requires empty { vec_len spare.old ≡ 0 }
    requires room { 65535 ≤ vec_capacity spare.old }
    ensures same { wiring_of queue.new ≡ wiring_of queue.old }
    ensures shapes { counters.new.shapes ≡ counters.old.shapes }
    ensures fits { Fits result.0 queue.new }
    ensures empty { vec_len spare.new ≡ 0 }
    ensures moves { (e : Option Event) × Moves queue.old queue.new before.entry result.0 counters.old counters.new answer
        e result.1.op result.1.kept result.1.delivery result.1.awaited }
{
    match queue.want() {
        Want::Done => {
            let served = Served {
                op: None,
                kept: None,
                delivery: None,
                awaited: None,
            };
            (before, served)
        }
        _ => turned(queue, counters, answer, spare),
    }
}

/// The next event of a turn that isn't over.
fn turned<'p, 'b>(
    queue: &mut Queue<'p, 'b>,
    counters: &mut Totals,
    answer: u32,
    spare: &mut Vec<u8>,
) -> (Doing<'p, 'b>, Served)
    requires shapes { (wiring_of queue.old).program.now.shapes ≡ counters.old.shapes }
    requires want { want_of (rest queue.old) ≢ Want.Done }
    requires empty { vec_len spare.old ≡ 0 }
    requires room { 65535 ≤ vec_capacity spare.old }
    ensures same { wiring_of queue.new ≡ wiring_of queue.old }
    ensures shapes { counters.new.shapes ≡ counters.old.shapes }
    ensures fits { Fits result.0 queue.new }
    ensures empty { vec_len spare.new ≡ 0 }
    ensures moves { TurnMoves queue.old queue.new result.0 counters.old counters.new answer result.1.op result.1.kept result.1.delivery
        result.1.awaited }
{
    let op = event(queue, counters, answer);
    let kept = ended(queue, spare);
    let after: Doing<'p, 'b> = after_turn(&kept);
    let served = Served {
        op,
        kept,
        delivery: None,
        awaited: None,
    };
    (after, served)
}

/// Returns what a queue is doing after an event of a turn: the turn goes on, unless it is over.
fn after_turn<'p, 'd>(kept: &Option<Kept>) -> Doing<'p, 'd>
    ensures { result ≡ after_turn_spec kept.now }
{
    match kept {
        None => Doing::Turn,
        Some(_) => Doing::Between,
    }
}

/// The turn, if it is over. The next one begins then.
fn ended(queue: &mut Queue, spare: &mut Vec<u8>) -> Option<Kept>
    requires empty { vec_len spare.old ≡ 0 }
    requires room { 65535 ≤ vec_capacity spare.old }
    ensures same { wiring_of queue.new ≡ wiring_of queue.old }
    ensures empty { vec_len spare.new ≡ 0 }
    ensures settles { Settles queue.old queue.new result }
{
    match queue.wanted() {
        Want::Done => Some(keep(queue.turn(), spare)),
        _ => None,
    }
}
