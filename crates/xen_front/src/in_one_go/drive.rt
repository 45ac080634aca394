//! A whole activity over a bus and ports.

ghost use Rattle.std.specs.Prelude.{◌≡◌, ◌≤◌, ◌∷◌, [], List};
ghost use Rattle.xen_front.specs.Fronts.{rest, wiring_of};
ghost use Rattle.xen_page.specs.Access.{Performs};
ghost use Rattle.xen_steps.specs.Drive.{Any, Bounded, Driven, Goes, IsPageWant, accesses};
ghost use Rattle.xen_steps.specs.Event.{Event};
ghost use Rattle.xen_steps.specs.Steps.{want_of};

use crate::by_event::phase::Phase;
use crate::front::Front;
use crate::in_one_go::straight::past_piece;
use std::mem;
use xen_page::Bus;
use xen_ring::Ports;
use xen_steps::{Answer, Want};

/// More events than an activity has: a send has at most 16,467 and a poll at most 16,954.
const MOST_EVENTS: u32 = 17_000;

/// The most pieces of a packet.
const MOST_PIECES: u32 = 16;

/// Makes the event that the front wants.
fn drive_event<B: Bus>(front: &mut Front, bus: &mut B, ports: &Ports, want: Want)
    requires wanted { want ≡ want_of (rest front.old) }
    requires within { IsPageWant (B.size bus.old) want }
    ensures size { B.size bus.new ≡ B.size bus.old }
    ensures same { wiring_of front.new ≡ wiring_of front.old }
    ensures event { (e : Event) × Goes (rest front.old) e (rest front.new)
        × Performs B.log B.access_gives bus.old (accesses (e ∷ [])) bus.new }
{
    match want {
        Want::Read(at) => {
            let word = bus.read(at);
            front.feed(Answer::Word(word));
        }
        Want::Write(at, value) => {
            bus.write(at, value);
            front.feed(Answer::Nothing);
        }
        Want::Notify(port) => {
            ports.notify(port);
            front.feed(Answer::Nothing);
        }
        Want::Instr => unreachable!(),
        Want::Load { .. } => unreachable!(),
        Want::Add { .. } => unreachable!(),
        Want::Done => unreachable!(),
    }
}

/// Makes all writes of a piece, if the front is before one.
fn drive_piece<B: Bus>(front: &mut Front, bus: &mut B)
    requires { (wiring_of front.old).frames ≤ B.size bus.old }
    ensures size { B.size bus.new ≡ B.size bus.old }
    ensures same { wiring_of front.new ≡ wiring_of front.old }
    ensures driven { (t : List Event) × Driven B.log B.access_gives (rest front.old) (rest front.new) bus.old bus.new t }
{
    let phase = mem::replace(&mut front.phase, Phase::Ready);
    front.phase = past_piece(&front.wiring, front.sent.bytes(), phase, bus);
}

/// Makes all writes of a packet's pieces, if the front is before the first.
pub(crate) fn drive_pieces<B: Bus>(front: &mut Front, bus: &mut B)
    requires { (wiring_of front.old).frames ≤ B.size bus.old }
    ensures size { B.size bus.new ≡ B.size bus.old }
    ensures same { wiring_of front.new ≡ wiring_of front.old }
    ensures driven { (t : List Event) × Driven B.log B.access_gives (rest front.old) (rest front.new) bus.old bus.new t }
{
    for _piece in 0..MOST_PIECES {
        match &front.phase {
            Phase::GrantFrame(_) => drive_piece(front, bus),
            _ => break,
        }
    }
}

/// Makes events until the activity is over.
pub(crate) fn drive_events<B: Bus>(front: &mut Front, bus: &mut B, ports: &Ports)
    requires { Bounded (IsPageWant (B.size bus.old)) Any (rest front.old) 17000 }
    ensures size { B.size bus.new ≡ B.size bus.old }
    ensures same { wiring_of front.new ≡ wiring_of front.old }
    ensures over { want_of (rest front.new) ≡ Want.Done }
    ensures driven { (t : List Event) × Driven B.log B.access_gives (rest front.old) (rest front.new) bus.old bus.new t }
{
    for _event in 0..MOST_EVENTS {
        match front.want() {
            Want::Done => return,
            want => drive_event(front, bus, ports, want),
        }
    }
}
