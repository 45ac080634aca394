//! A delivery one event at a time, for a host that serves each event itself.

ghost use Rattle.std.specs.Prelude.{◌≡◌, ◌≢◌, ℕ, length, true};
ghost use Rattle.xen_netif.specs.Offloads.{is_taken as is_taken_spec};
ghost use Rattle.xen_steps.specs.Answers.{Fits};
ghost use Rattle.xen_steps.specs.Drive.{IsPageWant};
ghost use Rattle.xen_steps.specs.Steps.{done, next_by, want_of};
ghost use Rattle.xen_rx_fill.specs.Wired.{IsWired};
ghost use Rattle.xen_rx_fill.specs.declared.vif.Vif.{Vif as VifView};
ghost use Rattle.xen_turns.specs.Delivered.{is_frame};
ghost use Rattle.xen_back.specs.ByEvent.{IsDeliveryAsked, IsDeliveryFed, frames_of, left_of};
ghost use Rattle.xen_turns.specs.Deliveries.{Arrival, if_taken, unless_halted, whole_delivery};
ghost use Rattle.xen_back.specs.Deliveries.{rest_moving};

use crate::delivery::moving::{Moving, Sending};
use crate::delivery::underway::Delivering;
use std::mem;
use xen_host::is_taken;
use xen_netif::Accepts;
use xen_rx_fill::{Progress, RxPacket, Transmit, Vif};
use xen_steps::{Answer, Want};
use xen_turns::decisions::{can_be_delivered, delivered};
use xen_turns::{Delivery, State, Wiring};

/// A delivery of which nothing is done.
fn begun<'d>(accepts: &Accepts, state: &State, packet: RxPacket<'d>) -> Moving<'d>
    ensures { (v : VifView) → rest_moving v state.now result
        ≡ whole_delivery v accepts.now state.now packet.entry.offload packet.entry.bytes.now }
{
    if can_be_delivered(packet.bytes) {
        begun_frame(accepts, state, packet)
    } else {
        Moving::Over {
            after: *state,
            delivery: Delivery::NoFrame,
        }
    }
}

/// A delivery of a frame, if the frontend accepts what it leaves to it.
fn begun_frame<'d>(accepts: &Accepts, state: &State, packet: RxPacket<'d>) -> Moving<'d>
    requires { is_frame packet.bytes.now ≡ true }
    ensures { (v : VifView) → rest_moving v state.now result
        ≡ if_taken v state.now packet.entry.offload packet.entry.bytes.now
        (is_taken_spec accepts.now (length packet.entry.bytes.now) packet.entry.offload) }
{
    if is_taken(accepts, &packet.offload, packet.bytes) {
        begun_accepted(state, packet)
    } else {
        Moving::Over {
            after: *state,
            delivery: Delivery::NotAccepted,
        }
    }
}

/// A delivery of a packet that is accepted, unless the queue has halted.
fn begun_accepted<'d>(state: &State, packet: RxPacket<'d>) -> Moving<'d>
    requires { is_frame packet.bytes.now ≡ true }
    ensures { (v : VifView) → rest_moving v state.now result
        ≡ unless_halted v state.now packet.entry.offload packet.entry.bytes.now state.now.halt }
{
    match state.halt {
        Some(cause) => Moving::Over {
            after: *state,
            delivery: Delivery::Halted { cause },
        },
        None => {
            let transmit = Transmit::begin();
            Moving::Sending(Sending { packet, transmit })
        }
    }
}

/// A copy of the vif.
fn shared<'p>(vif: &Vif<'p>) -> Vif<'p>
    ensures { result ≡ vif.now }
{
    Vif {
        tx: vif.tx,
        rx: vif.rx,
        table: vif.table,
        owners: vif.owners,
        granter: vif.granter,
        user: vif.user,
        port: vif.port,
    }
}

/// A delivery of which nothing is done, with what it is wired to.
pub(crate) fn underway<'p, 'd>(
    wiring: &Wiring<'p>,
    state: &State,
    packet: RxPacket<'d>,
) -> Delivering<'p, 'd>
    requires wired { IsWired wiring.now.vif }
    ensures left { left_of result
        ≡ whole_delivery wiring.now.vif wiring.now.accepts state.now packet.entry.offload packet.entry.bytes.now }
    ensures vif { result.vif ≡ wiring.now.vif }
    ensures state { result.state ≡ state.now }
{
    let moving = begun(&wiring.accepts, state, packet);
    Delivering {
        vif: shared(&wiring.vif),
        state: *state,
        moving,
    }
}

/// Returns what a transmit wants.
fn sending_want(vif: &Vif, state: &State, sending: &Sending) -> Want
    ensures want { result ≡ want_of (rest_moving vif.now state.now (Moving.Sending sending.now)) }
    ensures asks { result ≢ Want.Done }
{
    sending.transmit.want(vif, state.rx_index, &sending.packet)
}

/// Returns what a delivery wants.
fn moving_want(vif: &Vif, state: &State, moving: &Moving) -> Want
    ensures { result ≡ want_of (rest_moving vif.now state.now moving.now) }
{
    match moving {
        Moving::Sending(sending) => sending_want(vif, state, sending),
        Moving::Over { .. } => Want::Done,
    }
}

/// A delivery after an event.
fn moving_fed<'d>(vif: &Vif, state: &State, moving: Moving<'d>, word: u32) -> Moving<'d>
    ensures { (counter : ℕ) → rest_moving vif.now state.now result ≡ next_by (rest_moving vif.now state.now moving.entry) word counter }
{
    match moving {
        Moving::Sending(sending) => sending_fed(vif, state, sending, word),
        over => over,
    }
}

/// A delivery after an event of its transmit.
fn sending_fed<'d>(vif: &Vif, state: &State, sending: Sending<'d>, word: u32) -> Moving<'d>
    ensures { (counter : ℕ) → rest_moving vif.now state.now result
        ≡ next_by (rest_moving vif.now state.now (Moving.Sending sending.entry)) word counter }
{
    let Sending { packet, transmit } = sending;
    match transmit.feed(vif, state.rx_index, &packet, word) {
        Progress::On(transmit) => Moving::Sending(Sending { packet, transmit }),
        Progress::Over(outcome) => {
            let (after, delivery) = delivered(state, outcome);
            Moving::Over { after, delivery }
        }
    }
}

/// Returns what a delivery that wants nothing more came to.
pub(crate) fn outcome_of(vif: &Vif, state: &State, moving: &Moving) -> (State, Delivery)
    requires { want_of (rest_moving vif.now state.now moving.now) ≡ Want.Done }
    ensures { rest_moving vif.now state.now moving.now ≡ done (result.0, result.1) }
{
    match moving {
        Moving::Over { after, delivery } => (*after, *delivery),
        Moving::Sending(sending) => {
            // Only the proof uses what this call ensures: a transmit that goes on wants something.
            let _want = sending_want(vif, state, sending);
            unreachable!()
        }
    }
}

impl<'p, 'd> Delivering<'p, 'd> {
    /// Returns what the delivery wants next: [`Want::Done`] once it is over.
    pub fn want(&self) -> Want
        ensures want { result ≡ want_of (left_of self.now) }
        ensures within { result ≢ Want.Done → IsPageWant (frames_of self.now) result }
        ensures over { result ≡ Want.Done → (end : Arrival) × (left_of self.now ≡ done end) }
    {
        moving_want(&self.vif, &self.state, &self.moving)
    }

    /// Returns what the delivery wants next, for a caller that holds it by `&mut`.
    pub fn wanted(&mut self) -> Want
        ensures { IsDeliveryAsked result self.old self.new }
    {
        moving_want(&self.vif, &self.state, &self.moving)
    }

    /// Goes on with the answer to what the delivery wants.
    pub fn feed(&mut self, answer: Answer)
        requires { Fits (want_of (left_of self.old)) answer }
        ensures { IsDeliveryFed answer self.old self.new }
    {
        let word = answer.word();
        let gone = Moving::Over {
            after: self.state,
            delivery: Delivery::NoFrame,
        };
        let moving = mem::replace(&mut self.moving, gone);
        self.moving = moving_fed(&self.vif, &self.state, moving, word);
    }
}
