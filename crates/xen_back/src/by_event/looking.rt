//! Looking for requests, and reading the slots of a chain.

ghost use Rattle.std.specs.Prelude.{◌≡◌, ◌≢◌, ◌+◌, ◌-◌, ◌<◌, ◌++◌, ◌∷◌, [], List, ℕ, suc, length, Ok, Some};
ghost use Rattle.xen_netif.specs.Standing.{standing};
ghost use Rattle.xen_netif.specs.declared.chain.ChainState.TheVariants.{Complete};
ghost use Rattle.xen_steps.specs.Places.{add32, available};
ghost use Rattle.xen_back.specs.Rest.{rest_at, rest_in};
ghost use Rattle.xen_turns.specs.Rest.{rest_of_slot};
ghost use Rattle.xen_steps.specs.Steps.{bind, next_by};
ghost use Rattle.xen_turns.specs.Tree.{after_look, after_scan, halted as halted_spec, judged, read_slots, second, seen, third, whole_turn};
ghost use Rattle.xen_turns.specs.declared.state.State.{State as StateView};
ghost use Rattle.xen_turns.specs.declared.wiring.Wiring.{Wiring as WiringView};

use crate::by_event::copying::begin_copy;
use crate::by_event::phase::{Phase, Reading};
use crate::by_event::stage::Stage;
use crate::copy_buf::CopyBuf;
use xen_netif::{Chain, ChainState};
use xen_steps::requests_shown;
use xen_turns::decisions::halted;
use xen_turns::{Halt, Kind, State, Wiring};

/// The end of a turn that halts.
pub(crate) fn halt(state: &State, cause: Halt) -> Phase
    ensures { (w : WiringView) (packet : List ℕ) → rest_at w state.now packet result ≡ halted_spec state.now cause }
{
    Phase::Ended {
        after: halted(state, cause),
        kind: Kind::Halted { cause },
    }
}

/// Between turns. A halted queue has nothing to do.
pub(crate) fn started(state: &State, word: u32) -> Phase
    ensures { (w : WiringView) (packet : List ℕ) (counter : ℕ) → rest_at w state.now packet result
        ≡ next_by (whole_turn w state.now) word counter }
{
    match state.halt {
        Some(_) => Phase::Ready,
        None => first_looked(state, requests_shown(state.tx_index, word)),
    }
}

/// After the first read of the producer.
fn first_looked(state: &State, n: Option<u32>) -> Phase
    ensures { (w : WiringView) (packet : List ℕ) → rest_at w state.now packet result
        ≡ bind (seen w state.now.tx_index n) (after_look w state.now) }
{
    match n {
        None => looked(state, None),
        Some(n) => {
            if n == 0 {
                Phase::Announce
            } else {
                looked(state, Some(n))
            }
        }
    }
}

/// After the last read of the producer.
pub(crate) fn looked_again(state: &State, word: u32) -> Phase
    ensures { (w : WiringView) (packet : List ℕ) → rest_at w state.now packet result
        ≡ after_look w state.now (available state.now.tx_index word) }
{
    looked(state, requests_shown(state.tx_index, word))
}

fn looked(state: &State, n: Option<u32>) -> Phase
    ensures { (w : WiringView) (packet : List ℕ) → rest_at w state.now packet result ≡ after_look w state.now n }
{
    match n {
        None => halt(state, Halt::TxProducer),
        Some(n) => {
            if n == 0 {
                Phase::Ended {
                    after: *state,
                    kind: Kind::Idle,
                }
            } else {
                next_slot(n - 1, Chain::new())
            }
        }
    }
}

/// Before a slot, with `left` slots left after it.
fn next_slot(left: u32, chain: Chain) -> Phase
    requires { standing chain ≢ Some (Ok Complete) }
    ensures { (w : WiringView) (s : StateView) (packet : List ℕ) → rest_at w s packet result
        ≡ bind (read_slots w s.tx_index (suc left) chain) (after_scan w s) }
{
    Phase::First(Reading { left, chain })
}

/// After a slot's first word.
pub(crate) fn after_first(reading: Reading, a: u32) -> Phase
    ensures { (w : WiringView) (s : StateView) (packet : List ℕ) → rest_at w s packet result
        ≡ rest_of_slot w s reading.left reading.chain (second w (add32 s.tx_index (length reading.chain)) a) }
{
    Phase::Second(reading, a)
}

/// After its second word.
pub(crate) fn after_second(reading: Reading, a: u32, b: u32) -> Phase
    ensures { (w : WiringView) (s : StateView) (packet : List ℕ) → rest_at w s packet result
        ≡ rest_of_slot w s reading.left reading.chain (third w (add32 s.tx_index (length reading.chain)) a b) }
{
    Phase::Third(reading, a, b)
}

/// After a slot.
pub(crate) fn after_slot<'p, 'b>(
    wiring: &Wiring<'p>,
    state: &State,
    packet: CopyBuf<'b>,
    reading: Reading,
    slot: [u32; 3],
) -> Stage<'p, 'b>
    ensures { rest_in wiring.now state.now result
        ≡ bind (judged (reading.chain ++ slot ∷ []) (standing (reading.chain ++ slot ∷ []))
        (read_slots wiring.now state.now.tx_index reading.left (reading.chain ++ slot ∷ []))) (after_scan wiring.now state.now) }
{
    let Reading { left, mut chain } = reading;
    match chain.push(slot) {
        Err(fault) => Stage::At(packet, halt(state, Halt::Chain(fault))),
        Ok(ChainState::Complete) => begin_copy(wiring, state, packet, chain),
        Ok(ChainState::Data) => Stage::At(packet, more_slots(state, left, chain)),
        Ok(ChainState::Extra) => Stage::At(packet, more_slots(state, left, chain)),
    }
}

/// Before the next slot of a chain that wants more, if the producer shows one.
fn more_slots(state: &State, left: u32, chain: Chain) -> Phase
    requires { standing chain ≢ Some (Ok Complete) }
    ensures { (w : WiringView) (packet : List ℕ) → rest_at w state.now packet result
        ≡ bind (read_slots w state.now.tx_index left chain) (after_scan w state.now) }
{
    if left == 0 {
        halt(state, Halt::ShortChain)
    } else {
        next_slot(left - 1, chain)
    }
}
