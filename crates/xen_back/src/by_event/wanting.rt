//! What a queue wants next.

ghost use Rattle.std.specs.Prelude.{◌≡◌, List, ℕ};
ghost use Rattle.xen_back.specs.Rest.{rest_at, rest_in};
ghost use Rattle.xen_steps.specs.Steps.{next, want_of};

use crate::by_event::answering::answering_want;
use crate::by_event::executing::executing_want;
use crate::by_event::phase::Phase;
use crate::by_event::sent::sent_want;
use crate::by_event::stage::Stage;
use xen_page::Place;
use xen_ring::{REQ_EVENT, REQ_PROD, RSP_EVENT};
use xen_steps::{Want, header, tx_entry};
use xen_turns::decisions::slot_index;
use xen_turns::{State, Wiring};

/// Returns what a phase wants.
fn phase_want(wiring: &Wiring, state: &State, phase: &Phase) -> Want
    ensures { (packet : List ℕ) → result ≡ want_of (rest_at wiring.now state.now packet phase.now) }
{
    match phase {
        Phase::Ready => match state.halt {
            Some(_) => Want::Done,
            None => Want::Read(header(wiring.vif.tx, REQ_PROD)),
        },
        Phase::Announce => Want::Write(
            header(wiring.vif.tx, REQ_EVENT),
            state.tx_index.wrapping_add(1),
        ),
        Phase::CheckAgain => Want::Read(header(wiring.vif.tx, REQ_PROD)),
        Phase::First(reading) => Want::Read(tx_entry(
            wiring.vif.tx,
            slot_index(state, &reading.chain),
            0,
        )),
        Phase::Second(reading, _) => Want::Read(tx_entry(
            wiring.vif.tx,
            slot_index(state, &reading.chain),
            1,
        )),
        Phase::Third(reading, _, _) => Want::Read(tx_entry(
            wiring.vif.tx,
            slot_index(state, &reading.chain),
            2,
        )),
        Phase::Answering { at, words, i, .. } => answering_want(wiring, at, words, *i),
        Phase::ReadEvent { .. } => Want::Read(header(wiring.vif.tx, RSP_EVENT)),
        Phase::Notice { .. } => Want::Notify(wiring.vif.port),
        Phase::Ended { .. } => Want::Done,
    }
}

/// Returns what a stage wants.
pub(crate) fn stage_want(wiring: &Wiring, state: &State, stage: &Stage) -> Want
    ensures { result ≡ want_of (rest_in wiring.now state.now stage.now) }
{
    match stage {
        Stage::At(_, phase) => phase_want(wiring, state, phase),
        Stage::EntryFlags(entry) => Want::Read(entry.at),
        Stage::EntryFrame { entry, .. } => Want::Read(entry.at.next()),
        Stage::Page(page) => Want::Read(Place {
            frame: page.frame,
            word: page.place,
        }),
        Stage::Run(run) => executing_want(run),
        Stage::Send(packet, sent) => sent_want(wiring, state, packet, sent),
    }
}
