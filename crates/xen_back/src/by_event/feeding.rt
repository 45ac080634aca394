//! A stage after an answer.

ghost use Rattle.std.specs.Prelude.{◌≡◌, ℕ};
ghost use Rattle.xen_back.specs.Rest.{rest_at, rest_in};
ghost use Rattle.xen_steps.specs.Steps.{next_by};

use crate::by_event::answering::{after_event, answer_written};
use crate::by_event::copying::{after_entry, after_page};
use crate::by_event::executing::executed;
use crate::by_event::looking::{after_first, after_second, after_slot, looked_again, started};
use crate::by_event::phase::Phase;
use crate::by_event::sent::sent_fed;
use crate::by_event::stage::Stage;
use crate::copy_buf::CopyBuf;
use xen_turns::{State, Wiring};

/// The stage after a phase's answer.
fn phase_fed<'p, 'b>(
    wiring: &Wiring<'p>,
    state: &State,
    packet: CopyBuf<'b>,
    phase: Phase,
    word: u32,
) -> Stage<'p, 'b>
    ensures { (counter : ℕ) → rest_in wiring.now state.now result
        ≡ next_by (rest_at wiring.now state.now packet.entry phase) word counter }
{
    match phase {
        Phase::Ready => Stage::At(packet, started(state, word)),
        Phase::Announce => Stage::At(packet, Phase::CheckAgain),
        Phase::CheckAgain => Stage::At(packet, looked_again(state, word)),
        Phase::First(reading) => Stage::At(packet, after_first(reading, word)),
        Phase::Second(reading, a) => Stage::At(packet, after_second(reading, a, word)),
        Phase::Third(reading, a, b) => after_slot(wiring, state, packet, reading, [a, b, word]),
        Phase::Answering { at, words, i, kind } => Stage::At(
            packet,
            answer_written(at, words, i, kind),
        ),
        Phase::ReadEvent { at, n, kind } => Stage::At(packet, after_event(at, n, kind, word)),
        Phase::Notice { after, kind } => Stage::At(packet, Phase::Ended { after, kind }),
        Phase::Ended { after, kind } => Stage::At(packet, Phase::Ended { after, kind }),
    }
}

/// The stage after an answer.
pub(crate) fn stage_fed<'p, 'b>(
    wiring: &Wiring<'p>,
    state: &State,
    stage: Stage<'p, 'b>,
    word: u32,
    counter: u64,
) -> Stage<'p, 'b>
    ensures { rest_in wiring.now state.now result ≡ next_by (rest_in wiring.now state.now stage.entry) word counter }
{
    match stage {
        Stage::At(packet, phase) => phase_fed(wiring, state, packet, phase, word),
        Stage::EntryFlags(entry) => Stage::EntryFrame {
            entry,
            flags_word: word,
        },
        Stage::EntryFrame { entry, flags_word } => {
            after_entry(wiring, state, entry, flags_word, word)
        },
        Stage::Page(page) => after_page(wiring, state, page, word),
        Stage::Run(run) => executed(state, run, counter),
        Stage::Send(packet, sent) => sent_fed(wiring, state, packet, sent, word),
    }
}
