//! The end of a turn.

ghost use Rattle.std.specs.Prelude.{◌≡◌, List, ℕ};
ghost use Rattle.xen_back.specs.Rest.{at_phase, packet_at, rest_at, rest_in};
ghost use Rattle.xen_steps.specs.Steps.{done, want_of};
ghost use Rattle.xen_turns.specs.Turned.{turned};
ghost use Rattle.xen_back.specs.declared.by_event.phase.Phase.{Phase as PhaseView};
ghost use Rattle.xen_back.specs.declared.by_event.phase.Phase.TheVariants as phases;
ghost use Rattle.xen_back.specs.declared.by_event.stage.Stage.TheVariants as stages;
ghost use Rattle.xen_turns.specs.declared.wiring.Wiring.{Wiring as WiringView};

use crate::by_event::phase::Phase;
use crate::by_event::stage::Stage;
use xen_steps::Want;
use xen_turns::{Kind, State};

/// Gives a stage another phase, if it has one.
fn set_phase(stage: &mut Stage, phase: Phase)
    ensures { stage.new ≡ at_phase stage.old phase }
{
    if let Stage::At(_, now) = stage {
        *now = phase;
    }
}

/// The state and the turn of a stage that wants nothing more. The stage is then between turns.
pub(crate) fn over(state: &State, stage: &mut Stage) -> (State, Kind)
    requires { (w : WiringView) × (want_of (rest_in w state.now stage.old) ≡ Want.Done) }
    ensures over { (w : WiringView) → rest_in w state.now stage.old ≡ done (result.0, turned result.1 (packet_at stage.new)) }
    ensures ready { (p : List ℕ) × (stage.new ≡ stages.At p phases.Ready) }
{
    let end = ended(state, stage);
    set_phase(stage, Phase::Ready);
    end
}

/// The state and the turn of a stage that wants nothing more.
fn ended(state: &State, stage: &Stage) -> (State, Kind)
    requires { (w : WiringView) × (want_of (rest_in w state.now stage.now) ≡ Want.Done) }
    ensures at { (p : List ℕ) × (x : PhaseView) × (stage.now ≡ stages.At p x) }
    ensures over { (w : WiringView) → rest_in w state.now stage.now ≡ done (result.0, turned result.1 (packet_at stage.now)) }
{
    match stage {
        Stage::At(_, phase) => ending(state, phase),
        Stage::Run(run) => {
            // Only the proof uses what this call ensures: a program that runs wants something.
            let _want = run.vm.want();
            unreachable!()
        }
        _ => unreachable!(),
    }
}

fn ending(state: &State, phase: &Phase) -> (State, Kind)
    requires { (w : WiringView) × (packet : List ℕ) × (want_of (rest_at w state.now packet phase.now) ≡ Want.Done) }
    ensures { (w : WiringView) (packet : List ℕ) → rest_at w state.now packet phase.now ≡ done (result.0, turned result.1 packet) }
{
    match phase {
        Phase::Ended { after, kind } => (*after, *kind),
        Phase::Ready => match state.halt {
            Some(cause) => (*state, Kind::Halted { cause }),
            None => unreachable!(),
        },
        _ => unreachable!(),
    }
}
