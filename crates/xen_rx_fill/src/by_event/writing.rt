//! Writing the buffers and the responses.

ghost use Rattle.std.specs.Prelude.{◌≡◌, ◌+◌, ◌<◌, ◌≤◌, List, ℕ, length, drop};
ghost use Rattle.xen_netif.specs.declared.offload.RxOffload.{RxOffload};
ghost use Rattle.xen_ring.specs.Index.{is_due};
ghost use Rattle.xen_rx_fill.specs.Packets.{response_word, target_at as target_at_spec};
ghost use Rattle.xen_steps.specs.Places.{add32};
ghost use Rattle.xen_rx_fill.specs.Places.{rx_slot};
ghost use Rattle.xen_rx_fill.specs.Rest.{rest_of};
ghost use Rattle.xen_steps.specs.Steps.{ask, next_by};
ghost use Rattle.xen_rx_fill.specs.Transmit.{fill_from, outcome_of, rx_answer, rx_notice};
ghost use Rattle.xen_steps.specs.declared.want.Want.TheVariants as want;
ghost use Rattle.xen_rx_fill.specs.declared.vif.Vif.{Vif as VifView};

use crate::by_event::phase::{Phase, Responding, TransmitOutcome};
use crate::target::{Grants, Targets};
use crate::words::words_of;
use xen_ring::due;

/// After a word of a buffer, or after the first response's first word if all words were written.
pub(crate) fn filled(bytes: &[u8], targets: Targets, k: u32) -> Phase
    requires { length bytes.now ≤ 65535 }
    ensures { (v : VifView) (x : ℕ) (o : RxOffload) → rest_of v x o bytes.now result ≡ next_by (fill_from v x o bytes.now targets k) 0 0 }
{
    if k < words_of(bytes) {
        Phase::Filling { targets, k: k + 1 }
    } else {
        responded(Grants::Passed, targets, 0)
    }
}

/// After a response's first word, or after the push if all responses were written.
pub(crate) fn responded(grants: Grants, targets: Targets, i: u32) -> Phase
    ensures { (v : VifView) (x : ℕ) (o : RxOffload) (packet : List ℕ) → rest_of v x o packet result
        ≡ next_by (rx_answer v x o packet grants (length targets) i (drop i targets)) 0 0 }
{
    let n = targets.len();
    if i < n {
        half_responded(grants, targets, i)
    } else {
        Phase::ReadEvent { grants, n }
    }
}

/// Between the words of a response.
fn half_responded(grants: Grants, targets: Targets, i: u32) -> Phase
    requires { i < length targets }
    ensures { (v : VifView) (x : ℕ) (o : RxOffload) (packet : List ℕ) → rest_of v x o packet result
        ≡ ask (want.Write (rx_slot v (add32 x i) 1) (response_word o grants packet (length targets) i (target_at_spec targets i).id 1))
        (λ _. rx_answer v x o packet grants (length targets) (i + 1) (drop (i + 1) targets)) }
{
    Phase::HalfResponse(Responding { grants, targets, i })
}

/// After a response.
pub(crate) fn after_response(responding: Responding) -> Phase
    ensures { (v : VifView) (x : ℕ) (o : RxOffload) (packet : List ℕ) → rest_of v x o packet result
        ≡ rx_answer v x o packet responding.grants (length responding.targets) (responding.i + 1)
        (drop (responding.i + 1) responding.targets) }
{
    let Responding { grants, targets, i } = responding;
    // Only the proof uses what this call ensures: there are few targets.
    let _few = targets.len();
    Phase::Response {
        grants,
        targets,
        i: i + 1,
    }
}

pub(crate) fn outcome(grants: Grants, n: u32) -> TransmitOutcome
    ensures { result ≡ outcome_of grants n }
{
    match grants {
        Grants::Passed => TransmitOutcome::Sent(n),
        Grants::Refused => TransmitOutcome::Refused(n),
    }
}

/// After the event index.
pub(crate) fn after_event(rx_index: u32, grants: Grants, n: u32, event: u32) -> Phase
    ensures { (v : VifView) (o : RxOffload) (packet : List ℕ) → rest_of v rx_index o packet result
        ≡ rx_notice v (is_due rx_index (add32 rx_index n) event) (outcome_of grants n) }
{
    if due(rx_index, rx_index.wrapping_add(n), event) {
        Phase::Notice { grants, n }
    } else {
        Phase::Over(outcome(grants, n))
    }
}
