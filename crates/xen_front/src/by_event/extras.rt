//! The extra of a packet that is to be segmented. It lies behind the packet's first response, in the entry of a buffer that
//! was posted, which comes back unused.

ghost use Rattle.std.specs.Prelude.{◌≡◌, ℕ, List};
ghost use Rattle.xen_front.specs.Rest.{HasSpace, before_extra, gathered, rest_at};
ghost use Rattle.xen_front.specs.Slots.{extra_of, extra_taken, posted_at as posted_at_spec, segments_in as segments_in_spec};
ghost use Rattle.xen_front.specs.Tree.{chained as chained_spec, extra_checked, extra_first, receive};

use crate::by_event::ids::ENTRIES;
use crate::by_event::phase::{Chained, Extra, Phase};
use crate::by_event::receiving::{given, more_responses, one_less};
use crate::by_event::taking::{halt, is_in_flight, land};
use crate::state::FrontState;
use crate::turn::FrontHalt;
use xen_buffers::FrontWiring;
use xen_netif::{Accepts, GsoExtra, GsoType, RxOffload, Segments};

/// The id of the request in the entry of the next rx response.
fn posted_at(state: &FrontState) -> u16
    ensures { result ≡ posted_at_spec state.now }
{
    let entry = state.rx.cons % ENTRIES;
    u16::from(state.posts[entry as usize])
}

/// Returns how a packet is to be segmented whose extra has these words, if the front takes it.
fn segments_in(accepts: &Accepts, first: u32, second: u32) -> Option<Segments>
    ensures { result ≡ segments_in_spec accepts.now (extra_of first second) }
{
    let GsoExtra {
        more,
        size,
        kind,
        ..
    } = GsoExtra::of_words([first, second, 0])?;
    let is_cut = 0 < size;
    if more || !is_cut {
        return None;
    }
    let kind = GsoType::of_number(kind)?;
    if accepts.segments.has(kind) {
        Some(Segments { kind, size })
    } else {
        None
    }
}

/// Before an extra that the producer showed.
fn shown(extra: Extra) -> Phase
    ensures space { (q : List ℕ) → HasSpace result q }
    ensures rest { (w : FrontWiring) (s : FrontState) (p q : List ℕ) → rest_at w s p q result
        ≡ extra_first w extra.more s (before_extra extra.chained extra.more q) (receive w extra.chained.left) }
{
    Phase::ExtraFirst(extra)
}

/// Before the extra, or the halt if the producer showed none: here `left` counts it too.
pub(crate) fn extra_next(state: &mut FrontState, chained: Chained, more: bool) -> Phase
    ensures space { (q : List ℕ) → HasSpace result q }
    ensures rest { (w : FrontWiring) (p q : List ℕ) → rest_at w state.new p q result
        ≡ receive w chained.left state.old (before_extra chained more q) }
{
    if chained.left == 0 {
        halt(state, FrontHalt::ShortChain)
    } else {
        shown(Extra {
            chained: one_less(chained),
            more,
        })
    }
}

/// After an extra's two words.
pub(crate) fn after_extra(state: &mut FrontState, extra: Extra, first: u32, second: u32) -> Phase
    ensures space { (q : List ℕ) → HasSpace result q }
    ensures rest { (w : FrontWiring) (p q : List ℕ) → rest_at w state.new p q result
        ≡ extra_checked w extra.more state.old (before_extra extra.chained extra.more q) (extra_taken state.old first second)
        (receive w extra.chained.left) }
{
    let id = posted_at(state);
    if !is_in_flight(&state.rx, id) {
        return halt(state, FrontHalt::RxSlot);
    }
    match segments_in(&state.accepts, first, second) {
        None => halt(state, FrontHalt::RxSlot),
        Some(segments) => {
            land(&mut state.rx, id);
            let Extra { chained, more } = extra;
            let chained = Chained {
                left: chained.left,
                slots: chained.slots,
                bad: chained.bad,
                offload: RxOffload::Segmented(segments),
            };
            Phase::ExtraEnd {
                extra: Extra { chained, more },
                id,
            }
        }
    }
}

/// After the end of the grant: the chain is whole, or goes on.
pub(crate) fn extra_ended(state: &mut FrontState, extra: Extra) -> Phase
    ensures space { (q : List ℕ) → HasSpace result q }
    ensures rest { (w : FrontWiring) (p q : List ℕ) → rest_at w state.new p q result
        ≡ chained_spec extra.more state.old (gathered extra.chained q) (receive w extra.chained.left) }
{
    if extra.more {
        more_responses(state, extra.chained)
    } else {
        given(extra.chained.bad, extra.chained.offload)
    }
}
