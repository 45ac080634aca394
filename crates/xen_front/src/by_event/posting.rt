//! Posting a buffer, and the push of requests.

ghost use Rattle.std.specs.Prelude.{◌≡◌, ℕ, List};
ghost use Rattle.xen_front.specs.Rest.{HasSpace, posting, rest_at};
ghost use Rattle.xen_front.specs.Tree.{notice, publish};
ghost use Rattle.xen_front.specs.declared.state.FrontState.{FrontState};
ghost use Rattle.xen_ring.specs.Index.{is_due};
ghost use Rattle.xen_steps.specs.Places.{add32};
ghost use Rattle.xen_steps.specs.Steps.{want_of};

use crate::by_event::phase::{Phase, Push};
use crate::turn::Outcome;
use xen_buffers::{FrontWiring, buffer_of, grant_flags, grant_frame};
use xen_netif::RxReq;
use xen_ring::due;
use xen_steps::{Want, rx_entry};

/// A grant's flags that let the back read and write: `GTF_permit_access`.
const WRITE_GRANT: u32 = 1;

/// Before a posted buffer's grant.
pub(crate) fn begin_post(id: u8, start: u32) -> Phase
    ensures space { (q : List ℕ) → HasSpace result q }
    ensures rest { (w : FrontWiring) (s : FrontState) (p q : List ℕ) → rest_at w s p q result ≡ posting w s id start 0 }
{
    Phase::PostFrame { id, start }
}

/// The frame word of a posted buffer's grant.
pub(crate) fn post_frame(wiring: &FrontWiring, id: u8) -> Want
    ensures { (s : FrontState) (start : ℕ) → result ≡ want_of (posting wiring.now s id start 0) }
{
    let buffer = buffer_of(wiring.rx, u16::from(id));
    Want::Write(grant_frame(wiring, &buffer), buffer.frame)
}

/// Its flags word: the back may read and write.
pub(crate) fn post_flags(wiring: &FrontWiring, id: u8) -> Want
    ensures { (s : FrontState) (start : ℕ) → result ≡ want_of (posting wiring.now s id start 1) }
{
    let buffer = buffer_of(wiring.rx, u16::from(id));
    Want::Write(
        grant_flags(wiring, &buffer),
        WRITE_GRANT + 0x1_0000 * u32::from(wiring.back),
    )
}

/// The slot's first word: the buffer's id.
pub(crate) fn post_first(wiring: &FrontWiring, id: u8, start: u32) -> Want
    ensures { (s : FrontState) → result ≡ want_of (posting wiring.now s id start 2) }
{
    let gref = buffer_of(wiring.rx, u16::from(id)).gref;
    let id = u16::from(id);
    Want::Write(
        rx_entry(wiring.rx_frame, start, 0),
        RxReq { id, gref }.words()[0],
    )
}

/// The slot's second word: the buffer's reference.
pub(crate) fn post_second(wiring: &FrontWiring, id: u8, start: u32) -> Want
    ensures { (s : FrontState) → result ≡ want_of (posting wiring.now s id start 3) }
{
    let gref = buffer_of(wiring.rx, u16::from(id)).gref;
    let id = u16::from(id);
    Want::Write(
        rx_entry(wiring.rx_frame, start, 1),
        RxReq { id, gref }.words()[1],
    )
}

/// After a posted buffer's slot.
pub(crate) fn posted(wiring: &FrontWiring, start: u32) -> Phase
    ensures space { (q : List ℕ) → HasSpace result q }
    ensures rest { (s : FrontState) (p q : List ℕ) → rest_at wiring.now s p q result
        ≡ publish wiring.now wiring.now.rx_frame start (add32 start 1) s }
{
    Phase::Publish(Push {
        frame: wiring.rx_frame,
        old: start,
        new: start.wrapping_add(1),
    })
}

/// After the event index: a notice if it is due.
pub(crate) fn after_event(push: Push, event: u32) -> Phase
    ensures space { (q : List ℕ) → HasSpace result q }
    ensures rest { (w : FrontWiring) (s : FrontState) (p q : List ℕ) → rest_at w s p q result ≡ notice w (is_due push.old push.new event) s }
{
    if due(push.old, push.new, event) {
        Phase::Notice
    } else {
        Phase::Ended(Outcome::Idle)
    }
}
