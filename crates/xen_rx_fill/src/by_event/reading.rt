//! Reading the posted slots and their grants.

ghost use Rattle.std.specs.Prelude.{◌≡◌, ◌+◌, ◌<◌, ◌≤◌, ◌++◌, [], ◌∷◌, List, ℕ, length, None, Some, false};
ghost use Rattle.xen_netif.specs.declared.offload.RxOffload.{RxOffload};
ghost use Rattle.xen_netif.specs.declared.rx.RxReq.{RxReq};
ghost use Rattle.xen_page.specs.Entry.{entry_of};
ghost use Rattle.xen_page.specs.Grant.{checked};
ghost use Rattle.xen_page.specs.declared.entry.Rights.TheVariants.{ReadWrite};
ghost use Rattle.xen_rx_fill.specs.Entries.{entry_at, entry_checked};
ghost use Rattle.xen_steps.specs.Places.{add32};
ghost use Rattle.xen_rx_fill.specs.Rest.{rest_of, taking};
ghost use Rattle.xen_steps.specs.Steps.{bind};
ghost use Rattle.xen_rx_fill.specs.Transmit.{after_targets, found as found_spec, posted_second, read_targets};
ghost use Rattle.xen_rx_fill.specs.Transmit.{requested as requested_spec, rx_respond, targeted};
ghost use Rattle.xen_rx_fill.specs.declared.target.Grants.TheVariants.{Refused};
ghost use Rattle.xen_rx_fill.specs.declared.vif.Vif.{Vif as VifView};

use crate::by_event::phase::{Granting, Phase, Posting, TransmitOutcome};
use crate::packet::RxPacket;
use crate::target::{Grants, Target, Targets};
use crate::vif::Vif;
use crate::words::{slots_of, takes_extra};
use xen_netif::{RxOffload, RxReq};
use xen_page::{Entry, Place, Rights, check};

/// After the read of the producer, which shows this many slots.
pub(crate) fn found(packet: &RxPacket, shown: Option<u32>) -> Phase
    requires { length packet.now.bytes.now ≤ 65535 }
    ensures { (v : VifView) (x : ℕ) → rest_of v x packet.now.offload packet.now.bytes.now result
        ≡ found_spec v x packet.now.offload packet.now.bytes.now shown }
{
    match shown {
        None => Phase::Over(TransmitOutcome::Overflow),
        Some(m) => {
            let slots = slots_of(packet);
            if m < slots {
                Phase::Over(TransmitOutcome::TooFew)
            } else {
                slot_or_fill(slots, Targets::new())
            }
        }
    }
}

/// Before a slot, or before the buffers if none is left to read.
fn slot_or_fill(left: u32, targets: Targets) -> Phase
    requires { length targets + left ≤ 17 }
    ensures { (v : VifView) (x : ℕ) (o : RxOffload) (packet : List ℕ) → rest_of v x o packet result
        ≡ bind (read_targets v x o left targets) (after_targets v x o packet) }
{
    if left == 0 {
        Phase::Filling { targets, k: 0 }
    } else {
        Phase::First(Posting {
            left: left - 1,
            targets,
        })
    }
}

/// After a slot's first word.
pub(crate) fn after_first(posting: Posting, a: u32) -> Phase
    ensures { (v : VifView) (x : ℕ) (o : RxOffload) (packet : List ℕ) → rest_of v x o packet result
        ≡ bind (posted_second v (add32 x (length posting.targets)) (taking v x o posting.left posting.targets) a)
        (after_targets v x o packet) }
{
    Phase::Second(posting, a)
}

/// After a slot.
pub(crate) fn requested(vif: &Vif, offload: &RxOffload, posting: Posting, request: RxReq) -> Phase
    ensures { (x : ℕ) (packet : List ℕ) → rest_of vif.now x offload.now packet result
        ≡ bind (taking vif.now x offload.now posting.left posting.targets request) (after_targets vif.now x offload.now packet) }
{
    let Posting { left, targets } = posting;
    if takes_extra(offload, targets.len()) {
        let target = Target {
            id: request.id,
            frame: None,
        };
        passed(left, targets, target)
    } else {
        page_requested(vif, left, targets, request)
    }
}

/// After a slot that takes a page.
fn page_requested(vif: &Vif, left: u32, targets: Targets, request: RxReq) -> Phase
    requires { length targets + left < 17 }
    ensures { (x : ℕ) (o : RxOffload) (packet : List ℕ) → rest_of vif.now x o packet result
        ≡ bind (requested_spec vif.now false targets (read_targets vif.now x o left) request) (after_targets vif.now x o packet) }
{
    match vif.table.place(request.gref) {
        None => refused(targets, request.id),
        Some(at) => granting(left, targets, request.id, at),
    }
}

/// Before a slot's entry.
fn granting(left: u32, targets: Targets, id: u16, at: Place) -> Phase
    requires room { length targets + left < 17 }
    requires word { at.word < 1023 }
    ensures { (v : VifView) (x : ℕ) (o : RxOffload) (packet : List ℕ) → rest_of v x o packet result
        ≡ bind (bind (entry_at v ReadWrite (Some at)) (targeted targets (read_targets v x o left) id)) (after_targets v x o packet) }
{
    Phase::EntryFlags(Granting {
        left,
        targets,
        id,
        at,
    })
}

/// After an entry's flags word.
pub(crate) fn after_flags(granting: Granting, flags_word: u32) -> Phase
    ensures { (v : VifView) (x : ℕ) (o : RxOffload) (packet : List ℕ) → rest_of v x o packet result
        ≡ bind (bind (entry_checked v ReadWrite granting.at flags_word)
        (targeted granting.targets (read_targets v x o granting.left) granting.id)) (after_targets v x o packet) }
{
    Phase::EntryFrame {
        granting,
        flags_word,
    }
}

/// After an entry.
pub(crate) fn after_entry(vif: &Vif, granting: Granting, flags_word: u32, frame_word: u32) -> Phase
    ensures { (x : ℕ) (o : RxOffload) (packet : List ℕ) → rest_of vif.now x o packet result
        ≡ bind (targeted granting.targets (read_targets vif.now x o granting.left) granting.id
        (checked vif.now.owners.now vif.now.granter vif.now.user (entry_of flags_word frame_word) ReadWrite))
        (after_targets vif.now x o packet) }
{
    let Granting {
        left,
        targets,
        id,
        at: _,
    } = granting;
    match check(
        vif.owners,
        vif.granter,
        vif.user,
        Entry::of_words(flags_word, frame_word),
        Rights::ReadWrite,
    ) {
        Err(_) => refused(targets, id),
        Ok(frame) => {
            let target = Target {
                id,
                frame: Some(frame),
            };
            passed(left, targets, target)
        }
    }
}

/// After a slot whose grant was refused.
fn refused(targets: Targets, id: u16) -> Phase
    requires { length targets < 17 }
    ensures { (v : VifView) (x : ℕ) (o : RxOffload) (packet : List ℕ) → rest_of v x o packet result
        ≡ rx_respond v x o packet Refused (targets ++ record { id = id; frame = None } ∷ []) }
{
    let mut targets = targets;
    targets.push(Target { id, frame: None });
    Phase::Response {
        grants: Grants::Refused,
        targets,
        i: 0,
    }
}

/// After a slot whose grant passed its check, or that takes the extra.
fn passed(left: u32, targets: Targets, target: Target) -> Phase
    requires { length targets + left < 17 }
    ensures { (v : VifView) (x : ℕ) (o : RxOffload) (packet : List ℕ) → rest_of v x o packet result
        ≡ bind (read_targets v x o left (targets ++ target ∷ [])) (after_targets v x o packet) }
{
    let mut targets = targets;
    targets.push(target);
    slot_or_fill(left, targets)
}
