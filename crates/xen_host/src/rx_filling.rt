//! A packet on its way into rx buffers.

ghost use Rattle.std.specs.Prelude.{◌≡◌, ◌<◌, ◌≤◌, ◌+◌, ◌*◌, ◌-◌, ◌++◌, ◌∷◌, [], ℕ, List, false, length, suc, true};
ghost use Rattle.std.specs.Prelude.{None, Some};
ghost use Rattle.std.specs.Prelude.{slice_index};
ghost use Rattle.xen_netif.specs.Slots.{rx_req_of};
ghost use Rattle.xen_page.specs.Entry.{entry_of};
ghost use Rattle.xen_page.specs.Grant.{checked};
ghost use Rattle.xen_page.specs.declared.entry.Rights.TheVariants.{ReadWrite};
ghost use Rattle.xen_steps.specs.Places.{add32, available};
ghost use Rattle.xen_steps.specs.Steps.{bind};
ghost use Rattle.xen_rx_fill.specs.Entries.{entry};
ghost use Rattle.xen_rx_fill.specs.Packets.{takes_extra};
ghost use Rattle.xen_rx_fill.specs.Places.{rx_slot};
ghost use Rattle.xen_rx_fill.specs.Transmit.{after_targets, fill_from, found, read_targets, requested, rx_respond, targeted};
ghost use Rattle.xen_rx_fill.specs.declared.target.Grants.TheVariants.{Passed, Refused};
ghost use Rattle.xen_host.specs.Early.{is_late};
ghost use Rattle.xen_host.specs.Fits.{FillFits};
ghost use Rattle.xen_host.specs.HostLed.{FillGoesOn, FillLeads};
ghost use Rattle.xen_host.specs.Led.{beside};
ghost use Rattle.xen_host.specs.Rest.{rx_offload};
ghost use Rattle.xen_host.specs.EngineAt.{engine_at, work_at};

use crate::engine::Engine;
use crate::host::Host;
use crate::room::Room;
use crate::stage::{Fill, Purpose, Stage};
use crate::wires::Wires;
use crate::words::are_words;
use xen_netif::RxReq;
use xen_page::{Entry, Place, Rights};
use xen_ring::{REQ_PROD, RSP_EVENT};
use xen_rx_fill::{Grants, Target, Targets, TransmitOutcome, words_of};
use xen_steps::{header, requests_shown, rx_entry};

impl Engine {
    /// After what it waited for.
    #[inline(always)]
    pub(crate) fn after_fill<W: Wires, H: Host, R: Room>(
        &mut self,
        fill: Fill,
        purpose: Purpose,
        wires: &W,
        packet: &mut R,
        host: &mut H,
    )
        requires fits { FillFits fill (work_at (R.held packet.old) self.old.work) }
        requires fresh { H.is_fresh host.old }
        requires free { H.is_free host.old }
        ensures led { FillGoesOn H.was_asked H.is_full H.has_given fill purpose (engine_at (W.wiring wires.now) (R.held packet.old)
            self.old)
            (engine_at (W.wiring wires.now) (R.held packet.new) self.new) host.old host.new }
        ensures late { is_late self.new.stage ≡ true }
    {
        match fill {
            Fill::Producer => {
                let producer = host.word(header(wires.rx(), REQ_PROD));
                self.found(purpose, producer, wires, packet, host)
            }
            Fill::Slot { left } => {
                let [first, second] = host.two(self.post_place(wires));
                // Only the proof uses what this call ensures: a word is below 2^32.
                are_words(&[first, second]);
                self.after_post(purpose, left, [first, second], wires, packet, host)
            }
            Fill::Grant { left, id, at } => {
                let [first, second] = host.two(at);
                // Only the proof uses what this call ensures: a word is below 2^32.
                are_words(&[first, second]);
                self.after_grant(purpose, left, id, [first, second], wires, packet, host)
            }
            Fill::Words { i } => self.write_page(purpose, i, wires, packet, host),
            Fill::Respond { grants, i } => self.reply_from(purpose, grants, i, wires, packet, host),
            Fill::Push { grants } => {
                let event = host.word(header(wires.rx(), RSP_EVENT));
                self.after_reply_event(purpose, grants, event, wires, packet, host)
            }
            Fill::Notice { grants } => self.replied(purpose, grants, wires, packet, host),
        }
    }

    /// After the rx producer.
    #[inline(always)]
    pub(crate) fn found<W: Wires, H: Host, R: Room>(
        &mut self,
        purpose: Purpose,
        producer: u32,
        wires: &W,
        packet: &mut R,
        host: &mut H,
    )
        requires free { H.is_free host.old }
        ensures led { FillLeads H.was_asked H.is_full purpose (beside (engine_at (W.wiring wires.now) (R.held packet.old) self.old)) (found
            (W.wiring wires.now).vif self.old.state.rx_index (rx_offload purpose self.old.work.offload) (R.held packet.old) (available self.old.state.rx_index
            producer)) (engine_at
            (W.wiring wires.now) (R.held packet.new) self.new) host.old host.new }
        ensures late { is_late self.new.stage ≡ true }
    {
        match requests_shown(self.state.rx_index, producer) {
            None => self.filled(purpose, TransmitOutcome::Overflow, wires, packet, host),
            Some(shown) => {
                let wanted = self.slots(purpose, packet.bytes());
                if shown < wanted {
                    return self.filled(purpose, TransmitOutcome::TooFew, wires, packet, host);
                }
                self.work.targets = Targets::new();
                if wanted == 0 {
                    return self.reply_none(purpose, wires, packet, host);
                }
                self.read_post(purpose, wanted - 1, wires, host)
            }
        }
    }

    /// Answers no slot, as the packet takes none.
    #[inline(always)]
    fn reply_none<W: Wires, H: Host, R: Room>(
        &mut self,
        purpose: Purpose,
        wires: &W,
        packet: &R,
        host: &mut H,
    )
        requires free { H.is_free host.old }
        ensures led { FillLeads H.was_asked H.is_full purpose (beside (engine_at (W.wiring wires.now) (R.held packet.now) self.old))
            (rx_respond (W.wiring wires.now).vif self.old.state.rx_index (rx_offload purpose self.old.work.offload) (R.held packet.now) Passed
            self.old.work.targets) (engine_at (W.wiring wires.now) (R.held packet.now) self.new) host.old host.new }
        ensures late { is_late self.new.stage ≡ true }
    {
        self.reply_from(purpose, Grants::Passed, 0, wires, packet, host)
    }

    /// The next slot is read, and `left` slots are left after it.
    #[inline(always)]
    fn read_post<W: Wires, H: Host>(&mut self, purpose: Purpose, left: u32, wires: &W, host: &mut H)
        requires few { length self.old.work.targets + left < 17 }
        requires free { H.is_free host.old }
        ensures led { (packet : List ℕ) → FillLeads H.was_asked H.is_full purpose (beside (engine_at (W.wiring wires.now) packet
            self.old)) (bind (read_targets (W.wiring wires.now).vif self.old.state.rx_index (rx_offload purpose self.old.work.offload) (suc left)
            self.old.work.targets) (after_targets (W.wiring wires.now).vif self.old.state.rx_index (rx_offload purpose self.old.work.offload) packet)) (engine_at (W.wiring wires.now) packet
            self.new) host.old host.new }
        ensures late { is_late self.new.stage ≡ true }
    {
        self.stage = Stage::Fill {
            fill: Fill::Slot { left },
            purpose,
        };
        host.read(self.post_place(wires), 2)
    }

    /// The place of the next rx slot.
    #[inline(always)]
    fn post_place<W: Wires>(&self, wires: &W) -> Place
        ensures { result ≡ rx_slot (W.wiring wires.now).vif (add32 self.now.state.rx_index (length self.now.work.targets)) 0 }
    {
        let index = self.state.rx_index.wrapping_add(self.work.targets.len());
        rx_entry(wires.rx(), index, 0)
    }

    /// After a slot.
    #[inline(always)]
    fn after_post<W: Wires, H: Host, R: Room>(
        &mut self,
        purpose: Purpose,
        left: u32,
        slot: [u32; 2],
        wires: &W,
        packet: &R,
        host: &mut H,
    )
        requires few { length self.old.work.targets + left < 17 }
        requires fresh { H.is_fresh host.old }
        requires free { H.is_free host.old }
        ensures led { FillLeads H.was_asked H.is_full purpose (beside (engine_at (W.wiring wires.now) (R.held packet.now) self.old)) (bind
            (requested (W.wiring wires.now).vif (takes_extra (rx_offload purpose self.old.work.offload) (length self.old.work.targets)) self.old.work.targets
            (read_targets (W.wiring wires.now).vif self.old.state.rx_index (rx_offload purpose self.old.work.offload) left) (rx_req_of slot)) (after_targets
            (W.wiring wires.now).vif self.old.state.rx_index (rx_offload purpose self.old.work.offload) (R.held packet.now))) (engine_at (W.wiring wires.now)
            (R.held packet.now) self.new) host.old host.new }
        ensures late { is_late self.new.stage ≡ true }
    {
        let request = RxReq::of_words(slot);
        if self.takes_extra(purpose, self.work.targets.len()) {
            return self.take_extra(purpose, left, request.id, wires, packet, host);
        }
        self.read_grant(purpose, left, request, wires, packet, host)
    }

    /// A slot that takes the extra passes, whatever it grants.
    #[inline(always)]
    fn take_extra<W: Wires, H: Host, R: Room>(
        &mut self,
        purpose: Purpose,
        left: u32,
        id: u16,
        wires: &W,
        packet: &R,
        host: &mut H,
    )
        requires few { length self.old.work.targets + left < 17 }
        requires fresh { H.is_fresh host.old }
        requires free { H.is_free host.old }
        ensures led { FillLeads H.was_asked H.is_full purpose (beside (engine_at (W.wiring wires.now) (R.held packet.now) self.old)) (bind
            (read_targets (W.wiring wires.now).vif self.old.state.rx_index (rx_offload purpose self.old.work.offload) left (self.old.work.targets ++ record {
              id =
                  id;
              frame = None;
            } ∷ [])) (after_targets (W.wiring wires.now).vif self.old.state.rx_index (rx_offload purpose self.old.work.offload) (R.held packet.now))) (engine_at
            (W.wiring wires.now) (R.held packet.now) self.new) host.old host.new }
        ensures late { is_late self.new.stage ≡ true }
    {
        self.passed(
            purpose,
            left,
            Target { id, frame: None },
            wires,
            packet,
            host,
        )
    }

    /// The entry of a slot that takes a page is read.
    #[inline(always)]
    fn read_grant<W: Wires, H: Host, R: Room>(
        &mut self,
        purpose: Purpose,
        left: u32,
        request: RxReq,
        wires: &W,
        packet: &R,
        host: &mut H,
    )
        requires few { length self.old.work.targets + left < 17 }
        requires free { H.is_free host.old }
        ensures led { FillLeads H.was_asked H.is_full purpose (beside (engine_at (W.wiring wires.now) (R.held packet.now) self.old)) (bind
            (requested (W.wiring wires.now).vif false self.old.work.targets (read_targets (W.wiring wires.now).vif
            self.old.state.rx_index (rx_offload purpose self.old.work.offload) left) request) (after_targets (W.wiring wires.now).vif self.old.state.rx_index
            (rx_offload purpose self.old.work.offload) (R.held packet.now))) (engine_at (W.wiring wires.now) (R.held packet.now) self.new) host.old host.new }
        ensures late { is_late self.new.stage ≡ true }
    {
        let RxReq { id, gref } = request;
        match wires.place(gref) {
            None => self.refuse_post(purpose, id, wires, packet, host),
            Some(at) => {
                self.stage = Stage::Fill {
                    fill: Fill::Grant { left, id, at },
                    purpose,
                };
                host.read_entry(at, gref, Rights::ReadWrite)
            }
        }
    }

    /// A slot that is refused is the last.
    #[inline(always)]
    fn refuse_post<W: Wires, H: Host, R: Room>(
        &mut self,
        purpose: Purpose,
        id: u16,
        wires: &W,
        packet: &R,
        host: &mut H,
    )
        requires few { length self.old.work.targets < 17 }
        requires free { H.is_free host.old }
        ensures led { FillLeads H.was_asked H.is_full purpose (beside (engine_at (W.wiring wires.now) (R.held packet.now) self.old))
            (rx_respond (W.wiring wires.now).vif self.old.state.rx_index (rx_offload purpose self.old.work.offload) (R.held packet.now) Refused (self.old.work.targets ++ record {
              id =
                  id;
              frame = None;
            } ∷ [])) (engine_at (W.wiring wires.now) (R.held packet.now) self.new) host.old host.new }
        ensures late { is_late self.new.stage ≡ true }
    {
        self.work.targets.push(Target { id, frame: None });
        self.reply_from(purpose, Grants::Refused, 0, wires, packet, host)
    }

    /// After an entry.
    #[inline(always)]
    fn after_grant<W: Wires, H: Host, R: Room>(
        &mut self,
        purpose: Purpose,
        left: u32,
        id: u16,
        words: [u32; 2],
        wires: &W,
        packet: &R,
        host: &mut H,
    )
        requires few { length self.old.work.targets + left < 17 }
        requires fresh { H.is_fresh host.old }
        requires free { H.is_free host.old }
        ensures led { FillLeads H.was_asked H.is_full purpose (beside (engine_at (W.wiring wires.now) (R.held packet.now) self.old)) (bind
            (targeted self.old.work.targets (read_targets (W.wiring wires.now).vif self.old.state.rx_index (rx_offload purpose self.old.work.offload) left) id (checked
            (W.wiring wires.now).vif.owners.now (W.wiring wires.now).vif.granter (W.wiring wires.now).vif.user (entry_of
            (slice_index words 0) (slice_index words 1)) ReadWrite)) (after_targets (W.wiring wires.now).vif self.old.state.rx_index
            (rx_offload purpose self.old.work.offload) (R.held packet.now))) (engine_at (W.wiring wires.now) (R.held packet.now) self.new) host.old host.new }
        ensures late { is_late self.new.stage ≡ true }
    {
        let entry = Entry::of_words(words[0], words[1]);
        match wires.granted(entry, Rights::ReadWrite) {
            Err(_) => self.refuse_post(purpose, id, wires, packet, host),
            Ok(frame) => {
                let target = Target {
                    id,
                    frame: Some(frame),
                };
                self.passed(purpose, left, target, wires, packet, host)
            }
        }
    }

    /// After a slot whose grant passed its check, or that takes the extra.
    #[inline(always)]
    fn passed<W: Wires, H: Host, R: Room>(
        &mut self,
        purpose: Purpose,
        left: u32,
        target: Target,
        wires: &W,
        packet: &R,
        host: &mut H,
    )
        requires few { length self.old.work.targets + left < 17 }
        requires fresh { H.is_fresh host.old }
        requires free { H.is_free host.old }
        ensures led { FillLeads H.was_asked H.is_full purpose (beside (engine_at (W.wiring wires.now) (R.held packet.now) self.old)) (bind
            (read_targets (W.wiring wires.now).vif self.old.state.rx_index (rx_offload purpose self.old.work.offload) left (self.old.work.targets ++ target ∷ []))
            (after_targets (W.wiring wires.now).vif self.old.state.rx_index (rx_offload purpose self.old.work.offload) (R.held packet.now))) (engine_at (W.wiring
            wires.now) (R.held packet.now) self.new) host.old host.new }
        ensures late { is_late self.new.stage ≡ true }
    {
        self.work.targets.push(target);
        if left == 0 {
            self.write_page(purpose, 0, wires, packet, host)
        } else {
            self.read_post(purpose, left - 1, wires, host)
        }
    }

    /// The packet's words in its i-th page are written; after the last page the responses follow.
    #[inline(always)]
    fn write_page<W: Wires, H: Host, R: Room>(
        &mut self,
        purpose: Purpose,
        i: u32,
        wires: &W,
        packet: &R,
        host: &mut H,
    )
        requires few { i ≤ 16 }
        requires fresh { H.is_fresh host.old }
        requires free { H.is_free host.old }
        ensures led { FillLeads H.was_asked H.is_full purpose (beside (engine_at (W.wiring wires.now) (R.held packet.now) self.old))
            (fill_from (W.wiring wires.now).vif self.old.state.rx_index (rx_offload purpose self.old.work.offload) (R.held packet.now) self.old.work.targets (1024
            * i)) (engine_at
            (W.wiring wires.now) (R.held packet.now) self.new) host.old host.new }
        ensures late { is_late self.new.stage ≡ true }
    {
        let all = words_of(packet.bytes());
        let from = 1024 * i;
        if all <= from {
            return self.reply_from(purpose, Grants::Passed, 0, wires, packet, host);
        }
        let to = all.min(from + 1024);
        let at = Place {
            frame: self.buffer(purpose, i),
            word: 0,
        };
        host.write(at, packet.bytes(), from, to - from);
        if to < all || !host.has_room() {
            self.stage = Stage::Fill {
                fill: Fill::Words { i: i + 1 },
                purpose,
            };
            return;
        }
        self.reply_from(purpose, Grants::Passed, 0, wires, packet, host)
    }
}
