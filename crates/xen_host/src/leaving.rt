//! What a packet on its way into rx buffers leaves to the frontend. Most leave nothing, and their way is short: what the others take is
//! out of line.

ghost use Rattle.std.specs.Prelude.{◌≡◌, ◌<◌, ◌≤◌, ◌^◌, length, true};
ghost use Rattle.xen_netif.specs.declared.offload.RxOffload.TheVariants.{Whole};
ghost use Rattle.xen_rx_fill.specs.Packets.{frame_in, response_words, slot_of, slots, takes_extra, target_at};
ghost use Rattle.xen_host.specs.Rest.{rx_offload};

use crate::engine::Engine;
use crate::stage::Purpose;
use xen_netif::RxOffload;
use xen_rx_fill::{Grants, RxPacket, buffer_frame, response, slots_of, takes_extra};

impl Engine {
    /// Returns what the packet leaves to the frontend: nothing, if it is sent back.
    fn left(&self, purpose: Purpose) -> RxOffload
        ensures { result ≡ rx_offload purpose self.now.work.offload }
    {
        match purpose {
            Purpose::Back { .. } => RxOffload::Whole,
            Purpose::Delivery => self.work.offload,
        }
    }

    /// Returns whether it is known to leave nothing.
    #[inline(always)]
    fn is_whole(&self, purpose: Purpose) -> bool
        ensures { result ≡ true → rx_offload purpose self.now.work.offload ≡ Whole }
    {
        match purpose {
            Purpose::Back { .. } => true,
            Purpose::Delivery => matches!(self.work.offload, RxOffload::Whole),
        }
    }

    /// Returns the number of slots that the packet takes.
    #[inline(always)]
    pub(crate) fn slots(&self, purpose: Purpose, bytes: &[u8]) -> u32
        requires { length bytes.now ≤ 65535 }
        ensures value { result ≡ slots (rx_offload purpose self.now.work.offload) bytes.now }
        ensures few { result ≤ 17 }
    {
        if self.is_whole(purpose) {
            let offload = RxOffload::Whole;
            return slots_of(&RxPacket { offload, bytes });
        }
        self.slots_left(purpose, bytes)
    }

    #[inline(never)]
    fn slots_left(&self, purpose: Purpose, bytes: &[u8]) -> u32
        requires { length bytes.now ≤ 65535 }
        ensures value { result ≡ slots (rx_offload purpose self.now.work.offload) bytes.now }
        ensures few { result ≤ 17 }
    {
        let offload = self.left(purpose);
        slots_of(&RxPacket { offload, bytes })
    }

    /// Returns whether the i-th slot takes the extra, and no page.
    #[inline(always)]
    pub(crate) fn takes_extra(&self, purpose: Purpose, i: u32) -> bool
        ensures { result ≡ takes_extra (rx_offload purpose self.now.work.offload) i }
    {
        if self.is_whole(purpose) {
            return takes_extra(&RxOffload::Whole, i);
        }
        self.takes_extra_left(purpose, i)
    }

    #[inline(never)]
    fn takes_extra_left(&self, purpose: Purpose, i: u32) -> bool
        ensures { result ≡ takes_extra (rx_offload purpose self.now.work.offload) i }
    {
        takes_extra(&self.left(purpose), i)
    }

    /// The frame of the buffer that takes a page.
    #[inline(always)]
    pub(crate) fn buffer(&self, purpose: Purpose, page: u32) -> u32
        requires { page < 2 ^ 22 }
        ensures { result ≡ frame_in (target_at self.now.work.targets (slot_of (rx_offload purpose self.now.work.offload) page)).frame }
    {
        if self.is_whole(purpose) {
            return buffer_frame(&RxOffload::Whole, &self.work.targets, page);
        }
        self.buffer_left(purpose, page)
    }

    #[inline(never)]
    fn buffer_left(&self, purpose: Purpose, page: u32) -> u32
        requires { page < 2 ^ 22 }
        ensures { result ≡ frame_in (target_at self.now.work.targets (slot_of (rx_offload purpose self.now.work.offload) page)).frame }
    {
        buffer_frame(&self.left(purpose), &self.work.targets, page)
    }

    /// The words of the i-th response.
    #[inline(always)]
    pub(crate) fn response(
        &self,
        purpose: Purpose,
        grants: Grants,
        bytes: &[u8],
        i: u32,
    ) -> [u32; 2]
        requires short { length bytes.now ≤ 65535 }
        requires within { i < length self.now.work.targets }
        ensures { result ≡ response_words (rx_offload purpose self.now.work.offload) grants bytes.now (length self.now.work.targets) i
            (target_at self.now.work.targets i).id }
    {
        if self.is_whole(purpose) {
            let offload = RxOffload::Whole;
            let packet = RxPacket { offload, bytes };
            return response(grants, &packet, &self.work.targets, i);
        }
        self.response_left(purpose, grants, bytes, i)
    }

    #[inline(never)]
    fn response_left(&self, purpose: Purpose, grants: Grants, bytes: &[u8], i: u32) -> [u32; 2]
        requires short { length bytes.now ≤ 65535 }
        requires within { i < length self.now.work.targets }
        ensures { result ≡ response_words (rx_offload purpose self.now.work.offload) grants bytes.now (length self.now.work.targets) i
            (target_at self.now.work.targets i).id }
    {
        let offload = self.left(purpose);
        let packet = RxPacket { offload, bytes };
        response(grants, &packet, &self.work.targets, i)
    }
}
