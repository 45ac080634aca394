//! Segmentation offload: what an extra says of it, and what a queue offers.

ghost use Rattle.std.specs.Prelude.{◌≡◌, ◌≢◌, IfNone, IfSome, IsSome, IsTrue, ◌↔◌, ◌∷◌, List, None, Some, Err, false, true};
ghost use Rattle.xen_netif.specs.Chain.{Slot, extra_info};
ghost use Rattle.xen_netif.specs.Fragments.{fragments_of};
ghost use Rattle.xen_netif.specs.Segments.{AreSegments, offered_fragments, segments_of};
ghost use Rattle.xen_netif.specs.Segments.{gso_extra_named, gso_extra_of, gso_extra_words, gso_type_number, gso_type_of};
ghost use Rattle.xen_netif.specs.Segments.{is_gso, is_offered, is_segment_size, no_offers, segments_said};

use crate::bits::{bit_at, high_half, join_halves};
use crate::extra::{ExtraType, asks_extra};
use crate::fault::SizeFault;
use crate::tx::TxReq;

/// The fewest bytes of a segment: what any host takes (RFC 9293).
const LEAST_SEGMENT: u16 = 536;

/// The protocol that is segmented (`XEN_NETIF_GSO_TYPE_*`).
#[derive(Clone, Copy, Debug, PartialEq, Eq)]
pub enum GsoType {
    /// TCP over IPv4.
    TcpV4 = 1,
    /// TCP over IPv6.
    TcpV6 = 2,
}

impl GsoType {
    /// The type with this number, if it has a name.
    pub fn of_number(number: u8) -> Option<GsoType>
        ensures computed { result ≡ gso_type_of number }
        ensures named { IfSome result (λ kind. gso_type_number kind ≡ number) }
        ensures unnamed { IfNone result ((kind : GsoType) → gso_type_number kind ≢ number) }
    {
        match number {
            1 => Some(GsoType::TcpV4),
            2 => Some(GsoType::TcpV6),
            _ => None,
        }
    }

    /// The number in an extra.
    pub fn number(self) -> u8
        ensures { result ≡ gso_type_number self }
    {
        self as u8
    }
}

/// An extra that says how to segment a packet (`struct xen_netif_extra_info`, `u.gso`).
#[derive(Clone, Copy, Debug, Default, PartialEq, Eq)]
pub struct GsoExtra {
    /// True if another extra follows (`XEN_NETIF_EXTRA_FLAG_MORE`).
    pub more: bool,
    /// The most bytes of payload in a segment.
    pub size: u16,
    /// The number of a [`GsoType`], unless the other side wrote another number.
    pub kind: u8,
    /// Further features (`XEN_NETIF_GSO_FEAT_*`). `netif.h` names none.
    pub features: u16,
}

impl GsoExtra {
    /// The extra in an entry's three words, if its type is GSO. Flags without a name and the pad are ignored.
    pub fn of_words(words: [u32; 3]) -> Option<GsoExtra>
        ensures known { IsSome result ↔ IsTrue (is_gso words) }
        ensures fields { IfSome result (λ extra. extra ≡ gso_extra_of words) }
        ensures writes_back { IfSome result (λ extra. gso_extra_words extra ≡ gso_extra_named words) }
    {
        if words[0] & 0xff != u32::from(ExtraType::Gso.number()) {
            return None;
        }
        Some(GsoExtra {
            more: asks_extra(words),
            size: high_half(words[0]),
            kind: (words[1] & 0xff) as u8,
            features: high_half(words[1]),
        })
    }

    /// The entry's three words, of which an rx ring's entry has the first two. All that has no name is 0.
    pub fn words(&self) -> [u32; 3]
        ensures value { result ≡ gso_extra_words self.now }
        ensures reads_back { gso_extra_of result ≡ self.now }
        ensures gso { IsTrue (is_gso result) }
    {
        let low = u16::from(ExtraType::Gso.number()) + bit_at(self.more, 8);
        [
            join_halves(low, self.size),
            join_halves(u16::from(self.kind), self.features),
            0,
        ]
    }
}

/// The segments into which a packet is to be cut.
#[derive(Clone, Copy, Debug, PartialEq, Eq)]
pub struct Segments {
    pub kind: GsoType,
    /// The most bytes of payload in a segment.
    pub size: u16,
}

/// The offers of a queue to its frontend.
#[derive(Clone, Copy, Debug, Default, PartialEq, Eq)]
pub struct Offers {
    /// `feature-gso-tcpv4`: the frontend may send TCP over IPv4 that is still to be segmented.
    pub gso_tcpv4: bool,
    /// `feature-gso-tcpv6`: the same over IPv6.
    pub gso_tcpv6: bool,
}

/// Nothing is offered.
pub const NO_OFFERS: Offers = Offers {
    gso_tcpv4: false,
    gso_tcpv6: false,
};

impl Offers {
    /// Returns whether packets of this type are taken unsegmented.
    pub fn has(&self, kind: GsoType) -> bool
        ensures { result ≡ is_offered self.now kind }
    {
        match kind {
            GsoType::TcpV4 => self.gso_tcpv4,
            GsoType::TcpV6 => self.gso_tcpv6,
        }
    }

    /// Returns how a packet is segmented whose first slot and only extra these are. `None` if it isn't taken so.
    pub fn segments(&self, first: [u32; 3], extra: [u32; 3]) -> Option<Segments>
        ensures { result ≡ segments_said self.now first extra }
    {
        let GsoExtra {
            more,
            size,
            kind,
            ..
        } = GsoExtra::of_words(extra)?;
        if more || !is_segment(size, TxReq::of_words(first).size) {
            return None;
        }
        let kind = GsoType::of_number(kind)?;
        if self.has(kind) {
            Some(Segments { kind, size })
        } else {
            None
        }
    }
}

/// Returns whether a packet of so many bytes may have segments of this size.
fn is_segment(size: u16, packet: u16) -> bool
    ensures { result ≡ is_segment_size packet size }
{
    LEAST_SEGMENT <= size && size <= packet
}

/// Laws of offers. What a packet's only extra says is computed; a queue that offers nothing takes no packet with an extra; offers
/// change nothing for one without; and an extra that isn't taken is why its packet is refused.
pub fn offers_are_kept()
    ensures said { (offers : Offers) (first extra : Slot) (s : Segments) → segments_said offers first extra ≡ Some s →
        AreSegments offers first extra s }
    ensures all_said { (offers : Offers) (first extra : Slot) (s : Segments) → AreSegments offers first extra s →
        segments_said offers first extra ≡ Some s }
    ensures no_fragments { (slots : List Slot) → offered_fragments no_offers slots ≡ fragments_of slots }
    ensures no_segments { (slots : List Slot) → segments_of no_offers slots ≡ None }
    ensures plain { (offers : Offers) (first : Slot) (later : List Slot) → extra_info first ≡ false →
        offered_fragments offers (first ∷ later) ≡ fragments_of (first ∷ later) }
    ensures refused { (offers : Offers) (first : Slot) (later : List Slot) → extra_info first ≡ true →
        segments_of offers (first ∷ later) ≡ None → offered_fragments offers (first ∷ later) ≡ Err SizeFault.ExtraInfo }
{}
