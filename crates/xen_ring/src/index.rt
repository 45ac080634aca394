//! Indices of a ring. They run freely from 0 to 2^32 - 1 and wrap; ring.h calls them RING_IDX.

ghost use Rattle.std.specs.Prelude.{◌≡◌};
ghost use Rattle.xen_ring.specs.Index.{is_due, place_of, unconsumed_of};

use crate::overflow::Overflow;

/// The number of entries that a ring of one page has.
pub const RING_SIZE: u32 = 256;

/// Returns the number of requests that the producer `prod` shows that the consumer `cons` hasn't taken.
///
/// `rsp` is the private response producer, up to which all requests are answered. A producer more than
/// a whole ring past it would overwrite requests that are still open: that is the `Overflow` of ring.h's
/// RING_REQUEST_PROD_OVERFLOW.
pub fn unconsumed(prod: u32, cons: u32, rsp: u32) -> Result<u32, Overflow>
    ensures { result ≡ unconsumed_of prod cons rsp }
{
    if prod.wrapping_sub(rsp) <= RING_SIZE {
        Ok(prod.wrapping_sub(cons))
    } else {
        Err(Overflow)
    }
}

/// Returns whether a producer that went from `old` to `new` passed the other side's event index, so that the other side wants a
/// notice. This is ring.h's RING_PUSH_RESPONSES_AND_CHECK_NOTIFY.
pub fn due(old: u32, new: u32, event: u32) -> bool
    ensures { result ≡ is_due old new event }
{
    new.wrapping_sub(event) < new.wrapping_sub(old)
}

/// The entry of the ring that an index names.
pub fn place(index: u32) -> u32
    ensures { result ≡ place_of index }
{
    index % RING_SIZE
}
