//! The ids that requests take.

ghost use Rattle.std.specs.Prelude.{◌≡◌, ◌≤◌, length};
ghost use Rattle.xen_front.specs.Fronts.{chosen};
ghost use Rattle.xen_front.specs.Slots.{pieces_of as pieces_of_spec};
ghost use Rattle.xen_front.specs.Tree.{flown, flown_post, fly as fly_spec};

use crate::state::{FrontState, Ring};
use arrayvec::ArrayVec;

/// The bytes of a page.
const PAGE: usize = 4096;

/// The entries of a ring.
pub(crate) const ENTRIES: u32 = 256;

/// The number of pieces of a packet.
pub(crate) fn pieces_of(len: usize) -> u32
    requires { len ≤ 65535 }
    ensures value { result ≡ pieces_of_spec len }
    ensures few { result ≤ 16 }
{
    len.div_ceil(PAGE) as u32
}

/// The lowest `n` free ids, or all if there are fewer.
pub(crate) fn choose(ring: &Ring, n: u32) -> ArrayVec<u8, 16>
    requires { n ≤ 16 }
    ensures { result.items ≡ chosen n ring.now.out }
{
    let mut ids = ArrayVec::new();
    let mut left = n;
    for i in 0..256u32 {
        if left == 0 {
            break;
        }
        if !ring.out[i as usize] {
            ids.push((i % 256) as u8);
            left -= 1;
        }
    }
    ids
}

/// Marks the ids as in flight, and advances the producer past their requests.
pub(crate) fn fly(ring: &mut Ring, ids: &[u8])
    requires { length ids.now ≤ 256 }
    ensures { ring.new ≡ flown ring.old ids.now }
{
    fly_all(&mut ring.out, ids);
    ring.prod = ring.prod.wrapping_add(ids.len() as u32);
}

/// Marks the id of a posted buffer as in flight, notes the entry of its request, and advances the producer past it.
pub(crate) fn fly_post(state: &mut FrontState, id: u8)
    ensures { state.new ≡ flown_post state.old id }
{
    let entry = state.rx.prod % ENTRIES;
    state.posts[entry as usize] = id;
    fly(&mut state.rx, &[id]);
}

/// Marks the ids as in flight.
fn fly_all(out: &mut [bool; 256], ids: &[u8])
    ensures { out.new ≡ fly_spec out.old ids.now }
{
    for id in ids {
        out[usize::from(*id)] = true;
    }
}
