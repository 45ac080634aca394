//! The buffers of a front.
ghost use Rattle.std.specs.Prelude.{◌≡◌, ◌≤◌, IfOk};
ghost use Rattle.xdp_world.specs.Buffers.{granted_from};

use crate::places::{BUFFERS, FIRST_GRANTED};
use std::alloc::{AllocError, Global};
use xen_buffers::GrantedPage;

/// The 256 buffers with the references from `first` on, each the page that [`Layout`](crate::Layout) has for its reference.
pub fn buffers_from(alloc: Global, first: u32) -> Result<Vec<GrantedPage>, AllocError>
    requires { first ≤ 8192 }
    ensures { IfOk result (λ v. v.items ≡ granted_from first) }
{
    let mut buffers = Vec::with_capacity(alloc, BUFFERS as usize)?;
    for id in 0..BUFFERS {
        let gref = first + id;
        buffers.push(GrantedPage {
            gref,
            frame: FIRST_GRANTED + gref,
        })?;
    }
    Ok(buffers)
}
