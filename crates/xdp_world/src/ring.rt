//! A ring's page, mapped.
ghost use Rattle.std.specs.Prelude.{◌≡◌, ◌<◌, ◌*◌, IfOk, Some, slice_get};
ghost use Rattle.xdp_world.specs.Frames.{frame_of};
ghost use Rattle.xen_page.specs.declared.entry.Rights.TheVariants.{ReadWrite};

use crate::layout::{BACK, FRONT, Layout};
use std::alloc::{AllocError, Global};
use xen_page::{Mapped, Rights, ScriptBus, map};

/// The flags word of an entry that permits the back to read and write.
const PERMIT: u32 = 1;

/// Maps the frame of a reference for writing, over a bus whose answers grant it.
pub(crate) fn ring(alloc: Global, layout: &Layout, gref: u32) -> Result<Mapped, AllocError>
    requires { gref < 514 * layout.now.queues }
    ensures frame { IfOk result (λ m. m.frame ≡ frame_of gref) }
    ensures owned { IfOk result (λ m. slice_get layout.now.owners m.frame ≡ Some 1) }
    ensures granter { IfOk result (λ m. m.granter ≡ 1) }
    ensures rights { IfOk result (λ m. m.rights ≡ ReadWrite) }
{
    let mut bus = ScriptBus::make(
        alloc,
        layout.owners.count(),
        &[PERMIT, Layout::frame_of(gref), PERMIT],
        0,
    )?;
    match map(
        &mut bus,
        &layout.table,
        &layout.owners,
        FRONT,
        BACK,
        gref,
        Rights::ReadWrite,
    ) {
        Ok(mapped) => Ok(mapped),
        Err(_) => unreachable!(),
    }
}
