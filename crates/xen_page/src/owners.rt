//! Who owns each frame.

ghost use Rattle.std.specs.Prelude.{◌≡◌, ◌<◌, ◌≤◌, ◌^◌, length, IfErr, IfOk, slice_get};
ghost use Rattle.xen_page.specs.Owned.{IsFaultOf, domains_of};

use crate::extents::{Extent, count, ends, owner};
use std::alloc::{AllocError, AllocFailed, Global};
use std::marker::Model;

/// The most frames whose owners can be listed one by one.
pub const MAX_FRAMES: usize = 8192;

/// The form in which the owners are kept.
#[derive(Debug, Drop)]
pub(crate) enum Kept {
    /// The domain of each frame.
    Each(Vec<u16>),
    /// Extents, the first of which begins with frame 0, and the frame behind each one's last.
    InExtents {
        extents: Vec<Extent>,
        ends: Vec<u32>,
    },
}

/// The domain that owns each frame, in the order of the frames. Contracts see the list of the domains.
#[derive(Debug, Drop)]
pub struct Owners {
    kept: Kept,
    count: u32,
}

/// The reason why there are no owners.
#[derive(Clone, Copy, Debug, PartialEq, Eq, Drop)]
pub enum OwnersFault {
    /// Memory ran out.
    Memory,
    /// The extents have more than 4,294,967,295 frames.
    Frames,
}

impl From<AllocError> for OwnersFault {
    ghost use Rattle.std.specs.Prelude.{◌≡◌};
    ghost use Rattle.xen_page.specs.declared.owners.OwnersFault.TheVariants as faults;

    ghost from_gives = { λ _ fault. fault ≡ faults.Memory };

    fn from(_error: AllocError) -> OwnersFault {
        OwnersFault::Memory
    }
}

impl<T: Drop> From<AllocFailed<T>> for OwnersFault {
    ghost use Rattle.std.specs.Prelude.{◌≡◌};
    ghost use Rattle.xen_page.specs.declared.owners.OwnersFault.TheVariants as faults;

    ghost from_gives = { λ _ fault. fault ≡ faults.Memory };

    fn from(_error: AllocFailed<T>) -> OwnersFault {
        OwnersFault::Memory
    }
}

impl Model for Owners {
    ghost use Rattle.std.specs.Prelude.{ℕ, ◌≡◌, List, length};
    ghost use Rattle.xen_page.specs.Owned.{AreCounted, HasEnds, domains_in};

    ghost Value = { List ℕ };

    ghost view = { λ o. domains_in o.kept };

    ghost invariant = { λ o. (o.count ≡ length (domains_in o.kept)) × AreCounted (domains_in o.kept) × HasEnds o.kept };
}

impl Owners {
    /// The owners of frames 0 and up.
    pub fn make(alloc: Global, domains: &[u16]) -> Result<Owners, AllocError>
        requires { length domains.now ≤ 8192 }
        ensures { IfOk result (λ owners. owners ≡ domains.now) }
    {
        let count = domains.len() as u32;
        Ok(Owners {
            kept: Kept::Each(Vec::from_slice(alloc, domains)?),
            count,
        })
    }

    /// The owners of the frames of these extents, the first of which begins with frame 0. Who owns a frame is searched by halves.
    pub fn of_extents(alloc: Global, extents: &[Extent]) -> Result<Owners, OwnersFault>
        ensures owners { IfOk result (λ owners. owners ≡ domains_of extents.now) }
        ensures fault { IfErr result (IsFaultOf extents.now) }
    {
        let Some(count) = count(extents) else {
            return Err(OwnersFault::Frames);
        };
        Ok(Owners {
            kept: Kept::InExtents {
                extents: extents.to_vec(alloc)?,
                ends: ends(alloc, extents)?,
            },
            count,
        })
    }

    /// The number of frames.
    pub fn count(&self) -> u32
        ensures count { result ≡ length self.now }
        ensures few { length self.now < 2 ^ 32 }
    {
        self.count
    }

    /// The domain that owns the frame, if the frame exists.
    #[inline(always)]
    pub fn of(&self, frame: u32) -> Option<u16>
        ensures { result ≡ slice_get self.now frame }
    {
        match &self.kept {
            Kept::Each(domains) => domains.get(frame as usize).copied(),
            Kept::InExtents { extents, ends } => owner(extents, ends, frame),
        }
    }
}
