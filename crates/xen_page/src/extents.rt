//! Frames in a row that one domain owns.

ghost use Rattle.std.specs.Prelude.{◌≡◌, leb, length, slice_get, IfOk};
ghost use Rattle.std.specs.Option.{SomeIff};
ghost use Rattle.xen_page.specs.Owned.{AreCounted, domains_of, ends_of};

use std::alloc::{AllocError, Global};

/// `frames` frames, one after another, which one domain owns.
#[derive(Clone, Copy, Debug, PartialEq, Eq, Hash)]
pub struct Extent {
    pub frames: u32,
    pub domain: u16,
}

/// Returns the number of frames that the extents have, if 32 bits hold that number.
pub(crate) fn count(extents: &[Extent]) -> Option<u32>
    ensures { SomeIff result (AreCounted (domains_of extents.now)) (length (domains_of extents.now)) }
{
    let mut count: u32 = 0;
    for extent in extents {
        count = count.checked_add(extent.frames)?;
    }
    Some(count)
}

/// Returns the frame behind each extent's last one.
pub(crate) fn ends(alloc: Global, extents: &[Extent]) -> Result<Vec<u32>, AllocError>
    requires { AreCounted (domains_of extents.now) }
    ensures { IfOk result (λ ends. ends.items ≡ ends_of 0 extents.now) }
{
    let mut ends = Vec::with_capacity(alloc, extents.len())?;
    let mut end: u32 = 0;
    for extent in extents {
        end += extent.frames;
        ends.push(end)?;
    }
    Ok(ends)
}

/// The domain that owns the frame, if an extent has it. `ends` are the frames behind the extents' last ones.
pub(crate) fn owner(extents: &[Extent], ends: &[u32], frame: u32) -> Option<u16>
    requires { ends.now ≡ ends_of 0 extents.now }
    ensures { result ≡ slice_get (domains_of extents.now) frame }
{
    let place = ends.partition_point(
        |end: &u32| -> bool
            ensures { result ≡ leb end.now frame }
        { *end <= frame },
    );
    let extent = extents.get(place)?;
    Some(extent.domain)
}
