//! The grants of a frontend's buffers.

ghost use Rattle.std.specs.Prelude.{◌≡◌, ◌<◌};
ghost use Rattle.xen_buffers.specs.Grants.{buffer, grant_place};
ghost use Rattle.xen_page.specs.Mapping.{frame_place};

use crate::wiring::{FrontWiring, GrantedPage};
use xen_page::Place;

/// The buffer of an id.
pub fn buffer_of(buffers: &[GrantedPage], id: u16) -> GrantedPage
    ensures { result ≡ buffer buffers.now id }
{
    match buffers.get(usize::from(id)) {
        Some(buffer) => *buffer,
        None => GrantedPage { gref: 0, frame: 0 },
    }
}

/// The flags word of a buffer's grant.
pub fn grant_flags(wiring: &FrontWiring, buffer: &GrantedPage) -> Place
    ensures value { result ≡ grant_place wiring.now buffer.now }
    ensures small { result.word < 1023 }
{
    match wiring.table.place(buffer.gref) {
        Some(at) => at,
        None => Place { frame: 0, word: 0 },
    }
}

/// The frame word of a buffer's grant.
pub fn grant_frame(wiring: &FrontWiring, buffer: &GrantedPage) -> Place
    ensures { result ≡ frame_place (grant_place wiring.now buffer.now) }
{
    grant_flags(wiring, buffer).next()
}
