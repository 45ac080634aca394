//! The bytes of sections of constants.
ghost use Rattle.std.specs.Prelude.{◌<◌, ◌≤◌, IfErr, IfOk};
ghost use Rattle.bpf_object.specs.Constants.{HasConstants, HasNoConstants};

use crate::fault::ConstantsFault;
use crate::object::Object;
use crate::{bytes, section};

/// A section of constants.
#[derive(Clone, Copy, Drop)]
pub struct Constants<'a> {
    pub name: &'a [u8],
    pub bytes: &'a [u8],
}

impl<'a> Object<'a> {
    /// The constants of a section.
    pub fn constants(&self, number: usize) -> Result<Constants<'a>, ConstantsFault>
        ensures ok { IfOk result (λ c. HasConstants self.now number c.name.now c.bytes.now) }
        ensures err { IfErr result (HasNoConstants self.now number) }
    {
        if number >= usize::from(section::count(self.bytes)) {
            return Err(ConstantsFault::NoConstants);
        }
        let number = number as u16;
        if !self.is_of_constants(number) {
            return Err(ConstantsFault::NoConstants);
        }
        let section = section::at(self.bytes, number);
        let Some(name) = bytes::text(self.names, section.name as usize) else {
            return Err(ConstantsFault::Name);
        };
        if self.next_table(number, 0).is_some() {
            return Err(ConstantsFault::Addresses);
        }
        Ok(Constants {
            name,
            bytes: section.contents(self.bytes),
        })
    }
}
