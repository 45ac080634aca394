//! What a function's wide loads refer to.
ghost use Rattle.std.specs.Prelude.{◌≡◌, [], OnOk};
ghost use Rattle.bpf_object.specs.References.{IsMore};

use std::alloc::{AllocError, Global};

/// A wide load of a map.
#[derive(Clone, Copy, Debug, PartialEq, Eq, Drop)]
pub struct MapReference {
    /// The slot of the wide load, from 0 on in the function.
    pub slot: usize,
    /// The number of the map's symbol.
    pub map: usize,
}

/// A wide load of an address among constants.
#[derive(Clone, Copy, Debug, PartialEq, Eq, Drop)]
pub struct ConstantReference {
    /// The slot of the wide load, from 0 on in the function.
    pub slot: usize,
    /// The section of the constants.
    pub section: u16,
    /// The place in it to which the address leads.
    pub place: u32,
}

/// The target of a wide load.
#[derive(Clone, Copy, Drop)]
pub(crate) enum Target {
    Map(MapReference),
    Constant(ConstantReference),
}

/// The targets of a function's wide loads, by rising slots.
#[derive(Drop)]
pub(crate) struct References {
    pub(crate) maps: Vec<MapReference>,
    pub(crate) constants: Vec<ConstantReference>,
}

impl References {
    /// Nothing.
    pub(crate) fn none(alloc: Global) -> References
        ensures maps { result.maps.items ≡ [] }
        ensures constants { result.constants.items ≡ [] }
    {
        References {
            maps: Vec::new(alloc),
            constants: Vec::new(alloc),
        }
    }

    /// One more.
    pub(crate) fn add(&mut self, target: Target) -> Result<(), AllocError>
        ensures { OnOk result (IsMore self.old target self.new) }
    {
        match target {
            Target::Map(reference) => {
                self.maps.push(reference)?;
            }
            Target::Constant(reference) => {
                self.constants.push(reference)?;
            }
        }
        Ok(())
    }
}
