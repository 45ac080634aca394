//! Why an object has no setup of a function.
use bpf_object::{ConstantsFault, MapFault, ObjectFault, ProgramFault, TypesFault};
use std::alloc::{AllocError, AllocFailed};

/// The reason why an object has no setup of a function. The causes are tried in this order, and maps from the first on, those of
/// constants last.
#[derive(Clone, Copy, Debug, PartialEq, Eq, Drop)]
pub enum SetupFault {
    /// The bytes are no object for BPF.
    Object(ObjectFault),
    /// The object has no program of this name.
    Program(ProgramFault),
    /// The program refers to more than 16 maps, with those of constants.
    Maps,
    /// The program refers to maps, and the object's types can't be read.
    Types(TypesFault),
    /// The map of this number can't be one here.
    Map(usize, MapCause),
    /// Memory ran out.
    Memory,
}

/// The reason why a map can't be one here. The causes are tried in this order.
#[derive(Clone, Copy, Debug, PartialEq, Eq, Drop)]
pub enum MapCause {
    /// It has no name, or no definition.
    Definition(MapFault),
    /// It is one of constants, and its section has none that can be read.
    Constants(ConstantsFault),
    /// Its name isn't 1 to 32 bytes of UTF-8.
    Name,
    /// Its definition is of no map that is here.
    Shape(ShapeFault),
    /// It has more than 65,536 bytes of constants.
    Bytes,
}

/// The reason why a definition is of no map that is here. The causes are tried in this order.
#[derive(Clone, Copy, Debug, PartialEq, Eq, Drop)]
pub enum ShapeFault {
    /// Its type is none of an array, a hash or a prefix trie.
    Kind,
    /// A key isn't an array's of 4 bytes, or has no byte of data, or more than 64.
    Key,
    /// There is no entry, or more than 65,536.
    Entries,
    /// A value has no byte, or more than 64.
    Value,
}

/// The reason why an object's function is no program with given maps. The causes are tried in this order, and wide loads from the first on,
/// those of constants last.
#[derive(Clone, Copy, Debug, PartialEq, Eq, Drop)]
pub enum OriginalFault {
    /// The bytes are no object for BPF.
    Object(ObjectFault),
    /// The object has no program of this name.
    Program(ProgramFault),
    /// The program refers to maps, and the object's types can't be read.
    Types(TypesFault),
    /// What the wide load at this slot refers to isn't given.
    Map(usize, GivenCause),
    /// Memory ran out.
    Memory,
}

/// The reason why an object's map isn't one of those given. The causes are tried in this order.
#[derive(Clone, Copy, Debug, PartialEq, Eq, Drop)]
pub enum GivenCause {
    /// It can't be one here.
    Map(MapCause),
    /// None that is given has its name.
    Name,
    /// The one of its name has other entries, counters or keys.
    Shape,
    /// The one of its name has other constants.
    Constants,
}

impl From<AllocError> for SetupFault {
    ghost use Rattle.std.specs.Prelude.{◌≡◌};
    ghost use Rattle.xdp_object.specs.declared.fault.SetupFault.TheVariants.{Memory};

    ghost from_gives = { λ _ e. e ≡ Memory };

    fn from(_error: AllocError) -> SetupFault {
        SetupFault::Memory
    }
}

impl<T: Drop> From<AllocFailed<T>> for SetupFault {
    ghost use Rattle.std.specs.Prelude.{◌≡◌};
    ghost use Rattle.xdp_object.specs.declared.fault.SetupFault.TheVariants.{Memory};

    ghost from_gives = { λ _ e. e ≡ Memory };

    fn from(_error: AllocFailed<T>) -> SetupFault {
        SetupFault::Memory
    }
}

impl From<AllocError> for OriginalFault {
    ghost use Rattle.std.specs.Prelude.{◌≡◌};
    ghost use Rattle.xdp_object.specs.declared.fault.OriginalFault.TheVariants.{Memory};

    ghost from_gives = { λ _ e. e ≡ Memory };

    fn from(_error: AllocError) -> OriginalFault {
        OriginalFault::Memory
    }
}
