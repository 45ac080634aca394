//! The number of each cause, and where it is.
ghost use Rattle.std.specs.Prelude.{◌≡◌};
ghost use Rattle.xdp_object.specs.FaultNumber.{object_number, relocation_number, program_number, types_number, constants_number, shape_number, cause_number, fault_number};
ghost use Rattle.xdp_object.specs.FaultNumber.{object_place, program_place, types_place, fault_place, given_number, original_number, original_place};

use crate::fault::{GivenCause, MapCause, OriginalFault, SetupFault, ShapeFault};
use bpf_object::{ConstantsFault, ObjectFault, ProgramFault, RelocationFault, TypesFault};

/// The number of each cause why bytes are no object.
fn object_number(fault: ObjectFault) -> u8
    ensures { result ≡ object_number fault }
{
    match fault {
        ObjectFault::NoHeader => 1,
        ObjectFault::Format => 2,
        ObjectFault::Machine => 3,
        ObjectFault::SectionTable => 4,
        ObjectFault::Section(_) => 5,
        ObjectFault::SectionNames => 6,
        ObjectFault::NoSymbols => 7,
        ObjectFault::TwoSymbolTables(_, _) => 8,
        ObjectFault::Symbols => 9,
    }
}

/// The number of each cause why a relocation names neither a map nor a constant.
fn relocation_number(fault: RelocationFault) -> u8
    ensures { result ≡ relocation_number fault }
{
    match fault {
        RelocationFault::Kind => 16,
        RelocationFault::Place | RelocationFault::InsideMap => 17,
        RelocationFault::Outside => 30,
        RelocationFault::Global => 31,
        RelocationFault::Other => 18,
    }
}

/// The number of each cause why there is no program.
fn program_number(fault: ProgramFault) -> u8
    ensures { result ≡ program_number fault }
{
    match fault {
        ProgramFault::NoFunction => 10,
        ProgramFault::TwoFunctions(_, _) => 11,
        ProgramFault::Code => 12,
        ProgramFault::TwoTables(_, _) => 13,
        ProgramFault::Table(_) => 14,
        ProgramFault::Order(_) => 15,
        ProgramFault::Relocation(_, fault) => relocation_number(fault),
        ProgramFault::Memory => 0,
    }
}

/// The number of each cause why types can't be read.
fn types_number(fault: TypesFault) -> u8
    ensures { result ≡ types_number fault }
{
    match fault {
        TypesFault::NoSection => 20,
        TypesFault::TwoSections(_, _) => 21,
        TypesFault::Header => 22,
        TypesFault::Row(_) => 23,
        TypesFault::Memory => 0,
    }
}

/// The number of each cause why a section has no constants.
fn constants_number(fault: ConstantsFault) -> u8
    ensures { result ≡ constants_number fault }
{
    match fault {
        ConstantsFault::NoConstants | ConstantsFault::Addresses => 32,
        ConstantsFault::Name => 25,
    }
}

/// The number of each cause why a definition is of no map that is here.
fn shape_number(fault: ShapeFault) -> u8
    ensures { result ≡ shape_number fault }
{
    match fault {
        ShapeFault::Kind => 26,
        ShapeFault::Key => 27,
        ShapeFault::Entries => 28,
        ShapeFault::Value => 29,
    }
}

/// The number of each cause why a map can't be one here.
fn cause_number(cause: MapCause) -> u8
    ensures { result ≡ cause_number cause }
{
    match cause {
        MapCause::Definition(_) => 24,
        MapCause::Constants(fault) => constants_number(fault),
        MapCause::Name => 25,
        MapCause::Shape(fault) => shape_number(fault),
        MapCause::Bytes => 33,
    }
}

/// The number of each cause why a map isn't given.
fn given_number(cause: GivenCause) -> u8
    ensures { result ≡ given_number cause }
{
    match cause {
        GivenCause::Map(cause) => cause_number(cause),
        GivenCause::Name => 34,
        GivenCause::Shape => 35,
        GivenCause::Constants => 36,
    }
}

/// The section that is none, or the second symbol table.
fn object_place(fault: ObjectFault) -> usize
    ensures { result ≡ object_place fault }
{
    match fault {
        ObjectFault::Section(section) | ObjectFault::TwoSymbolTables(_, section) => {
            section as usize
        }
        _ => 0,
    }
}

/// The symbol, the section or the relocation where there is no program.
fn program_place(fault: ProgramFault) -> usize
    ensures { result ≡ program_place fault }
{
    match fault {
        ProgramFault::TwoFunctions(_, number)
        | ProgramFault::Order(number)
        | ProgramFault::Relocation(number, _) => number,
        ProgramFault::TwoTables(_, section) | ProgramFault::Table(section) => section as usize,
        _ => 0,
    }
}

/// The section or the type that can't be read.
fn types_place(fault: TypesFault) -> usize
    ensures { result ≡ types_place fault }
{
    match fault {
        TypesFault::TwoSections(_, section) => section as usize,
        TypesFault::Row(number) => number,
        _ => 0,
    }
}

impl SetupFault {
    /// Its number: 0 if memory ran out.
    pub fn number(self) -> u8
        ensures { result ≡ fault_number self }
    {
        match self {
            SetupFault::Object(fault) => object_number(fault),
            SetupFault::Program(fault) => program_number(fault),
            SetupFault::Maps => 19,
            SetupFault::Types(fault) => types_number(fault),
            SetupFault::Map(_, cause) => cause_number(cause),
            SetupFault::Memory => 0,
        }
    }

    /// Returns where it is: a section, a symbol, a relocation or a type of the object, or a map of the program.
    pub fn place(self) -> usize
        ensures { result ≡ fault_place self }
    {
        match self {
            SetupFault::Object(fault) => object_place(fault),
            SetupFault::Program(fault) => program_place(fault),
            SetupFault::Types(fault) => types_place(fault),
            SetupFault::Map(number, _) => number,
            SetupFault::Maps | SetupFault::Memory => 0,
        }
    }
}

impl OriginalFault {
    /// Its number: 0 if memory ran out.
    pub fn number(self) -> u8
        ensures { result ≡ original_number self }
    {
        match self {
            OriginalFault::Object(fault) => object_number(fault),
            OriginalFault::Program(fault) => program_number(fault),
            OriginalFault::Types(fault) => types_number(fault),
            OriginalFault::Map(_, cause) => given_number(cause),
            OriginalFault::Memory => 0,
        }
    }

    /// Returns where it is: a section, a symbol, a relocation or a type of the object, or a slot of the function.
    pub fn place(self) -> usize
        ensures { result ≡ original_place self }
    {
        match self {
            OriginalFault::Object(fault) => object_place(fault),
            OriginalFault::Program(fault) => program_place(fault),
            OriginalFault::Types(fault) => types_place(fault),
            OriginalFault::Map(slot, _) => slot,
            OriginalFault::Memory => 0,
        }
    }
}
