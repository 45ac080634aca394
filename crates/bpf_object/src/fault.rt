//! Why bytes are no object, and why an object has no such program or map.
use crate::definition::MapField;
use std::alloc::AllocError;

/// The reason why bytes are no object for BPF. The causes are tried in this order, and sections from the first on.
#[derive(Clone, Copy, Debug, PartialEq, Eq, Drop)]
pub enum ObjectFault {
    /// The bytes don't begin with an ELF header.
    NoHeader,
    /// It is no file of 64 bits and little-endian byte order.
    Format,
    /// It is no relocatable file for BPF.
    Machine,
    /// The table of section headers isn't one of 64 bytes a section, or doesn't lie in the file.
    SectionTable,
    /// The section doesn't lie in the file.
    Section(u16),
    /// The section that should have the names of sections isn't a string table.
    SectionNames,
    /// There is no symbol table.
    NoSymbols,
    /// Both sections are symbol tables, and the first two.
    TwoSymbolTables(u16, u16),
    /// The symbol table isn't whole symbols of 24 bytes, or has no string table.
    Symbols,
}

/// The reason why an object has no program of a name. The causes are tried in this order.
#[derive(Clone, Copy, Debug, PartialEq, Eq, Drop)]
pub enum ProgramFault {
    /// No symbol is a function of this name.
    NoFunction,
    /// Both symbols are functions of this name, and the first two.
    TwoFunctions(usize, usize),
    /// The function isn't whole slots of a section that holds code.
    Code,
    /// Both sections are relocations of the function's section, and the first two.
    TwoTables(u16, u16),
    /// The section isn't whole relocations of 16 bytes without addends.
    Table(u16),
    /// The relocation doesn't lie above the one before it. Relocations are numbered in their section.
    Order(usize),
    /// The relocation names neither a map nor a constant.
    Relocation(usize, RelocationFault),
    /// Memory ran out.
    Memory,
}

/// The reason why a relocation names neither a map nor a constant. The causes are tried in this order.
#[derive(Clone, Copy, Debug, PartialEq, Eq, Drop)]
pub enum RelocationFault {
    /// Its type isn't R_BPF_64_64: it is a call (R_BPF_64_32), say.
    Kind,
    /// It doesn't change a wide load of a number.
    Place,
    /// The number isn't 0, and its symbol is a map.
    InsideMap,
    /// It is for a place outside of its section of constants.
    Outside,
    /// Its symbol lies among globals that programs may write to.
    Global,
    /// Its symbol is neither an object in the section `.maps` nor lies among constants.
    Other,
}

/// The reason why a section has no constants that can be read. The causes are tried in this order.
#[derive(Clone, Copy, Debug, PartialEq, Eq, Drop)]
pub enum ConstantsFault {
    /// It isn't one of constants.
    NoConstants,
    /// It has no name.
    Name,
    /// It holds addresses: relocations change it.
    Addresses,
}

/// The reason why an object's types can't be read. The causes are tried in this order, and types from the first on.
#[derive(Clone, Copy, Debug, PartialEq, Eq, Drop)]
pub enum TypesFault {
    /// No section has the name `.BTF`.
    NoSection,
    /// Both sections have this name, and are the first two.
    TwoSections(u16, u16),
    /// The section doesn't begin with a header by which the types and the strings lie in it.
    Header,
    /// The type isn't a whole one of a known kind.
    Row(usize),
    /// Memory ran out.
    Memory,
}

/// The reason why a symbol has no map's definition. The causes up to `NoStruct` are tried in this order.
#[derive(Clone, Copy, Debug, PartialEq, Eq, Drop)]
pub enum MapFault {
    /// The symbol isn't an object in the section `.maps`.
    NoMap,
    /// It has no name.
    Name,
    /// It isn't the one global variable of its name.
    Symbol,
    /// The types have no section `.maps`.
    NoSection,
    /// Both types are sections of this name, and are the first two.
    TwoSections(usize, usize),
    /// The section of the types has no global variable of the symbol's name.
    NoVariable,
    /// Both are such variables, and are the first two. Variables are numbered in their section.
    TwoVariables(u16, u16),
    /// The variable isn't a struct.
    NoStruct,
    /// The struct's field isn't one as libbpf has it.
    Field(MapField, FieldFault),
    /// No type of map is said, or 0.
    NoKind,
    /// `key_size` isn't the size of `key`, or `value_size` not that of `value`.
    Sizes(MapField),
}

/// The reason why a field of a map's struct has no number or size.
#[derive(Clone, Copy, Debug, PartialEq, Eq, Drop)]
pub enum FieldFault {
    /// Two members have this name.
    Twice,
    /// Its type isn't a pointer to an array, or for `key` and `value` to a type of a size.
    Kind,
}

impl From<AllocError> for ProgramFault {
    ghost use Rattle.std.specs.Prelude.{◌≡◌};
    ghost use Rattle.bpf_object.specs.declared.fault.ProgramFault.TheVariants.{Memory};

    ghost from_gives = { λ _ e. e ≡ Memory };

    fn from(_error: AllocError) -> ProgramFault {
        ProgramFault::Memory
    }
}

impl From<AllocError> for TypesFault {
    ghost use Rattle.std.specs.Prelude.{◌≡◌};
    ghost use Rattle.bpf_object.specs.declared.fault.TypesFault.TheVariants.{Memory};

    ghost from_gives = { λ _ e. e ≡ Memory };

    fn from(_error: AllocError) -> TypesFault {
        TypesFault::Memory
    }
}
