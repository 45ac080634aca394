//! A reader of the objects that clang makes for BPF: ELF-64, relocatable.
//!
//! - `bytes`: numbers and names in bytes
//! - `header`: the ELF header
//! - `section`, `symbol`, `relocation`: the rows of the tables; `reference`: what a relocation is for
//! - `sought`: a name that is looked for at many symbols
//! - `object`: the whole file
//! - `program`: a function, and the maps and constants that it refers to; `constants`: the bytes of these
//! - `types`: the types that clang says of an object (BTF)
//! - `definition`, `map`: what a map's struct defines, and which struct is a symbol's
//! - `fault`: why bytes are no object, and why an object has no such program
#![tactic(auto)]

mod bytes;
mod constants;
mod definition;
mod fault;
mod header;
mod map;
mod object;
mod program;
mod reference;
mod relocation;
mod section;
mod sought;
mod symbol;
mod types;

pub use constants::Constants;
pub use definition::{MapDefinition, MapField};
pub use fault::{
    ConstantsFault, FieldFault, MapFault, ObjectFault, ProgramFault, RelocationFault, TypesFault,
};
pub use object::Object;
pub use program::ObjectProgram;
pub use reference::{ConstantReference, MapReference};
pub use types::Types;
