//! BPF instructions (RFC 9669): their bytes, what they compute, and their text.
//!
//! - `insn`, `register`, `size`, `alu_op`, `condition`, `operand`, `swap_kind`, `width`: the parts of an instruction; `code`: a
//!   program
//! - `decoder`: bytes to instructions, or the first refusal (`refusal`); `slot`, `fields`, `access_slot`: one slot
//! - `encoder`: instructions to bytes
//! - `arithmetic`, `byte_order`, `conditions`, `extension`, `truncated`: what instructions compute
//! - `text`, `text_parts`: how they print
//! - `laws`: what holds of spellings and operations
#![tactic(auto)]

mod access_slot;
mod alu_op;
mod arithmetic;
mod byte_order;
mod code;
mod condition;
mod conditions;
mod decoder;
mod encoder;
mod extension;
mod fields;
mod insn;
mod laws;
mod operand;
mod refusal;
mod register;
mod size;
mod slot;
mod swap_kind;
mod text;
mod text_parts;
mod truncated;
mod width;

pub use alu_op::AluOp;
pub use arithmetic::{alu, negate};
pub use byte_order::swap;
pub use code::Code;
pub use condition::Condition;
pub use conditions::holds;
pub use decoder::{decode, refusal_of};
pub use encoder::encode;
pub use extension::{extend, move_extended};
pub use insn::Insn;
pub use laws::{encoded_is_code, refusal_is_unique, results_fit, spelling_is_unique};
pub use operand::Operand;
pub use refusal::{Cause, Refusal};
pub use register::Register;
pub use size::Size;
pub use swap_kind::SwapKind;
pub use width::Width;
