//! Second operands.
use crate::register::Register;

/// A second operand: a register, or a constant that the instruction holds.
#[derive(Clone, Copy, Debug, PartialEq, Eq, Drop)]
pub enum Operand {
    Register(Register),
    Immediate(i32),
}
