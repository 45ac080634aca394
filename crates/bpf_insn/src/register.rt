//! Registers.
/// One of the eleven registers. `R10` holds the address of the stack's end and is never written.
#[derive(Clone, Copy, Debug, PartialEq, Eq, Drop)]
pub enum Register {
    R0,
    R1,
    R2,
    R3,
    R4,
    R5,
    R6,
    R7,
    R8,
    R9,
    R10,
}

impl Register {
    ghost use Rattle.std.specs.Prelude.{◌≡◌, ◌<◌, ◌≤◌, IfNone, IfSome};
    ghost use Rattle.bpf_insn.specs.Register.{number};

    /// The number that stands for the register in an instruction, 0 to 10.
    pub fn number(self) -> u8
        ensures number { result ≡ number self }
        ensures high { result ≤ 10 }
    {
        match self {
            Register::R0 => 0,
            Register::R1 => 1,
            Register::R2 => 2,
            Register::R3 => 3,
            Register::R4 => 4,
            Register::R5 => 5,
            Register::R6 => 6,
            Register::R7 => 7,
            Register::R8 => 8,
            Register::R9 => 9,
            Register::R10 => 10,
        }
    }

    /// The register of a number.
    pub(crate) fn of_number(n: u8) -> Option<Register>
        ensures some { IfSome result (λ r. number r ≡ n) }
        ensures none { IfNone result (10 < n) }
    {
        match n {
            0 => Some(Register::R0),
            1 => Some(Register::R1),
            2 => Some(Register::R2),
            3 => Some(Register::R3),
            4 => Some(Register::R4),
            5 => Some(Register::R5),
            6 => Some(Register::R6),
            7 => Some(Register::R7),
            8 => Some(Register::R8),
            9 => Some(Register::R9),
            10 => Some(Register::R10),
            _ => None,
        }
    }
}
