//! Programs.
use crate::insn::Insn;
use std::marker::Model;

/// A program of 1 to 4,096 slots: its instructions, each wide load followed by `Second`. So an index is a pc.
#[derive(Debug, Drop)]
pub struct Code {
    insns: Vec<Insn>,
}

impl Model for Code {
    ghost use Rattle.std.specs.Prelude.{List};
    ghost use Rattle.bpf_insn.specs.declared.insn.Insn.{Insn};
    ghost use Rattle.bpf_insn.specs.Code.{IsCode};

    ghost Value = { List Insn };

    ghost view = { λ c. c.insns.items };

    ghost invariant = { λ c. IsCode c.insns.items };
}

impl Code {
    ghost use Rattle.std.specs.Prelude.{◌≡◌};
    ghost use Rattle.bpf_insn.specs.Code.{IsCode};

    /// The instructions by pc.
    pub fn insns(&self) -> &[Insn]
        ensures same { result.now ≡ self.now }
        ensures code { IsCode self.now }
    {
        self.insns.as_slice()
    }

    /// The program of these slots.
    pub(crate) fn of_slots(insns: Vec<Insn>) -> Code
        requires { IsCode insns.items }
        ensures { result ≡ insns.items }
    {
        Code { insns }
    }
}
