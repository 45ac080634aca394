//! Laws of the verifier's answers.
ghost use Rattle.std.specs.Prelude.{◌≡◌, ◌≢◌, ℕ, List};
ghost use Rattle.bpf_insn.specs.Code.{IsCode};
ghost use Rattle.bpf_insn.specs.declared.insn.Insn.{Insn};
ghost use Rattle.bpf_insn.specs.declared.refusal.Cause.{Cause};
ghost use Rattle.bpf_insn.specs.declared.refusal.Cause.TheVariants.{Memory};
ghost use Rattle.bpf_note.specs.Shape.{Shape};
ghost use Rattle.bpf_verify.specs.FirstRefusal.{IsFaultless, IsRefusal};

/// A program with nothing to refuse is refused only when memory runs out.
pub fn faultless_programs_are_accepted()
    ensures { (code : List Insn) (shapes : List Shape) (cause : Cause) (pc : ℕ) → IsCode code →
        IsFaultless code shapes → IsRefusal code shapes cause pc → cause ≡ Memory }
{}

/// A program has at most one refusal other than out of memory: its cause and its slot are fixed.
pub fn refusals_are_unique()
    ensures { (code : List Insn) (shapes : List Shape) (c d : Cause) (p q : ℕ) → IsCode code →
        c ≢ Memory → d ≢ Memory → IsRefusal code shapes c p → IsRefusal code shapes d q → (c ≡ d) × (p ≡ q) }
{}
