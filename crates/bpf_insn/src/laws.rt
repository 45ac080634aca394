//! Laws of spellings and operations.
ghost use Rattle.std.specs.Prelude.{ℕ, ◌≡◌, ◌<◌, ◌^◌, Bool, List, ℤ};
ghost use Rattle.bpf_insn.specs.Arithmetic.{computed, negated};
ghost use Rattle.bpf_insn.specs.ByteOrder.{swapped};
ghost use Rattle.bpf_insn.specs.Code.{Spells, takes};
ghost use Rattle.bpf_insn.specs.Extension.{extended, moved_extended};
ghost use Rattle.bpf_insn.specs.Refusal.{IsRefused};
ghost use Rattle.bpf_insn.specs.Signed.{sign_extended};
ghost use Rattle.bpf_insn.specs.Spelling.{HasSpelling, spelling};
ghost use Rattle.bpf_insn.specs.declared.alu_op.AluOp.{AluOp};
ghost use Rattle.bpf_insn.specs.declared.insn.Insn.{Insn};
ghost use Rattle.bpf_insn.specs.declared.refusal.Cause.{Cause};
ghost use Rattle.bpf_insn.specs.declared.size.Size.{Size};
ghost use Rattle.bpf_insn.specs.declared.swap_kind.SwapKind.{SwapKind};
ghost use Rattle.bpf_insn.specs.declared.width.Width.{Width};

/// A law: no two codes share a spelling.
pub fn spelling_is_unique()
    ensures { (a b : List Insn) (bytes : List ℕ) → Spells a bytes → Spells b bytes → a ≡ b }
{}

/// A law: bytes that spell a code have no refusal, and others no two. That they have one is `refusal_of`'s contract.
pub fn refusal_is_unique()
    ensures none { (code : List Insn) (bytes : List ℕ) (cause : Cause) (pc : ℕ) → Spells code bytes → IsRefused bytes cause pc → ⊥ }
    ensures one { (bytes : List ℕ) (c d : Cause) (p q : ℕ) → IsRefused bytes c p → IsRefused bytes d q → (c ≡ d) × (p ≡ q) }
{}

/// A law: what is encoded is decoded again.
pub fn encoded_is_code()
    ensures { (i : Insn) → HasSpelling i → Spells (takes i) (spelling i) }
{}

/// A law: the operations give numbers of 64 bits, whatever they are given.
pub fn results_fit()
    ensures alu { (op : AluOp) (wide : Bool) (a b : ℕ) → computed op wide a b < 2 ^ 64 }
    ensures neg { (wide : Bool) (a : ℕ) → negated wide a < 2 ^ 64 }
    ensures swap { (kind : SwapKind) (width : Width) (a : ℕ) → swapped kind width a < 2 ^ 64 }
    ensures extend { (size : Size) (a : ℕ) → extended size a < 2 ^ 64 }
    ensures move_extend { (wide : Bool) (size : Size) (a : ℕ) → moved_extended wide size a < 2 ^ 64 }
    ensures signed { (z : ℤ) → sign_extended z < 2 ^ 64 }
{}
