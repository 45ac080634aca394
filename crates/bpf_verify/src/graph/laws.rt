//! Laws of the order in which the second pass takes slots, and of runs.
ghost use Rattle.std.specs.Prelude.{◌≡◌, ◌<◌, ℕ, List, length, slice_get, slice_index, true};
ghost use Rattle.bpf_insn.specs.declared.insn.Insn.{Insn};
ghost use Rattle.bpf_verify.specs.Structure.{begins};
ghost use Rattle.bpf_verify.specs.Paths.{Steps};
ghost use Rattle.bpf_verify.specs.Edges.{Edge, IsPassOrder};
ghost use Rattle.bpf_verify.specs.Consistent.{IsOrdered, instructions};

/// A program has one order of the second pass.
pub fn pass_order_is_unique()
    ensures { (code : List Insn) (xs ys : List ℕ) → IsPassOrder code xs → IsPassOrder code ys → xs ≡ ys }
{}

/// If every edge goes up, the order goes up.
pub fn pass_order_rises()
    ensures { (code : List Insn) (xs : List ℕ) → IsPassOrder code xs → ((p q : ℕ) → Edge code p q → p < q) → (i j : ℕ) → i < j →
        j < length xs → slice_index xs i < slice_index xs j }
{}

/// A run along edges of an ordered program is shorter than its number of instructions.
pub fn runs_are_short()
    ensures { (code : List Insn) (k p q : ℕ) → IsOrdered code → begins (slice_get code p) ≡ true → Steps (Edge code) k p q →
        k < instructions code }
{}
