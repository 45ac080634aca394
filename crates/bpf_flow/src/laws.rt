//! Laws of the steps of a program.
ghost use Rattle.std.specs.Prelude.{◌≡◌, ◌↔◌, ℕ, ℤ, List, length, Option, Some, Err, Bool, true};
ghost use Rattle.bpf_insn.specs.declared.insn.Insn.{Insn};
ghost use Rattle.bpf_insn.specs.declared.insn.Insn.TheVariants.{Ldx};
ghost use Rattle.bpf_insn.specs.declared.register.Register.{Register};
ghost use Rattle.bpf_insn.specs.declared.refusal.Cause.TheVariants.{Unset, FramePointer};
ghost use Rattle.bpf_insn.specs.Size.{size_bytes};
ghost use Rattle.bpf_insn.specs.declared.size.Size.{Size};
ghost use Rattle.bpf_note.specs.Facts.{Facts};
ghost use Rattle.bpf_note.specs.Shape.{AreShapes, Shape};
ghost use Rattle.bpf_note.specs.State.{State};
ghost use Rattle.bpf_note.specs.declared.op.Op.{Op};
ghost use Rattle.bpf_note.specs.declared.op.Op.TheVariants.{Load};
ghost use Rattle.bpf_note.specs.Constants.{HaveNoConstants};
ghost use Rattle.bpf_note.specs.Regions.{region, HaveNoParts};
ghost use Rattle.bpf_note.specs.declared.val.Val.{Val};
ghost use Rattle.bpf_flow.specs.Rule.{after_of};
ghost use Rattle.bpf_flow.specs.Graph.{Leads, writes};
ghost use Rattle.bpf_flow.specs.Kept.{Kept, IsLabelOf};
ghost use Rattle.bpf_flow.specs.Reading.{ReadsUnset};
ghost use Rattle.bpf_flow.specs.Step.{Outcome, LeadsTo, Alike, Fits, exec, load_at, load_from, step};
ghost use Rattle.bpf_flow.specs.Edges.{and_then};
ghost use Rattle.bpf_flow.specs.Memory.{load_value, loaded_value, reach};

/// No step changes `r10`, the frame pointer.
pub fn no_step_writes_the_frame_pointer()
    ensures { (code : List Insn) (s : State) (label : Option Op) (t : State) → LeadsTo (step code s) label t → t.reg 10 ≡ s.reg 10 }
{}

/// A label that fits one instruction doesn't fit another kind, and a load of a counter that isn't loaded in parts has eight bytes. If
/// two labels fit one step, they name one operation.
pub fn labels_fit_their_instruction()
    ensures kind { (i : Insn) (s : State) (label : Option Op) (t : State) → LeadsTo (exec i s) label t → Fits i label }
    ensures whole { (size : Size) (signed : Bool) (dst src : Register) (off : ℤ) (s : State) (m k j v : ℕ) (t : State) →
        HaveNoParts s.shapes → LeadsTo (exec (Ldx size signed dst src off) s) (Some (Load m k j v)) t → size_bytes size ≡ 8 }
    ensures alike { (o : Outcome) (a b : Option Op) (t u : State) → LeadsTo o a t → LeadsTo o b u → Alike a b }
{}

/// A step and its label fix the state after it.
pub fn one_label_one_state()
    ensures { (o : Outcome) (label : Option Op) (t u : State) → LeadsTo o label t → LeadsTo o label u → t ≡ u }
{}

/// Every step follows an edge of the flow graph.
pub fn steps_follow_edges()
    ensures { (i : Insn) (s : State) (label : Option Op) (t : State) → LeadsTo (exec i s) label t → Leads i s.pc t.pc }
{}

/// An instruction is refused for an unset register exactly when it reads a register of which nothing is known. A call
/// of a helper that programs may not call reads nothing.
pub fn unset_exactly_where_read()
    ensures { (i : Insn) (pc : ℕ) (n : Facts) (shapes : List Shape) → (after_of i pc n shapes ≡ Err Unset) ↔ ReadsUnset i n }
{}

/// An instruction is refused for the frame pointer exactly when it writes `r10` and reads no unset register.
pub fn frame_pointer_exactly_where_written()
    ensures { (i : Insn) (pc : ℕ) (n : Facts) (shapes : List Shape) →
        (after_of i pc n shapes ≡ Err FramePointer) ↔ (writes i 10 ≡ true) × (ReadsUnset i n → ⊥) }
{}

/// Where no map has constants, and no counter is loaded in parts, a load reads what a region holds, and the rule for it is that of
/// its region.
pub fn loads_without_constants_are_of_regions()
    ensures step { (s : State) (a : ℕ) (signed : Bool) (size : Size) (dst : ℕ) → HaveNoConstants s.shapes → HaveNoParts s.shapes →
        load_at s a signed size dst ≡ load_from a (region (length s.packet) s.shapes a (size_bytes size)) s signed size dst }
    ensures rule { (n : Facts) (shapes : List Shape) (v : Val) (o : ℤ) (signed : Bool) (size : Size) → HaveNoConstants shapes → HaveNoParts shapes →
        load_value n shapes v o signed size ≡ and_then (reach n v o (size_bytes size)) (loaded_value n shapes signed size) }
{}

/// No step changes the maps or the length of the packet, and a step reads and adds to counters of the maps alone.
pub fn steps_keep_the_maps()
    ensures kept { (code : List Insn) (s : State) (label : Option Op) (t : State) → LeadsTo (step code s) label t → Kept s t }
    ensures counters { (code : List Insn) (s : State) (label : Option Op) (t : State) → AreShapes s.shapes →
        LeadsTo (step code s) label t → IsLabelOf s.shapes label }
{}
