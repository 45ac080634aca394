//! Laws of settings. Each is a function that does nothing, and whose contract is the law.
ghost use Rattle.std.specs.Prelude.{ℕ, ◌≡◌, ◌<◌, ◌^◌, ◌++◌, List, length};
ghost use Rattle.bpf_insn.specs.Spelling.{spelling};
ghost use Rattle.bpf_insn.specs.declared.insn.Insn.TheVariants.{Const, MapRef};
ghost use Rattle.bpf_insn.specs.declared.register.Register.{Register};
ghost use Rattle.xdp_load.specs.Complete.{HasFields, IsWritten};
ghost use Rattle.xdp_load.specs.Plain.{IsPlainText, IsReadAsEver};
ghost use Rattle.xdp_load.specs.Setup.{SetupView, with_map};
ghost use Rattle.xdp_load.specs.Sound.{IsSound};

/// A wide load of a number of 32 bits (compilers leave 0 for a map) becomes that of the map by its relocation, wherever it
/// stands, and nothing else changes.
pub fn relocated_loads_are_of_maps()
    ensures { (front rest : List ℕ) (dst : Register) (value m : ℕ) → value < 2 ^ 32 → m < 256 →
        with_map (front ++ (spelling (Const dst value) ++ rest)) (length front) m ≡ front ++ (spelling (MapRef dst m) ++ rest) }
{}

/// Each setup within its limits is that of some document: nothing more is refused.
pub fn sound_setups_are_written()
    ensures { (s : SetupView) → IsSound s → HasFields s → IsWritten s }
{}

/// What has none of the keys for lists and wider limits is read by [`load_listed`](crate::load_listed) as by
/// [`load`](crate::load): the same setup, or the same fault at the same spot.
pub fn settings_without_lists_are_read_as_ever()
    ensures { (bytes : List ℕ) → IsPlainText bytes → IsReadAsEver bytes }
{}
