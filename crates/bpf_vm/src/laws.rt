//! Laws of accepted programs.
ghost use Rattle.std.specs.Prelude.{◌≡◌};
ghost use Rattle.bpf_note.specs.State.{State, IsStart};
ghost use Rattle.bpf_verify.specs.Consistent.{Accepted, IsConsistent, instructions};
ghost use Rattle.bpf_vm.specs.Course.{IsCourseOf, IsWhole, course};

use bpf_verify::Verified;

/// An accepted program exits within its number of instructions and without a fault, whatever the counters answer,
/// and asks for counters of its maps alone.
pub fn accepted_programs_end()
    ensures end { (p : Accepted) → IsConsistent p → (s : State) → IsStart s → s.shapes ≡ p.shapes →
        IsWhole (course (instructions p.code) p.code s) }
    ensures counters { (p : Accepted) → IsConsistent p → (s : State) → s.shapes ≡ p.shapes →
        IsCourseOf p.shapes (course (instructions p.code) p.code s) }
{}

/// Every run of a program that [`verify`](bpf_verify::verify) answers exits, within its number of instructions and
/// without a fault, whatever the counters answer, and asks for counters of its maps alone.
pub fn verified_programs_end(program: &Verified)
    ensures end { (s : State) → IsStart s → s.shapes ≡ program.now.shapes →
        IsWhole (course (instructions program.now.code) program.now.code s) }
    ensures counters { (s : State) → s.shapes ≡ program.now.shapes →
        IsCourseOf program.now.shapes (course (instructions program.now.code) program.now.code s) }
{
    // This call ensures that the program is consistent.
    program.instructions();
    accepted_programs_end();
}
