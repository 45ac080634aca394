//! Laws of what is known.
ghost use Rattle.std.specs.Prelude.{◌≡◌, ◌⊎◌, ◌↔◌};
ghost use Rattle.bpf_note.specs.State.{State, IsStart};
ghost use Rattle.bpf_note.specs.Facts.{Facts, entry, packet_id};
ghost use Rattle.bpf_note.specs.Describes.{Describes, IsBegun};
ghost use Rattle.bpf_note.specs.Join.{joined};
ghost use Rattle.bpf_note.specs.Parts.{facts};

use crate::note::Note;
use crate::slots::{are_eleven, have_eight_bytes};
use crate::val::PACKET_ID;

/// Two notes that say the same are equal.
pub fn notes_that_say_the_same_are_equal(a: &Note, b: &Note)
    ensures { facts a.now ≡ facts b.now → a.now ≡ b.now }
{
    are_eleven(&a.regs);
    are_eleven(&b.regs);
    have_eight_bytes(&a.slots);
    have_eight_bytes(&b.slots);
}

/// The id of the packet's start, which the entry has with base 0 and no safe bound, is [`PACKET_ID`].
pub fn the_packet_starts_at_its_id() -> u16
    ensures { result ≡ packet_id }
{
    PACKET_ID
}

/// The join of what is known with itself is itself.
pub fn joins_with_itself_change_nothing()
    ensures { (n : Facts) → joined n n ≡ n }
{}

/// A join doesn't depend on the order of the two.
pub fn joins_take_either_order()
    ensures { (a b : Facts) → joined a b ≡ joined b a }
{}

/// A join describes what either of the two describes.
pub fn joins_describe_what_either_does()
    ensures { (a b : Facts) (s : State) → Describes a s ⊎ Describes b s → Describes (joined a b) s }
{}

/// What is known at the entry describes exactly the states in which what a start sets is set.
pub fn the_entry_describes_what_is_begun()
    ensures { (s : State) → Describes entry s ↔ IsBegun s }
{}

/// What is known at the entry describes every start.
pub fn the_entry_describes_every_start()
    ensures { (s : State) → IsStart s → Describes entry s }
{}
