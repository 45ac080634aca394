//! A piece of a packet, written in one go over a bus: no phase is made between its words.

ghost use Rattle.std.specs.Prelude.{◌≡◌, ◌≤◌, ℕ, List, length};
ghost use Rattle.xen_front.specs.Rest.{HasSpace, id_of, pieces as pieces_spec, rest_at};
ghost use Rattle.xen_front.specs.Slots.{buffer, grant_writes, page_writes, piece_words as piece_words_spec, piece_writes, slot_writes};
ghost use Rattle.xen_front.specs.Straight.{AreOnBus, touched};
ghost use Rattle.xen_front.specs.declared.state.FrontState.{FrontState};
ghost use Rattle.xen_page.specs.Access.{Performs};
ghost use Rattle.xen_steps.specs.Drive.{Any, Bounded, Driven, IsPageWant};
ghost use Rattle.xen_steps.specs.Event.{Event};

use crate::by_event::phase::{Phase, Piece};
use crate::by_event::places::{piece_words, word_at};
use crate::by_event::sending::{READ_GRANT, page, request, slot_written};
use xen_buffers::{FrontWiring, grant_flags, grant_frame};
use xen_page::{Bus, Place};
use xen_steps::tx_entry;

/// Lets the back read a piece's page.
fn grant_page<B: Bus>(wiring: &FrontWiring, piece: &Piece, bus: &mut B)
    requires on_bus { AreOnBus (B.size bus.old) (grant_writes wiring.now (buffer wiring.now.tx.now (id_of piece.now)) 5) }
    ensures size { B.size bus.new ≡ B.size bus.old }
    ensures wrote { Performs B.log B.access_gives bus.old
        (touched (grant_writes wiring.now (buffer wiring.now.tx.now (id_of piece.now)) 5)) bus.new }
{
    let buffer = page(wiring, piece);
    bus.write(grant_frame(wiring, &buffer), buffer.frame);
    bus.write(
        grant_flags(wiring, &buffer),
        READ_GRANT + 0x1_0000 * u32::from(wiring.back),
    );
}

/// Fills it with the packet's words.
fn fill_page<B: Bus>(wiring: &FrontWiring, sent: &[u8], piece: &Piece, bus: &mut B)
    requires length { length sent.now ≤ 65535 }
    requires on_bus { AreOnBus (B.size bus.old) (page_writes sent.now (buffer wiring.now.tx.now (id_of piece.now)).frame
        piece.now.index (piece_words_spec (length sent.now) piece.now.index) 0) }
    ensures size { B.size bus.new ≡ B.size bus.old }
    ensures wrote { Performs B.log B.access_gives bus.old
        (touched (page_writes sent.now (buffer wiring.now.tx.now (id_of piece.now)).frame piece.now.index
        (piece_words_spec (length sent.now) piece.now.index) 0)) bus.new }
{
    let frame = page(wiring, piece).frame;
    let first = 4096 * piece.index as usize;
    for word in 0..piece_words(sent.len() as u32, piece.index) {
        bus.write(
            Place { frame, word },
            word_at(sent, first + 4 * word as usize),
        );
    }
}

/// Writes its slot.
fn write_slot<B: Bus>(wiring: &FrontWiring, sent: &[u8], piece: &Piece, bus: &mut B)
    requires length { length sent.now ≤ 65535 }
    requires on_bus { AreOnBus (B.size bus.old) (slot_writes wiring.now piece.now.start sent.now (pieces_spec piece.now)
        piece.now.index (id_of piece.now)) }
    ensures size { B.size bus.new ≡ B.size bus.old }
    ensures wrote { Performs B.log B.access_gives bus.old
        (touched (slot_writes wiring.now piece.now.start sent.now (pieces_spec piece.now) piece.now.index (id_of piece.now))) bus.new }
{
    let [first, second, third] = request(wiring, sent, piece).words();
    let index = piece.start.wrapping_add(piece.index);
    bus.write(tx_entry(wiring.tx_frame, index, 0), first);
    bus.write(tx_entry(wiring.tx_frame, index, 1), second);
    bus.write(tx_entry(wiring.tx_frame, index, 2), third);
}

/// Makes all writes of a piece: its grant, its page and its slot.
fn write_piece<B: Bus>(wiring: &FrontWiring, sent: &[u8], piece: &Piece, bus: &mut B)
    requires length { length sent.now ≤ 65535 }
    requires on_bus { AreOnBus (B.size bus.old) (piece_writes wiring.now piece.now.start sent.now (pieces_spec piece.now)
        piece.now.index (id_of piece.now)) }
    ensures size { B.size bus.new ≡ B.size bus.old }
    ensures wrote { Performs B.log B.access_gives bus.old
        (touched (piece_writes wiring.now piece.now.start sent.now (pieces_spec piece.now) piece.now.index (id_of piece.now))) bus.new }
{
    grant_page(wiring, piece, bus);
    fill_page(wiring, sent, piece, bus);
    write_slot(wiring, sent, piece, bus);
}

/// The phase after a piece, all of whose writes are made, if the phase is before one; else the phase itself.
pub(crate) fn past_piece<B: Bus>(
    wiring: &FrontWiring,
    sent: &[u8],
    phase: Phase,
    bus: &mut B,
) -> Phase
    requires length { length sent.now ≤ 65535 }
    requires bounded { (s : FrontState) × (q : List ℕ) ×
        Bounded (IsPageWant (B.size bus.old)) Any (rest_at wiring.now s sent.now q phase) 17000 }
    ensures size { B.size bus.new ≡ B.size bus.old }
    ensures space { (q : List ℕ) → HasSpace phase q → HasSpace result q }
    ensures driven { (s : FrontState) (q : List ℕ) → (t : List Event) × Driven B.log B.access_gives
        (rest_at wiring.now s sent.now q phase) (rest_at wiring.now s sent.now q result) bus.old bus.new t }
{
    match phase {
        Phase::GrantFrame(piece) => {
            write_piece(wiring, sent, &piece, bus);
            slot_written(wiring, piece)
        }
        phase => phase,
    }
}
