//! Sending a packet: the pieces' writes.

ghost use Rattle.std.specs.Prelude.{◌≡◌, ◌≤◌, ◌<◌, ◌+◌, ◌-◌, ℕ, List, [], length, slice_index};
ghost use Rattle.xen_front.specs.Rest.{HasSpace, filling_from, id_of, pieces as pieces_spec, rest_at, sending};
ghost use Rattle.xen_front.specs.Slots.{buffer, filling as filling_spec, grant_place, told_size as told_size_spec};
ghost use Rattle.xen_front.specs.Slots.{piece_request as piece_request_spec, piece_words as piece_words_spec, send_writes};
ghost use Rattle.xen_netif.specs.Slots.{tx_req_words};
ghost use Rattle.xen_netif.specs.Words.{joined};
ghost use Rattle.xen_page.specs.Mapping.{frame_place};
ghost use Rattle.xen_front.specs.Tree.{publish};
ghost use Rattle.xen_front.specs.declared.state.FrontState.{FrontState};
ghost use Rattle.xen_steps.specs.Pages.{write_all};
ghost use Rattle.xen_steps.specs.Places.{add32, tx_entry as tx_entry_place};
ghost use Rattle.xen_steps.specs.Steps.{next_by, want_of};

use crate::by_event::phase::{Filling, Phase, Piece, Push};
use crate::by_event::places::{piece_size, piece_words, word_at};
use arrayvec::ArrayVec;
use xen_buffers::{FrontWiring, GrantedPage, buffer_of, grant_flags, grant_frame};
use xen_netif::{TxFlags, TxReq};
use xen_page::Place;
use xen_steps::{Want, tx_entry};

/// A grant's flags that let the back read: `GTF_permit_access` and `GTF_readonly`.
pub(crate) const READ_GRANT: u32 = 5;

/// The id of a piece.
fn id(piece: &Piece) -> u8
    ensures { result ≡ id_of piece.now }
{
    piece.ids.as_slice()[piece.index as usize]
}

/// The number of pieces.
fn pieces(piece: &Piece) -> u32
    ensures value { result ≡ pieces_spec piece.now }
    ensures few { result ≤ 16 }
{
    piece.ids.len() as u32
}

/// The buffer of a piece.
pub(crate) fn page(wiring: &FrontWiring, piece: &Piece) -> GrantedPage
    ensures { result ≡ buffer wiring.now.tx.now (id_of piece.now) }
{
    buffer_of(wiring.tx, u16::from(id(piece)))
}

/// The frame word of a piece's grant.
pub(crate) fn piece_frame(wiring: &FrontWiring, piece: &Piece) -> Want
    ensures { let b = buffer wiring.now.tx.now (id_of piece.now) in
        result ≡ Want.Write (frame_place (grant_place wiring.now b)) b.frame }
{
    let buffer = page(wiring, piece);
    Want::Write(grant_frame(wiring, &buffer), buffer.frame)
}

/// Its flags word: the back may read.
pub(crate) fn piece_flags(wiring: &FrontWiring, piece: &Piece) -> Want
    ensures { result ≡ Want.Write (grant_place wiring.now (buffer wiring.now.tx.now (id_of piece.now))) (joined 5 wiring.now.back) }
{
    let buffer = page(wiring, piece);
    Want::Write(
        grant_flags(wiring, &buffer),
        READ_GRANT + 0x1_0000 * u32::from(wiring.back),
    )
}

/// The size in a piece's slot: the packet's in the first, the piece's own in a later one.
fn told_size(sent: &[u8], index: u32) -> u16
    requires length { length sent.now ≤ 65535 }
    requires few { index ≤ 15 }
    ensures { result ≡ told_size_spec (length sent.now) index }
{
    if index == 0 {
        sent.len() as u16
    } else {
        piece_size(sent.len() as u32, index) as u16
    }
}

/// The request of a piece.
pub(crate) fn request(wiring: &FrontWiring, sent: &[u8], piece: &Piece) -> TxReq
    requires { length sent.now ≤ 65535 }
    ensures { result ≡ piece_request_spec wiring.now sent.now (pieces_spec piece.now) piece.now.index (id_of piece.now) }
{
    TxReq {
        gref: page(wiring, piece).gref,
        offset: 0,
        flags: TxFlags {
            csum_blank: false,
            data_validated: false,
            more_data: piece.index + 1 < pieces(piece),
            extra_info: false,
        },
        id: u16::from(id(piece)),
        size: told_size(sent, piece.index),
    }
}

/// A word of a piece's slot.
pub(crate) fn slot_write(wiring: &FrontWiring, sent: &[u8], piece: &Piece, word: u32) -> Want
    requires length { length sent.now ≤ 65535 }
    requires word { word < 3 }
    ensures { result ≡ Want.Write (tx_entry_place wiring.now.tx_frame (add32 piece.now.start piece.now.index) word)
        (slice_index (tx_req_words (piece_request_spec wiring.now sent.now (pieces_spec piece.now) piece.now.index
        (id_of piece.now))) word) }
{
    let words = request(wiring, sent, piece).words();
    Want::Write(
        tx_entry(wiring.tx_frame, piece.start.wrapping_add(piece.index), word),
        words[word as usize],
    )
}

/// The next word of a page, or its slot's first word once all are written.
pub(crate) fn filling_want(wiring: &FrontWiring, sent: &[u8], filling: &Filling) -> Want
    requires { length sent.now ≤ 65535 }
    ensures { (s : FrontState) → result ≡ want_of (filling_from wiring.now s sent.now filling.now.piece filling.now.written) }
{
    let piece = &filling.piece;
    if filling.written < piece_words(sent.len() as u32, piece.index) {
        let at = Place {
            frame: page(wiring, piece).frame,
            word: filling.written,
        };
        Want::Write(
            at,
            word_at(
                sent,
                4096 * piece.index as usize + 4 * filling.written as usize,
            ),
        )
    } else {
        slot_write(wiring, sent, piece, 0)
    }
}

/// Before the first piece.
pub(crate) fn first_piece(start: u32, ids: ArrayVec<u8, 16>) -> Phase
    requires { 0 < length ids.items }
    ensures space { (q : List ℕ) → HasSpace result q }
    ensures rest { (w : FrontWiring) (s : FrontState) (p q : List ℕ) → rest_at w s p q result
        ≡ write_all (send_writes w start p (length ids.items) 0 ids.items)
        (publish w w.tx_frame start (add32 start (length ids.items)) s) }
{
    Phase::GrantFrame(Piece {
        start,
        index: 0,
        ids,
    })
}

/// After the grant's flags.
pub(crate) fn granted(piece: Piece) -> Phase
    ensures space { (q : List ℕ) → HasSpace result q }
    ensures rest { (w : FrontWiring) (s : FrontState) (p q : List ℕ) → rest_at w s p q result
        ≡ sending w s p piece (filling_spec w piece.start p (pieces_spec piece) piece.index (id_of piece)
        (piece_words_spec (length p) piece.index) 0) }
{
    Phase::Fill(Filling { piece, written: 0 })
}

/// After a word of the page, or after the slot's first.
pub(crate) fn filled(sent: &[u8], filling: Filling) -> Phase
    requires { length sent.now ≤ 65535 }
    ensures space { (q : List ℕ) → HasSpace result q }
    ensures rest { (w : FrontWiring) (s : FrontState) (q : List ℕ) (word counter : ℕ) → rest_at w s sent.now q result
        ≡ next_by (filling_from w s sent.now filling.piece filling.written) word counter }
{
    if filling.written < piece_words(sent.len() as u32, filling.piece.index) {
        let Filling { piece, written } = filling;
        Phase::Fill(Filling {
            piece,
            written: written + 1,
        })
    } else {
        Phase::Second(filling.piece)
    }
}

/// After a slot.
pub(crate) fn slot_written(wiring: &FrontWiring, piece: Piece) -> Phase
    ensures space { (q : List ℕ) → HasSpace result q }
    ensures rest { (s : FrontState) (p q : List ℕ) → rest_at wiring.now s p q result ≡ sending wiring.now s p piece [] }
{
    let Piece { start, index, ids } = piece;
    let n = ids.len() as u32;
    if index + 1 < n {
        Phase::GrantFrame(Piece {
            start,
            index: index + 1,
            ids,
        })
    } else {
        Phase::Publish(Push {
            frame: wiring.tx_frame,
            old: start,
            new: start.wrapping_add(n),
        })
    }
}
