//! Where an instruction leads.

use bpf_note::Note;

/// A slot that control may go to, with what is known there.
#[derive(Drop)]
pub struct Successor {
    pub pc: u32,
    pub note: Box<Note>,
}

/// The slots to which an instruction leads: the next slot stands before a jump's target.
#[derive(Drop)]
pub enum Successors {
    None,
    One(Successor),
    Two(Successor, Successor),
}

/// The slots to which an instruction leads, if the note at hand goes on along the first way.
#[derive(Drop)]
pub enum Ways {
    None,
    /// To this slot, with the note.
    One(u32),
    /// To the next slot with the note, and to a jump's target with another.
    Two(u32, Successor),
}
