//! What a seat of the table knows.
use bpf_note::{MapShape, Op};
use std::collections::LinkedList;

/// A seat's number with the operations that were done under it. No value of it is made.
pub struct Part {
    pub number: u64,
    pub ops: LinkedList<Op>,
}

/// The maps' shapes, the beginning of the counters, and the numbers that stand at the seat. No value of it is made.
/// A seat that is in use has one number, one that others were joined to has several, and a spent one has none.
pub struct View {
    pub shapes: LinkedList<MapShape>,
    pub begin: LinkedList<u64>,
    pub parts: LinkedList<Part>,
}
