//! The host's answers.
ghost use Rattle.std.specs.Prelude.{◌≡◌, ◌≤◌, ◌+◌, ◌++◌, ◌*◌, None, Some, false, true, length, vec_capacity, vec_len};
ghost use Rattle.xen_turns.specs.Delivered.{is_frame};
ghost use Rattle.thread_pair.specs.Answering.{answer_to, exchanged, frame_answer, shown_reply};

use crate::host::OnPass;
use bpf_vm::Action;
use std::alloc::{AllocError, Global};
use xen_back::Turn;

/// The bytes of an Ethernet header.
const HEADER: usize = 14;

/// The bytes of an address. A header has two of them, one after the other, at its beginning.
const ADDRESS: usize = 6;

/// The most bytes of a packet.
const MAX_PACKET: usize = 65_535;

/// An answer, and room for the longest one.
#[derive(Drop)]
pub(crate) struct Answer {
    bytes: Vec<u8>,
    ghost room: { 65535 ≤ vec_capacity bytes },
}

/// Adds bytes, for which there is room.
fn add(bytes: &mut Vec<u8>, more: &[u8])
    requires { vec_len bytes.old + length more.now ≤ vec_capacity bytes.old }
    ensures items { bytes.new.items ≡ bytes.old.items ++ more.now }
    ensures room { vec_capacity bytes.old ≤ vec_capacity bytes.new }
{
    if bytes.extend_from_slice(more).is_err() {
        unreachable!();
    }
}

/// Writes a packet, the two addresses of its header exchanged.
fn exchange(bytes: &mut Vec<u8>, packet: &[u8])
    requires frame { (14 ≤ length packet.now) × (length packet.now ≤ 65535) }
    requires room { 65535 ≤ vec_capacity bytes.old }
    ensures items { bytes.new.items ≡ exchanged packet.now }
    ensures room { 65535 ≤ vec_capacity bytes.new }
{
    let (addresses, rest) = packet.split_at(2 * ADDRESS);
    let (target, source) = addresses.split_at(ADDRESS);
    bytes.clear();
    add(bytes, source);
    add(bytes, target);
    add(bytes, rest);
}

/// Returns whether a packet has an Ethernet header, and no more bytes than a packet can have.
fn is_frame(packet: &[u8]) -> bool
    ensures { result ≡ is_frame packet.now }
{
    !(packet.len() < HEADER || packet.len() > MAX_PACKET)
}

impl Answer {
    /// No bytes.
    pub fn make(alloc: Global) -> Result<Answer, AllocError> {
        let bytes = Vec::with_capacity(alloc, MAX_PACKET)?;
        Ok(Answer { bytes })
    }

    pub fn bytes(&self) -> &[u8]
        ensures { result.now ≡ self.now.bytes.items }
    {
        self.bytes.as_slice()
    }

    /// Writes the answer to a frame; else there is none.
    fn write_frame(&mut self, packet: &[u8]) -> bool
        ensures written { result ≡ true → frame_answer packet.now ≡ Some self.new.bytes.items }
        ensures none { result ≡ false → frame_answer packet.now ≡ None }
    {
        if is_frame(packet) {
            exchange(&mut self.bytes, packet);
            return true;
        }
        false
    }

    /// Writes the answer to a packet for which the program chose this action, if there is one.
    fn write_to(&mut self, action: Action, packet: &[u8]) -> bool
        ensures written { result ≡ true → answer_to action packet.now ≡ Some self.new.bytes.items }
        ensures none { result ≡ false → answer_to action packet.now ≡ None }
    {
        match action {
            Action::Pass => self.write_frame(packet),
            Action::Aborted | Action::Drop | Action::Tx => false,
        }
    }

    /// Writes what the host answers to a turn, if it answers.
    pub fn write(&mut self, host: OnPass, turn: &Turn<'_>) -> bool
        ensures written { result ≡ true → shown_reply host turn.now ≡ Some self.new.bytes.items }
        ensures none { result ≡ false → shown_reply host turn.now ≡ None }
    {
        match host {
            OnPass::Takes => false,
            OnPass::Answers => match turn {
                Turn::Ran { action, packet, .. } => self.write_to(*action, packet),
                Turn::Idle | Turn::Refused { .. } | Turn::Halted { .. } => false,
            },
        }
    }
}
