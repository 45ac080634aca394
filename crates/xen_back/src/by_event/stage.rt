//! Where a queue is inside a turn, with its packet.

ghost use Rattle.std.specs.Prelude.{◌≡◌, ◌≤◌};

use crate::by_event::copy::{Entering, Paging};
use crate::by_event::phase::Phase;
use crate::copy_buf::CopyBuf;
use bpf_vm::Vm;
use xen_netif::Chain;
use xen_rx_fill::Transmit;

/// A program that runs on the chain's packet, with how many counter operations it did.
#[derive(Drop)]
pub struct Executing<'p, 'b> {
    pub chain: Chain,
    pub vm: Vm<'p, 'b>,
    pub ops: u32,
    ghost few: { ops ≤ vm.count },
    ghost room: { vm.numbers.packet.room.size ≡ 65535 },
}

/// A packet that is sent, with the chain that it came in and the counter operations of its run.
#[derive(Drop)]
pub struct Transmitting {
    pub chain: Chain,
    pub transmit: Transmit,
    pub ops: u32,
}

#[derive(Drop)]
pub enum Stage<'p, 'b> {
    At(CopyBuf<'b>, Phase),
    /// An entry's flags word is to be read.
    EntryFlags(Entering<'b>),
    /// An entry's frame word, after this flags word.
    EntryFrame {
        entry: Entering<'b>,
        flags_word: u32,
    },
    Page(Paging<'b>),
    Run(Executing<'p, 'b>),
    Send(CopyBuf<'b>, Transmitting),
}
