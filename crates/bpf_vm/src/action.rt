//! The actions of XDP, by their numbers.

ghost use Rattle.std.specs.Prelude.{◌≡◌};
ghost use Rattle.bpf_vm.specs.Actions.{action_of, action_name};

/// The number of DROP, as `XDP_DROP` of bpf.h.
pub const XDP_DROP: u32 = 1;
/// The number of PASS, as `XDP_PASS` of bpf.h.
pub const XDP_PASS: u32 = 2;
/// The number of TX, as `XDP_TX` of bpf.h.
pub const XDP_TX: u32 = 3;

/// The fate of a packet: the actions of XDP (Linux's uapi/linux/bpf.h, `enum xdp_action`).
#[derive(Clone, Copy, Debug, PartialEq, Eq, Drop)]
pub enum Action {
    /// The packet is dropped as after a fault.
    Aborted,
    /// The packet is dropped.
    Drop,
    /// The packet goes on to the network stack.
    Pass,
    /// The packet goes back out of the interface that it came from.
    Tx,
}

impl Action {
    /// The action of the number that a program ends with. Each from 4 on is `Aborted`.
    pub fn of(number: u32) -> Action
        ensures { result ≡ action_of number }
    {
        match number {
            XDP_DROP => Action::Drop,
            XDP_PASS => Action::Pass,
            XDP_TX => Action::Tx,
            _ => Action::Aborted,
        }
    }

    /// The name without its prefix `XDP_`.
    pub fn name(self) -> &'static str
        ensures { result.now ≡ action_name self }
    {
        match self {
            Action::Aborted => "ABORTED",
            Action::Drop => "DROP",
            Action::Pass => "PASS",
            Action::Tx => "TX",
        }
    }
}
