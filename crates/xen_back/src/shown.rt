//! The turn that a host is shown.

ghost use Rattle.std.specs.Prelude.{◌≡◌, ◌≤◌, [], length};
ghost use Rattle.xen_back.specs.Rest.{packet_at};
ghost use Rattle.xen_turns.specs.Turned.{IsShort, Shows, turned};

use crate::by_event::stage::Stage;
use bpf_vm::Action;
use xen_host::Room;
use xen_turns::{Kind, Turn};

/// The turn that ended as this kind.
pub(crate) fn shown<'t>(stage: &'t Stage<'_, '_>, kind: Kind) -> Turn<'t>
    ensures shows { Shows (turned kind (packet_at stage.now)) result }
    ensures short { IsShort result }
{
    match kind {
        Kind::Idle => Turn::Idle,
        Kind::Ran { number, ops, slots } => Turn::Ran {
            action: Action::of(number),
            number,
            packet: packet_in(stage),
            ops,
            slots,
        },
        Kind::Refused { cause, ops, slots } => Turn::Refused { cause, ops, slots },
        Kind::Halted { cause } => Turn::Halted { cause },
    }
}

/// The packet that a stage holds; none while the program runs.
fn packet_in<'t>(stage: &'t Stage<'_, '_>) -> &'t [u8]
    ensures same { result.now ≡ packet_at stage.now }
    ensures short { length result.now ≤ 65535 }
{
    match stage {
        Stage::At(packet, _) => packet.bytes(),
        Stage::EntryFlags(entry) => entry.packet.bytes(),
        Stage::EntryFrame { entry, .. } => entry.packet.bytes(),
        Stage::Page(page) => page.packet.bytes(),
        Stage::Run(_) => &[],
        Stage::Send(packet, _) => packet.bytes(),
    }
}
