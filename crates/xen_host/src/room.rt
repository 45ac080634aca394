//! Room for the packet of an engine.

ghost use Rattle.std.specs.Prelude.{◌≡◌, ◌≤◌, ◌+◌, ◌++◌, [], ℕ, List, length};
ghost use Rattle.xdp_program.specs.Tallies.{Went};
ghost use Rattle.xen_host.specs.Ran.{RanFrom};

use crate::run::Ran;
use bpf_lists::MapList;
use bpf_verify::Verified;
use bpf_vm::Fill;
use xdp_program::Tallies;

/// Room for a packet of up to 65,535 bytes, and for the stack of the program that runs on it, wherever it lies.
pub trait Room {
    // The packet's bytes.
    ghost held: { Self → List ℕ };

    /// The packet's bytes.
    fn bytes(&self) -> &[u8]
        ensures same { result.now ≡ held self.now }
        ensures short { length result.now ≤ 65535 };

    /// Takes all bytes out.
    fn clear(&mut self)
        ensures { held self.new ≡ [] };

    /// More bytes at the end.
    fn push_all(&mut self, bytes: &[u8])
        requires { length (held self.old) + length bytes.now ≤ 65535 }
        ensures { held self.new ≡ held self.old ++ bytes.now };

    /// Adds `count` bytes at the end, which a filler writes there.
    fn push_from<S, F: Fill<S>>(&mut self, count: usize, filler: &F, source: &mut S)
        requires room { length (held self.old) + count ≤ 65535 }
        requires fits { F.fits filler.now source.old count }
        ensures { (bytes : List ℕ) × (length bytes ≡ count) × F.fills filler.now source.old bytes source.new
            × (held self.new ≡ held self.old ++ bytes) };

    /// Runs a program on the packet where it lies.
    fn run<T: Tallies>(
        &mut self,
        program: &Verified,
        lists: &[Option<MapList>],
        counters: &mut T,
        ifindex: u32,
        queue: u32,
    ) -> Ran
        requires serves { T.serves program.now.shapes counters.old }
        ensures ran { RanFrom program.now lists.now (held self.old) ifindex queue (Went (T.did program.now.shapes) counters.old
            counters.new) result.number (held self.new) result.ops };
}

/// Puts a packet into a room, in place of what it holds.
#[inline(always)]
pub(crate) fn hold<R: Room>(packet: &[u8], room: &mut R)
    requires { length packet.now ≤ 65535 }
    ensures { R.held room.new ≡ packet.now }
{
    room.clear();
    room.push_all(packet)
}
