//! The program's run on a copied packet.

ghost use Rattle.std.specs.Prelude.{true, ◌≡◌, ℕ, List};
ghost use Rattle.std.specs.Prelude.{Some};
ghost use Rattle.xen_turns.specs.Tree.{after_copy, after_run};
ghost use Rattle.xdp_program.specs.Tallies.{Went};
ghost use Rattle.xen_host.specs.Early.{is_late};
ghost use Rattle.xen_host.specs.HostLed.{TurnLeads, TurnRanLeads};
ghost use Rattle.xen_host.specs.EngineAt.{engine_at};

use crate::engine::Engine;
use crate::host::Host;
use crate::room::Room;
use crate::run::Ran;
use crate::stage::{Fill, Purpose, Stage};
use crate::wires::Wires;
use bpf_vm::XDP_TX;
use xdp_program::Tallies;
use xen_ring::REQ_PROD;
use xen_steps::header;
use xen_turns::Kind;
use xen_turns::decisions::{Reply, status};

impl Engine {
    /// Runs the program on the copy, where it lies.
    #[inline(always)]
    pub(crate) fn run<W: Wires, H: Host, T: Tallies, R: Room>(
        &mut self,
        wires: &W,
        packet: &mut R,
        counters: &mut T,
        host: &mut H,
    )
        requires enough { T.serves (W.wiring wires.now).program.now.shapes counters.old }
        requires free { H.is_free host.old }
        ensures led { TurnRanLeads H.was_asked H.is_full self.old.offload (after_copy (W.wiring wires.now) self.old.state
            self.old.work.chain (Some (R.held packet.old))) (engine_at (W.wiring wires.now) (R.held packet.new) self.new) (Went (T.did (W.wiring
            wires.now).program.now.shapes) counters.old counters.new) host.old host.new }
        ensures rx { self.new.state.rx_index ≡ self.old.state.rx_index }
        ensures late { is_late self.new.stage ≡ true }
    {
        let ran = packet.run(
            wires.program(),
            wires.lists(),
            counters,
            wires.ifindex(),
            wires.queue(),
        );
        self.after_run(ran, wires, host)
    }

    /// After the run.
    #[inline(always)]
    fn after_run<W: Wires, H: Host>(&mut self, ran: Ran, wires: &W, host: &mut H)
        requires free { H.is_free host.old }
        ensures led { (packet : List ℕ) → TurnLeads H.was_asked H.is_full self.old.offload (after_run (W.wiring wires.now)
            self.old.state self.old.work.chain (record { number = ran.number; packet = packet; ops = ran.ops })) (engine_at
            (W.wiring wires.now) packet self.new) host.old host.new }
        ensures rx { self.new.state.rx_index ≡ self.old.state.rx_index }
        ensures late { is_late self.new.stage ≡ true }
    {
        let Ran {
            number,
            ops: done,
            ..
        } = ran;
        if number == XDP_TX {
            self.stage = Stage::Fill {
                fill: Fill::Producer,
                purpose: Purpose::Back { ops: done },
            };
            return host.read(header(wires.rx(), REQ_PROD), 1);
        }
        let slots = self.work.chain.len() as u32;
        let answer = Reply {
            at: self.state,
            status: status(number),
            kind: Kind::Ran {
                number,
                ops: done,
                slots,
            },
        };
        self.respond(answer, wires, host)
    }
}
