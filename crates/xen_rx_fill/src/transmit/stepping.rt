//! A transmit's calls, one event at a time.

ghost use Rattle.std.specs.Prelude.{List, ℕ, ◌≡◌, ◌≤◌, length, false, IsTrue};
ghost use Rattle.xen_netif.specs.declared.offload.RxOffload.{RxOffload};
ghost use Rattle.xen_steps.specs.Steps.{asks, next_by, want_of};
ghost use Rattle.xen_rx_fill.specs.Going.{is_going};
ghost use Rattle.xen_rx_fill.specs.Rest.{rest_after, rest_of};
ghost use Rattle.xen_rx_fill.specs.Transmit.{transmit};
ghost use Rattle.xen_rx_fill.specs.declared.vif.Vif.{Vif as VifView};

use crate::by_event::feeding::phase_fed;
use crate::by_event::phase::{Phase, TransmitOutcome};
use crate::by_event::wanting::phase_want;
use crate::packet::RxPacket;
use crate::transmit::{Progress, Transmit};
use crate::vif::Vif;
use xen_steps::Want;

impl Transmit {
    /// The transmit of any packet, over any vif and from any rx index on: those that its calls are given.
    pub fn begin() -> Transmit
        ensures { (vif : VifView) (rx_index : ℕ) (o : RxOffload) (packet : List ℕ) →
            rest_of vif rx_index o packet result.phase ≡ transmit vif rx_index o packet }
    {
        Transmit { phase: Phase::Look }
    }

    /// Returns what the transmit wants next. Vif, index and packet are the same at each call.
    pub fn want(&self, vif: &Vif, rx_index: u32, packet: &RxPacket) -> Want
        requires { length packet.now.bytes.now ≤ 65535 }
        ensures want { result ≡ want_of (rest_of vif.now rx_index packet.now.offload packet.now.bytes.now self.now.phase) }
        ensures asks { IsTrue (asks (rest_of vif.now rx_index packet.now.offload packet.now.bytes.now self.now.phase)) }
    {
        phase_want(vif, rx_index, packet, &self.phase)
    }

    /// The transmit after the event that it wanted, with the word that was read, if one was.
    pub fn feed(self, vif: &Vif, rx_index: u32, packet: &RxPacket, word: u32) -> Progress
        requires { length packet.now.bytes.now ≤ 65535 }
        ensures rest { (number : ℕ) → rest_after vif.now rx_index packet.now.offload packet.now.bytes.now result
            ≡ next_by (rest_of vif.now rx_index packet.now.offload packet.now.bytes.now self.phase) word number }
        ensures asked { IsTrue (asks (rest_of vif.now rx_index packet.now.offload packet.now.bytes.now self.phase)) }
    {
        let Transmit { phase } = self;
        let next = phase_fed(vif, rx_index, packet, phase, word);
        settled(next)
    }
}

fn is_going(phase: &Phase) -> bool
    ensures { result ≡ is_going phase.now }
{
    match phase {
        Phase::Over(_) => false,
        _ => true,
    }
}

fn settled(phase: Phase) -> Progress
    ensures { (v : VifView) (x : ℕ) (o : RxOffload) (packet : List ℕ) → rest_after v x o packet result ≡ rest_of v x o packet phase }
{
    if is_going(&phase) {
        Progress::On(Transmit { phase })
    } else {
        over(phase)
    }
}

fn over(phase: Phase) -> Progress
    requires { is_going phase ≡ false }
    ensures { (v : VifView) (x : ℕ) (o : RxOffload) (packet : List ℕ) → rest_after v x o packet result ≡ rest_of v x o packet phase }
{
    match phase {
        Phase::Over(outcome) => Progress::Over(outcome),
        _ => unreachable!(),
    }
}
