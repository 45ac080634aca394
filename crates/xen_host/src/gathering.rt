//! Taking the slots of a chain that were read before its turn begins.

ghost use Rattle.std.specs.Prelude.{◌≡◌, ◌≢◌, ◌++◌, ◌∷◌, ◌<◌, ◌≤◌, ◌↔◌, [], length, false, true, IsTrue, Ok, OnOk, Some, ℕ};
ghost use Rattle.xdp_program.specs.Tallies.{Went};
ghost use Rattle.xen_netif.specs.Segments.{offered_fragments};
ghost use Rattle.xen_netif.specs.Standing.{standing};
ghost use Rattle.xen_netif.specs.declared.chain.ChainState.TheVariants.{Complete};
ghost use Rattle.xen_turns.specs.Tree.{after_chain};
ghost use Rattle.xen_turns.specs.declared.state.State.{State};
ghost use Rattle.xen_host.specs.Early.{EarlyFrom, at_rx, is_early, is_late};
ghost use Rattle.xen_host.specs.EngineAt.{engine_at};
ghost use Rattle.xen_host.specs.HostLed.{TurnRanLeads};
ghost use Rattle.xen_host.specs.LaneSteps.{HasGathered};
ghost use Rattle.xen_host.specs.LentWords.{lent_words};
ghost use Rattle.xen_host.specs.Offload.{Offload as OffloadView};

use crate::engine::Engine;
use crate::host::Host;
use crate::lane_host::slot_ahead;
use crate::room::Room;
use crate::wires::Wires;
use crate::words::{LentWord, are_words};
use xdp_program::Tallies;
use xen_netif::{ChainFault, ChainState};

/// What slots come to.
pub(crate) enum Gathered {
    /// The chain is whole, with those before this one.
    Whole {
        /// The number of the slot behind it.
        end: usize,
    },
    /// The chain has a fault.
    Broken {
        /// Which.
        fault: ChainFault,
        /// The number of the slot behind the one with the fault.
        end: usize,
    },
    /// The chain wants more.
    Wanting,
}

/// Returns whether the chain wants no more.
#[inline(always)]
fn is_whole(state: ChainState) -> bool
    ensures { IsTrue result ↔ (state ≡ Complete) }
{
    matches!(state, ChainState::Complete)
}

impl Engine {
    /// Takes a slot that the chain wants.
    #[inline(always)]
    fn take_slot(&mut self, slot: [u32; 3]) -> Result<ChainState, ChainFault>
        requires { standing self.old.work.chain ≢ Some (Ok Complete) }
        ensures standing { standing (self.old.work.chain ++ slot ∷ []) ≡ Some result }
        ensures ok { OnOk result (self.new.work.chain ≡ self.old.work.chain ++ slot ∷ []) }
        ensures state { self.new.state ≡ self.old.state }
    {
        self.offload = self.offload_behind(slot);
        self.work.chain.push(slot)
    }

    /// Takes the slots of a chain, of those with these numbers among the ones that were read ahead.
    pub(crate) fn gather(&mut self, words: &[LentWord], from: usize, to: usize) -> Gathered
        requires some { from < to }
        requires few { to ≤ 16 }
        requires inside { 48 ≤ length words.now }
        ensures state { self.new.state ≡ self.old.state }
        ensures gathered { (x : ℕ) → HasGathered (at_rx x self.old.state) (lent_words words.now) from to self.new.work.chain result }
    {
        self.work.chain.clear();
        for i in from..to {
            let slot = slot_ahead(words, i);
            // Only the proof uses what this call ensures: a word is below 2^32.
            are_words(&slot);
            match self.take_slot(slot) {
                Err(fault) => return Gathered::Broken { fault, end: i + 1 },
                Ok(state) => {
                    if is_whole(state) {
                        return Gathered::Whole { end: i + 1 };
                    }
                }
            }
        }
        Gathered::Wanting
    }

    /// After the last slot of a chain.
    #[inline(always)]
    pub(crate) fn after_chain<W: Wires, H: Host, T: Tallies, R: Room>(
        &mut self,
        wires: &W,
        packet: &mut R,
        counters: &mut T,
        host: &mut H,
    )
        requires whole { standing self.old.work.chain ≡ Some (Ok Complete) }
        requires enough { T.serves (W.wiring wires.now).program.now.shapes counters.old }
        requires free { H.is_free host.old }
        ensures led { (offload : OffloadView) × TurnRanLeads H.was_asked H.is_full offload (after_chain (W.wiring wires.now) self.old.state
            self.old.work.chain (offered_fragments (W.wiring wires.now).offers self.old.work.chain)) (engine_at (W.wiring wires.now)
            (R.held packet.new) self.new) (Went (T.did (W.wiring wires.now).program.now.shapes) counters.old counters.new) host.old
            host.new }
        ensures rx { self.new.state.rx_index ≡ self.old.state.rx_index }
        ensures on { is_early self.new.stage ≡ false → is_late self.new.stage ≡ true }
        ensures early { EarlyFrom (λ (s : State). after_chain (W.wiring wires.now) s self.old.work.chain (offered_fragments (W.wiring
            wires.now).offers self.old.work.chain)) self.old.state (engine_at (W.wiring wires.now) (R.held packet.new) self.new) }
    {
        self.offload = self
            .offload
            .cut_into(self.work.chain.segments(wires.offers()));
        self.begin_copy(wires, packet, counters, host)
    }
}
