//! Laws of transmits.

ghost use Rattle.std.specs.Prelude.{ℕ, ◌≡◌, ◌≤◌, List, false, length};
ghost use Rattle.xen_steps.specs.Drive.{Any, Bounded, IsPageWant, accesses};
ghost use Rattle.xen_steps.specs.Event.{Event};
ghost use Rattle.xen_steps.specs.Finish.{Ends};
ghost use Rattle.xen_steps.specs.Steps.{Runs};
ghost use Rattle.xen_netif.specs.Offloads.{has_extra};
ghost use Rattle.xen_netif.specs.declared.offload.RxOffload.{RxOffload};
ghost use Rattle.xen_rx_fill.specs.Bytes.{SentBytes};
ghost use Rattle.xen_rx_fill.specs.Sending.{IsTransmit};
ghost use Rattle.xen_rx_fill.specs.Touched.{AllAllowed};
ghost use Rattle.xen_rx_fill.specs.Transmit.{transmit};
ghost use Rattle.xen_rx_fill.specs.Whole.{PlainBuffers, PlainResponses, PlainSlots};
ghost use Rattle.xen_rx_fill.specs.Wired.{IsWired};
ghost use Rattle.xen_rx_fill.specs.declared.by_event.phase.TransmitOutcome.{TransmitOutcome};
ghost use Rattle.xen_rx_fill.specs.declared.vif.Vif.{Vif};

/// A transmit's traces are those that [`Transmit`](crate::Transmit) can have, and no others.
pub fn transmits_are_runs()
    ensures runs { (w : Vif) (x : ℕ) (o : RxOffload) (packet : List ℕ) (p : List Event) (out : TransmitOutcome) → Runs (transmit w x o packet) p out →
        IsTransmit w x o packet p out }
    ensures transmits { (w : Vif) (x : ℕ) (o : RxOffload) (packet : List ℕ) (p : List Event) (out : TransmitOutcome) → IsTransmit w x o packet p out →
        Runs (transmit w x o packet) p out }
{}

/// A transmit of a packet of at most 65,535 bytes makes at most 16,483 accesses, and four more for an extra. It touches the
/// rings, the table and the frames that were granted to it, and nothing else.
pub fn transmits_are_bounded()
    ensures accesses { (w : Vif) (x : ℕ) (o : RxOffload) (packet : List ℕ) (p : List Event) (out : TransmitOutcome) → length packet ≤ 65535 →
        IsTransmit w x o packet p out → length (accesses p) ≤ 16487 }
    ensures plain_accesses { (w : Vif) (x : ℕ) (o : RxOffload) (packet : List ℕ) (p : List Event) (out : TransmitOutcome) →
        has_extra o ≡ false → length packet ≤ 65535 → IsTransmit w x o packet p out → length (accesses p) ≤ 16483 }
    ensures touches { (w : Vif) (x : ℕ) (o : RxOffload) (packet : List ℕ) (p : List Event) (out : TransmitOutcome) → IsTransmit w x o packet p out →
        AllAllowed w p p }
{}

/// A transmit comes to an end, whatever it is answered, and each place that it wants lies within the frames.
pub fn transmits_end()
    ensures ends { (w : Vif) (x : ℕ) (o : RxOffload) (packet : List ℕ) → Ends Any (transmit w x o packet) }
    ensures within { (w : Vif) (x : ℕ) (o : RxOffload) (packet : List ℕ) → IsWired w →
        Bounded (IsPageWant (length w.owners.now)) Any (transmit w x o packet) 263684 }
{}

/// The words that a transmit writes into the posted buffers are the packet's bytes, each word's lowest first, and then
/// zeros.
pub fn sent_words_are_the_packet()
    ensures { SentBytes }
{}

/// A packet that leaves the frontend nothing takes a slot for each page, and its responses say nothing of offloads.
pub fn whole_packets_are_plain()
    ensures slots { PlainSlots }
    ensures buffers { PlainBuffers }
    ensures responses { PlainResponses }
{}
