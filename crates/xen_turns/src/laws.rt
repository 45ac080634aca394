//! Laws of turns, of deliveries and of waits.

ghost use Rattle.std.specs.Prelude.{ℕ, ◌≡◌, ◌<◌, ◌≤◌, ◌^◌, ◌++◌, List, [], ◌∷◌, Option, length, true, false};
ghost use Rattle.xen_netif.specs.Segments.{no_offers};
ghost use Rattle.xen_netif.specs.declared.fragment.Fragment.{Fragment};
ghost use Rattle.bpf_verify.specs.Consistent.{IsConsistent, instructions};
ghost use Rattle.xen_netif.specs.Offloads.{has_extra};
ghost use Rattle.xen_netif.specs.declared.offload.RxOffload.{RxOffload};
ghost use Rattle.xen_steps.specs.Answers.{Fits, counter_in, number, word_in};
ghost use Rattle.xen_steps.specs.Drive.{Goes, LedBy, accesses, notices_in, program_events};
ghost use Rattle.xen_ring.specs.Index.{is_due};
ghost use Rattle.xen_steps.specs.Event.{Event};
ghost use Rattle.xen_steps.specs.Places.{add32};
ghost use Rattle.xen_turns.specs.Program.{IsProgram};
ghost use Rattle.xen_steps.specs.Steps.{Runs, Steps, next, want_of};
ghost use Rattle.xen_steps.specs.declared.want.Answer.{Answer};
ghost use Rattle.xen_rx_fill.specs.Touched.{AllAllowed};
ghost use Rattle.xen_turns.specs.Awaited.{IsAwaiting};
ghost use Rattle.xen_turns.specs.Delivered.{IsDelivery};
ghost use Rattle.xen_turns.specs.Deliveries.{whole_delivery};
ghost use Rattle.xen_turns.specs.Tree.{Left, copy, program, run_of, whole_turn};
ghost use Rattle.xen_turns.specs.Turned.{Ending, Turned};
ghost use Rattle.xen_turns.specs.Once.{CoveredDistinct, FragmentsOnce, PostedDistinct, SlotsOnce, TargetsOnce, TurnsOnce};
ghost use Rattle.xen_turns.specs.Parts.{IsCopy};
ghost use Rattle.xen_turns.specs.Turns.{IsTurn};
ghost use Rattle.xen_turns.specs.Waits.{WaitEnds, whole_wait};
ghost use Rattle.xen_turns.specs.declared.delivery.wait.Awaited.{Awaited};
ghost use Rattle.xen_turns.specs.declared.delivery.delivering.Delivery.{Delivery};
ghost use Rattle.xen_turns.specs.declared.state.State.{State};
ghost use Rattle.xen_turns.specs.declared.wiring.Wiring.{Wiring};

/// The runs of a copy and of a program are their parts of a turn's trace.
pub fn parts_are_runs()
    ensures copy { (w : Wiring) (fs : List Fragment) (p : List Event) (out : Option (List ℕ)) → Runs (copy w fs []) p out →
        IsCopy w fs p out }
    ensures copied { (w : Wiring) (fs : List Fragment) (p : List Event) (out : Option (List ℕ)) → IsCopy w fs p out →
        Runs (copy w fs []) p out }
    ensures program { (w : Wiring) (packet : List ℕ) (p : List Event) (out : Left) → Runs (program (run_of w packet) 0) p out →
        IsProgram w packet p out }
    ensures ran { (w : Wiring) (packet : List ℕ) (p : List Event) (out : Left) → IsProgram w packet p out →
        Runs (program (run_of w packet) 0) p out }
{}

/// The ways of a queue between turns to the next turn's end are exactly the turns.
pub fn turns_are_rests()
    ensures turns { (w : Wiring) (s : State) (p : List Event) (new : State) (u : Turned) → Runs (whole_turn w s) p (new, u) →
        IsTurn w s p new u }
    ensures rests { (w : Wiring) (s : State) (p : List Event) (new : State) (u : Turned) → IsTurn w s p new u →
        Runs (whole_turn w s) p (new, u) }
{}

/// A turn makes at most 33,030 accesses (33,026 if nothing is offered), has at most as many program events as its program has
/// instructions, and sends at most two notices. It touches the rings, the table and the frames that were granted to it in that turn,
/// and nothing else.
pub fn turns_are_bounded()
    ensures accesses { (w : Wiring) (s : State) (p : List Event) (new : State) (u : Turned) → IsTurn w s p new u →
        length (accesses p) ≤ 33030 }
    ensures plain_accesses { (w : Wiring) → w.offers ≡ no_offers → (s : State) (p : List Event) (new : State) (u : Turned) → IsTurn w s p new u →
        length (accesses p) ≤ 33026 }
    ensures instructions { (w : Wiring) (s : State) (p : List Event) (new : State) (u : Turned) → IsTurn w s p new u →
        program_events p ≤ instructions w.program.now.code }
    ensures notices { (w : Wiring) (s : State) (p : List Event) (new : State) (u : Turned) → IsTurn w s p new u → notices_in p ≤ 2 }
    ensures touches { (w : Wiring) (s : State) (p : List Event) (new : State) (u : Turned) → IsTurn w s p new u → AllAllowed w.vif p p }
{}

/// A turn reads each word of a slot once, each word of a fragment's entry and each word that the fragment covers; and, if its
/// packet is to be sent back, each word of an rx slot and of its entry. It reads nothing else but the rings' producers and event
/// indices, whatever becomes of it. Slots, frames and references are what these reads were answered.
pub fn words_are_read_once()
    ensures slots { SlotsOnce }
    ensures fragments { FragmentsOnce }
    ensures targets { TargetsOnce }
    ensures posted { PostedDistinct }
    ensures covered { CoveredDistinct }
    ensures turns { TurnsOnce }
{}

/// A queue that is fed an answer has those ways to the turn's end that began with the answered event, without that event.
pub fn feeding_takes_the_rests()
    ensures kept { (s left : Steps Ending) (e : Event) (p : List Event) (end : Ending) → Goes s e left → Runs s (e ∷ p) end →
        Runs left p end }
    ensures only { (s left : Steps Ending) (e : Event) (p : List Event) (end : Ending) → Goes s e left → Runs left p end →
        Runs s (e ∷ p) end }
    ensures fed { (s : Steps Ending) (answer : Answer) → Fits (want_of s) answer → word_in answer < 2 ^ 32 → counter_in answer < 2 ^ 64 →
        (e : Event) × Goes s e (next s (number answer)) }
{}

/// A queue inside a turn has a way to the turn's end, at least one, whatever it was answered so far.
pub fn queues_have_rests()
    ensures { (w : Wiring) (s : State) → IsConsistent w.program.now → w.ifindex < 2 ^ 32 → w.queue < 2 ^ 32 →
        (t : List Event) (rest : Steps Ending) → LedBy (whole_turn w s) t rest →
        (p : List Event) × (new : State) × (u : Turned) × Runs rest p (new, u) × IsTurn w s (t ++ p) new u }
{}

/// The ways of a delivery by events to its end are exactly the deliveries.
pub fn deliveries_are_rests()
    ensures rests { (w : Wiring) (s : State) (o : RxOffload) (packet : List ℕ) (p : List Event) (after : State) (what : Delivery)
        → Runs (whole_delivery w.vif w.accepts s o packet) p (after, what) → IsDelivery w s o packet p after what }
    ensures deliveries { (w : Wiring) (s : State) (o : RxOffload) (packet : List ℕ) (p : List Event) (after : State) (what : Delivery)
        → IsDelivery w s o packet p after what → Runs (whole_delivery w.vif w.accepts s o packet) p (after, what) }
{}

/// A delivery makes at most 16,483 accesses, and four more for an extra; it sends at most one notice. It touches the rings,
/// the table and the frames that were granted to it, and nothing else.
pub fn deliveries_are_bounded()
    ensures accesses { (w : Wiring) (s : State) (o : RxOffload) (packet : List ℕ) (p : List Event) (after : State) (what : Delivery)
        → IsDelivery w s o packet p after what → length (accesses p) ≤ 16487 }
    ensures plain_accesses { (w : Wiring) (s : State) (o : RxOffload) (packet : List ℕ) (p : List Event) (after : State) (what : Delivery)
        → has_extra o ≡ false → IsDelivery w s o packet p after what → length (accesses p) ≤ 16483 }
    ensures notices { (w : Wiring) (s : State) (o : RxOffload) (packet : List ℕ) (p : List Event) (after : State) (what : Delivery)
        → IsDelivery w s o packet p after what → notices_in p ≤ 1 }
    ensures touches { (w : Wiring) (s : State) (o : RxOffload) (packet : List ℕ) (p : List Event) (after : State) (what : Delivery)
        → IsDelivery w s o packet p after what → AllAllowed w.vif p p }
{}

/// The ways of a wait by events to its end are exactly the waits; it ends whatever it is answered, and wants words of the rx
/// ring's page alone.
pub fn waits_are_rests()
    ensures rests { (w : Wiring) (s : State) (wanted : ℕ) (p : List Event) (after : State) (what : Awaited)
        → Runs (whole_wait w.vif.rx s wanted) p (after, what) → IsAwaiting w s wanted p after what }
    ensures waits { (w : Wiring) (s : State) (wanted : ℕ) (p : List Event) (after : State) (what : Awaited)
        → IsAwaiting w s wanted p after what → Runs (whole_wait w.vif.rx s wanted) p (after, what) }
    ensures ends { (frames rx : ℕ) (s : State) (wanted : ℕ) → rx < frames → WaitEnds frames (whole_wait rx s wanted) }
{}

/// If a host awaits `wanted` rx slots, a push from fewer slots to `wanted` or more owes a notice, and one that stays
/// below owes none.
pub fn awaited_slots_are_told()
    ensures told { (x m n wanted : ℕ) → x < 2 ^ 32 → m < wanted → wanted ≤ n → n ≤ 256
        → is_due (add32 x m) (add32 x n) (add32 x wanted) ≡ true }
    ensures below { (x m n wanted : ℕ) → x < 2 ^ 32 → m ≤ n → n < wanted → wanted ≤ 256
        → is_due (add32 x m) (add32 x n) (add32 x wanted) ≡ false }
{}
