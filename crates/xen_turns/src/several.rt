//! Laws of turns of several packets.

ghost use Rattle.std.specs.Prelude.{ℕ, ◌≡◌, ◌<◌, ◌≤◌, ◌+◌, ◌*◌, ◌^◌, ◌++◌, ◌==◌, Bool, List, [], ◌∷◌, length, true, false, if◌then◌else◌};
ghost use Rattle.xen_ring.specs.Index.{is_due};
ghost use Rattle.xen_steps.specs.Drive.{accesses, program_events};
ghost use Rattle.xen_steps.specs.Event.{Event};
ghost use Rattle.xen_steps.specs.Places.{add32};
ghost use Rattle.bpf_verify.specs.Consistent.{instructions};
ghost use Rattle.xen_turns.specs.Several.{IsSeveral};
ghost use Rattle.xen_turns.specs.Woven.{AllBelow, AllUpTo, IsRising, Made, by_turn, events_of, of_turn, turns_in_order};
ghost use Rattle.xen_turns.specs.Turned.{Turned};
ghost use Rattle.xen_turns.specs.Turns.{IsTurn};
ghost use Rattle.xen_turns.specs.declared.state.State.{State};
ghost use Rattle.xen_turns.specs.declared.wiring.Wiring.{Wiring};

/// Of one packet they are exactly the turns of the table.
pub fn one_of_several_is_a_turn()
    ensures one { (w : Wiring) (s : State) (t : List Event) (after : State) (us : List Turned) → IsSeveral w s 1 t after us →
        (u : Turned) × (us ≡ u ∷ []) × IsTurn w s t after u }
    ensures each { (w : Wiring) (s : State) (t : List Event) (after : State) (u : Turned) → s.tx_index < 2 ^ 32 → IsTurn w s t after u →
        IsSeveral w s 1 t after (u ∷ []) }
{}

/// The notice of several pushes in one is due exactly if one of them would owe it, for the same event index.
pub fn notices_are_joined()
    ensures { (t m n event : ℕ) → t < 2 ^ 32 → event < 2 ^ 32 → m + n ≤ 256 →
        is_due t (add32 t (m + n)) event ≡ (if is_due t (add32 t m) event then true else is_due (add32 t m) (add32 t (m + n)) event) }
{}

/// So many packets make as many times the accesses of a turn at most, with as many times the program's instructions.
pub fn several_turns_are_bounded()
    ensures accesses { (w : Wiring) (s : State) (most : ℕ) (t : List Event) (after : State) (us : List Turned) → 0 < most →
        IsSeveral w s most t after us → length (accesses t) ≤ 33030 * most }
    ensures instructions { (w : Wiring) (s : State) (most : ℕ) (t : List Event) (after : State) (us : List Turned) → 0 < most →
        IsSeveral w s most t after us → program_events t ≤ instructions w.program.now.code * most }
{}

/// What is made later comes behind, in the trace, in each turn and in the order.
pub fn made_appends()
    ensures events { (t u : List Made) → events_of (t ++ u) ≡ events_of t ++ events_of u }
    ensures turn { (k : ℕ) (t u : List Made) → of_turn k (t ++ u) ≡ of_turn k t ++ of_turn k u }
    ensures order { (w : Wiring) (t u : List Made) → turns_in_order w (t ++ u) ≡ turns_in_order w t ++ turns_in_order w u }
    ensures below { (n : ℕ) (t u : List Made) → AllBelow n t → AllBelow n u → AllBelow n (t ++ u) }
{}

/// What one turn makes is its own, and of no other.
pub fn one_turn_makes()
    ensures events { (k : ℕ) (es : List Event) → events_of (by_turn k es) ≡ es }
    ensures own { (k : ℕ) (es : List Event) → of_turn k (by_turn k es) ≡ es }
    ensures others { (j k : ℕ) (es : List Event) → (j == k) ≡ false → of_turn k (by_turn j es) ≡ [] }
    ensures below { (n k : ℕ) (es : List Event) → k < n → AllBelow n (by_turn k es) }
    ensures rising { (w : Wiring) (k : ℕ) (es : List Event) → IsRising k (turns_in_order w (by_turn k es)) }
{}

/// Turns that are in order stay so.
pub fn order_appends()
    ensures { (l k : ℕ) (ns ms : List ℕ) → l ≤ k → IsRising l ns → AllUpTo k ns → IsRising k ms → IsRising l (ns ++ ms) }
{}
