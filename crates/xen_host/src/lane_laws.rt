//! Laws of a turn of several packets under way.

ghost use Rattle.std.specs.Prelude.{ℕ, ◌≡◌, ◌<◌, ◌≤◌, ◌+◌, ◌^◌, ◌++◌, true, List, [], ◌∷◌, None, Some, length, map, min};
ghost use Rattle.xen_steps.specs.Event.{Event, Read};
ghost use Rattle.xen_rx_fill.specs.Places.{tx_word};
ghost use Rattle.xen_turns.specs.Parts.{IsLook};
ghost use Rattle.xen_turns.specs.Several.{IsSeveral, pushed};
ghost use Rattle.xen_turns.specs.Turned.{turned};
ghost use Rattle.xen_turns.specs.Woven.{Made, events_of};
ghost use Rattle.xen_turns.specs.declared.state.State.{State};
ghost use Rattle.xen_turns.specs.declared.wiring.Wiring.{Wiring};
ghost use Rattle.xen_host.specs.Lanes.{AreLanes, EndsPast, LaneAt, ahead_ops, all_held};

/// Slots are asked for in one op, or in two at the ring's end.
pub fn slots_are_read_ahead()
    ensures one { (tx : ℕ) → length (ahead_ops tx 0 4) ≡ 1 }
    ensures two { (tx : ℕ) → length (ahead_ops tx 255 2) ≡ 2 }
{}

/// Turns that are all answered, but for the push, are turns of the table, one after another, whatever event index the one push reads.
pub fn held_turns_are_several()
    ensures answered { (w : Wiring) (s : State) (p m n most event rx : ℕ) (look : List Event) (lanes : List LaneAt) (made : List Made) → s.halt ≡ None →
        IsLook w s.tx_index (look ++ Read (tx_word w.vif 0) p ∷ []) (Some n) →
        AreLanes w s p (look ++ Read (tx_word w.vif 0) p ∷ []) (EndsPast s.tx_index m) lanes rx made → all_held lanes ≡ true →
        0 < length lanes → length lanes ≤ most → min n most ≤ m → event < 2 ^ 32 →
        (after : State) × (after.rx_index ≡ rx) × (after.halt ≡ None) ×
        IsSeveral w s most ((look ++ Read (tx_word w.vif 0) p ∷ []) ++ (events_of made ++ pushed w s.tx_index after.tx_index event)) after
        (map (λ l. turned l.engine.work.answer.kind l.engine.work.packet) lanes) }
{}
