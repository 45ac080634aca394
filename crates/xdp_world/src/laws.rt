//! Laws of unfinished turns. Each is a function that does nothing, and whose contract is the law.
ghost use Rattle.std.specs.Prelude.{◌≡◌, ◌++◌, List, None};
ghost use Rattle.xen_steps.specs.Event.{Event};
ghost use Rattle.xen_steps.specs.Steps.{Steps, Runs};
ghost use Rattle.xen_turns.specs.Turned.{Ending, Turned};
ghost use Rattle.xen_turns.specs.Turns.{IsTurn};
ghost use Rattle.xen_turns.specs.declared.state.State.{State};
ghost use Rattle.xen_turns.specs.declared.wiring.Wiring.{Wiring};
ghost use Rattle.xdp_world.specs.Core.{IsUnfinished};

/// An unfinished turn is the beginning of a turn, and no turn by itself. What a queue has left completes it, by each of its
/// ways to the end and by nothing else.
pub fn unfinished_turns()
    ensures begins { (w : Wiring) (s : State) (front : List Event) (left : Steps Ending) → IsUnfinished w s front left →
        (t : List Event) × (new : State) × (u : Turned) × IsTurn w s (front ++ t) new u }
    ensures proper { (w : Wiring) (s : State) (front : List Event) (left : Steps Ending) → IsUnfinished w s front left →
        s.halt ≡ None → (new : State) (u : Turned) → IsTurn w s front new u → ⊥ }
    ensures completed { (w : Wiring) (s : State) (front : List Event) (left : Steps Ending) → IsUnfinished w s front left →
        (t : List Event) (new : State) (u : Turned) → Runs left t (new, u) → IsTurn w s (front ++ t) new u }
    ensures else_not { (w : Wiring) (s : State) (front : List Event) (left : Steps Ending) → IsUnfinished w s front left →
        (t : List Event) (new : State) (u : Turned) → IsTurn w s (front ++ t) new u → Runs left t (new, u) }
{}
