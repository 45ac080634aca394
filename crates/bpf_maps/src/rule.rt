//! What holds of the counters' table between any two steps.
use crate::view::View;
use atomic_table::TableRule;
use bpf_note::MapShape;

/// The capacities of a table that is made.
#[derive(Drop)]
pub struct Plan {
    pub shapes: Vec<MapShape>,
    /// The numbers that the counters begin with, in the order of their places.
    pub begin: Vec<u64>,
    pub seats: usize,
}

/// One legal history from the beginning leaves the words, and its shares are the lists in the views.
pub struct Rule;

impl TableRule<(), View, Plan> for Rule {
    ghost use Rattle.bpf_maps.specs.Rule.{Kept, first_view};

    ghost holds = { λ plan. Kept plan.shapes.items plan.begin.items plan.seats };

    ghost first = { λ plan. first_view plan.shapes.items plan.begin.items plan.seats };
}
