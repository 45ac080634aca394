//! Whether an accepted program has the runs of another one, which need not be accepted.
//!
//! - `same`: the comparison
//! - `witness`: the slot of the old program that is claimed to match a slot of the new one
//! - `findings`: notes and a relation for each slot (`find`, `found`), as instructions leave them (`sharper`, `shift`, `signed`);
//!   `simulation`: whether the old program simulates an instruction (`at_slot`, `jump`); `induction`: whether the relations hold at the start
//!   and each instruction is simulated
//! - `relation`: the old program's registers, as a `linear_form` of the new one's terms: at the `start`, `after` a `step`, where ways
//!   `meet`; `room`: forms that are addresses in the packet; `bound`: the ranges of registers; `shifted`: what they hold in their upper
//!   halves; `mask`: what a mask leaves; `preserve`: whether a step preserves the relations, `address`: of rooms
//! - `caught`: what the old program does alone, after what a step preserves (`prune`)
//! - `copied`: whether both programs do the same; `access`: what a copied access may touch
//! - `fuse`: the old program with its counts (a load, additions and a store of one counter) made additions; `fused`: whether it is the
//!   same by counts: what is known inside a `count`, and which registers are `live` after it
//! - `obstacle`: where a comparison stops
//! - `renumbered`: whether it is the old one but for the numbers of its slots
//! - `decide`: what decides a conditional jump, by the `range` that a register lies in or a `room`; `way`: what is known on each way of
//!   one; `equal`: whether two instructions are one
//! - `laws`: what holds of programs with the same runs
#![tactic(auto)]

mod access;
mod address;
mod after;
mod at_slot;
mod bound;
mod caught;
mod content;
mod copied;
mod count;
mod decide;
mod equal;
mod find;
mod findings;
mod found;
mod found_content;
mod fuse;
mod fused;
mod induction;
mod jump;
mod laws;
mod linear_form;
mod live;
mod mask;
mod meet;
mod obstacle;
mod preserve;
mod prune;
mod range;
mod relation;
mod renumbered;
mod room;
mod same;
mod sharper;
mod shift;
mod shifted;
mod signed;
mod simulation;
mod start;
mod step;
mod way;
mod witness;

pub use laws::{same_alone, same_both_ways, same_by_counts_both_ways};
pub use obstacle::{Obstacle, ObstacleKind};
pub use same::{Comparison, compare};
pub use witness::Witness;
