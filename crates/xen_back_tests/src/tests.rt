//! Turns over a bus that answers from a list, and the same turns by hand.

mod awaits;
mod bounds;
mod chains;
mod copies;
mod delivered;
mod deliveries;
mod driving;
mod fixtures;
mod kind;
mod later_turns;
mod lists;
mod offloads;
mod programs;
mod resumed;
mod segments;
mod sending;
mod slots;
mod transmits;
