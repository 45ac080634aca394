//! What the shipped queue makes over a bus, and what `xen_back`'s queue makes.

mod deliveries;
mod fixtures;
mod lists;
mod pages;
mod seats;
mod turns;
mod waits;
