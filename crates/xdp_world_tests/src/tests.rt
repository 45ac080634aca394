//! Worlds that are stepped, run and replayed.

mod deliveries;
mod growth;
mod kind;
mod merges;
mod pages;
mod programs;
mod random_rewrites;
mod rewrites;
mod runs;
mod scripts;
mod second_queue;
mod waits;
