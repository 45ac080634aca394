//! Why a program is refused, as text: its listing, what is known at the refused slot, and what to write instead.
//!
//! - `explained`: all that is printed of a refused program
//! - `listing`: its slots, in the instructions' text, or their `fields` if that fails
//! - `values`, `stack`: what is known of registers and of the stack
//! - `access`, `span`: the register and the numbers that decide
//! - `advice`: what to write instead
#![tactic(auto)]

mod access;
mod advice;
mod explained;
mod fields;
mod listing;
mod span;
mod stack;
mod values;

pub use advice::advice_for;
pub use explained::{asked_register, explained_text, joined_text, undecoded_text, was_text};
pub use listing::add_listing;
