//! The pages that a frontend lends: the buffers of both rings with the references that grant them.
//!
//! - `desc`: what a front is made with; `wired`, `distinct`: whether it can be
//! - `wiring`: the part of it that stays
//! - `grant`: the grants of its buffers
#![tactic(auto)]

mod desc;
mod distinct;
mod grant;
mod wired;
mod wiring;

pub use desc::FrontDesc;
pub use grant::{buffer_of, grant_flags, grant_frame};
pub use wiring::{FrontWiring, GrantedPage};
