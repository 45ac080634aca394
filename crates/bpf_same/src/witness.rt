//! Witnesses.

/// The slot of the old program that is claimed to match a slot of the new one; and whether the old program stutters there: the new one
/// alone takes the step. It is checked, not trusted.
#[derive(Clone, Copy, Debug, Drop)]
pub struct Witness {
    pub stutters: bool,
    pub at: u32,
}
