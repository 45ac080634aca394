//! What a back passes before each turn.
ghost use Rattle.std.specs.Prelude.{◌≤◌};

/// Is passed before each turn of each back, and may hold it.
pub trait Gate {
    /// Queue number `queue` is about to begin its turn number `call`, counted from 1.
    fn pass(&self, queue: usize, call: u32)
        requires { 1 ≤ call };
}

/// Holds nobody.
#[derive(Drop)]
pub struct Open;

impl Gate for Open {
    fn pass(&self, _queue: usize, _call: u32) {}
}
