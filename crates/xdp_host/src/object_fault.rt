//! Why an object has no program here.
use crate::fault::Fault;
use xdp_object::SetupFault;

/// The reason why an object's function is no program here.
#[derive(Clone, Copy, Drop)]
pub enum ObjectFault {
    /// The object has no setup of the function.
    Setup(SetupFault),
    /// The setup's program isn't accepted.
    Program(Fault),
}
