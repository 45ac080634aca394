//! Waiting for rx slots.

ghost use Rattle.std.specs.Prelude.{◌≡◌, ◌<◌, None, Option};
ghost use Rattle.xen_turns.specs.Waits.{wait_end};

use crate::decisions::halted;
use crate::state::State;
use crate::turn::Halt;

/// The answer to a host that waits for rx slots.
#[derive(Clone, Copy, Debug, PartialEq, Eq)]
pub enum Awaited {
    /// Enough are posted by now, and no notice need come for them.
    Posted,
    /// Fewer are posted. The frontend sends a notice as soon as it has posted enough.
    Waiting,
    /// The queue has halted, and stays so.
    Halted { cause: Halt },
}

/// The answer by how many slots the producer shows: `None` if it shows more than the ring has.
pub fn wait_answer(state: &State, wanted: u32, shown: Option<u32>) -> (State, Awaited)
    ensures { (result.0, result.1) ≡ wait_end state.now wanted shown }
{
    match shown {
        None => {
            let cause = Halt::RxProducer;
            (halted(state, cause), Awaited::Halted { cause })
        }
        Some(slots) => {
            if slots < wanted {
                (*state, Awaited::Waiting)
            } else {
                (*state, Awaited::Posted)
            }
        }
    }
}
