//! How a worker waits for its peer.

use crossbeam_utils::Backoff;
use crossbeam_utils::sync::{Parker, Unparker};
use std::sync::Wait;
use std::sync::atomic::{AtomicBool, Ordering};

/// The number of times a worker looks before it sleeps: seven times after ever longer spins, and then giving up its processor.
const LOOKS: u32 = 11;

/// A worker's bell, which its peer rings once there is something for it to do. Sleep and wake-up cost far more than a
/// turn, so the worker first listens for a short while. Only the parker's token counts: `was_rung` just ends the
/// listening early.
#[derive(Drop)]
pub(crate) struct Bell {
    sleeper: Unparker,
    was_rung: AtomicBool,
}

impl Bell {
    pub fn new(sleeper: Unparker) -> Bell {
        Bell {
            sleeper,
            was_rung: AtomicBool::new(false),
        }
    }

    /// The token is there before the flag is, so that who sees the flag doesn't sleep.
    pub fn ring(&self) {
        self.sleeper.unpark();
        self.was_rung.store(true, Ordering::SeqCst);
    }

    /// Returns once the bell was rung since the last wait, or now and then earlier. The parker is the bell's own.
    pub fn wait<R: Wait>(&self, rt: &R, parker: &Parker) {
        let backoff = Backoff::new();
        for _look in 0..LOOKS {
            if self.was_rung.load(Ordering::SeqCst) {
                break;
            }
            backoff.snooze();
        }
        self.was_rung.store(false, Ordering::SeqCst);
        parker.park(rt);
    }
}
