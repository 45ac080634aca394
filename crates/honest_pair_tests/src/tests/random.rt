//! Random runs: what each copied, sent back and received.
//!
//! At the end of each run the front gets as many steps as its activity may need, and then the back as many as all its turns may: so a
//! notice that was lost on the way would leave a packet uncopied.

use crate::plan::Plan;
use crate::tests::looks::{NOTHING, Seen, look_at};
use crate::tests::programs::{DROP, FIRST_BYTE, PASS, SEND};
use honest_pair::PairEvent;
use std::alloc::{AllocError, Global};

/// Numbers by xorshift.
#[derive(Drop)]
pub(crate) struct Random {
    pub(crate) state: u32,
}

impl Random {
    pub(crate) fn next(&mut self) -> u32 {
        let mut x = self.state;
        x ^= x << 13;
        x ^= x >> 17;
        x ^= x << 5;
        self.state = x;
        x
    }

    /// A number below a limit; 0 if that is 0.
    pub(crate) fn below(&mut self, limit: usize) -> usize {
        if limit == 0 {
            0
        } else {
            self.next() as usize % limit
        }
    }

    /// The size of a packet: most are short, and some have many pieces.
    pub(crate) fn size(&mut self) -> usize {
        let more = match self.below(20) {
            0 => 65_522,
            1 | 2 => 12_000,
            3..=5 => 4_200,
            _ => 60,
        };
        self.below(more).saturating_add(14)
    }

    /// Returns the number of steps that come in a row.
    pub(crate) fn burst(&mut self) -> usize {
        match self.below(12) {
            0 => 3_000,
            1 | 2 => 300,
            3..=5 => 20,
            _ => 1,
        }
    }
}

/// The most events of a send of `size` bytes: five words a piece, the page words, and the push.
fn most_of_send(size: usize) -> usize {
    size / 4 + 6 * (size / 4_096) + 10
}

/// The most events of a post, and of a poll.
const MOST_OF_POST: usize = 7;

const MOST_OF_POLL: usize = 16_951;

/// A run that is made up. In a patient one each activity of the front gets all the steps that it may need before the next begins, so all
/// sends are taken.
#[derive(Drop)]
struct Chooser {
    random: Random,
    plan: Plan,
    patient: bool,
    sends: usize,
    /// The words and slots of all sends, which the back may read.
    words: usize,
}

impl Chooser {
    /// Steps of the front, with steps of the back between them.
    fn mixed(&mut self, front: usize) -> Result<(), AllocError> {
        let mut left = front;
        for _burst in 0..front {
            let burst = self.random.burst().min(left);
            self.plan.front_steps(burst)?;
            let back = self.random.burst();
            self.plan.back_steps(back)?;
            left = left.saturating_sub(burst);
            if left == 0 {
                break;
            }
        }
        Ok(())
    }

    /// The steps after a call whose activity may need `most` of them.
    fn follow(&mut self, most: usize) -> Result<(), AllocError> {
        let count = if self.patient {
            most
        } else {
            self.random.below(most.min(2_000).saturating_mul(2))
        };
        self.mixed(count)
    }

    fn send(&mut self) -> Result<(), AllocError> {
        let size = self.random.size();
        let first = (self.random.next() & 3) as u8;
        let seed = self.random.next();
        self.plan.send(size, first, seed)?;
        self.sends = self.sends.saturating_add(1);
        self.words = self.words.saturating_add(most_of_send(size));
        self.follow(most_of_send(size))
    }

    /// One call of the front and its steps.
    fn call(&mut self) -> Result<(), AllocError> {
        match self.random.below(5) {
            0 | 1 => self.send(),
            2 | 3 => {
                self.plan.add(PairEvent::Post)?;
                self.follow(MOST_OF_POST)
            }
            _ => {
                self.plan.add(PairEvent::Poll)?;
                self.follow(MOST_OF_POLL)
            }
        }
    }

    /// The steps that let both ends finish.
    fn finish(&mut self) -> Result<(), AllocError> {
        self.plan.front_steps(MOST_OF_POLL)?;
        // Each word may be read and written again, and each packet has a program and responses.
        let words = self.words.saturating_mul(2);
        let others = self.sends.saturating_mul(100);
        self.plan
            .back_steps(words.saturating_add(others).saturating_add(100))
    }
}

impl Chooser {
    /// Makes up `calls` calls, and the steps that let both ends finish.
    fn choose(&mut self, calls: usize) -> Result<(), AllocError> {
        for _call in 0..calls {
            self.call()?;
        }
        self.finish()
    }
}

/// Returns what is seen of a run of `calls` random calls. A patient run has to copy all that was sent.
fn random_run(
    alloc: Global,
    slots: &[u64],
    start: u32,
    seed: u32,
    calls: usize,
    patient: bool,
) -> Option<Seen> {
    let mut chooser = Chooser {
        random: Random { state: seed },
        plan: Plan::new(alloc),
        patient,
        sends: 0,
        words: 0,
    };
    if chooser.choose(calls).is_err() {
        return None;
    }
    match look_at(alloc, slots, start, chooser.plan.events(), patient) {
        Some((seen, _)) if !patient || seen.turns == chooser.sends => Some(seen),
        _ => None,
    }
}

/// Runs over all programs and several starts.
fn random_runs(alloc: Global, seeds: [u32; 3], calls: usize, patient: bool) -> Option<Seen> {
    let mut all = NOTHING;
    for seed in seeds {
        for (slots, start) in [
            (PASS, 0),
            (DROP, 0xFFFF_FFFF),
            (SEND, 0xFFFF_FFF0),
            (FIRST_BYTE, 0x7FFF_FFFF),
        ] {
            all = all.and(random_run(alloc, slots, start, seed, calls, patient)?);
        }
    }
    Some(all)
}

#[test]
fn patient_runs_copy_all_that_was_sent(rt: HostRuntime) {
    let seeds = [0x1234_5678, 0x9ABC_DEF1, 0x0F1E_2D3C];
    let seen = random_runs(rt.alloc(), seeds, 40, true);
    assert!(rt;
        matches!(
            seen,
            Some(Seen {
                turns: 101..,
                refused: 1..,
                received: 11..,
                ..
            })
        ),
        "{seen:?}"
    );
}

#[test]
fn hasty_runs_copy_in_order(rt: HostRuntime) {
    let seeds = [0x5555_1111, 0x2468_ACE1, 0x1357_9BDF];
    let seen = random_runs(rt.alloc(), seeds, 60, false);
    assert!(rt;
        matches!(
            seen,
            Some(Seen {
                turns: 101..,
                refused: 1..,
                received: 1..,
                ..
            })
        ),
        "{seen:?}"
    );
}
