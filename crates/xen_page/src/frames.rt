//! Pages of shared words.

ghost use Rattle.std.specs.Prelude.{◌≡◌, ◌≤◌, ◌*◌, length, IfOk};

use crate::place::{Place, WORDS};
use std::alloc::{AllocError, Global};
use std::marker::Model;
use std::sync::atomic::AtomicU32;

/// Frames of 1,024 words each. Contracts see the number of frames, and nothing of a word: any thread may
/// have written it.
#[derive(Drop)]
pub struct Frames {
    count: u32,
    words: Vec<AtomicU32>,
}

impl Model for Frames {
    ghost use Rattle.std.specs.Prelude.{◌≡◌, ◌≤◌, ◌*◌, ℕ, vec_len};

    ghost Value = { ℕ };

    ghost view = { λ f. f.count };

    ghost invariant = { λ f. (f.count ≤ 8192) × (vec_len f.words ≡ f.count * 1024) };
}

impl Frames {
    /// One frame per owner, all words 0.
    pub fn make(alloc: Global, owners: &[u16]) -> Result<Frames, AllocError>
        requires { length owners.now ≤ 8192 }
        ensures { IfOk result (λ frames. frames ≡ length owners.now) }
    {
        let total = owners.len() * WORDS as usize;
        let mut words = Vec::with_capacity(alloc, total)?;
        for _word in 0..total {
            words.push_reserved(AtomicU32::new(0));
        }
        Ok(Frames {
            count: owners.len() as u32,
            words,
        })
    }

    /// The number of frames.
    pub fn count(&self) -> u32
        ensures { result ≡ self.now }
    {
        self.count
    }

    /// The words of all frames, one frame after another.
    pub(crate) fn words(&self) -> &[AtomicU32]
        ensures count { self.now ≤ 8192 }
        ensures words { length result.now ≡ self.now * 1024 }
    {
        self.words.as_slice()
    }
}
