//! Words that threads share.

ghost use Rattle.std.specs.Prelude.{◌≡◌, ◌≤◌, ◌*◌, length};

use std::sync::atomic::AtomicU32;

/// The words of frames that threads share. Contracts see how many frames there are, and nothing of a word: any thread may have
/// written it.
#[derive(Clone, Copy, Drop)]
pub struct SharedWords<'f> {
    pub(crate) count: u32,
    pub(crate) words: &'f [AtomicU32],
    ghost whole: { (count ≤ 8192) × (length words.now ≡ count * 1024) },
}
