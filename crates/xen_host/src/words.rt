//! The words that a host gives.

ghost use Rattle.std.specs.Prelude.{ℕ, ◌<◌, ◌^◌, slice_index};

/// A word that a host in C lends, as it lies in memory: its bytes from the lowest on.
pub type LentWord = [u8; 4];

/// Only proofs use what this says: a byte is below 2^8.
pub(crate) fn are_bytes(bytes: &[u8])
    ensures { (i : ℕ) → slice_index bytes.now i < 2 ^ 8 }
{
    let _bytes = bytes;
}

/// Only proofs use what this says: a word is below 2^32.
pub(crate) fn are_words(words: &[u32])
    ensures { (i : ℕ) → slice_index words.now i < 2 ^ 32 }
{
    let _words = words;
}
