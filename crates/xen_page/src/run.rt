//! The bytes of a run of words.

ghost use Rattle.std.specs.Prelude.{◌≡◌, ◌≤◌, ◌+◌, ◌*◌, ◌++◌, length, take, drop};
ghost use Rattle.std.specs.Int.{w32, to_le_bytes};

/// Writes the bytes of a run's word of this number, the lowest first.
#[inline(always)]
pub(crate) fn put_word(bytes: &mut [u8], number: usize, word: u32)
    requires { 4 * number + 4 ≤ length bytes.old }
    ensures { bytes.new ≡ take (4 * number) bytes.old ++ to_le_bytes w32 word ++ drop (4 * number + 4) bytes.old }
{
    let at = 4 * number;
    let four = word.to_le_bytes();
    bytes[at..at + 4].copy_from_slice(&four);
}

/// The word of this number of a run whose bytes these are.
#[inline(always)]
pub(crate) fn word_at(bytes: &[u8], number: usize) -> u32
    requires { 4 * number + 4 ≤ length bytes.now }
    ensures { to_le_bytes w32 result ≡ take 4 (drop (4 * number) bytes.now) }
{
    match bytes[4 * number..].split_first_chunk::<4>() {
        Some((four, _)) => u32::from_le_bytes(*four),
        None => unreachable!(),
    }
}
