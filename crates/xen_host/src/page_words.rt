//! A packet's words, as they go into a page.

ghost use Rattle.std.specs.Prelude.{◌≡◌, ◌<◌, ◌≤◌, ◌+◌, ◌*◌, drop, length, take};
ghost use Rattle.xen_host.specs.Filling.{packet_words};
ghost use Rattle.xen_host.specs.LentWords.{lent_words};

use crate::words::LentWord;
use xen_rx_fill::packet_word;

/// Puts `count` words of a packet, from the word `from` on, in front of the lent ones. The packet has all their bytes.
#[inline(always)]
fn put_whole(bytes: &[u8], from: u32, count: u32, words: &mut [LentWord])
    requires short { length bytes.now ≤ 65535 }
    requires inside { 4 * (from + count) ≤ length bytes.now }
    requires enough { count ≤ length words.old }
    ensures width { length words.new ≡ length words.old }
    ensures rest { drop count (lent_words words.new) ≡ drop count (lent_words words.old) }
    ensures wrote { take count (lent_words words.new) ≡ packet_words bytes.now from count }
{
    let (all, _) = bytes.as_chunks::<4>();
    let from = from as usize;
    let count = count as usize;
    words[..count].copy_from_slice(&all[from..from + count]);
}

/// Puts `count` words of a packet, from the word `from` on, in front of the lent ones. The last may reach past the
/// packet's end.
pub(crate) fn put_words(bytes: &[u8], from: u32, count: u32, words: &mut [LentWord])
    requires short { length bytes.now ≤ 65535 }
    requires some { 0 < count }
    requires inside { 4 * (from + count) ≤ length bytes.now + 3 }
    requires enough { count ≤ length words.old }
    ensures width { length words.new ≡ length words.old }
    ensures rest { drop count (lent_words words.new) ≡ drop count (lent_words words.old) }
    ensures wrote { take count (lent_words words.new) ≡ packet_words bytes.now from count }
{
    let whole = count.min(bytes.len() as u32 / 4 - from);
    put_whole(bytes, from, whole, words);
    if whole < count {
        words[whole as usize] = packet_word(bytes, from + whole).to_le_bytes();
    }
}
