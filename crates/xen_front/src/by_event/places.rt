//! The words of a packet's pages.

ghost use Rattle.std.specs.Prelude.{◌≡◌, ◌<◌, ◌≤◌, ◌+◌, get_or};
ghost use Rattle.xen_front.specs.Slots.{piece_size as piece_size_spec, piece_words as piece_words_spec};
ghost use Rattle.xen_front.specs.Slots.{word_at as word_at_spec};

/// A byte of a packet, 0 past its end.
fn byte_at(bytes: &[u8], at: usize) -> u8
    ensures { result ≡ get_or bytes.now at 0 }
{
    match bytes.get(at) {
        Some(b) => *b,
        None => 0,
    }
}

/// Four bytes of a packet, the low one first.
pub(crate) fn word_at(bytes: &[u8], at: usize) -> u32
    requires { at ≤ 70000 }
    ensures { result ≡ word_at_spec bytes.now at }
{
    u32::from(byte_at(bytes, at))
        + 0x100 * u32::from(byte_at(bytes, at + 1))
        + 0x1_0000 * u32::from(byte_at(bytes, at + 2))
        + 0x100_0000 * u32::from(byte_at(bytes, at + 3))
}

/// The number of bytes in a packet's page `index`.
pub(crate) fn piece_size(length: u32, index: u32) -> u32
    requires { index ≤ 16 }
    ensures value { result ≡ piece_size_spec length index }
    ensures most { result ≤ 4096 }
{
    let left = length.saturating_sub(4096 * index);
    if left <= 4096 { left } else { 4096 }
}

/// The number of words that they take.
pub(crate) fn piece_words(length: u32, index: u32) -> u32
    requires { index ≤ 16 }
    ensures value { result ≡ piece_words_spec length index }
    ensures most { result ≤ 1024 }
{
    (piece_size(length, index) + 3) / 4
}
