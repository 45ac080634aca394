//! Numbers and names in an object's bytes.
ghost use Rattle.std.specs.Prelude.{◌≡◌, ◌≢◌, ◌+◌, ◌≤◌, ℕ, List, length, ◌↔◌, IsTrue, IfSome, IfNone, All};
ghost use Rattle.bpf_object.specs.Bytes.{half as half_at, word as word_at, long as long_at, IsText, Begins};

/// The number in the two bytes at a place.
#[tactic(auto, unfolding(crate::specs::Bytes::half))]
pub(crate) fn half(bytes: &[u8], at: usize) -> u16
    requires { at + 2 ≤ length bytes.now }
    ensures { result ≡ half_at bytes.now at }
{
    u16::from_le_bytes([bytes[at], bytes[at + 1]])
}

/// The number in the four bytes at a place.
#[tactic(auto, unfolding(crate::specs::Bytes::word))]
pub(crate) fn word(bytes: &[u8], at: usize) -> u32
    requires { at + 4 ≤ length bytes.now }
    ensures { result ≡ word_at bytes.now at }
{
    u32::from(half(bytes, at)) + 65_536 * u32::from(half(bytes, at + 2))
}

/// The number in the eight bytes at a place.
#[tactic(auto, unfolding(crate::specs::Bytes::long))]
pub(crate) fn long(bytes: &[u8], at: usize) -> u64
    requires { at + 8 ≤ length bytes.now }
    ensures { result ≡ long_at bytes.now at }
{
    u64::from(word(bytes, at)) + 4_294_967_296 * u64::from(word(bytes, at + 4))
}

/// Returns whether a table has this name at a place.
pub(crate) fn is_text(table: &[u8], at: usize, name: &[u8]) -> bool
    ensures { IsTrue result ↔ IsText table.now at name.now }
{
    if at >= table.len() || name.len() >= table.len() - at {
        return false;
    }
    let end = at + name.len();
    table[end] == 0 && is_same(&table[at..end], name) && is_plain(name)
}

/// Returns whether a table has these bytes at a place, whatever follows them.
pub(crate) fn begins(table: &[u8], at: usize, text: &[u8]) -> bool
    ensures { IsTrue result ↔ Begins table.now at text.now }
{
    at <= table.len()
        && text.len() <= table.len() - at
        && is_same(&table[at..at + text.len()], text)
}

/// Returns whether two texts of one length are the same, which is tried from their last bytes on. A name has no 0, so one that ends
/// in a table before a 0 is compared no further than to the 0 before that: all places of the table together take no longer than the
/// table.
fn is_same(left: &[u8], right: &[u8]) -> bool
    requires { length left.now ≡ length right.now }
    ensures { IsTrue result ↔ (left.now ≡ right.now) }
{
    let mut rest = left.len();
    while rest > 0 {
        rest -= 1;
        if left[rest] != right[rest] {
            return false;
        }
    }
    true
}

/// Returns whether no byte is 0.
fn is_plain(name: &[u8]) -> bool
    ensures { IsTrue result ↔ All (λ byte. byte ≢ 0) name.now }
{
    name.iter().all(|byte| *byte != 0)
}

/// The name at a place of a table.
pub(crate) fn text(table: &[u8], at: usize) -> Option<&[u8]>
    ensures some { IfSome result (λ name. IsText table.now at name.now) }
    ensures none { IfNone result ((name : List ℕ) → IsText table.now at name → ⊥) }
{
    for end in at..table.len() {
        if table[end] == 0 {
            return Some(&table[at..end]);
        }
    }
    None
}
