//! The data of keys, as numbers in network byte order.
ghost use Rattle.std.specs.Prelude.{◌≡◌, ◌-◌, ◌*◌, ◌%◌, ◌^◌, ◌≤◌, length, ◌↔◌, IsTrue, All};
ghost use Rattle.std.specs.Ordering.{nat_cmp};
ghost use Rattle.bpf_lists.specs.Keys.{value, first};
ghost use Rattle.bpf_lists.specs.Order.{lead};

use std::cmp::Ordering;

/// Compares two data of one length.
pub(crate) fn compare(a: &[u8], b: &[u8]) -> Ordering
    requires { length a.now ≡ length b.now }
    ensures { result ≡ nat_cmp (value a.now) (value b.now) }
{
    (&a[..]).cmp(&&b[..])
}

/// The most bytes that the number at the front of data has.
const LEADING: usize = 8;

/// The number of the first eight bytes, or of all if there are fewer.
pub(crate) fn lead(bytes: &[u8]) -> u64
    ensures { result ≡ lead bytes.now }
{
    let mut number = 0;
    for at in 0..bytes.len().min(LEADING) {
        number = number * 256 + u64::from(bytes[at]);
    }
    number
}

/// Returns whether the first `bits` bits of two data of one length are the same.
pub(crate) fn begin_alike(bits: u32, a: &[u8], b: &[u8]) -> bool
    requires same { length a.now ≡ length b.now }
    requires within { bits ≤ 8 * length a.now }
    ensures { IsTrue result ↔ (first bits a.now ≡ first bits b.now) }
{
    let whole = bits as usize / 8;
    if &a[..whole] != &b[..whole] {
        return false;
    }
    let rest = bits % 8;
    rest == 0 || a[whole] >> (8 - rest) == b[whole] >> (8 - rest)
}

/// Returns whether no bit is set beyond the first `bits`.
pub(crate) fn is_plain(bits: u32, bytes: &[u8]) -> bool
    requires { bits ≤ 8 * length bytes.now }
    ensures { IsTrue result ↔ (value bytes.now % 2 ^ (8 * length bytes.now - bits) ≡ 0) }
{
    let whole = bits as usize / 8;
    let rest = bits % 8;
    if rest == 0 {
        return is_zero(&bytes[whole..]);
    }
    bytes[whole] % (1 << (8 - rest)) == 0 && is_zero(&bytes[whole + 1..])
}

fn is_zero(bytes: &[u8]) -> bool
    ensures { IsTrue result ↔ All (λ byte. byte ≡ 0) bytes.now }
{
    bytes.iter().all(|byte| *byte == 0)
}
