//! The numbers of a document: as they are written, and within their limits.
ghost use Rattle.std.specs.Prelude.{◌≡◌, ◌≤◌, IfOk};
ghost use Rattle.toml.specs.View.{table_view};
ghost use Rattle.xdp_load.specs.Keys.{least, most};
ghost use Rattle.xdp_load.specs.Numbers.{below, limited, limited_numbers, numbers_of};

use crate::key::Key;
use crate::table::number_at;
use toml::Table;

/// The numbers of a document as they are written.
#[derive(Clone, Copy)]
pub struct Numbers {
    pub queues: i64,
    pub ifindex: i64,
    pub start: i64,
}

/// The numbers, where each is a whole number or left out.
pub fn numbers_of(table: &Table) -> Result<Numbers, Key>
    ensures { result ≡ numbers_of (table_view table.now) }
{
    let queues = number_at(table, Key::Queues)?;
    let ifindex = number_at(table, Key::IfIndex)?;
    let start = number_at(table, Key::Start)?;
    Ok(Numbers {
        queues,
        ifindex,
        start,
    })
}

/// The number, where it lies within the limits of its key.
pub fn limited(key: Key, number: i64) -> Result<u32, Key>
    ensures value { result ≡ limited key number }
    ensures within { IfOk result (λ n. (least key ≤ n) × (n ≤ most key)) }
{
    match u32::try_from(number) {
        Ok(number) if key.least() <= number && number <= key.most() => Ok(number),
        _ => Err(key),
    }
}

/// The number, where it is below the other.
pub fn below(key: Key, queues: u32, number: i64) -> Result<u32, Key>
    ensures { result ≡ below key queues number }
{
    let queue = limited(key, number)?;
    if queue < queues { Ok(queue) } else { Err(key) }
}

/// The numbers within their limits.
#[derive(Clone, Copy)]
pub struct Limits {
    pub queues: u32,
    pub ifindex: u32,
    pub start: u32,
}

/// The numbers, where they are within their limits.
pub fn limited_numbers(numbers: Numbers) -> Result<Limits, Key>
    ensures { result ≡ limited_numbers numbers }
{
    let queues = limited(Key::Queues, numbers.queues)?;
    let ifindex = limited(Key::IfIndex, numbers.ifindex)?;
    let start = limited(Key::Start, numbers.start)?;
    Ok(Limits {
        queues,
        ifindex,
        start,
    })
}
