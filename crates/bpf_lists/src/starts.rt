//! Where a search begins: a guess by the number at the front of data. No clause rests on it, since a search may begin anywhere.
ghost use Rattle.std.specs.Prelude.{◌≤◌};
ghost use Rattle.bpf_lists.specs.Order.{AreLeads};

use crate::keys::MOST_ROWS;
use crate::order::Order;
use std::alloc::{AllocError, Global};

/// For each range of numbers the first place whose number is in it or above it.
#[derive(Drop)]
pub(crate) struct Starts {
    places: Vec<u32>,
    /// The number of places.
    count: u32,
    /// The number with which the first range begins.
    least: u64,
    /// The number of bits that the numbers of a range differ in.
    shift: u32,
}

/// By how many bits numbers up to `most` have to be shifted, so that they are `count` at most.
fn shift_to(most: u64, count: u64) -> u32 {
    for shift in 0..u64::BITS {
        if most >> shift <= count {
            return shift;
        }
    }
    u64::BITS
}

impl Starts {
    /// Ranges for these numbers, about as many as there are places.
    pub(crate) fn make(alloc: Global, order: &Order, leads: &[u64]) -> Result<Starts, AllocError>
        requires { AreLeads order.now leads.now }
    {
        let count = order.len();
        let least = *leads.first().unwrap_or(&0);
        let most = *leads.last().unwrap_or(&0);
        let mut starts = Starts {
            places: Vec::with_capacity(alloc, count + 1)?,
            count: count as u32,
            least,
            shift: shift_to(most.saturating_sub(least), count as u64),
        };
        for place in 0..count {
            let range = starts.range(leads[place]);
            for _empty in starts.places.len()..range + 1 {
                starts.places.push(place as u32)?;
            }
        }
        Ok(starts)
    }

    /// The range of a number.
    fn range(&self, lead: u64) -> usize
        ensures { result ≤ 65536 }
    {
        let past = lead.saturating_sub(self.least);
        past.wrapping_shr(self.shift).min(MOST_ROWS as u64) as usize
    }

    /// The first place of a range.
    fn first(&self, range: usize) -> usize {
        *self.places.get(range).unwrap_or(&self.count) as usize
    }

    /// The last place below the range of a number, and the first above it.
    pub(crate) fn around(&self, lead: u64) -> (usize, usize) {
        let range = self.range(lead);
        (self.first(range).saturating_sub(1), self.first(range + 1))
    }
}
