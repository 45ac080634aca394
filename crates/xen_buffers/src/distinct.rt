//! Lists of numbers.

ghost use Rattle.std.specs.Prelude.{◌≡◌, ◌≢◌, ◌<◌, ◌↔◌, ℕ, All, Contains, IsTrue, false, length, slice_index};
ghost use Rattle.xen_buffers.specs.Wired.{AreDistinct};

/// Returns whether `number` stands in the list.
fn has(numbers: &[u32], number: u32) -> bool
    ensures found { IsTrue result → Contains numbers.now number }
    ensures absent { result ≡ false → (k : ℕ) → k < length numbers.now → slice_index numbers.now k ≢ number }
{
    for other in numbers {
        if *other == number {
            return true;
        }
    }
    false
}

/// Returns whether no number stands twice in the list.
pub fn are_distinct(numbers: &[u32]) -> bool
    ensures { IsTrue result ↔ AreDistinct numbers.now }
{
    for (i, number) in numbers.iter().enumerate() {
        if has(&numbers[i + 1..], *number) {
            return false;
        }
    }
    true
}

/// Returns whether each number is below `limit`.
pub fn are_below(numbers: &[u32], limit: u32) -> bool
    ensures { IsTrue result ↔ All (λ number. number < limit) numbers.now }
{
    for number in numbers {
        if *number >= limit {
            return false;
        }
    }
    true
}
