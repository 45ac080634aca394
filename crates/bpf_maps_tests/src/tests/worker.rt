//! What each thread of the tests does.
ghost use Rattle.std.specs.Prelude.{◌≡◌, ◌+◌, ◌*◌, sum_by};
ghost use Rattle.bpf_note.specs.Shape.{IsCounter};
ghost use Rattle.bpf_note.specs.History.{added};
ghost use Rattle.bpf_maps.specs.Seats.{IsSeatOf};

use bpf_maps::{CounterSeat, Counters};

/// Adds `delta` to the first counter, `times` times.
pub(super) fn hit(counters: &Counters, mut seat: CounterSeat, delta: u64, times: u32) -> CounterSeat
    requires seat { IsSeatOf counters.now seat }
    requires place { IsCounter counters.now.shapes 0 0 0 }
    ensures own { IsSeatOf counters.entry.now result }
    ensures number { result.number ≡ seat.number }
    ensures sum { sum_by (added 0 0 0) result.ops ≡ sum_by (added 0 0 0) seat.ops + times * delta }
{
    for _time in 0..times {
        counters.add(&mut seat, 0, 0, 0, delta);
    }
    seat
}
