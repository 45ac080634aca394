//! What a thread steps with.
use crate::view::View;
use atomic_table::Seat;
use std::marker::Model;

/// A seat at the counters. Contracts see its counters' table and shapes,
/// its number, and all that was done by it, in order. It has no bytes.
#[derive(Drop)]
pub struct CounterSeat {
    pub(crate) seat: Seat<(), View>,
}

impl Model for CounterSeat {
    ghost use Rattle.std.specs.Prelude.{◌≡◌, [], length};
    ghost use Rattle.bpf_maps.specs.Seats.{SeatView, seat_view};

    ghost Value = { SeatView };

    ghost view = { λ s. seat_view s.seat.table_id s.seat.me.0 };

    ghost invariant = { λ s. (s.seat.me.1 ≡ []) × (length s.seat.me.0.parts ≡ 1) };
}
