//! One event port.

ghost use Rattle.std.specs.Prelude.{◌≡◌, ◌<◌};
ghost use Rattle.std.specs.Option.{SomeIff};

use std::marker::Model;

/// The number of event ports that a domain has.
pub const PORTS: u32 = 64;

/// The number of an event port, 0 to 63.
#[derive(Clone, Copy, Debug, PartialEq, Eq, Hash)]
pub struct Port {
    number: u32,
}

impl Model for Port {
    ghost use Rattle.std.specs.Prelude.{ℕ, ◌<◌};

    ghost Value = { ℕ };

    ghost view = { λ p. p.number };

    ghost invariant = { λ p. p.number < 64 };

    ghost inverse = { λ n. record { number = n } };
}

impl Port {
    /// The port with this number, if it is below 64.
    pub fn of(number: u32) -> Option<Port>
        ensures { SomeIff result (number < 64) number }
    {
        if number < PORTS {
            Some(Port { number })
        } else {
            None
        }
    }

    /// The port's number.
    pub fn number(&self) -> u32
        ensures number { result ≡ self.now }
        ensures in_range { self.now < 64 }
    {
        self.number
    }
}
