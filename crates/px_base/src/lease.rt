//! Leases.

ghost use Rattle.std.specs.Prelude.{◌≡◌, ◌↔◌, ◌-◌, ◌^◌, ◌<◌, IsSome, IfSome};

use std::marker::Model;

/// The number that an effect on a replica carries: a node refuses one below its fence. It is below
/// 2^64 - 1, so that there is always a fence above it.
#[derive(Clone, Copy, Debug, PartialEq, Eq, PartialOrd, Ord)]
pub struct Lease {
    number: u64,
}

impl Model for Lease {
    ghost use Rattle.std.specs.Prelude.{ℕ, ◌-◌, ◌^◌, ◌<◌};

    ghost Value = { ℕ };

    ghost view = { λ l. l.number };

    ghost invariant = { λ l. l.number < 2 ^ 64 - 1 };

    ghost inverse = { λ n. record { number = n } };
}

impl Lease {
    /// The lease of that number, or `None` for 2^64 - 1.
    pub fn new(number: u64) -> Option<Lease>
        ensures made { IsSome result ↔ (number < 2 ^ 64 - 1) }
        ensures value { IfSome result (λ lease. lease ≡ number) }
    {
        if number == u64::MAX {
            return None;
        }
        Some(Lease { number })
    }

    /// Its number.
    pub fn number(self) -> u64
        ensures value { result ≡ self }
        ensures small { self < 2 ^ 64 - 1 }
    {
        self.number
    }
}
