ghost use Rattle.std.specs.Prelude.{◌≡◌, ◌≤◌};
ghost use Rattle.shop_types.specs.Numbers.{number_within};

use std::marker::Model;

/// A whole number from LOW to HIGH.
#[derive(Clone, Copy, PartialEq, Eq)]
pub struct Bounded<const LOW: u32, const HIGH: u32>(u32);

/// What a rental of a film costs, in cents.
pub type Rate = Bounded<0, 9_999>;

/// What a payment is of, in cents.
pub type Amount = Bounded<0, 99_999>;

/// How many days a film may be kept.
pub type Period = Bounded<1, 255>;

/// How long a film is, in minutes.
pub type Minutes = Bounded<1, 65_535>;

impl<const LOW: u32, const HIGH: u32> Model for Bounded<LOW, HIGH> {
    ghost use Rattle.std.specs.Prelude.{ℕ, ◌≤◌};

    ghost Value = { ℕ };

    ghost view = { λ a. a.0 };

    ghost invariant = { λ a. (LOW ≤ a.0) × (a.0 ≤ HIGH) };

    ghost inverse = { λ number. record { 0 = number } };
}

impl<const LOW: u32, const HIGH: u32> Bounded<LOW, HIGH> {
    /// Returns the number, if it is in range.
    pub fn new(number: u32) -> Option<Bounded<LOW, HIGH>>
        ensures { result ≡ number_within LOW HIGH number }
    {
        if LOW <= number && number <= HIGH {
            Some(Bounded(number))
        } else {
            None
        }
    }

    pub fn get(self) -> u32
        ensures value { result ≡ self.entry }
        ensures low { LOW ≤ result }
        ensures high { result ≤ HIGH }
    {
        self.0
    }
}
