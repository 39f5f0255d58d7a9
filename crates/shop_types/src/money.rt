ghost use Rattle.std.specs.Prelude.{◌≡◌};

use std::marker::Model;

/// What a customer owes, in cents. Below zero it is what the branch owes.
#[derive(Clone, Copy, PartialEq, Eq)]
pub struct Cents(i64);

impl Model for Cents {
    ghost use Rattle.std.specs.Prelude.{ℤ};

    ghost Value = { ℤ };

    ghost view = { λ a. a.0 };

    ghost inverse = { λ cents. record { 0 = cents } };
}

impl Cents {
    pub fn new(cents: i64) -> Cents
        ensures { result ≡ cents }
    {
        Cents(cents)
    }

    pub fn get(self) -> i64
        ensures { result ≡ self }
    {
        self.0
    }
}
